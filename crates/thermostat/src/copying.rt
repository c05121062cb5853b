// Bytes copied into lent memory.
ghost use Rattle.std.specs.Prelude.{◌≡◌, ◌+◌, ◌≤◌, length};
ghost use Rattle.std.proofs.Math.Seq.{paste};

// Copies bytes into a slice, from a place on. `copy_from_slice` would call memmove, which no host has to have; of what an adapter of
// `iter_mut` wrote no clause knows.
pub(crate) fn copy(to: &mut [u8], from: usize, bytes: &[u8])
    requires { from + length bytes.now ≤ length to.old }
    ensures { to.new ≡ paste to.old from bytes.now (length bytes.now) }
{
    for (i, &b) in bytes.iter().enumerate() {
        to[from + i] = b;
    }
}
