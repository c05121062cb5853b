// Bytes copied into lent memory.
ghost use Rattle.std.specs.Prelude.{◌≡◌, ◌++◌, length, take, drop};

// Copies bytes to the start of a slice, as many as it has room for.
pub fn copy(from: &[u8], to: &mut [u8])
    ensures { to.new ≡ take (length to.old) from.now ++ drop (length from.now) to.old }
{
    let n = from.len().min(to.len());
    // By an index, as of what a `zip` over `iter_mut` writes a proof knows nothing.
    for i in 0..n {
        to[i] = from[i];
    }
}
