// The capture listing, for C: of a whole capture, and as it comes in pieces.
ghost use Rattle.std.specs.Prelude.{◌≡◌, [], ◌∷◌, length};
ghost use Rattle.answer.specs.Answer.{on_accepted, in_room, out_after};
ghost use Rattle.answer.specs.Packed.{packed, field};
ghost use Rattle.listing.specs.Text.{listing};
ghost use Rattle.listing.specs.Pieces.{piece, finish, printed_by, state_after};

// Bytes written (32).
pub fn capture_listing(bytes: &[u8], out: &mut [u8]) -> u64
    ensures value { result ≡ packed (on_accepted (λ b. field 32 (length b) ∷ []) (in_room (length out.old) (listing bytes.now))) }
    ensures out_after { out.new ≡ out_after (in_room (length out.old) (listing bytes.now)) out.old }
{
    answer::pack_written(listing::write(bytes, out))
}

// Bytes written (32).
pub fn capture_piece(state: &mut [u8], bytes: &[u8], out: &mut [u8]) -> u64
    ensures value { result ≡ packed (on_accepted (λ b. field 32 (length b) ∷ []) (printed_by (piece (length out.old) state.old bytes.now))) }
    ensures out_after { out.new ≡ out_after (printed_by (piece (length out.old) state.old bytes.now)) out.old }
    ensures state_after { state.new ≡ state_after (piece (length out.old) state.old bytes.now) state.old }
{
    answer::pack_written(listing::pieces::piece(state, bytes, out))
}

// Bytes written (32).
pub fn capture_finish(state: &mut [u8], out: &mut [u8]) -> u64
    ensures value { result ≡ packed (on_accepted (λ b. field 32 (length b) ∷ []) (printed_by (finish (length out.old) state.old))) }
    ensures out_after { out.new ≡ out_after (printed_by (finish (length out.old) state.old)) out.old }
    ensures state_after { state.new ≡ state_after (finish (length out.old) state.old) state.old }
{
    answer::pack_written(listing::pieces::finish(state, out))
}
