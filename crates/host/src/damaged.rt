// Damaged Omni-Link frames, for C.
ghost use Rattle.std.specs.Prelude.{◌≡◌, [], ◌∷◌, length};
ghost use Rattle.answer.specs.Answer.{on_accepted, out_after};
ghost use Rattle.answer.specs.Packed.{packed, word};
ghost use Rattle.mending.specs.Mending.{Mended, mend_in_room};

use crate::packing::{Fields, pack};
use mending::FrameMended;

impl Fields for FrameMended {
    ghost fields = { λ m. word m.place ∷ word m.count ∷ [] };

    fn pack(self) -> u64 {
        answer::pack([self.place, self.count])
    }
}

// Place (16), bytes written (16).
pub fn frame_mend(bytes: &[u8], out: &mut [u8]) -> u64
    ensures value { result ≡ packed (on_accepted (λ m. word m.place ∷ word (length m.frame) ∷ []) (mend_in_room (length out.old) bytes.now)) }
    ensures out_after { out.new ≡ out_after (on_accepted (λ (m : Mended). m.frame) (mend_in_room (length out.old) bytes.now)) out.old }
{
    pack(mending::mend(bytes, out))
}
