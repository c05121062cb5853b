// Omni-Link frames, for C.
ghost use Rattle.std.specs.Prelude.{◌≡◌, [], ◌∷◌, length};
ghost use Rattle.answer.specs.Answer.{on_accepted, in_room, out_after};
ghost use Rattle.answer.specs.Packed.{packed, byte, word};
ghost use Rattle.link.specs.Frame.{read_frame, write_frame};

use crate::packing::{Fields, pack};
use link::frame::Header;

impl Fields for Header {
    ghost fields = { λ h. byte h.kind ∷ byte h.count ∷ [] };

    fn pack(self) -> u64 {
        answer::pack([self.kind, self.count])
    }
}

// Type (8), count of data bytes (8).
pub fn omnilink_frame_read(bytes: &[u8]) -> u64
    ensures { result ≡ packed (on_accepted (λ f. byte f.kind ∷ byte (length f.bytes) ∷ []) (read_frame bytes.now)) }
{
    pack(link::frame::read(bytes))
}

// Bytes written (16).
pub fn omnilink_frame_write(kind: u8, data: &[u8], out: &mut [u8]) -> u64
    ensures value { result ≡ packed (on_accepted (λ b. word (length b) ∷ []) (in_room (length out.old) (write_frame kind «data».now))) }
    ensures out_after { out.new ≡ out_after (in_room (length out.old) (write_frame kind «data».now)) out.old }
{
    answer::pack_written(link::frame::write(kind, data, out))
}
