// The login door, for C.
ghost use Rattle.std.specs.Prelude.{◌≡◌};
ghost use Rattle.answer.specs.Answer.{on_accepted};
ghost use Rattle.answer.specs.Packed.{packed};
ghost use Rattle.door.specs.Door.{step, reply_by, state_after, reply_fields};

use crate::packing::{Fields, pack};
use door::Reply;

impl Fields for Reply {
    ghost fields = { reply_fields };

    fn pack(self) -> u64 {
        match self {
            Reply::Acknowledge => answer::pack([0x05u8]),
            Reply::NegativeAcknowledge => answer::pack([0x06u8]),
            Reply::PassedOn => answer::pack([0u8]),
        }
    }
}

// Answer (8): 05, 06, or 0 where the message is passed on.
pub fn login_door(secret: &[u8], state: &mut [u8], seconds: u32, kind: u8, data: &[u8]) -> u64
    ensures value { result ≡ packed (on_accepted reply_fields (reply_by (step secret.now state.old seconds kind «data».now))) }
    ensures state_after { state.new ≡ state_after (step secret.now state.old seconds kind «data».now) state.old }
{
    pack(door::step(secret, state, seconds, kind, data))
}
