// Reading and writing for C: each answer is one packed number, and no typed message is made on the way.
ghost use Rattle.std.specs.Prelude.{◌≡◌, [], ◌∷◌, length};
ghost use Rattle.answer.specs.Answer.{on_accepted, in_room, out_after, outcome_of};
ghost use Rattle.answer.specs.Packed.{packed, byte, word};
ghost use Rattle.message.specs.Message.{read_message, write_message, counted};
ghost use Rattle.message.specs.Fields.{message_fields};

use crate::{check, message};
use answer::Refusal;

// The type of a whole message, and how many items it has.
fn kind_and_items(bytes: &[u8]) -> Result<(u8, u8), Refusal>
    ensures { on_accepted (λ p. byte p.0 ∷ byte p.1 ∷ []) (outcome_of result) ≡ on_accepted (λ m. message_fields (counted m)) (read_message bytes.now) }
{
    let h = link::frame::read(bytes)?;
    let data = link::frame::data(bytes, h.count);
    // In a branch of its own, a type without data is read with no call.
    if check::is_plain(h.kind) {
        check::plain(data)?;
        return Ok((h.kind, 0));
    }
    check::check(h.kind, data)?;
    Ok((h.kind, message::items_in(h.kind, h.count)))
}

// Reads a byte string as a whole message and makes none of it: packed, its type and the count of its items.
pub fn read_packed(bytes: &[u8]) -> u64
    ensures { result ≡ packed (on_accepted (λ m. message_fields (counted m)) (read_message bytes.now)) }
{
    match kind_and_items(bytes) {
        Ok((kind, items)) => answer::pack([kind, items]),
        Err(r) => answer::pack_refusal(r),
    }
}

// Writes the message of a type and data bytes, as `message::write` does: 6, 7, 8, then 9; packed, the count of bytes written.
pub fn write_packed(kind: u8, data: &[u8], out: &mut [u8]) -> u64
    ensures value { result ≡ packed (on_accepted (λ b. word (length b) ∷ []) (in_room (length out.old) (write_message kind «data».now))) }
    ensures out_after { out.new ≡ out_after (in_room (length out.old) (write_message kind «data».now)) out.old }
{
    answer::pack_written(message::write(kind, data, out))
}
