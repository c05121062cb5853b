// Omni-Link messages, for C.
ghost use Rattle.std.specs.Prelude.{◌≡◌, [], ◌∷◌, length};
ghost use Rattle.answer.specs.Answer.{on_accepted, in_room, out_after};
ghost use Rattle.answer.specs.Packed.{packed, word};
ghost use Rattle.message.specs.Item.{zone_item, event_item, text_item, log_item, command_item};
ghost use Rattle.message.specs.Message.{counted, read_message, write_message};
ghost use Rattle.message.specs.Fields.{message_fields, zone_fields, word_fields, text_fields, command_fields};

use crate::packing::{Fields, pack};
use message::lists::{TextMessage, Zone};

impl Fields for Zone {
    ghost fields = { zone_fields };

    fn pack(self) -> u64 {
        answer::pack([
            self.condition as u8,
            self.latched_alarm as u8,
            self.arming as u8,
            self.unacknowledged_trouble as u8,
            self.loop_reading,
        ])
    }
}

// An event, or a field of a log entry.
impl Fields for u16 {
    ghost fields = { word_fields };

    fn pack(self) -> u64 {
        answer::pack([self])
    }
}

impl Fields for TextMessage {
    ghost fields = { text_fields };

    fn pack(self) -> u64 {
        answer::pack([self.displayed as u8, self.not_acknowledged as u8])
    }
}

// Type (8), count of items (8).
pub fn omnilink_message_read(bytes: &[u8]) -> u64
    ensures { result ≡ packed (on_accepted (λ m. message_fields (counted m)) (read_message bytes.now)) }
{
    message::packed::read_packed(bytes)
}

// Bytes written (16).
pub fn omnilink_message_write(kind: u8, data: &[u8], out: &mut [u8]) -> u64
    ensures value { result ≡ packed (on_accepted (λ b. word (length b) ∷ []) (in_room (length out.old) (write_message kind «data».now))) }
    ensures out_after { out.new ≡ out_after (in_room (length out.old) (write_message kind «data».now)) out.old }
{
    message::packed::write_packed(kind, data, out)
}

// Condition (8), latched alarm (8), arming (8), unacknowledged trouble (8), loop reading (8) of zone i.
pub fn omnilink_zone(bytes: &[u8], i: usize) -> u64
    ensures { result ≡ packed (on_accepted zone_fields (zone_item i bytes.now)) }
{
    pack(message::item::zone(bytes, i))
}

// Event i (16).
pub fn omnilink_event(bytes: &[u8], i: usize) -> u64
    ensures { result ≡ packed (on_accepted word_fields (event_item i bytes.now)) }
{
    pack(message::item::event(bytes, i))
}

// Displayed (8), not acknowledged (8) of text message i.
pub fn omnilink_text_message(bytes: &[u8], i: usize) -> u64
    ensures { result ≡ packed (on_accepted text_fields (text_item i bytes.now)) }
{
    pack(message::item::text_message(bytes, i))
}

// Command (8), unit of duration (8), count of the duration, percent or value (8), P2 (16).
pub fn omnilink_command(bytes: &[u8]) -> u64
    ensures { result ≡ packed (on_accepted command_fields (command_item bytes.now)) }
{
    message::item::command_packed(bytes)
}

// The field (16) of a log entry, 0 to 8.
pub fn omnilink_log_entry(bytes: &[u8], field: usize) -> u64
    ensures { result ≡ packed (on_accepted word_fields (log_item field bytes.now)) }
{
    pack(message::item::log_entry(bytes, field))
}
