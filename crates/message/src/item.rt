// Items of messages: of data bytes that carry a list, and of whole messages by their bytes.
ghost use Rattle.std.specs.Prelude.{◌≡◌, ◌<◌, drop, true};
ghost use Rattle.answer.specs.Answer.{accepted, on_accepted, outcome_of};
ghost use Rattle.answer.specs.Packed.{packed};
ghost use Rattle.link.specs.Frame.{header};
ghost use Rattle.message.specs.Command.{duration_of, command_listed, command_of, read_command};
ghost use Rattle.message.specs.Fields.{duration_unit, command_fields};
ghost use Rattle.message.specs.Lists.{zones, words, texts};
ghost use Rattle.message.specs.Parts.{two_bits, Taken};
ghost use Rattle.message.specs.Item.{frame_of, item_at, zone_item, event_item, text_item, log_fields, log_item, command_item};

use crate::command::Command;
use crate::lists::{TextMessage, Zone};
use crate::log::LogEntry;
use crate::{command, lists, log, message};
use answer::Refusal;
use link::frame::Header;

const LOG_ENTRY: u8 = 0x0E;

const COMMAND: u8 = 0x0F;

// Zone i of data bytes that carry zones; past the last is 8.
fn zone_at(data: &[u8], i: usize) -> Result<Zone, Refusal>
    ensures { outcome_of result ≡ item_at (zones «data».now) i }
{
    if data.len() / 2 <= i {
        return Err(Refusal::Field);
    }
    Ok(lists::zone_of(data[2 * i], data[2 * i + 1]))
}

// Event i of data bytes that carry events; past the last is 8.
fn event_at(data: &[u8], i: usize) -> Result<u16, Refusal>
    ensures { outcome_of result ≡ item_at (words «data».now) i }
{
    if data.len() / 2 <= i {
        return Err(Refusal::Field);
    }
    Ok(lists::word(data[2 * i], data[2 * i + 1]))
}

// The two bits of message k of the four in a byte, the lowest-numbered in the high bits.
fn two_bits(b: u8, k: u8) -> u8
    requires { k < 4 }
    ensures { result ≡ two_bits b k }
{
    (b >> (6 - 2 * k)) % 4
}

// Text message i of the data bytes of a message status; past the last is 8.
fn text_at(data: &[u8], i: usize) -> Result<TextMessage, Refusal>
    ensures { outcome_of result ≡ item_at (texts (drop 1 «data».now)) i }
{
    if data.len() <= 1 + i / 4 {
        return Err(Refusal::Field);
    }
    let bits = two_bits(data[1 + i / 4], (i % 4) as u8);
    Ok(lists::text_of(bits))
}

// Field i of a log entry, in the paper's order, parameter 2 as one; past the last is 8.
fn log_field(e: LogEntry, i: usize) -> Result<u16, Refusal>
    ensures { outcome_of result ≡ item_at (log_fields e) i }
{
    let fields = [
        u16::from(e.number),
        u16::from(e.time_valid),
        u16::from(e.month),
        u16::from(e.day),
        u16::from(e.hour),
        u16::from(e.minute),
        u16::from(e.event_type),
        u16::from(e.parameter_1),
        e.parameter_2,
    ];
    fields.get(i).copied().ok_or(Refusal::Field)
}

// The header of a whole message of a type; another type is 8.
fn header_of(bytes: &[u8], wanted: u8) -> Result<Header, Refusal>
    ensures { outcome_of result ≡ on_accepted header (frame_of wanted bytes.now) }
{
    let h = message::header(bytes)?;
    if h.kind != wanted {
        return Err(Refusal::Field);
    }
    Ok(h)
}

// Zone i of a zone status.
pub fn zone(bytes: &[u8], i: usize) -> Result<Zone, Refusal>
    ensures { outcome_of result ≡ zone_item i bytes.now }
{
    let h = header_of(bytes, lists::ZONE_STATUS)?;
    zone_at(link::frame::data(bytes, h.count), i)
}

// Event i of a list of events.
pub fn event(bytes: &[u8], i: usize) -> Result<u16, Refusal>
    ensures { outcome_of result ≡ event_item i bytes.now }
{
    let h = header_of(bytes, lists::EVENTS)?;
    event_at(link::frame::data(bytes, h.count), i)
}

// Text message i of a message status.
pub fn text_message(bytes: &[u8], i: usize) -> Result<TextMessage, Refusal>
    ensures { outcome_of result ≡ text_item i bytes.now }
{
    let h = header_of(bytes, lists::MESSAGE_STATUS)?;
    text_at(link::frame::data(bytes, h.count), i)
}

// Field i of a log entry.
pub fn log_entry(bytes: &[u8], i: usize) -> Result<u16, Refusal>
    ensures { outcome_of result ≡ log_item i bytes.now }
{
    let h = header_of(bytes, LOG_ENTRY)?;
    log_field(log::log_of(link::frame::data(bytes, h.count)), i)
}

// The command of a command message.
pub fn command(bytes: &[u8]) -> Result<Command, Refusal>
    ensures { outcome_of result ≡ command_item bytes.now }
{
    let h = header_of(bytes, COMMAND)?;
    Ok(command::of_data(link::frame::data(bytes, h.count)))
}

// The unit of the duration that P1 stands for: 0 none, 1 seconds, 2 minutes, 3 hours.
fn unit_of(p1: u8) -> u8
    ensures { result ≡ duration_unit (duration_of p1) }
{
    if p1 == 0 {
        return 0;
    }
    p1 / 100 + 1
}

// What is packed of a listed command number and its parameters.
fn packed_parameters(number: u8, p1: u8, p2: u16) -> u64
    requires { command_listed number p1 p2 ≡ true }
    ensures { result ≡ packed (accepted (command_fields (command_of number p1 p2))) }
{
    if number < 2 {
        return answer::pack_3_bytes_word(number, unit_of(p1), p1 % 100, p2);
    }
    answer::pack_3_bytes_word(number, 0, p1, p2)
}

// What is packed of data bytes that carry a command.
fn packed_command(data: &[u8]) -> u64
    requires { Taken (read_command «data».now) }
    ensures { result ≡ packed (on_accepted command_fields (read_command «data».now)) }
{
    packed_parameters(data[0], data[1], lists::word(data[2], data[3]))
}

// The command of a command message, packed for C: command, unit of duration, count, P2. Beside `command`, since a typed command for C goes
// through memory.
pub fn command_packed(bytes: &[u8]) -> u64
    ensures { result ≡ packed (on_accepted command_fields (command_item bytes.now)) }
{
    match header_of(bytes, COMMAND) {
        Ok(h) => packed_command(link::frame::data(bytes, h.count)),
        Err(r) => answer::pack_refusal(r),
    }
}
