// Every message type: reading a frame's type and data bytes, and whole frames.
ghost use Rattle.std.specs.Prelude.{◌≡◌, ◌%◌, length};
ghost use Rattle.answer.specs.Answer.{accepted, on_accepted, in_room, out_after, outcome_of};
ghost use Rattle.message.specs.Lists.{zones_listed};
ghost use Rattle.message.specs.Message.{digits_listed, order_listed, message_of, read_message, write_message, counted};
ghost use Rattle.message.specs.Parts.{Taken, message_header, texts_in, items_in};

use crate::command::Command;
use crate::log::LogEntry;
use crate::{check, command, lists, log};
use answer::Refusal;
use link::frame::Header;

// The messages of fixed length: those without data (05, 06, 0D, 11, 13, 21, 22), 20, 15, 0E and 0F.
#[derive(Clone, Copy)]
pub enum Fixed {
    Acknowledge,
    NegativeAcknowledge,
    UploadEventLog,
    RequestSystemInformation,
    RequestSystemStatus,
    Logout,
    RequestSystemEvents,
    Login {
        first: u8,
        second: u8,
        third: u8,
        fourth: u8,
    },
    ZoneRequest {
        first: u8,
        last: u8,
    },
    LogEntry(LogEntry),
    Command(Command),
}

// A message. A list is held as its count; its items are read from the message's bytes by the calls of `item`.
#[derive(Clone, Copy)]
pub enum Message {
    Fixed(Fixed),
    ZoneStatus { count: u8 },
    Events { count: u8 },
    MessageStatus { count: u8 },
}

// Whether four digits are each 00 to 09.
#[tactic(auto, unfolding(crate::specs::Message::digits_listed))]
pub fn digits_listed(first: u8, second: u8, third: u8, fourth: u8) -> bool
    ensures { result ≡ digits_listed first second third fourth }
{
    first <= 9 && second <= 9 && third <= 9 && fourth <= 9
}

// Whether a first and a last zone are in order.
#[tactic(auto, unfolding(crate::specs::Message::order_listed))]
pub(crate) fn order_listed(first: u8, last: u8) -> bool
    ensures { result ≡ order_listed first last }
{
    1 <= first && first <= last
}

// Whether each status byte of pairs is in the list.
pub(crate) fn zones_listed(data: &[u8]) -> bool
    requires { length «data».now % 2 ≡ 0 }
    ensures { result ≡ zones_listed «data».now }
{
    for i in 0..data.len() / 2 {
        if !lists::zone_listed(data[2 * i]) {
            return false;
        }
    }
    true
}

// How many text messages a message status of so many data bytes has.
fn texts_in(size: u8) -> u8
    ensures { result ≡ texts_in size }
{
    match size {
        5 => 16,
        17 => 64,
        _ => 128,
    }
}

// How many items a message of a type has in so many data bytes.
pub(crate) fn items_in(kind: u8, size: u8) -> u8
    ensures { result ≡ items_in kind size }
{
    match kind {
        lists::ZONE_STATUS | lists::EVENTS => size / 2,
        lists::MESSAGE_STATUS => texts_in(size),
        _ => 0,
    }
}

// The header of a whole message: the frame reader's answers, then 6, 7, 8.
pub(crate) fn header(bytes: &[u8]) -> Result<Header, Refusal>
    ensures { outcome_of result ≡ message_header bytes.now }
{
    let h = link::frame::read(bytes)?;
    check::check(h.kind, link::frame::data(bytes, h.count))?;
    Ok(h)
}

// The message that a type and data bytes carry, which are known to be right.
fn of_data(kind: u8, data: &[u8]) -> Message
    requires { Taken (message_of kind «data».now) }
    ensures { accepted result ≡ on_accepted counted (message_of kind «data».now) }
{
    match kind {
        0x05 => Message::Fixed(Fixed::Acknowledge),
        0x06 => Message::Fixed(Fixed::NegativeAcknowledge),
        0x0D => Message::Fixed(Fixed::UploadEventLog),
        0x11 => Message::Fixed(Fixed::RequestSystemInformation),
        0x13 => Message::Fixed(Fixed::RequestSystemStatus),
        0x21 => Message::Fixed(Fixed::Logout),
        0x22 => Message::Fixed(Fixed::RequestSystemEvents),
        0x20 => Message::Fixed(Fixed::Login {
            first: data[0],
            second: data[1],
            third: data[2],
            fourth: data[3],
        }),
        0x15 => Message::Fixed(Fixed::ZoneRequest {
            first: data[0],
            last: data[1],
        }),
        lists::ZONE_STATUS => Message::ZoneStatus {
            count: (data.len() / 2) as u8,
        },
        lists::EVENTS => Message::Events {
            count: (data.len() / 2) as u8,
        },
        lists::MESSAGE_STATUS => Message::MessageStatus {
            count: texts_in(data.len() as u8),
        },
        0x0E => Message::Fixed(Fixed::LogEntry(log::log_of(data))),
        _ => Message::Fixed(Fixed::Command(command::of_data(data))),
    }
}

// Reads a byte string as a whole message: the frame reader's answers, then 6, 7, 8.
pub fn read(bytes: &[u8]) -> Result<Message, Refusal>
    ensures { outcome_of result ≡ on_accepted counted (read_message bytes.now) }
{
    let h = header(bytes)?;
    Ok(of_data(h.kind, link::frame::data(bytes, h.count)))
}

// Writes the message of a type and data bytes: 6, 7, 8, then 9.
pub fn write(kind: u8, data: &[u8], out: &mut [u8]) -> Result<u32, Refusal>
    ensures result_value { outcome_of result ≡ on_accepted length (in_room (length out.old) (write_message kind «data».now)) }
    ensures out_after { out.new ≡ out_after (in_room (length out.old) (write_message kind «data».now)) out.old }
{
    // A type without data is told apart with no call. Where it knows that there is none, the compiler leaves the copying out.
    if check::is_plain(kind) {
        check::plain(data)?;
        return link::frame::write(kind, data, out);
    }
    check::check(kind, data)?;
    link::frame::write(kind, data, out)
}

// What the writer answers where there is room, with nothing written: 6, 7, 8, or the count of bytes.
pub fn size(kind: u8, data: &[u8]) -> Result<u32, Refusal>
    ensures { outcome_of result ≡ on_accepted length (write_message kind «data».now) }
{
    check::check(kind, data)?;
    Ok(data.len() as u32 + 5)
}
