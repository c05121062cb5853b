// Writing typed messages.
ghost use Rattle.std.specs.Prelude.{◌≡◌, ◌+◌, ◌≤◌, length};
ghost use Rattle.answer.specs.Answer.{on_accepted, in_room, out_after, outcome_of};
ghost use Rattle.message.specs.Typed.{count_p1, duration_p1, parameters, command_bytes, log_bytes, write_fixed, write_counted, write_items};

use crate::command::{Command, Duration};
use crate::log::LogEntry;
use crate::message::{Fixed, Message};
use crate::{lists, message};
use answer::Refusal;

// The P1 of a count from 1 to `most`, above a base; outside 100, which is no P1.
fn count_p1(base: u8, most: u8, n: u8) -> u8
    requires { base + most ≤ 255 }
    ensures { result ≡ count_p1 base most n }
{
    if (1..=most).contains(&n) {
        base + n
    } else {
        100
    }
}

// The P1 of a duration: 1 to 99 seconds or minutes, 1 to 18 hours.
fn duration_p1(d: Duration) -> u8
    ensures { result ≡ duration_p1 d }
{
    match d {
        Duration::None => 0,
        Duration::Seconds(n) => count_p1(0, 99, n),
        Duration::Minutes(n) => count_p1(100, 99, n),
        Duration::Hours(n) => count_p1(200, 18, n),
    }
}

// A command number and its parameters, parameter 2 high byte first.
fn parameters(number: u8, p1: u8, p2: u16) -> [u8; 4]
    ensures { result ≡ parameters number p1 p2 }
{
    let [high, low] = p2.to_be_bytes();
    [number, p1, high, low]
}

fn command_bytes(c: Command) -> [u8; 4]
    ensures { result ≡ command_bytes c }
{
    match c {
        Command::Off { duration, unit } => parameters(0, duration_p1(duration), unit),
        Command::On { duration, unit } => parameters(1, duration_p1(duration), unit),
        Command::AllOff { area } => parameters(2, 0, area),
        Command::AllOn { area } => parameters(3, 0, area),
        Command::Level { percent, unit } => parameters(9, percent, unit),
        Command::Decrement { counter } => parameters(10, 0, counter),
        Command::Increment { counter } => parameters(11, 0, counter),
        Command::SetCounter { value, counter } => parameters(12, value, counter),
    }
}

fn log_bytes(e: LogEntry) -> [u8; 10]
    ensures { result ≡ log_bytes e }
{
    let [high, low] = e.parameter_2.to_be_bytes();
    [
        e.number,
        e.time_valid,
        e.month,
        e.day,
        e.hour,
        e.minute,
        e.event_type,
        e.parameter_1,
        high,
        low,
    ]
}

// Writes a message of fixed length: 8 for a field outside its list, then 9.
#[tactic(auto, unfolding(crate::specs::Typed::write_fixed))]
pub fn write_fixed(f: Fixed, out: &mut [u8]) -> Result<u32, Refusal>
    ensures result_value { outcome_of result ≡ on_accepted length (in_room (length out.old) (write_fixed f)) }
    ensures out_after { out.new ≡ out_after (in_room (length out.old) (write_fixed f)) out.old }
{
    match f {
        Fixed::Acknowledge => message::write(0x05, &[], out),
        Fixed::NegativeAcknowledge => message::write(0x06, &[], out),
        Fixed::UploadEventLog => message::write(0x0D, &[], out),
        Fixed::RequestSystemInformation => message::write(0x11, &[], out),
        Fixed::RequestSystemStatus => message::write(0x13, &[], out),
        Fixed::Logout => message::write(0x21, &[], out),
        Fixed::RequestSystemEvents => message::write(0x22, &[], out),
        Fixed::Login {
            first,
            second,
            third,
            fourth,
        } => message::write(0x20, &[first, second, third, fourth], out),
        Fixed::ZoneRequest { first, last } => message::write(0x15, &[first, last], out),
        Fixed::LogEntry(e) => message::write(0x0E, &log_bytes(e), out),
        Fixed::Command(c) => message::write(0x0F, &command_bytes(c), out),
    }
}

// Writes a list's message by its data bytes, which are lent: 7 where they are not as many as its items need.
fn write_items(kind: u8, size: usize, data: &[u8], out: &mut [u8]) -> Result<u32, Refusal>
    ensures result_value { outcome_of result ≡ on_accepted length (in_room (length out.old) (write_items kind size «data».now)) }
    ensures out_after { out.new ≡ out_after (in_room (length out.old) (write_items kind size «data».now)) out.old }
{
    if data.len() != size {
        return Err(Refusal::TypeLength);
    }
    message::write(kind, data, out)
}

// Writes a message without a list, which has no data bytes lent beside it.
fn write_alone(f: Fixed, data: &[u8], out: &mut [u8]) -> Result<u32, Refusal>
    ensures result_value { outcome_of result ≡ on_accepted length (in_room (length out.old) (write_counted (Message.Fixed f) «data».now)) }
    ensures out_after { out.new ≡ out_after (in_room (length out.old) (write_counted (Message.Fixed f) «data».now)) out.old }
{
    if data.len() != 0 {
        return Err(Refusal::TypeLength);
    }
    write_fixed(f, out)
}

// Writes a message status of so many text messages, which come in fours.
fn write_texts(count: u8, data: &[u8], out: &mut [u8]) -> Result<u32, Refusal>
    ensures result_value { outcome_of result ≡ on_accepted length (in_room (length out.old) (write_counted (Message.MessageStatus count) «data».now)) }
    ensures out_after { out.new ≡ out_after (in_room (length out.old) (write_counted (Message.MessageStatus count) «data».now)) out.old }
{
    if count % 4 != 0 {
        return Err(Refusal::TypeLength);
    }
    write_items(lists::MESSAGE_STATUS, 1 + count as usize / 4, data, out)
}

// Writes a typed message. The items of a list are lent as its data bytes; a message without a list has none.
pub fn write(m: Message, data: &[u8], out: &mut [u8]) -> Result<u32, Refusal>
    ensures result_value { outcome_of result ≡ on_accepted length (in_room (length out.old) (write_counted m «data».now)) }
    ensures out_after { out.new ≡ out_after (in_room (length out.old) (write_counted m «data».now)) out.old }
{
    match m {
        Message::Fixed(f) => write_alone(f, data, out),
        Message::ZoneStatus { count } => {
            write_items(lists::ZONE_STATUS, 2 * count as usize, data, out)
        }
        Message::Events { count } => write_items(lists::EVENTS, 2 * count as usize, data, out),
        Message::MessageStatus { count } => write_texts(count, data, out),
    }
}
