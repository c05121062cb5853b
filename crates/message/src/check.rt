// The checks of messages: which refusal a type and data bytes have, with no message made of them.
ghost use Rattle.std.specs.Prelude.{◌≡◌};
ghost use Rattle.answer.specs.Answer.{on_accepted, outcome_of};
ghost use Rattle.message.specs.Command.{read_command};
ghost use Rattle.message.specs.Log.{read_log};
ghost use Rattle.message.specs.Message.{read_plain, read_login, read_zone_request, read_zone_status, read_events, read_message_status, with_data, message_of};
ghost use Rattle.message.specs.declared.message.Fixed.{Fixed};
ghost use Rattle.message.specs.Parts.{nothing, is_plain};

use crate::{command, lists, log, message};
use answer::Refusal;

#[tactic(auto, unfolding(crate::specs::Message::read_plain))]
pub(crate) fn plain(data: &[u8]) -> Result<(), Refusal>
    ensures { (f : Fixed) → outcome_of result ≡ on_accepted nothing (read_plain f «data».now) }
{
    if data.len() != 0 {
        return Err(Refusal::TypeLength);
    }
    Ok(())
}

#[tactic(auto, unfolding(crate::specs::Message::read_login))]
fn login(data: &[u8]) -> Result<(), Refusal>
    ensures { outcome_of result ≡ on_accepted nothing (read_login «data».now) }
{
    if data.len() != 4 {
        return Err(Refusal::TypeLength);
    }
    if !message::digits_listed(data[0], data[1], data[2], data[3]) {
        return Err(Refusal::Field);
    }
    Ok(())
}

#[tactic(auto, unfolding(crate::specs::Message::read_zone_request))]
fn zone_request(data: &[u8]) -> Result<(), Refusal>
    ensures { outcome_of result ≡ on_accepted nothing (read_zone_request «data».now) }
{
    if data.len() != 2 {
        return Err(Refusal::TypeLength);
    }
    if !message::order_listed(data[0], data[1]) {
        return Err(Refusal::Field);
    }
    Ok(())
}

#[tactic(auto, unfolding(crate::specs::Message::read_zone_status))]
fn zone_status(data: &[u8]) -> Result<(), Refusal>
    ensures { outcome_of result ≡ on_accepted nothing (read_zone_status «data».now) }
{
    let n = data.len();
    if n % 2 != 0 || n == 0 || 64 < n {
        return Err(Refusal::TypeLength);
    }
    if !message::zones_listed(data) {
        return Err(Refusal::Field);
    }
    Ok(())
}

#[tactic(auto, unfolding(crate::specs::Message::read_events))]
fn events(data: &[u8]) -> Result<(), Refusal>
    ensures { outcome_of result ≡ on_accepted nothing (read_events «data».now) }
{
    let n = data.len();
    if n % 2 != 0 || 64 < n {
        return Err(Refusal::TypeLength);
    }
    Ok(())
}

#[tactic(auto, unfolding(crate::specs::Message::read_message_status, crate::specs::Message::status_length))]
fn message_status(data: &[u8]) -> Result<(), Refusal>
    ensures { outcome_of result ≡ on_accepted nothing (read_message_status «data».now) }
{
    match data.len() {
        5 | 17 | 33 => {
            if data[0] != 0 {
                return Err(Refusal::Field);
            }
            Ok(())
        }
        _ => Err(Refusal::TypeLength),
    }
}

#[tactic(auto, unfolding(crate::specs::Log::read_log))]
fn log_entry(data: &[u8]) -> Result<(), Refusal>
    ensures { outcome_of result ≡ on_accepted nothing (read_log «data».now) }
{
    if data.len() != 10 {
        return Err(Refusal::TypeLength);
    }
    if !log::log_listed(log::log_of(data)) {
        return Err(Refusal::Field);
    }
    Ok(())
}

#[tactic(auto, unfolding(crate::specs::Command::read_command, crate::specs::Command::checked_command))]
fn command(data: &[u8]) -> Result<(), Refusal>
    ensures { outcome_of result ≡ on_accepted nothing (read_command «data».now) }
{
    if data.len() != 4 {
        return Err(Refusal::TypeLength);
    }
    if !command::command_listed(data[0], data[1], lists::word(data[2], data[3])) {
        return Err(Refusal::Field);
    }
    Ok(())
}

// The types with data; other types are 6.
#[tactic(auto, unfolding(crate::specs::Message::with_data))]
fn with_data(kind: u8, data: &[u8]) -> Result<(), Refusal>
    ensures { outcome_of result ≡ on_accepted nothing (with_data kind «data».now) }
{
    match kind {
        0x20 => login(data),
        0x15 => zone_request(data),
        lists::ZONE_STATUS => zone_status(data),
        lists::EVENTS => events(data),
        lists::MESSAGE_STATUS => message_status(data),
        0x0E => log_entry(data),
        0x0F => command(data),
        _ => Err(Refusal::Unknown),
    }
}

// Whether a type has no data. As `matches!` it was compiled to two tests: a command took 15 instructions more to read and to write,
// an acknowledge 9 and 6.
pub(crate) fn is_plain(kind: u8) -> bool
    ensures { result ≡ is_plain kind }
{
    kind == 0x05
        || kind == 0x06
        || kind == 0x0D
        || kind == 0x11
        || kind == 0x13
        || kind == 0x21
        || kind == 0x22
}

// What the message of a type and data bytes is refused with: 6, 7, 8.
pub(crate) fn check(kind: u8, data: &[u8]) -> Result<(), Refusal>
    ensures { outcome_of result ≡ on_accepted nothing (message_of kind «data».now) }
{
    if is_plain(kind) {
        return plain(data);
    }
    with_data(kind, data)
}
