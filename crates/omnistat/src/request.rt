// What the host sends: poll, set, and the polls of the three groups. Read at the thermostat, written to the thermostat.
ghost use Rattle.std.specs.Prelude.{◌≡◌, ◌≤◌, length, take, drop};
ghost use Rattle.answer.specs.Answer.{on_accepted, in_room, out_after, outcome_of};
ghost use Rattle.answer.specs.Packed.{packed};
ghost use Rattle.omnistat.specs.Register.{poll_allowed};
ghost use Rattle.omnistat.specs.Message.{as_poll, as_run, of_length, as_message, poll, set_from, poll_group};
ghost use Rattle.omnistat.specs.Omnistat.{counted, text, addressed_counted, addressed_text, read_counted, read, write, write_bytes};
ghost use Rattle.omnistat.specs.Text.{read_text};
ghost use Rattle.omnistat.specs.Answer.{request_in, fields};
ghost use Rattle.omnistat.specs.Parts.{Says, passed};

use crate::frame::{End, write_to};
use crate::group::Group;
use crate::message::{check_length, pack_fixed, pack_run, read_run, write_run};
use answer::Refusal;

// The types of a poll and a set; a group poll has that of its group. A type stays a number: C hands over any, and one that is no type is
// answered 6.
pub const POLL: u8 = 0;

pub const SET: u8 = 1;
// The most registers that one message polls.
const MOST_POLLED: u8 = 14;

// What a message to the thermostat is. The first byte is the address that it carries. The values of a set and the characters of a text are a
// part of the message, which `values` hands back.
#[derive(Clone, Copy)]
pub enum Request {
    Poll {
        first: u8,
        start: u8,
        count: u8,
    },
    Set {
        first: u8,
        start: u8,
        count: u8,
    },
    PollGroup {
        first: u8,
        group: Group,
    },
    Text {
        first: u8,
        half: u8,
        start: u8,
        count: u8,
    },
}

// Whether a poll may have this start and count: one text, or a run of registers.
pub(crate) fn is_poll(start: u8, count: u8) -> bool
    ensures { result ≡ poll_allowed start count }
{
    if crate::text::is_text(start) {
        return count == 1;
    }
    (1..=MOST_POLLED).contains(&count) && crate::message::is_run(start, count)
}

// Whether data bytes are those of a poll: start and count.
pub(crate) fn check_poll(payload: &[u8]) -> Result<(), Refusal>
    ensures { outcome_of result ≡ on_accepted passed (as_poll payload.now) }
{
    if payload.len() != 2 {
        return Err(Refusal::TypeLength);
    }
    if !is_poll(payload[0], payload[1]) {
        return Err(Refusal::Field);
    }
    Ok(())
}

// The data bytes of a poll.
pub(crate) fn as_poll(first: u8, payload: &[u8]) -> Result<Request, Refusal>
    ensures { Says request_in payload.now result (on_accepted (addressed_counted End.Thermostat first) (as_poll payload.now)) }
{
    check_poll(payload)?;
    Ok(Request::Poll {
        first,
        start: payload[0],
        count: payload[1],
    })
}

// The data bytes of a set: start and values.
pub(crate) fn as_set(first: u8, payload: &[u8]) -> Result<Request, Refusal>
    ensures { Says request_in payload.now result (on_accepted (addressed_counted End.Thermostat first) (as_run set_from payload.now)) }
{
    let run = read_run(payload)?;
    Ok(Request::Set {
        first,
        start: run.start,
        count: run.count,
    })
}

// What a type and its data bytes say to a thermostat.
#[tactic(auto, unfolding(crate::specs::Message::as_message_by))]
pub(crate) fn as_request(first: u8, kind: u8, payload: &[u8]) -> Result<Request, Refusal>
    ensures { Says request_in payload.now result (on_accepted (addressed_counted End.Thermostat first) (as_message End.Thermostat kind payload.now)) }
{
    match kind {
        POLL => as_poll(first, payload),
        SET => as_set(first, payload),
        _ => match crate::group::polled(kind) {
            Some(group) => {
                check_length(0, payload)?;
                Ok(Request::PollGroup { first, group })
            }
            None => Err(Refusal::Unknown),
        },
    }
}

// Reads a message of counted length. `reply` has the like, as it has of `read_text` and `pack_counted`: only the enum differs.
pub(crate) fn read_counted(bytes: &[u8]) -> Result<Request, Refusal>
    ensures { on_accepted (request_in bytes.now) (outcome_of result) ≡ read_counted End.Thermostat bytes.now }
{
    let f = crate::frame::read(End::Thermostat, bytes)?;
    as_request(
        f.first,
        f.kind,
        crate::frame::part(bytes, 2, f.count as usize),
    )
}

// Reads a text. `reply` has the like: only the enum differs, whose cases each name what they hold.
pub(crate) fn read_text(bytes: &[u8]) -> Result<Request, Refusal>
    requires { 3 ≤ length bytes.now }
    ensures { on_accepted (request_in bytes.now) (outcome_of result) ≡ on_accepted (addressed_text End.Thermostat) (read_text End.Thermostat bytes.now) }
{
    let t = crate::text::read(End::Thermostat, bytes)?;
    Ok(Request::Text {
        first: t.address,
        half: t.half,
        start: t.start,
        count: t.count,
    })
}

// Reads a message at the thermostat.
pub fn read(bytes: &[u8]) -> Result<Request, Refusal>
    ensures { on_accepted (request_in bytes.now) (outcome_of result) ≡ read End.Thermostat bytes.now }
{
    if crate::text::carries_text(End::Thermostat, bytes) {
        return read_text(bytes);
    }
    read_counted(bytes)
}

// The values of a set, or the characters of a text, that was read from these bytes with this count: a part of them.
pub fn values(bytes: &[u8], count: u8) -> &[u8]
    ensures { result.now ≡ take count (drop 3 bytes.now) }
{
    crate::frame::part(bytes, 3, count as usize)
}

// What is packed of a poll.
pub(crate) fn pack_poll(first: u8, payload: &[u8]) -> u64
    ensures { result ≡ packed (on_accepted (fields End.Thermostat) (on_accepted (addressed_counted End.Thermostat first) (as_poll payload.now))) }
{
    match check_poll(payload) {
        Err(r) => answer::pack_refusal(r),
        Ok(()) => answer::pack([POLL, first, payload[0], payload[1]]),
    }
}

// What is packed of a type and its data bytes: the switch of `as_request` again, since packing the typed answer took 129 instructions, not 95.
#[tactic(auto, unfolding(crate::specs::Message::as_message_by))]
pub(crate) fn pack(first: u8, kind: u8, payload: &[u8]) -> u64
    ensures { result ≡ packed (on_accepted (fields End.Thermostat) (on_accepted (addressed_counted End.Thermostat first) (as_message End.Thermostat kind payload.now))) }
{
    match kind {
        POLL => pack_poll(first, payload),
        SET => pack_run(SET, first, payload),
        _ => match crate::group::polled(kind) {
            Some(_) => pack_fixed(kind, first, 0, payload),
            None => answer::pack_refusal(Refusal::Unknown),
        },
    }
}

// What is packed of a message of counted length.
pub(crate) fn pack_counted(bytes: &[u8]) -> u64
    ensures { result ≡ packed (on_accepted (fields End.Thermostat) (read_counted End.Thermostat bytes.now)) }
{
    match crate::frame::read(End::Thermostat, bytes) {
        Err(r) => answer::pack_refusal(r),
        Ok(f) => pack(
            f.first,
            f.kind,
            crate::frame::part(bytes, 2, f.count as usize),
        ),
    }
}

// Reads a message at the thermostat, for C: type, first byte, start and count, and the half-byte of a text. A number in place of a typed
// answer stays out of memory.
pub fn read_packed(bytes: &[u8]) -> u64
    ensures { result ≡ packed (on_accepted (fields End.Thermostat) (read End.Thermostat bytes.now)) }
{
    if crate::text::carries_text(End::Thermostat, bytes) {
        return crate::text::pack(End::Thermostat, bytes);
    }
    pack_counted(bytes)
}

// Writes the message to a thermostat that a type number and data bytes make. The address is 00, 01 to 7F or FA.
pub fn write(address: u8, kind: u8, payload: &[u8], out: &mut [u8]) -> Result<u32, Refusal>
    ensures result_value { outcome_of result ≡ on_accepted length (in_room (length out.old) (write_bytes End.Thermostat address kind payload.now)) }
    ensures out_after { out.new ≡ out_after (in_room (length out.old) (write_bytes End.Thermostat address kind payload.now)) out.old }
{
    as_request(address, kind, payload)?;
    write_to(End::Thermostat, address, kind, payload, out)
}

// Writes a poll of count registers from a start.
pub fn write_poll(address: u8, start: u8, count: u8, out: &mut [u8]) -> Result<u32, Refusal>
    ensures result_value { outcome_of result ≡ on_accepted length (in_room (length out.old) (write End.Thermostat address (counted (poll start count)))) }
    ensures out_after { out.new ≡ out_after (in_room (length out.old) (write End.Thermostat address (counted (poll start count)))) out.old }
{
    write(address, POLL, &[start, count], out)
}

// Writes a set of registers from a start, with the lent values.
pub fn write_set(address: u8, start: u8, values: &[u8], out: &mut [u8]) -> Result<u32, Refusal>
    ensures result_value { outcome_of result ≡ on_accepted length (in_room (length out.old) (write End.Thermostat address (counted (set_from start values.now)))) }
    ensures out_after { out.new ≡ out_after (in_room (length out.old) (write End.Thermostat address (counted (set_from start values.now)))) out.old }
{
    write_run(End::Thermostat, address, start, values, out)
}

// Writes a poll of a group.
pub fn write_group_poll(address: u8, group: Group, out: &mut [u8]) -> Result<u32, Refusal>
    ensures result_value { outcome_of result ≡ on_accepted length (in_room (length out.old) (write End.Thermostat address (counted (poll_group group)))) }
    ensures out_after { out.new ≡ out_after (in_room (length out.old) (write End.Thermostat address (counted (poll_group group)))) out.old }
{
    write(address, crate::group::poll_type(group), &[], out)
}

// Writes a text into a text register, with the lent characters and this length half-byte.
pub fn write_text(
    address: u8,
    half: u8,
    start: u8,
    characters: &[u8],
    out: &mut [u8],
) -> Result<u32, Refusal>
    ensures result_value { outcome_of result ≡ on_accepted length (in_room (length out.old) (write End.Thermostat address (text (record { half = half; start = start; characters = characters.now })))) }
    ensures out_after { out.new ≡ out_after (in_room (length out.old) (write End.Thermostat address (text (record { half = half; start = start; characters = characters.now })))) out.old }
{
    crate::text::write_to(End::Thermostat, address, half, start, characters, out)
}
