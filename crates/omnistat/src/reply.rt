// What a thermostat replies: acknowledge, negative, data, and the three groups. Read at the host, written to the host, by the habit of the
// thermostat and the group last polled.
ghost use Rattle.std.specs.Prelude.{◌≡◌, not, [], ◌≤◌, ◌<◌, length, take, drop};
ghost use Rattle.answer.specs.Answer.{accepted, refuse_if, on_accepted, and_then, in_room, out_after, outcome_of};
ghost use Rattle.answer.specs.Packed.{packed};
ghost use Rattle.omnistat.specs.Message.{as_run, of_length, as_message_by, is_polled, acknowledge, negative, data_from, group as groupValues};
ghost use Rattle.omnistat.specs.Omnistat.{counted, text, addressed_counted, addressed_text, read_counted_by, read_by, read, bytes_to, write_bytes_by, write_bytes, write_by, write};
ghost use Rattle.omnistat.specs.Frame.{directed, first_of};
ghost use Rattle.omnistat.specs.Group.{reply_type, reply_length};
ghost use Rattle.omnistat.specs.Text.{read_text};
ghost use Rattle.omnistat.specs.Answer.{reply_in, fields_by, known_in};
ghost use Rattle.omnistat.specs.Parts.{Says, passed};

use crate::frame::{End, REPLY, write_to};
use crate::group::Group;
use crate::habit::{Habit, Known};
use crate::message::{check_length, pack_fixed, pack_run, read_run, write_run};
use answer::Refusal;

// The types of an acknowledge, a negative and data; that of a group goes by the habit. A type stays a number: C hands over any, and one
// that is no type is answered 6.
pub const ACKNOWLEDGE: u8 = 0;

pub const NEGATIVE: u8 = 1;

pub const DATA: u8 = 2;

// With the numbered habit, as document 01 has it, which group was polled decides nothing.
const NUMBERED: Known = Known {
    habit: Habit::Numbered,
    polled: Group::First,
};

// The values of a group follow the second byte.
const GROUP_VALUES: usize = 2;

// What a message to the host is, with the number of the thermostat that sent it. The values and the characters of a text are a part of
// the message, which `values` and `group_values` hand back.
#[derive(Clone, Copy)]
pub enum Reply {
    Acknowledge {
        number: u8,
    },
    Negative {
        number: u8,
    },
    Data {
        number: u8,
        start: u8,
        count: u8,
    },
    Group {
        number: u8,
        group: Group,
        count: u8,
    },
    Text {
        number: u8,
        half: u8,
        start: u8,
        count: u8,
    },
}

// The data bytes of a data message: start and values.
pub(crate) fn as_data(number: u8, payload: &[u8]) -> Result<Reply, Refusal>
    ensures { Says reply_in payload.now result (on_accepted (addressed_counted End.Host number) (as_run data_from payload.now)) }
{
    let run = read_run(payload)?;
    Ok(Reply::Data {
        number,
        start: run.start,
        count: run.count,
    })
}

// The data bytes of a group: as many values as it has.
pub(crate) fn as_group(number: u8, group: Group, payload: &[u8]) -> Result<Reply, Refusal>
    ensures { Says reply_in payload.now result (on_accepted (addressed_counted End.Host number) (of_length (reply_length group) payload.now (groupValues group payload.now))) }
{
    let count = crate::group::reply_length(group);
    check_length(count as usize, payload)?;
    Ok(Reply::Group {
        number,
        group,
        count,
    })
}

// What a type and its data bytes say to the host.
#[tactic(auto, unfolding(crate::specs::Message::as_message_by))]
pub(crate) fn as_reply(known: Known, number: u8, kind: u8, payload: &[u8]) -> Result<Reply, Refusal>
    ensures { Says reply_in payload.now result (on_accepted (addressed_counted End.Host number) (as_message_by End.Host (known_in known) kind payload.now)) }
{
    match kind {
        ACKNOWLEDGE => {
            check_length(0, payload)?;
            Ok(Reply::Acknowledge { number })
        }
        NEGATIVE => {
            check_length(0, payload)?;
            Ok(Reply::Negative { number })
        }
        DATA => as_data(number, payload),
        _ => match known.replied(kind) {
            Some(group) => as_group(number, group, payload),
            None => Err(Refusal::Unknown),
        },
    }
}

// Reads a message of counted length. Every first byte above 80 is a reply from that number less 80.
pub(crate) fn read_counted(known: Known, bytes: &[u8]) -> Result<Reply, Refusal>
    ensures { on_accepted (reply_in bytes.now) (outcome_of result) ≡ read_counted_by End.Host (known_in known) bytes.now }
{
    let f = crate::frame::read(End::Host, bytes)?;
    as_reply(
        known,
        f.first - REPLY,
        f.kind,
        crate::frame::part(bytes, 2, f.count as usize),
    )
}

// Reads a text, as `request::read_text` does.
pub(crate) fn read_text(bytes: &[u8]) -> Result<Reply, Refusal>
    requires { 3 ≤ length bytes.now }
    ensures { on_accepted (reply_in bytes.now) (outcome_of result) ≡ on_accepted (addressed_text End.Host) (read_text End.Host bytes.now) }
{
    let t = crate::text::read(End::Host, bytes)?;
    Ok(Reply::Text {
        number: t.address,
        half: t.half,
        start: t.start,
        count: t.count,
    })
}

// Reads a message at the host, from a thermostat of this habit, where this group was polled last.
pub fn read_by(known: Known, bytes: &[u8]) -> Result<Reply, Refusal>
    ensures { on_accepted (reply_in bytes.now) (outcome_of result) ≡ read_by End.Host (known_in known) bytes.now }
{
    if crate::text::carries_text(End::Host, bytes) {
        return read_text(bytes);
    }
    read_counted(known, bytes)
}

// Reads a message at the host, from a thermostat of the numbered habit.
pub fn read(bytes: &[u8]) -> Result<Reply, Refusal>
    ensures { on_accepted (reply_in bytes.now) (outcome_of result) ≡ read End.Host bytes.now }
{
    read_by(NUMBERED, bytes)
}

// The values of a data message, or the characters of a text, that was read from these bytes with this count: a part of them.
pub fn values(bytes: &[u8], count: u8) -> &[u8]
    ensures { result.now ≡ take count (drop 3 bytes.now) }
{
    crate::frame::part(bytes, 3, count as usize)
}

// The values of a group reply with count values that was read from these bytes: a part of them.
pub fn group_values(bytes: &[u8], count: u8) -> &[u8]
    ensures { result.now ≡ take count (drop 2 bytes.now) }
{
    crate::frame::part(bytes, GROUP_VALUES, count as usize)
}

// What is packed of a type and its data bytes: the switch of `as_reply` again, since packing the typed answer took 129 instructions, not 95.
#[tactic(auto, unfolding(crate::specs::Message::as_message_by))]
pub(crate) fn pack(known: Known, number: u8, kind: u8, payload: &[u8]) -> u64
    ensures { result ≡ packed (on_accepted (fields_by End.Host (known_in known)) (on_accepted (addressed_counted End.Host number) (as_message_by End.Host (known_in known) kind payload.now))) }
{
    match kind {
        ACKNOWLEDGE | NEGATIVE => pack_fixed(kind, number, 0, payload),
        DATA => pack_run(DATA, number, payload),
        _ => match known.replied(kind) {
            Some(group) => pack_fixed(kind, number, crate::group::reply_length(group), payload),
            None => answer::pack_refusal(Refusal::Unknown),
        },
    }
}

// What is packed of a message of counted length.
pub(crate) fn pack_counted(known: Known, bytes: &[u8]) -> u64
    ensures { result ≡ packed (on_accepted (fields_by End.Host (known_in known)) (read_counted_by End.Host (known_in known) bytes.now)) }
{
    match crate::frame::read(End::Host, bytes) {
        Err(r) => answer::pack_refusal(r),
        Ok(f) => pack(
            known,
            f.first - REPLY,
            f.kind,
            crate::frame::part(bytes, 2, f.count as usize),
        ),
    }
}

// Reads a message at the host, for C: type, number, start and count, and the half-byte of a text. A number in place of a typed answer stays
// out of memory.
pub fn read_packed(known: Known, bytes: &[u8]) -> u64
    ensures { result ≡ packed (on_accepted (fields_by End.Host (known_in known)) (read_by End.Host (known_in known) bytes.now)) }
{
    if crate::text::carries_text(End::Host, bytes) {
        return crate::text::pack(End::Host, bytes);
    }
    pack_counted(known, bytes)
}

// Whether values are those of the reply with a group: as many as the group has that its type names, and that is the group itself.
pub(crate) fn check_group(known: Known, group: Group, values: &[u8]) -> Result<(), Refusal>
    ensures { outcome_of result ≡ and_then (on_accepted passed (as_message_by End.Host (known_in known) (reply_type known.habit group) values.now)) (λ fits. refuse_if (not (is_polled End.Host (known_in known) (groupValues group values.now))) 8 (accepted fits)) }
{
    let count = crate::group::reply_length(known.carried(group));
    check_length(count as usize, values)?;
    known.check_polled(group)
}

// Writes the reply that a type number and data bytes make. The number is that of the thermostat, 01 to 7F.
pub fn write(
    known: Known,
    number: u8,
    kind: u8,
    payload: &[u8],
    out: &mut [u8],
) -> Result<u32, Refusal>
    ensures result_value { outcome_of result ≡ on_accepted length (in_room (length out.old) (write_bytes_by End.Host (known_in known) number kind payload.now)) }
    ensures out_after { out.new ≡ out_after (in_room (length out.old) (write_bytes_by End.Host (known_in known) number kind payload.now)) out.old }
{
    as_reply(known, number, kind, payload)?;
    write_to(End::Host, number, kind, payload, out)
}

// Writes an acknowledge.
#[tactic(auto, unfolding(crate::specs::Omnistat::sent, crate::specs::Message::as_message_by))]
pub fn write_acknowledge(number: u8, out: &mut [u8]) -> Result<u32, Refusal>
    ensures result_value { outcome_of result ≡ on_accepted length (in_room (length out.old) (write End.Host number (counted acknowledge))) }
    ensures out_after { out.new ≡ out_after (in_room (length out.old) (write End.Host number (counted acknowledge))) out.old }
{
    write_to(End::Host, number, ACKNOWLEDGE, &[], out)
}

// Writes a negative.
#[tactic(auto, unfolding(crate::specs::Omnistat::sent, crate::specs::Message::as_message_by))]
pub fn write_negative(number: u8, out: &mut [u8]) -> Result<u32, Refusal>
    ensures result_value { outcome_of result ≡ on_accepted length (in_room (length out.old) (write End.Host number (counted negative))) }
    ensures out_after { out.new ≡ out_after (in_room (length out.old) (write End.Host number (counted negative))) out.old }
{
    write_to(End::Host, number, NEGATIVE, &[], out)
}

// Writes data: the contents of registers from a start, lent as values.
pub fn write_data(number: u8, start: u8, values: &[u8], out: &mut [u8]) -> Result<u32, Refusal>
    ensures result_value { outcome_of result ≡ on_accepted length (in_room (length out.old) (write End.Host number (counted (data_from start values.now)))) }
    ensures out_after { out.new ≡ out_after (in_room (length out.old) (write End.Host number (counted (data_from start values.now)))) out.old }
{
    write_run(End::Host, number, start, values, out)
}

// Writes the reply with a group, with the lent values, of a thermostat of this habit, where a group was polled last.
pub fn write_group_by(
    known: Known,
    number: u8,
    group: Group,
    values: &[u8],
    out: &mut [u8],
) -> Result<u32, Refusal>
    ensures result_value { outcome_of result ≡ on_accepted length (in_room (length out.old) (write_by End.Host (known_in known) number (counted (groupValues group values.now)))) }
    ensures out_after { out.new ≡ out_after (in_room (length out.old) (write_by End.Host (known_in known) number (counted (groupValues group values.now)))) out.old }
{
    check_group(known, group, values)?;
    write_to(
        End::Host,
        number,
        crate::habit::reply_type(known.habit, group),
        values,
        out,
    )
}

// Writes the reply with a group, with the lent values, of a thermostat of the numbered habit.
pub fn write_group(number: u8, group: Group, values: &[u8], out: &mut [u8]) -> Result<u32, Refusal>
    ensures result_value { outcome_of result ≡ on_accepted length (in_room (length out.old) (write End.Host number (counted (groupValues group values.now)))) }
    ensures out_after { out.new ≡ out_after (in_room (length out.old) (write End.Host number (counted (groupValues group values.now)))) out.old }
{
    write_group_by(NUMBERED, number, group, values, out)
}

// Writes the text of a text register, with the lent characters and this length half-byte.
pub fn write_text(
    number: u8,
    half: u8,
    start: u8,
    characters: &[u8],
    out: &mut [u8],
) -> Result<u32, Refusal>
    ensures result_value { outcome_of result ≡ on_accepted length (in_room (length out.old) (write End.Host number (text (record { half = half; start = start; characters = characters.now })))) }
    ensures out_after { out.new ≡ out_after (in_room (length out.old) (write End.Host number (text (record { half = half; start = start; characters = characters.now })))) out.old }
{
    crate::text::write_to(End::Host, number, half, start, characters, out)
}
