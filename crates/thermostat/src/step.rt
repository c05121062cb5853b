// A step of the model thermostat: one message in, the map and the text store changed, the reply out.
ghost use Rattle.std.specs.Prelude.{◌≡◌, true, cond, not, ◌&&◌, eqb, ◌+◌, ◌≤◌, length};
ghost use Rattle.answer.specs.Answer.{accepted, on_accepted, out_after, outcome_of};
ghost use Rattle.omnistat.specs.Register.{is_text, poll_allowed};
ghost use Rattle.omnistat.specs.Message.{poll, set_from, poll_group, acknowledge};
ghost use Rattle.omnistat.specs.Omnistat.{counted, read};
ghost use Rattle.thermostat.specs.Map.{stored};
ghost use Rattle.thermostat.specs.Texts.{text_stored, store_allowed};
ghost use Rattle.thermostat.specs.Step.{is_for, all_settable, register_reply, reply_to, changed, sent_by, after, done, step, map_of, texts_of, sent_of};

use crate::address::Address;
use crate::texts::{TEXTS, Texts};
use answer::Refusal;
use omnistat::frame::End;
use omnistat::group::Group;
use omnistat::request::Request;

// The addresses that every thermostat hears: one is never answered.
const BROADCAST: u8 = 0x00;

const UNIVERSAL: u8 = 0xFA;

// The least room for a reply, and the size of the map.
const LEAST_ROOM: usize = 65;

pub(crate) const REGISTERS: usize = 256;

// Whether a message with this first byte is for this thermostat.
fn is_heard(own: Address, first: u8) -> bool
    ensures { result ≡ is_for own.number first }
{
    first == BROADCAST || first == own.number || first == UNIVERSAL
}

// Whether a message with this first byte is answered: it is for this thermostat and no broadcast.
fn is_answered(own: Address, first: u8) -> bool
    ensures { result ≡ (is_for own.number first && not (eqb first 0)) }
{
    first != BROADCAST && is_heard(own, first)
}

// Stores values in the registers from a start where all of them take theirs, and says whether they do.
fn change(map: &mut [u8; REGISTERS], start: usize, values: &[u8]) -> bool
    requires { start + length values.now ≤ 256 }
    ensures value { result ≡ all_settable start values.now }
    ensures map_after { map.new ≡ cond (all_settable start values.now) (stored map.old start values.now) map.old }
{
    if !crate::registers::are_settable(start, values) {
        return false;
    }
    crate::copying::copy(map, start, values);
    true
}

// The room of the output stands in each contract: a caller of a function that is lent a `[u8; 65]` does not learn that it keeps its length,
// and `returns` of `step` stays open. Own address, map and texts are no struct, whose methods would each promise that its fields keep
// their references. `start as usize`: with `from` the proof speaks of the call's result, and is no plainer.

// Acts on a set and answers it.
fn on_set(
    own: Address,
    map: &mut [u8; REGISTERS],
    first: u8,
    start: u8,
    values: &[u8],
    out: &mut [u8],
) -> Result<u32, Refusal>
    requires in_bounds { 18 ≤ length out.old }
    requires values_bound { start + length values.now ≤ 256 }
    ensures result_value { outcome_of result ≡ accepted (length (sent_by own.number first (counted (register_reply map.old (set_from start values.now))))) }
    ensures map_after { map.new ≡ after own.number first (changed map.old (counted (set_from start values.now))) map.old }
    ensures out_after { out.new ≡ out_after (accepted (sent_by own.number first (counted (register_reply map.old (set_from start values.now))))) out.old }
{
    if !is_heard(own, first) {
        return Ok(0);
    }
    let taken = change(map, start as usize, values);
    if first == BROADCAST {
        return Ok(0);
    }
    crate::report::confirm(own, taken, out)
}

// Stores a text and acknowledges it.
fn on_text(
    own: Address,
    texts: &mut [u8; TEXTS],
    first: u8,
    start: u8,
    characters: &[u8],
    out: &mut [u8],
) -> Result<u32, Refusal>
    requires in_bounds { 18 ≤ length out.old }
    requires start_value { is_text start ≡ true }
    requires characters_len_bound { length characters.now ≤ 60 }
    ensures result_value { outcome_of result ≡ accepted (length (sent_by own.number first (counted acknowledge))) }
    ensures texts_after { texts.new ≡ after own.number first (text_stored texts.old start characters.now) texts.old }
    ensures out_after { out.new ≡ out_after (accepted (sent_by own.number first (counted acknowledge))) out.old }
{
    if !is_heard(own, first) {
        return Ok(0);
    }
    crate::texts::store_text(texts, start, characters);
    if first == BROADCAST {
        return Ok(0);
    }
    omnistat::reply::write_acknowledge(own.number, out)
}

// Answers a poll of registers or of a text.
fn on_poll(
    own: Address,
    map: &[u8; REGISTERS],
    texts: Texts,
    first: u8,
    start: u8,
    count: u8,
    out: &mut [u8],
) -> Result<u32, Refusal>
    requires in_bounds { 65 ≤ length out.old }
    requires count_value { poll_allowed start count ≡ true }
    ensures result_value { outcome_of result ≡ accepted (length (sent_by own.number first (reply_to map.now texts.entry.bytes.now (counted (poll start count))))) }
    ensures out_after { out.new ≡ out_after (accepted (sent_by own.number first (reply_to map.now texts.entry.bytes.now (counted (poll start count))))) out.old }
{
    if !is_answered(own, first) {
        return Ok(0);
    }
    if omnistat::text::is_text(start) {
        return crate::report::report_text(own, texts, start, out);
    }
    crate::report::report(own, map, start, count, out)
}

// Answers a poll of a group.
fn on_group(
    own: Address,
    map: &[u8; REGISTERS],
    first: u8,
    group: Group,
    out: &mut [u8],
) -> Result<u32, Refusal>
    requires { 18 ≤ length out.old }
    ensures result_value { outcome_of result ≡ accepted (length (sent_by own.number first (counted (register_reply map.now (poll_group group))))) }
    ensures out_after { out.new ≡ out_after (accepted (sent_by own.number first (counted (register_reply map.now (poll_group group))))) out.old }
{
    if !is_answered(own, first) {
        return Ok(0);
    }
    crate::report::report_group(own, map, group, out)
}

// Reads a message, acts on it and answers it.
#[tactic(auto, using(crate::proofs::Laws::Step::after_same))]
fn act(
    own: Address,
    map: &mut [u8; REGISTERS],
    texts: &mut [u8; TEXTS],
    bytes: &[u8],
    out: &mut [u8],
) -> Result<u32, Refusal>
    requires in_bounds { 65 ≤ length out.old }
    requires texts_value { store_allowed texts.old ≡ true }
    ensures result_value { outcome_of result ≡ on_accepted length (sent_of (on_accepted (done own.number map.old texts.old) (read End.Thermostat bytes.now))) }
    ensures map_after { map.new ≡ map_of (on_accepted (done own.number map.old texts.old) (read End.Thermostat bytes.now)) map.old }
    ensures texts_after { texts.new ≡ texts_of (on_accepted (done own.number map.old texts.old) (read End.Thermostat bytes.now)) texts.old }
    ensures out_after { out.new ≡ out_after (sent_of (on_accepted (done own.number map.old texts.old) (read End.Thermostat bytes.now))) out.old }
{
    match omnistat::request::read(bytes)? {
        Request::Poll {
            first,
            start,
            count,
        } => on_poll(own, map, Texts { bytes: texts }, first, start, count, out),
        Request::Set {
            first,
            start,
            count,
        } => on_set(
            own,
            map,
            first,
            start,
            omnistat::request::values(bytes, count),
            out,
        ),
        Request::PollGroup { first, group } => on_group(own, map, first, group, out),
        Request::Text {
            first,
            half: _,
            start,
            count,
        } => on_text(
            own,
            texts,
            first,
            start,
            omnistat::request::values(bytes, count),
            out,
        ),
    }
}

// One step: a message in, the map and the text store changed, the reply out. The checks come in the paper's order: 9, 8, then the reader's
// answers.
pub fn step(
    own: u8,
    map: &mut [u8],
    texts: &mut [u8],
    bytes: &[u8],
    out: &mut [u8],
) -> Result<u32, Refusal>
    ensures result_value { outcome_of result ≡ on_accepted length (sent_of (step own map.old texts.old bytes.now (length out.old))) }
    ensures map_after { map.new ≡ map_of (step own map.old texts.old bytes.now (length out.old)) map.old }
    ensures texts_after { texts.new ≡ texts_of (step own map.old texts.old bytes.now (length out.old)) texts.old }
    ensures out_after { out.new ≡ out_after (sent_of (step own map.old texts.old bytes.now (length out.old))) out.old }
{
    if out.len() < LEAST_ROOM {
        return Err(Refusal::Room);
    }
    let Some(map) = map.as_mut_array::<REGISTERS>() else {
        return Err(Refusal::Room);
    };
    let Some(texts) = texts.as_mut_array::<TEXTS>() else {
        return Err(Refusal::Room);
    };
    let Some(own) = Address::new(own) else {
        return Err(Refusal::Field);
    };
    if !crate::texts::is_allowed(texts) {
        return Err(Refusal::Field);
    }
    act(own, map, texts, bytes, out)
}
