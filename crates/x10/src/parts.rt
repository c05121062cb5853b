// The parts of a pattern: the start code, house and key, the rest of an Extended 1.
ghost use Rattle.std.specs.Prelude.{◌≡◌, ◌<◌, ◌≤◌, ◌++◌, length};
ghost use Rattle.std.proofs.Math.Seq.{slice};
ghost use Rattle.std.proofs.lemmas.List.Edits.{sets};
ghost use Rattle.answer.specs.Answer.{refused, accepted, number_of, outcome_of, on_accepted, in_room, out_after};
ghost use Rattle.x10.specs.Codes.{extended1};
ghost use Rattle.x10.specs.Places.{are_places, start_code, starts_with};
ghost use Rattle.x10.specs.Answers.{message};
ghost use Rattle.x10.specs.Parts.{refused_key, refused_rest, Begins};
ghost use Rattle.x10.specs.Pattern.{read, read_function, read_rest, standard, extension};

use crate::codes::{EXTENDED_1, index_of};
use crate::pairs::{are_places, put, spelled};
use crate::{Function, Pattern};
use answer::Refusal;

// The places of a standard pattern, and of an Extended 1.
pub const STANDARD: usize = 22;

pub const EXTENDED: usize = 62;

// Where each part starts, after the start code.
const HOUSE: usize = 4;

const KEY: usize = 12;

const D16: usize = 20;

const UNIT: usize = 22;

const DATA: usize = 30;

const COMMAND: usize = 46;

// Whether the places begin with the start code.
fn starts(places: &[u8]) -> bool
    ensures { result ≡ starts_with start_code places.now }
{
    matches!(places, [1, 1, 1, 0, ..])
}

// What refuses the first 22 places where the start code or a complement is wrong: 8, 2, then 5.
fn key_refusal(places: &[u8]) -> Refusal
    requires { 22 ≤ length places.now }
    ensures { refused (number_of result) ≡ refused_key places.now }
{
    if !are_places(&places[..STANDARD]) {
        return Refusal::Field;
    }
    if !starts(places) {
        return Refusal::Start;
    }
    Refusal::Checksum
}

// What refuses the rest of an Extended 1 where a complement is wrong: 8, then 5.
#[inline(never)]
fn rest_refusal(places: &[u8]) -> Refusal
    requires { 62 ≤ length places.now }
    ensures { refused (number_of result) ≡ refused_rest places.now }
{
    if !are_places(&places[STANDARD..EXTENDED]) {
        return Refusal::Field;
    }
    Refusal::Checksum
}

// The codes that the first 22 places spell.
#[derive(Clone, Copy)]
pub(crate) struct Codes {
    pub house: u8,
    pub key: u8,
    pub d16: u8,
}

// House, key and D16; None where the start code or a complement is wrong.
fn codes_of(places: &[u8]) -> Option<Codes>
    requires { 22 ≤ length places.now }
    ensures { Begins places.now result }
{
    if !starts(places) {
        return None;
    }
    let house = spelled(places, HOUSE, 4)?;
    let key = spelled(places, KEY, 4)?;
    let d16 = spelled(places, D16, 1)?;
    Some(Codes { house, key, d16 })
}

// The first 22 places: 8, 2 or 5, then by the key.
pub(crate) fn read_key(places: &[u8]) -> Result<Pattern, Refusal>
    requires { 22 ≤ length places.now }
    ensures { on_accepted message (outcome_of result) ≡ read places.now }
{
    let Some(codes) = codes_of(places) else {
        return Err(key_refusal(places));
    };
    if codes.d16 == 1 {
        return read_function(places, codes.house, codes.key);
    }
    if places.len() > STANDARD {
        return Err(Refusal::Long);
    }
    Ok(Pattern::Unit {
        house: index_of(codes.house),
        unit: index_of(codes.key) + 1,
    })
}

// A key with D16 1: Extended 1, or 6, then 4.
fn read_function(places: &[u8], house: u8, key: u8) -> Result<Pattern, Refusal>
    requires { house < 16 }
    ensures { on_accepted message (outcome_of result) ≡ read_function places.now house key }
{
    if key == EXTENDED_1 {
        return read_rest(places, house);
    }
    let function = Function::try_from(key)?;
    if STANDARD < places.len() {
        return Err(Refusal::Long);
    }
    Ok(Pattern::Function {
        house: index_of(house),
        function,
    })
}

// The rest of an Extended 1: 1, 8 or 5, then 4.
fn read_rest(places: &[u8], house: u8) -> Result<Pattern, Refusal>
    requires { house < 16 }
    ensures { on_accepted message (outcome_of result) ≡ read_rest places.now house }
{
    if places.len() < EXTENDED {
        return Err(Refusal::Short);
    }
    let Some(key) = spelled(places, UNIT, 4) else {
        return Err(rest_refusal(places));
    };
    let Some(data) = spelled(places, DATA, 8) else {
        return Err(rest_refusal(places));
    };
    let Some(command) = spelled(places, COMMAND, 8) else {
        return Err(rest_refusal(places));
    };
    if EXTENDED < places.len() {
        return Err(Refusal::Long);
    }
    Ok(Pattern::Extended {
        house: index_of(house),
        unit: index_of(key) + 1,
        data,
        command,
    })
}

// Puts the 22 places of a standard pattern.
fn put_standard(out: &mut [u8], house: u8, key: u8, d16: u8)
    requires { 22 ≤ length out.old }
    ensures { out.new ≡ sets out.old 0 (standard house key d16) }
{
    out[0] = 1;
    out[1] = 1;
    out[2] = 1;
    out[3] = 0;
    put(out, HOUSE, house, 4);
    put(out, KEY, key, 4);
    put(out, D16, d16, 1);
}

// Writes a standard pattern of codes: 9, then its places.
pub(crate) fn write_standard(house: u8, key: u8, d16: u8, out: &mut [u8]) -> Result<u32, Refusal>
    ensures result_value { outcome_of result ≡ on_accepted length (in_room (length out.old) (accepted (standard house key d16))) }
    ensures out_after { out.new ≡ out_after (in_room (length out.old) (accepted (standard house key d16))) out.old }
{
    if out.len() < STANDARD {
        return Err(Refusal::Room);
    }
    put_standard(out, house, key, d16);
    Ok(22)
}

// Writes an Extended 1 of codes: 9, then its places.
pub(crate) fn write_long(
    house: u8,
    key: u8,
    data: u8,
    command: u8,
    out: &mut [u8],
) -> Result<u32, Refusal>
    ensures result_value { outcome_of result ≡ on_accepted length (in_room (length out.old) (accepted (standard house extended1 1 ++ extension key «data» command))) }
    ensures out_after { out.new ≡ out_after (in_room (length out.old) (accepted (standard house extended1 1 ++ extension key «data» command))) out.old }
{
    if out.len() < EXTENDED {
        return Err(Refusal::Room);
    }
    put_standard(out, house, EXTENDED_1, 1);
    put(out, UNIT, key, 4);
    put(out, DATA, data, 8);
    put(out, COMMAND, command, 8);
    Ok(62)
}
