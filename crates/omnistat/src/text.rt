// Texts: set and data messages that start at a text register. Their characters end at 03, and their length half-byte means nothing.
ghost use Rattle.std.specs.Prelude.{◌≡◌, true, ◌&&◌, [], ◌∷◌, ◌++◌, ◌≤◌, length};
ghost use Rattle.answer.specs.Answer.{outcome_of, accepted, on_accepted, in_room, out_after};
ghost use Rattle.answer.specs.Packed.{packed};
ghost use Rattle.omnistat.specs.Frame.{directed, address_of, summed};
ghost use Rattle.omnistat.specs.Register.{is_text};
ghost use Rattle.omnistat.specs.Text.{is_character, are_characters, most_characters, end_of_text, until_end, text_type, carries_text, read_text, text_allowed, write_text};
ghost use Rattle.omnistat.specs.Answer.{text_fields};
ghost use Rattle.omnistat.specs.Parts.{texted_in};

use crate::frame::{End, REPLY, put};
use answer::Refusal;

// The registers that hold text.
pub const FIRST_TEXT: u8 = 172;

pub const LAST_TEXT: u8 = 181;

// Characters are 20 to 7E, at most 60 of them; 03 ends them.
const FIRST_CHARACTER: u8 = 0x20;

const LAST_CHARACTER: u8 = 0x7E;

pub const MOST_CHARACTERS: usize = 60;

const END_OF_TEXT: u8 = 0x03;

// The greatest half of a byte.
const LAST_HALF: u8 = 15;

// The characters follow the address, the length and type, and the start register.
const CHARACTERS: usize = 3;

// A whole text: its address, its half-byte, its register and the count of its characters, which start at the fourth byte.
#[derive(Clone, Copy)]
pub(crate) struct Texted {
    pub address: u8,
    pub half: u8,
    pub start: u8,
    pub count: u8,
}

// Whether a register holds text.
pub fn is_text(r: u8) -> bool
    ensures { result ≡ is_text r }
{
    (FIRST_TEXT..=LAST_TEXT).contains(&r)
}

fn is_character(b: u8) -> bool
    ensures { result ≡ is_character b }
{
    (FIRST_CHARACTER..=LAST_CHARACTER).contains(&b)
}

// Whether all bytes are characters.
pub fn are_characters(bytes: &[u8]) -> bool
    ensures { result ≡ are_characters bytes.now }
{
    // With no way out of the loop, so that the compiler takes many bytes at once.
    let mut all = true;
    for b in bytes {
        all = all & is_character(*b);
    }
    all
}

// The type that carries text to this end: set or data.
pub(crate) fn text_type(end: End) -> u8
    ensures { result ≡ text_type end }
{
    match end {
        End::Thermostat => crate::request::SET,
        End::Host => crate::reply::DATA,
    }
}

// Whether a message to this end carries text, by its type and its third byte.
#[tactic(auto, unfolding(crate::specs::Text::carries_text))]
pub(crate) fn carries_text(end: End, bytes: &[u8]) -> bool
    ensures { result ≡ carries_text end bytes.now }
{
    bytes.len() >= CHARACTERS && bytes[1] % 16 == text_type(end) && is_text(bytes[2])
}

// How many bytes come before 03.
fn until_end(bytes: &[u8]) -> usize
    ensures { result ≡ until_end bytes.now }
{
    bytes
        .iter()
        .position(|b| *b == END_OF_TEXT)
        .unwrap_or(bytes.len())
}

// The address that a first byte stands for.
fn address_of(end: End, first: u8) -> u8
    requires { directed end first ≡ true }
    ensures { result ≡ address_of end first }
{
    match end {
        End::Thermostat => first,
        End::Host => first - REPLY,
    }
}

// Reads a text at this end.
pub(crate) fn read(end: End, bytes: &[u8]) -> Result<Texted, Refusal>
    requires { 3 ≤ length bytes.now }
    ensures { on_accepted (texted_in bytes.now) (outcome_of result) ≡ read_text end bytes.now }
{
    let first = bytes[0];
    if !crate::frame::is_directed(end, first) {
        return Err(Refusal::Start);
    }
    let count = until_end(crate::frame::part(bytes, CHARACTERS, MOST_CHARACTERS + 1));
    if MOST_CHARACTERS < count {
        return Err(Refusal::Field);
    }
    let past = count + CHARACTERS;
    let last = past + 1;
    if bytes.len() <= last {
        return Err(Refusal::Short);
    }
    if last + 1 < bytes.len() {
        return Err(Refusal::Long);
    }
    if !crate::frame::is_summed(bytes, last) {
        return Err(Refusal::Checksum);
    }
    if !are_characters(&bytes[CHARACTERS..past]) {
        return Err(Refusal::Field);
    }
    Ok(Texted {
        address: address_of(end, first),
        half: bytes[1] / 16,
        start: bytes[2],
        count: count as u8,
    })
}

// What is packed of a text: type, address, register, count and half-byte.
pub(crate) fn pack(end: End, bytes: &[u8]) -> u64
    requires { 3 ≤ length bytes.now }
    ensures { result ≡ packed (on_accepted (text_fields end) (read_text end bytes.now)) }
{
    match read(end, bytes) {
        Err(r) => answer::pack_refusal(r),
        Ok(t) => answer::pack([text_type(end), t.address, t.start, t.count, t.half]),
    }
}

// Whether a text may be written.
pub(crate) fn is_allowed(half: u8, start: u8, characters: &[u8]) -> bool
    ensures { result ≡ text_allowed (record { half = half; start = start; characters = characters.now }) }
{
    half <= LAST_HALF
        && is_text(start)
        && characters.len() <= MOST_CHARACTERS
        && are_characters(characters)
}

// Writes a text of these first two bytes and this register, with 03 and the sum, where there is room.
pub(crate) fn write(
    first: u8,
    second: u8,
    start: u8,
    characters: &[u8],
    out: &mut [u8],
) -> Result<u32, Refusal>
    requires { length characters.now ≤ most_characters }
    ensures result_value { outcome_of result ≡ on_accepted length (in_room (length out.old) (accepted (summed (first ∷ second ∷ start ∷ (characters.now ++ (end_of_text ∷ [])))))) }
    ensures out_after { out.new ≡ out_after (in_room (length out.old) (accepted (summed (first ∷ second ∷ start ∷ (characters.now ++ (end_of_text ∷ [])))))) out.old }
{
    let past = characters.len() + CHARACTERS;
    let last = past + 1;
    if out.len() <= last {
        return Err(Refusal::Room);
    }
    let sum = put(out, 0, &[first, second, start]);
    let sum = sum.wrapping_add(put(out, CHARACTERS, characters));
    out[past] = END_OF_TEXT;
    out[last] = sum.wrapping_add(END_OF_TEXT);
    Ok((last + 1) as u32)
}

// Writes a text to an address, with the lent characters and this length half-byte.
pub(crate) fn write_to(
    end: End,
    address: u8,
    half: u8,
    start: u8,
    characters: &[u8],
    out: &mut [u8],
) -> Result<u32, Refusal>
    ensures result_value { outcome_of result ≡ on_accepted length (in_room (length out.old) (write_text end address (record { half = half; start = start; characters = characters.now }))) }
    ensures out_after { out.new ≡ out_after (in_room (length out.old) (write_text end address (record { half = half; start = start; characters = characters.now }))) out.old }
{
    if !crate::frame::is_address(end, address) {
        return Err(Refusal::Field);
    }
    if !is_allowed(half, start, characters) {
        return Err(Refusal::Field);
    }
    let second = crate::frame::length_and_type(half as usize, text_type(end));
    let first = crate::frame::first_of(end, address);
    write(first, second, start, characters, out)
}
