// The model thermostat, temperatures, cost words and meter replies.
ghost use Rattle.std.specs.Prelude.{◌≡◌};
ghost use Rattle.answer.specs.Answer.{outcome_of};
ghost use Rattle.tally.specs.Total.{next_total};

use crate::omnistat2::{FIRST_TEXT, LAST_TEXT};
use crate::output::{self, Hex};
use crate::reading::{byte, first, rest, split};
use answer::Refusal;
use std::io;
use tally::Tally;

const REGISTERS: usize = 256;

// The most bytes of a reply.
const ROOM: usize = 65;

// The text store: ten texts of a count byte and 60 bytes, from register 172 up.
const TEXTS: usize = 610;

const TEXT: usize = 61;

// A map in which each register holds its own number.
fn numbered() -> [u8; REGISTERS] {
    std::array::from_fn(|register| register as u8)
}

// The registers of such a map that no longer hold their numbers.
fn changes(to: &impl Print, map: &[u8]) -> io::Result<()> {
    for (register, &byte) in map.iter().enumerate() {
        if usize::from(byte) != register {
            print!(to; ", register {register} is {byte}")?;
        }
    }
    Ok(())
}

// A store of ten texts with one character: 0 in the first, up to 9 in the last.
fn digits() -> [u8; TEXTS] {
    let mut texts = [0u8; TEXTS];
    for (text, digit) in texts.chunks_exact_mut(TEXT).zip(b'0'..=b'9') {
        text[0] = 1;
        text[1] = digit;
    }
    texts
}

// The texts of such a store that are no longer the digits: their bytes within their counts.
fn changed_texts(to: &impl Print, texts: &[u8]) -> io::Result<()> {
    let registers = FIRST_TEXT..=LAST_TEXT;
    for ((text, register), digit) in texts.chunks_exact(TEXT).zip(registers).zip(b'0'..=b'9') {
        let count = byte(text, 0);
        if count != 1 || byte(text, 1) != digit {
            let characters = Hex(first(rest(text, 1), usize::from(count)));
            print!(to; ", text {register} is{characters}")?;
        }
    }
    Ok(())
}

// Own address, then the message. The map starts with each register holding its number, the text store with a digit in each text.
pub(crate) fn step(to: &impl Print, bytes: &[u8]) -> io::Result<()> {
    let mut map = numbered();
    let mut texts = digits();
    let mut out = [0u8; ROOM];
    let own = byte(bytes, 0);
    let message = rest(bytes, 1);
    let answer = host::model::thermostat_step(own, &mut map, &mut texts, message, &mut out);
    match output::value(answer) {
        Ok(0) => print!(to; " silence")?,
        Ok(count) => print!(to; " reply{}", Hex(first(&out, count as usize)))?,
        Err(refused) => print!(to; "{refused}")?,
    }
    changes(to, &map)?;
    changed_texts(to, &texts)
}

// The temperature of each byte: the byte, degrees Celsius, degrees Fahrenheit.
pub(crate) fn temperatures(to: &impl Print) -> io::Result<()> {
    for byte in 0..=255 {
        let celsius = host::model::temperature_celsius(byte);
        let fahrenheit = f64::from(host::model::temperature_fahrenheit_tenths(byte)) / 10.0;
        print!(to; "\n{byte} {celsius:.1} {fahrenheit:.1}")?;
    }
    Ok(())
}

// A cost word, high byte first: the last two bytes.
pub(crate) fn cost(to: &impl Print, bytes: &[u8]) -> io::Result<()> {
    let word = bytes
        .iter()
        .fold(0u16, |word, &byte| word << 8 | u16::from(byte));
    print!(to; " word {word},")?;
    match output::value(host::cost::cost_millionths(word)) {
        Ok(millionths) => print!(to; " millionths {millionths}"),
        Err(refused) => print!(to; "{refused}"),
    }
}

// The answer of a tally with this total to a meter reply.
fn tallied(total: u64, reply: &[u8]) -> Result<u64, Refusal>
    ensures { outcome_of result ≡ next_total total reply.now }
{
    let mut t = Tally { total };
    tally::add_reply(&mut t, reply)
}

// A total of eight bytes, then a meter reply.
pub(crate) fn meter(to: &impl Print, bytes: &[u8]) -> io::Result<()> {
    let (total, reply) = split::<8>(bytes);
    match tallied(u64::from_be_bytes(total), reply) {
        Ok(total) => print!(to; " total {total}"),
        Err(refusal) => print!(to; " refused {}", u64::from(refusal)),
    }
}
