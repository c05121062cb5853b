// X-10 patterns.
use crate::output::{self, show};
use crate::reading::{byte, first};
use std::io;

// The places of an Extended 1.
const ROOM: usize = 62;

// The kinds of patterns with a function, and with data and a command.
const FUNCTION: u8 = 1;

const EXTENDED: u8 = 2;

// A function by its code, D8 D4 D2 D1.
fn function(code: u8) -> &'static str {
    match code {
        0 => " all units off",
        1 => " all lights on",
        2 => " on",
        3 => " off",
        4 => " dim",
        5 => " bright",
        6 => " all lights off",
        8 => " hail request",
        9 => " hail acknowledge",
        13 => " status on",
        14 => " status off",
        15 => " status request",
        _ => "",
    }
}

pub(crate) fn read(to: &impl Print, places: &[u8]) -> io::Result<()> {
    let answer = host::patterns::x10_read(places);
    show(to, answer, |[kind, house, key, data, command, ..]| {
        let letter = char::from(b'A' + house % 16);
        print!(to; " house {letter}")?;
        match kind {
            FUNCTION => print!(to; "{}", function(key)),
            EXTENDED => print!(to; " unit {key} data {data:02X} command {command:02X}"),
            _ => print!(to; " unit {key}"),
        }
    })
}

// Places, with a blank where a part of the pattern ends: start, house, key, unit, data.
fn list(to: &impl Print, places: &[u8]) -> io::Result<()> {
    for (i, place) in places.iter().enumerate() {
        if matches!(i, 4 | 12 | 22 | 30 | 46) {
            print!(to; " ")?;
        }
        print!(to; "{place}")?;
    }
    Ok(())
}

// What a call wrote to its output, and what is read from that.
fn written<F: FnOnce(&mut [u8]) -> u64>(to: &impl Print, write: F) -> io::Result<()>
    requires { F.IsAlwaysCallable write }
{
    let mut out = [0u8; ROOM];
    match output::value(write(&mut out)) {
        Ok(count) => {
            let places = first(&out, count as usize);
            print!(to; " ")?;
            list(to, places)?;
            print!(to; " reads")?;
            read(to, places)
        }
        Err(refused) => print!(to; "{refused}"),
    }
}

// House and unit.
pub(crate) fn write_unit(to: &impl Print, bytes: &[u8]) -> io::Result<()> {
    let (house, unit) = (byte(bytes, 0), byte(bytes, 1));
    written(to, |out| host::patterns::x10_write_unit(house, unit, out))
}

// House and function code.
pub(crate) fn write_function(to: &impl Print, bytes: &[u8]) -> io::Result<()> {
    let (house, code) = (byte(bytes, 0), byte(bytes, 1));
    written(
        to,
        |out| host::patterns::x10_write_function(house, code, out),
    )
}

// House, unit, data and command.
pub(crate) fn write_extended(to: &impl Print, bytes: &[u8]) -> io::Result<()> {
    let (house, unit, data, command) = (
        byte(bytes, 0),
        byte(bytes, 1),
        byte(bytes, 2),
        byte(bytes, 3),
    );
    written(
        to,
        |out| host::patterns::x10_write_extended(house, unit, data, command, out),
    )
}
