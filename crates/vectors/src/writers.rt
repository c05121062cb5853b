// The calls that write Omni-Link frames and messages and Omnistat2 messages.
use crate::output::{self, Hex};
use crate::reading::{byte, first, rest};
use host::omnistat2;
use std::io;

// More than a frame or a message has.
const ROOM: usize = 80;

// What a call wrote to its output.
fn written<F: FnOnce(&mut [u8]) -> u64>(to: &impl Print, write: F) -> io::Result<()>
    requires { F.IsAlwaysCallable write }
{
    let mut out = [0u8; ROOM];
    match output::value(write(&mut out)) {
        Ok(count) => print!(to; "{}", Hex(first(&out, count as usize))),
        Err(refused) => print!(to; "{refused}"),
    }
}

// A type, then data bytes.
pub(crate) fn write_frame(to: &impl Print, bytes: &[u8]) -> io::Result<()> {
    let (kind, data) = (byte(bytes, 0), rest(bytes, 1));
    written(
        to,
        |out| host::omnilink::omnilink_frame_write(kind, data, out),
    )
}

// A type, then data bytes.
pub(crate) fn write_message(to: &impl Print, bytes: &[u8]) -> io::Result<()> {
    let (kind, data) = (byte(bytes, 0), rest(bytes, 1));
    written(
        to,
        |out| host::messages::omnilink_message_write(kind, data, out),
    )
}

// An address and a type, then data bytes.
pub(crate) fn to_thermostat(to: &impl Print, bytes: &[u8]) -> io::Result<()> {
    let (address, kind, data) = (byte(bytes, 0), byte(bytes, 1), rest(bytes, 2));
    written(
        to,
        |out| omnistat2::omnistat_write_to_thermostat(address, kind, data, out),
    )
}

// A habit, the polled group, a number and a type, then data bytes.
pub(crate) fn to_host(to: &impl Print, bytes: &[u8]) -> io::Result<()> {
    let (habit, polled) = (byte(bytes, 0), byte(bytes, 1));
    let (number, kind, data) = (byte(bytes, 2), byte(bytes, 3), rest(bytes, 4));
    written(
        to,
        |out| omnistat2::omnistat_write_to_host(habit, polled, number, kind, data, out),
    )
}

// A habit, the polled group, a number and a group, then values.
pub(crate) fn group_to_host(to: &impl Print, bytes: &[u8]) -> io::Result<()> {
    let (habit, polled) = (byte(bytes, 0), byte(bytes, 1));
    let (number, group, values) = (byte(bytes, 2), byte(bytes, 3), rest(bytes, 4));
    written(to, |out| {
        omnistat2::omnistat_write_group_to_host(habit, polled, number, group, values, out)
    })
}

// An address, a length half-byte and a text register, then characters.
pub(crate) fn text_to_thermostat(to: &impl Print, bytes: &[u8]) -> io::Result<()> {
    let (address, half, register, text) = (
        byte(bytes, 0),
        byte(bytes, 1),
        byte(bytes, 2),
        rest(bytes, 3),
    );
    written(to, |out| {
        omnistat2::omnistat_write_text_to_thermostat(address, half, register, text, out)
    })
}

// A number, a length half-byte and a text register, then characters.
pub(crate) fn text_to_host(to: &impl Print, bytes: &[u8]) -> io::Result<()> {
    let (number, half, register, text) = (
        byte(bytes, 0),
        byte(bytes, 1),
        byte(bytes, 2),
        rest(bytes, 3),
    );
    written(
        to,
        |out| omnistat2::omnistat_write_text_to_host(number, half, register, text, out),
    )
}
