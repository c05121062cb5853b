// Omnistat2 messages, read at both ends.
use crate::output::{Hex, show};
use crate::reading::{byte, first, rest};
use std::io;

// The registers that hold text.
pub(crate) const FIRST_TEXT: u8 = 172;

pub(crate) const LAST_TEXT: u8 = 181;

// The habit of groups as printed.
const PRINTED: u8 = 1;

fn is_text(register: u8) -> bool {
    (FIRST_TEXT..=LAST_TEXT).contains(&register)
}

pub(crate) fn at_thermostat(to: &impl Print, bytes: &[u8]) -> io::Result<()> {
    let answer = host::omnistat2::omnistat_read_at_thermostat(bytes);
    show(to, answer, |[kind, address, start, count, half, ..]| {
        let values = Hex(first(rest(bytes, 3), usize::from(count)));
        match kind {
            0 => print!(to; " poll registers from {start}, count {count}")?,
            1 if is_text(start) => {
                print!(to; " text {start}, half-byte {half}, characters{values}")?
            }
            1 => print!(to; " set registers from {start}, count {count}, values{values}")?,
            2..=4 => print!(to; " poll group {}", kind - 1)?,
            _ => {}
        }
        print!(to; ", to {address:02X}")
    })
}

// A habit, the polled group, then the message.
pub(crate) fn at_host(to: &impl Print, bytes: &[u8]) -> io::Result<()> {
    let habit = byte(bytes, 0);
    let polled = byte(bytes, 1);
    let message = rest(bytes, 2);
    let answer = host::omnistat2::omnistat_read_at_host(habit, polled, message);
    show(to, answer, |[kind, number, start, count, half, ..]| {
        let values = Hex(first(rest(message, 3), usize::from(count)));
        let of_group = Hex(first(rest(message, 2), usize::from(count)));
        match kind {
            0 => print!(to; " acknowledge")?,
            1 => print!(to; " negative")?,
            2 if is_text(start) => {
                print!(to; " text {start}, half-byte {half}, characters{values}")?
            }
            2 => print!(to; " data registers from {start}, count {count}, values{values}")?,
            3 if habit == PRINTED => print!(to; " group {polled} as type 3, values{of_group}")?,
            3..=5 if habit != PRINTED => { print!(to; " group {}, values{of_group}", kind - 2)? }
            _ => {}
        }
        print!(to; ", from {number}")
    })
}
