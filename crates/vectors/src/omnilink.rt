// Omni-Link frames and messages, read.
use crate::output::{Hex, show};
use crate::reading::{byte, first, rest};
use std::io;

const CONDITIONS: [&str; 3] = ["secure", "not ready", "trouble"];

const LATCHED_ALARMS: [&str; 3] = ["secure", "tripped", "reset"];

const ARMINGS: [&str; 4] = [
    "disarmed",
    "armed",
    "bypassed by user",
    "bypassed by system",
];

// The name of a number that counts from 0.
fn name(names: &[&'static str], number: u8) -> &'static str {
    names.get(usize::from(number)).copied().unwrap_or("")
}

pub(crate) fn read_frame(to: &impl Print, bytes: &[u8]) -> io::Result<()> {
    let answer = host::omnilink::omnilink_frame_read(bytes);
    show(to, answer, |[kind, count, ..]| {
        let no = if count == 0 { "no " } else { "" };
        let data = Hex(first(rest(bytes, 3), usize::from(count)));
        print!(to; " type {kind:02X}, {no}data{data}")
    })
}

pub(crate) fn read_message(to: &impl Print, bytes: &[u8]) -> io::Result<()> {
    let answer = host::messages::omnilink_message_read(bytes);
    show(
        to,
        answer,
        |[kind, count, ..]| message(to, kind, count, bytes),
    )
}

// A message by its type, with so many items.
fn message(to: &impl Print, kind: u8, count: u8, bytes: &[u8]) -> io::Result<()> {
    match kind {
        0x05 => print!(to; " acknowledge"),
        0x06 => print!(to; " negative acknowledge"),
        0x0D => print!(to; " upload event log"),
        0x0E => log_entry(to, bytes),
        0x0F => command(to, bytes),
        0x11 => print!(to; " request system information"),
        0x13 => print!(to; " request system status"),
        0x15 => print!(to; " request zones {} {}", byte(bytes, 3), byte(bytes, 4)),
        0x16 => zones(to, bytes, count),
        0x20 => login(to, bytes),
        0x21 => print!(to; " logout"),
        0x22 => print!(to; " request system events"),
        0x23 => events(to, bytes, count),
        0x25 => text_messages(to, bytes, count),
        _ => Ok(()),
    }
}

// The fields of a log entry, 16 bits each.
fn log_entry(to: &impl Print, bytes: &[u8]) -> io::Result<()> {
    print!(to; " log entry")?;
    for i in 0..9 {
        let answer = host::messages::omnilink_log_entry(bytes, i);
        show(to, answer, |[low, high, ..]| {
            let field = u16::from_le_bytes([low, high]);
            print!(to; " {field}")
        })?;
    }
    Ok(())
}

fn login(to: &impl Print, bytes: &[u8]) -> io::Result<()> {
    print!(to; " login")?;
    for i in 3..7 {
        print!(to; " {}", byte(bytes, i))?;
    }
    Ok(())
}

fn events(to: &impl Print, bytes: &[u8], count: u8) -> io::Result<()> {
    print!(to; " events")?;
    for i in 0..usize::from(count) {
        let answer = host::messages::omnilink_event(bytes, i);
        show(
            to,
            answer,
            |[low, high, ..]| print!(to; " {high:02X}{low:02X}"),
        )?;
    }
    Ok(())
}

fn text_messages(to: &impl Print, bytes: &[u8], count: u8) -> io::Result<()> {
    print!(to; " text messages")?;
    for i in 0..usize::from(count) {
        let answer = host::messages::omnilink_text_message(bytes, i);
        show(to, answer, |[displayed, not_acknowledged, ..]| {
            let displayed = if displayed == 0 { "-" } else { "d" };
            let not_acknowledged = if not_acknowledged == 0 { "-" } else { "n" };
            print!(to; " {displayed}{not_acknowledged}")
        })?;
    }
    Ok(())
}

// A command by its number, with what it goes to.
fn target(command: u8) -> &'static str {
    match command {
        0 => " off unit",
        1 => " on unit",
        2 => " all off area",
        3 => " all on area",
        9 => " lighting level unit",
        10 => " decrement counter",
        11 => " increment counter",
        12 => " set counter",
        _ => "",
    }
}

fn command(to: &impl Print, bytes: &[u8]) -> io::Result<()> {
    let answer = host::messages::omnilink_command(bytes);
    show(to, answer, |[command, unit, count, low, high, ..]| {
        print!(to; "{} {}", target(command), u16::from_le_bytes([low, high]))?;
        match (command, unit) {
            (9, _) => print!(to; ", {count} percent"),
            (12, _) => print!(to; ", {count} as value"),
            (_, 1) => print!(to; ", {count} seconds"),
            (_, 2) => print!(to; ", {count} minutes"),
            (_, 3) => print!(to; ", {count} hours"),
            _ => Ok(()),
        }
    })
}

fn zones(to: &impl Print, bytes: &[u8], count: u8) -> io::Result<()> {
    print!(to; " zones")?;
    for i in 0..usize::from(count) {
        let answer = host::messages::omnilink_zone(bytes, i);
        show(
            to,
            answer,
            |[condition, latched, arming, trouble, reading, ..]| {
                let condition = name(&CONDITIONS, condition);
                let latched = name(&LATCHED_ALARMS, latched);
                let arming = name(&ARMINGS, arming);
                print!(to; "; {condition}, {latched}, {arming}")?;
                if trouble != 0 {
                    print!(to; ", unacknowledged trouble")?;
                }
                print!(to; ", loop {reading}")
            },
        )?;
    }
    Ok(())
}
