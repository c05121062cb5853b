// Runs the vectors on standard input, a line for each: the name of a call, then what it is given, in hex. Prints each line with the
// call's answer behind it; behind `cut` stand the three calls of a capture in two pieces, each with its own. A line that starts with no
// such name, as a comment, is printed as it is. The calls are those of the C interface, whose answers are packed numbers, but for
// meter replies, which are added in the tally's crate.
#![tactic(auto)]

mod calls; // the calls and their names
mod captures; // the listing, of a whole capture and in pieces
mod damaged; // damaged Omni-Link frames, mended
mod login; // the login door
mod model; // the model thermostat, temperatures, cost words and meter replies
mod omnilink; // Omni-Link frames and messages, read
mod omnistat2; // Omnistat2 messages, read
mod output; // bytes in hex and packed answers
mod patterns; // X-10 patterns
mod reading; // digits, and the parts of what a line gives
mod writers; // the calls that write frames and messages

use calls::Call;
use std::io;
use std::io::Read;

// The most bytes that are read.
const READ: u64 = 65536;

// Prints the answer of a call to the hex digits behind its name.
fn answer_call(to: &impl Print, call: Call, digits: &[u8]) -> io::Result<()> {
    let mut room = [0u8; reading::MOST];
    let bytes = match call {
        Call::ReadPlaces => reading::places(digits, &mut room),
        _ => reading::bytes(digits, &mut room),
    };
    match call {
        Call::ReadPlaces => patterns::read(to, bytes),
        Call::ReadFrame => omnilink::read_frame(to, bytes),
        Call::ReadMessage => omnilink::read_message(to, bytes),
        Call::AtThermostat => omnistat2::at_thermostat(to, bytes),
        Call::AtHost => omnistat2::at_host(to, bytes),
        Call::Step => model::step(to, bytes),
        Call::Temperatures => model::temperatures(to),
        Call::Cost => model::cost(to, bytes),
        Call::Meter => model::meter(to, bytes),
        Call::Listing => captures::list(to, bytes),
        Call::WriteUnit => patterns::write_unit(to, bytes),
        Call::WriteFunction => patterns::write_function(to, bytes),
        Call::WriteExtended => patterns::write_extended(to, bytes),
        Call::WriteFrame => writers::write_frame(to, bytes),
        Call::WriteMessage => writers::write_message(to, bytes),
        Call::ToThermostat => writers::to_thermostat(to, bytes),
        Call::ToHost => writers::to_host(to, bytes),
        Call::GroupToHost => writers::group_to_host(to, bytes),
        Call::TextToThermostat => writers::text_to_thermostat(to, bytes),
        Call::TextToHost => writers::text_to_host(to, bytes),
        Call::Cut => captures::cut(to, bytes),
        Call::Door => login::step(to, bytes),
        Call::Mend => damaged::mend(to, bytes),
    }
}

// Prints a line and the answer of the call that it names.
fn answer(to: &impl Print, line: &[u8]) -> io::Result<()> {
    to.write_all(line)?;
    if let Some((call, digits)) = calls::named(line) {
        print!(to; " =")?;
        answer_call(to, call, digits)?;
    }
    println!(to)
}

// Answers each line.
fn run(to: &impl Print, lines: &[u8]) -> io::Result<()> {
    for line in lines.split_inclusive(|&c| c == b'\n') {
        answer(to, line.strip_suffix(b"\n").unwrap_or(line))?;
    }
    Ok(())
}

fn main(rt: HostRuntime) -> io::Result<()> {
    let mut lines = [0u8; READ as usize];
    let n = input::read_to_end(&mut rt.stdin().take(READ), &mut lines);
    run(&rt, &lines[..n])
}
