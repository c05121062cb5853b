// The capture listing, of a whole capture and in pieces.
use crate::output;
use crate::reading::{byte, first, rest};
use std::io;

// More than the listing of a line's bytes has.
const ROOM: usize = 4096;

const STATE: usize = 74;

// What a call wrote to its output, from a line of its own on.
fn listed<F: FnOnce(&mut [u8]) -> u64>(to: &impl Print, write: F) -> io::Result<()>
    requires { F.IsAlwaysCallable write }
{
    let mut out = [0u8; ROOM];
    match output::value(write(&mut out)) {
        Ok(count) => {
            println!(to)?;
            to.write_all(first(&out, count as usize))
        }
        Err(refused) => print!(to; "{refused}"),
    }
}

pub(crate) fn list(to: &impl Print, bytes: &[u8]) -> io::Result<()> {
    listed(to, |out| host::captures::capture_listing(bytes, out))
}

fn piece(to: &impl Print, state: &mut [u8], bytes: &[u8]) -> io::Result<()> {
    print!(to; "piece")?;
    listed(to, |out| host::captures::capture_piece(state, bytes, out))
}

fn finish(to: &impl Print, state: &mut [u8]) -> io::Result<()> {
    print!(to; "finish")?;
    listed(to, |out| host::captures::capture_finish(state, out))
}

// The size of the first piece, then a capture: in two pieces, and then the finishing call.
pub(crate) fn cut(to: &impl Print, bytes: &[u8]) -> io::Result<()> {
    let capture = rest(bytes, 1);
    let size = usize::from(byte(bytes, 0));
    let mut state = [0u8; STATE];
    println!(to)?;
    piece(to, &mut state, first(capture, size))?;
    piece(to, &mut state, rest(capture, size))?;
    finish(to, &mut state)
}
