// The login door.
use crate::output::{Hex, show};
use crate::reading::{byte, first, rest, split};
use std::io;

// Prints the answer to a message, and the state that it leaves.
fn answered(
    to: &impl Print,
    secret: &[u8],
    mut state: [u8; 4],
    seconds: u32,
    message: &[u8],
) -> io::Result<()> {
    let kind = byte(message, 0);
    let data = rest(message, 1);
    let answer = host::login::login_door(secret, &mut state, seconds, kind, data);
    show(to, answer, |[kind, ..]| print!(to; " {kind:02X}"))?;
    print!(to; ", state{}", Hex(&state))
}

// Secret, state and seconds of four bytes each, then a type and data bytes.
pub(crate) fn step(to: &impl Print, bytes: &[u8]) -> io::Result<()> {
    let secret = first(bytes, 4);
    let (state, bytes) = split::<4>(rest(bytes, 4));
    let (seconds, message) = split::<4>(bytes);
    answered(to, secret, state, u32::from_be_bytes(seconds), message)
}
