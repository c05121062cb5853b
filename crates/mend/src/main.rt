// Mends standard input: prints the place of the flipped bit and the frame, or only the refusal (document 02, K8).
#![tactic(auto)]

ghost use Rattle.std.specs.Prelude.{◌≡◌, ◌++◌, ◌+◌, ◌*◌, ◌<◌, ◌≤◌, length, drop};
ghost use Rattle.answer.specs.Answer.{number_of};
ghost use Rattle.listing.specs.Parts.{Put};
ghost use Rattle.listing.specs.Text.{field, line_feed, refusal_text};
ghost use Rattle.mending.specs.Mending.{mend};
ghost use Rattle.mend.specs.Printed.{place_word, hex_digit, hex_field, hex_line, printed};
ghost use Rattle.mend.specs.Parts.{spaced};

use answer::Refusal;
use std::io;

// The longest frame.
const FRAME: usize = 69;

// One byte more: the frame reader looks at no later one.
const TOO_MUCH: usize = 70;

// Enough for any answer: ten bytes for the place, three for each byte of the frame.
const ROOM: usize = 217;

const SPACE: u8 = 0x20;

const LINE_FEED: u8 = 0x0A;

const ZERO: u64 = 0x30;

// The hex digit of a number below 16. By hand, as are the numbers below: of the bytes that a formatter writes no clause knows.
fn hex_digit(n: u8) -> u8
    requires { n < 16 }
    ensures { result ≡ hex_digit n }
{
    if n < 10 {
        return b'0' + n;
    }
    b'A' + (n - 10)
}

// Writes a byte in hex from an offset on, and the byte that closes it, and answers the offset behind them, as do the writers below.
fn put_hex(b: u8, closing: u8, out: &mut [u8], at: usize) -> usize
    requires { at + 3 ≤ length out.old }
    ensures { Put at (hex_field b closing) out.old out.new result }
{
    let high = hex_digit(b / 16);
    let low = hex_digit(b % 16);
    out[at] = high;
    out[at + 1] = low;
    out[at + 2] = closing;
    at + 3
}

// Writes bytes in hex from an offset on, each closed by a space.
fn put_spaced(bytes: &[u8], out: &mut [u8], at: usize) -> usize
    requires { at + 3 * length bytes.now ≤ length out.old }
    ensures { Put at (spaced bytes.now) out.old out.new result }
{
    let mut next = at;
    for b in bytes {
        next = put_hex(*b, SPACE, out, next);
    }
    next
}

// Writes the line of some bytes in hex from an offset on.
fn put_hex_line(bytes: &[u8], out: &mut [u8], at: usize) -> usize
    requires bytes_nonzero { 0 < length bytes.now }
    requires bytes_in_bounds { at + 3 * length bytes.now ≤ length out.old }
    ensures { Put at (hex_line bytes.now) out.old out.new result }
{
    let last = bytes.len() - 1;
    let next = put_spaced(&bytes[..last], out, at);
    put_hex(bytes[last], LINE_FEED, out, next)
}

// Writes a number of at most three digits from an offset on, and a line feed.
fn put_field(n: u64, out: &mut [u8], at: usize) -> usize
    requires n_bound { n < 1000 }
    requires at_in_bounds { at + 4 ≤ length out.old }
    ensures { Put at (field n line_feed) out.old out.new result }
{
    if n < 10 {
        out[at] = (ZERO + n) as u8;
        out[at + 1] = LINE_FEED;
        return at + 2;
    }
    if n < 100 {
        out[at] = (ZERO + n / 10) as u8;
        out[at + 1] = (ZERO + n % 10) as u8;
        out[at + 2] = LINE_FEED;
        return at + 3;
    }
    let low = n % 100;
    out[at] = (ZERO + n / 100) as u8;
    out[at + 1] = (ZERO + low / 10) as u8;
    out[at + 2] = (ZERO + low % 10) as u8;
    out[at + 3] = LINE_FEED;
    at + 4
}

// Writes the line that names a place to the start of the output.
fn put_place(place: u16, out: &mut [u8]) -> usize
    requires place_bound { place < 1000 }
    requires in_bounds { 10 ≤ length out.old }
    ensures { Put 0 (place_word ++ field place line_feed) out.old out.new result }
{
    out[..6].copy_from_slice(b"place ");
    put_field(u64::from(place), out, 6)
}

// Writes the line of a refusal to the start of the output.
fn put_refusal(r: Refusal, out: &mut [u8]) -> usize
    requires { 12 ≤ length out.old }
    ensures { Put 0 (refusal_text (number_of r)) out.old out.new result }
{
    out[..8].copy_from_slice(b"refused ");
    put_field(u64::from(r), out, 8)
}

// Writes the place and the frame, a line each, to the start of the output.
fn put_mended(place: u16, frame: &[u8], out: &mut [u8]) -> usize
    requires place_bound { place < 1000 }
    requires frame_nonzero { 0 < length frame.now }
    requires frame_in_bounds { 10 + 3 * length frame.now ≤ length out.old }
    ensures { Put 0 (place_word ++ (field place line_feed ++ hex_line frame.now)) out.old out.new result }
{
    let next = put_place(place, out);
    put_hex_line(frame, out, next)
}

// Writes what is printed of a capture to the start of the output, and answers how many bytes that are.
fn report(bytes: &[u8], out: &mut [u8]) -> usize
    requires { 217 ≤ length out.old }
    ensures value { result ≡ length (printed (mend bytes.now)) }
    ensures out_after { out.new ≡ printed (mend bytes.now) ++ drop (length (printed (mend bytes.now))) out.old }
    ensures upper_bound { result ≤ length out.old }
{
    let mut frame = [0u8; FRAME];
    match mending::mend(bytes, &mut frame) {
        Ok(mended) => {
            let n = usize::from(mended.count);
            put_mended(mended.place, &frame[..n], out)
        }
        Err(r) => put_refusal(r, out),
    }
}

fn main(rt: HostRuntime) -> io::Result<()> {
    let mut capture = [0u8; TOO_MUCH];
    let n = input::read_to_end(&mut rt.stdin(), &mut capture);
    let mut text = [0u8; ROOM];
    let size = report(&capture[..n], &mut text);
    rt.write_all(&text[..size])
}
