// Prints the listing of standard input, or only `refused 3` where that is above 4,096 bytes.
#![tactic(auto)]

ghost use Rattle.std.specs.Prelude.{◌≡◌, ◌++◌, ◌≤◌, length, drop};
ghost use Rattle.answer.specs.Answer.{refused};
ghost use Rattle.listing.specs.Text.{listing};
ghost use Rattle.capture.specs.Printed.{printed};

use std::io;

// One byte more than a capture may have.
const TOO_MUCH: usize = 4097;

// Enough for the listing of any capture: eight bytes for each of its bytes, and 25.
const ROOM: usize = 32793;

// Writes `refused 3` and a line feed to the start of the output, and answers how many bytes that are.
fn put_refusal(out: &mut [u8]) -> usize
    requires { 10 ≤ length out.old }
    ensures value { result ≡ length (printed (refused 3)) }
    ensures out_after { out.new ≡ printed (refused 3) ++ drop (length (printed (refused 3))) out.old }
{
    out[..10].copy_from_slice(b"refused 3\n");
    10
}

// Writes what is printed of a capture to the start of the output, and answers how many bytes that are.
fn report(bytes: &[u8], out: &mut [u8]) -> usize
    requires { 32793 ≤ length out.old }
    ensures value { result ≡ length (printed (listing bytes.now)) }
    ensures out_after { out.new ≡ printed (listing bytes.now) ++ drop (length (printed (listing bytes.now))) out.old }
    ensures upper_bound { result ≤ length out.old }
{
    match listing::write(bytes, out) {
        Ok(n) => n as usize,
        Err(_) => put_refusal(out),
    }
}

fn main(rt: HostRuntime) -> io::Result<()> {
    let mut capture = [0u8; TOO_MUCH];
    let n = input::read_to_end(&mut rt.stdin(), &mut capture);
    let mut text = [0u8; ROOM];
    let size = report(&capture[..n], &mut text);
    rt.write_all(&text[..size])
}
