// The text of the lines: how long each is, and writing it from a place on; a writer answers the place behind what it wrote.
ghost use Rattle.std.specs.Prelude.{◌≡◌, ◌+◌, ◌<◌, ◌≤◌, length};
ghost use Rattle.listing.specs.Lines.{noise, end};
ghost use Rattle.listing.specs.Text.{line_text, field};
ghost use Rattle.listing.specs.Parts.{Put, line_of, run_text};

use crate::decimal::{digit_count, put_number};
use crate::place::FrameAt;
use link::copying::copy;

const SPACE: u8 = 0x20;

const LINE_FEED: u8 = 0x0A;

// The size of a run's line: none where the run is empty.
pub(crate) fn run_size(offset: usize, count: usize) -> usize
    requires offset_bound { offset < 10000 }
    requires count_bound { count < 10000 }
    ensures { result ≡ length (run_text offset count) }
{
    if count == 0 {
        return 0;
    }
    digit_count(offset) + digit_count(count) + 8
}

pub(crate) fn frame_size(frame: FrameAt) -> usize
    requires { frame.offset < 10000 }
    ensures { result ≡ length (line_text (line_of frame)) }
{
    digit_count(usize::from(frame.offset))
        + digit_count(usize::from(frame.count))
        + digit_count(usize::from(frame.kind))
        + 9
}

pub(crate) fn end_size(offset: usize) -> usize
    requires { offset < 10000 }
    ensures { result ≡ length (line_text («end» offset)) }
{
    digit_count(offset) + 5
}

// Writes a word with the space behind it.
fn put_word(word: &[u8], out: &mut [u8], at: usize) -> usize
    requires { at + length word.now ≤ length out.old }
    ensures { Put at word.now out.old out.new result }
{
    let end = at + word.len();
    copy(word, &mut out[at..end]);
    end
}

// Writes a number, and the byte that closes it.
fn put_field(n: usize, closing: u8, out: &mut [u8], at: usize) -> usize
    requires n_bound { n < 10000 }
    requires closing_in_bounds { at + length (field n closing) ≤ length out.old }
    ensures { Put at (field n closing) out.old out.new result }
{
    let next = put_number(n, out, at);
    out[next] = closing;
    next + 1
}

fn put_noise(offset: usize, count: usize, out: &mut [u8], at: usize) -> usize
    requires offset_bound { offset < 10000 }
    requires count_bound { count < 10000 }
    requires count_in_bounds { at + length (line_text (noise offset count)) ≤ length out.old }
    ensures { Put at (line_text (noise offset count)) out.old out.new result }
{
    let first = put_word(b"noise ", out, at);
    let second = put_field(offset, SPACE, out, first);
    put_field(count, LINE_FEED, out, second)
}

// Writes a run's line: none where the run is empty.
pub(crate) fn put_run(offset: usize, count: usize, out: &mut [u8], at: usize) -> usize
    requires offset_bound { offset < 10000 }
    requires count_bound { count < 10000 }
    requires count_in_bounds { at + length (run_text offset count) ≤ length out.old }
    ensures { Put at (run_text offset count) out.old out.new result }
{
    if count == 0 {
        return at;
    }
    put_noise(offset, count, out, at)
}

pub(crate) fn put_frame(frame: FrameAt, out: &mut [u8], at: usize) -> usize
    requires frame_bound { frame.offset < 10000 }
    requires frame_in_bounds { at + length (line_text (line_of frame)) ≤ length out.old }
    ensures { Put at (line_text (line_of frame)) out.old out.new result }
{
    let first = put_word(b"frame ", out, at);
    let second = put_field(usize::from(frame.offset), SPACE, out, first);
    let third = put_field(usize::from(frame.count), SPACE, out, second);
    put_field(usize::from(frame.kind), LINE_FEED, out, third)
}

pub(crate) fn put_end(offset: usize, out: &mut [u8], at: usize) -> usize
    requires offset_bound { offset < 10000 }
    requires offset_in_bounds { at + length (line_text («end» offset)) ≤ length out.old }
    ensures { Put at (line_text («end» offset)) out.old out.new result }
{
    let first = put_word(b"end ", out, at);
    put_field(offset, LINE_FEED, out, first)
}
