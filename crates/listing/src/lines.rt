// The lines of the frames that were found, and of the noise between and behind them: their size, and writing them.
ghost use Rattle.std.specs.Prelude.{◌≡◌, ◌+◌, ◌<◌, ◌≤◌, leb, length};
ghost use Rattle.listing.specs.Parts.{Put, Within, pair_text, frames_text, last_end, found_text};

use crate::place::FrameAt;
use crate::text::{end_size, frame_size, put_end, put_frame, put_run, run_size};

// A bound for a frame's line, 21 bytes with each number of at most four digits, and the noise line before it, 16.
const ROOM_PER_FRAME: usize = 37;

// The size of a frame's line, with the noise from an offset up to it.
fn pair_size(from: usize, frame: FrameAt) -> usize
    requires from_bound { from ≤ frame.offset }
    requires frame_bound { frame.offset < 10000 }
    ensures { result ≡ length (pair_text from frame) }
{
    let at = usize::from(frame.offset);
    run_size(from, at - from) + frame_size(frame)
}

fn put_pair(from: usize, frame: FrameAt, out: &mut [u8], place: usize) -> usize
    requires from_bound { from ≤ frame.offset }
    requires frame_bound { frame.offset < 10000 }
    requires frame_in_bounds { place + length (pair_text from frame) ≤ length out.old }
    ensures { Put place (pair_text from frame) out.old out.new result }
{
    let at = usize::from(frame.offset);
    let next = put_run(from, at - from, out, place);
    put_frame(frame, out, next)
}

// The size of the text of the frames from an offset on, with the noise before each.
fn frames_size(found: &[FrameAt], from: usize) -> usize
    requires within { Within from found.now 4096 }
    requires found_len_bound { length found.now ≤ 4096 }
    ensures { result ≡ length (frames_text from found.now) }
{
    let mut size = 0;
    let mut at = from;
    for frame in found {
        size += pair_size(at, *frame);
        at = frame.end();
    }
    size
}

// Whether the lines of frames fit a room. They are measured only where the room is not enough for so many
// frames, whatever they are.
pub(crate) fn frames_fit(found: &[FrameAt], from: usize, room: usize) -> bool
    requires within { Within from found.now 4096 }
    requires found_len_bound { length found.now ≤ 4096 }
    ensures { result ≡ leb (length (frames_text from found.now)) room }
{
    ROOM_PER_FRAME * found.len() <= room || frames_size(found, from) <= room
}

// The end of the last frame; where there is none, the offset from which on frames were looked for.
pub(crate) fn last_end(found: &[FrameAt], from: usize) -> usize
    ensures { result ≡ last_end from found.now }
{
    match found {
        [.., last] => last.end(),
        [] => from,
    }
}

// The size of the listing's text from an offset on.
pub(crate) fn text_size(found: &[FrameAt], from: usize, len: usize) -> usize
    requires len_bound { len ≤ 4096 }
    requires within { Within from found.now len }
    requires found_len_bound { length found.now ≤ 4096 }
    ensures { result ≡ length (found_text from found.now len) }
{
    let last = last_end(found, from);
    frames_size(found, from) + run_size(last, len - last) + end_size(len)
}

// Writes the text of the frames from an offset on, with the noise before each, which is known to fit, and answers its size.
pub(crate) fn put_frames(found: &[FrameAt], from: usize, out: &mut [u8]) -> usize
    requires within { Within from found.now 4096 }
    requires found_in_bounds { length (frames_text from found.now) ≤ length out.old }
    ensures { Put 0 (frames_text from found.now) out.old out.new result }
{
    let mut place = 0;
    let mut at = from;
    for frame in found {
        place = put_pair(at, *frame, out, place);
        at = frame.end();
    }
    place
}

// Writes the listing's text from an offset on, which is known to fit, and answers its size.
pub(crate) fn put_listing(found: &[FrameAt], from: usize, len: usize, out: &mut [u8]) -> usize
    requires len_bound { len ≤ 4096 }
    requires within { Within from found.now len }
    requires len_in_bounds { length (found_text from found.now len) ≤ length out.old }
    ensures { Put 0 (found_text from found.now len) out.old out.new result }
{
    let last = last_end(found, from);
    let place = put_frames(found, from, out);
    let next = put_run(last, len - last, out, place);
    put_end(len, out, next)
}
