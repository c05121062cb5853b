// The capture from the left: runs of noise, and the frames between them, which are kept.
ghost use Rattle.std.specs.Prelude.{◌+◌, ◌*◌, ◌<◌, ◌≤◌, length};
ghost use Rattle.listing.specs.Parts.{Stands, Next, Found};

use crate::place::{FrameAt, judge};

// A stretch of the capture, in bytes: what one chain of calls goes through, so that the stack stays small. It holds at most five
// frames with noise between them.
const STRETCH: usize = 30;

// The first frame from an offset on: what lies before it is noise.
fn next_frame(bytes: &[u8], from: usize) -> Option<FrameAt>
    requires bytes_len_bound { length bytes.now ≤ 4096 }
    requires from_in_bounds { from ≤ length bytes.now }
    ensures { Next bytes.now from result }
{
    for at in from..bytes.len() {
        if let Some(frame) = judge(bytes, at) {
            return Some(frame);
        }
    }
    None
}

// How far the search got: the offset from which on nothing is judged yet, and how many frames are kept.
#[derive(Clone, Copy)]
pub(crate) struct Reached {
    pub(crate) at: usize,
    pub(crate) count: usize,
}

// Keeps a frame and those that join it, up to a noise byte or the limit.
fn keep_joined(
    bytes: &[u8],
    first: FrameAt,
    found: &mut [FrameAt],
    n: usize,
    limit: usize,
) -> Reached
    requires bytes_len_bound { length bytes.now ≤ 4096 }
    requires bytes_len_bound_2 { length bytes.now < 5 * (length found.old + 1) }
    requires limit_in_bounds { limit ≤ length bytes.now }
    requires found_2 { Found bytes.now found.old n first.offset }
    requires stands { Stands bytes.now first }
    ensures found { Found bytes.now found.new result.count result.at }
    ensures forward { first.offset < result.at }
{
    let mut taken = first;
    let mut count = n;
    // No count of turns: it keeps frames as long as they join.
    loop {
        found[count] = taken;
        count += 1;
        let from = taken.end();
        if limit <= from {
            return Reached { at: from, count };
        }
        let Some(next) = judge(bytes, from) else {
            return Reached {
                at: from + 1,
                count,
            };
        };
        taken = next;
    }
}

// Passes over a run of noise, and hands over to the frame behind it; at the end there is none. That `noise` and `frame` call each
// other is the form that document 01 names.
#[cycle(frame_noise)]
fn noise(bytes: &[u8], from: usize, found: &mut [FrameAt], n: usize, limit: usize) -> Reached
    requires bytes_len_bound { length bytes.now ≤ 4096 }
    requires bytes_len_bound_2 { length bytes.now < 5 * (length found.old + 1) }
    requires limit_in_bounds { limit ≤ length bytes.now }
    requires from_in_bounds { from < length bytes.now }
    requires found_2 { Found bytes.now found.old n from }
    ensures found { Found bytes.now found.new result.count result.at }
    ensures forward { from < result.at }
{
    match next_frame(bytes, from) {
        Some(first) => frame(bytes, first, found, n, limit),
        None => Reached {
            at: bytes.len(),
            count: n,
        },
    }
}

// Takes a frame and those that join it, and hands back to the noise behind them; at the limit, where the stretch ends, there is none.
#[cycle(frame_noise)]
fn frame(bytes: &[u8], first: FrameAt, found: &mut [FrameAt], n: usize, limit: usize) -> Reached
    requires bytes_len_bound { length bytes.now ≤ 4096 }
    requires bytes_len_bound_2 { length bytes.now < 5 * (length found.old + 1) }
    requires limit_in_bounds { limit ≤ length bytes.now }
    requires found_2 { Found bytes.now found.old n first.offset }
    requires stands { Stands bytes.now first }
    ensures found { Found bytes.now found.new result.count result.at }
    ensures forward { first.offset < result.at }
{
    let reached = keep_joined(bytes, first, found, n, limit);
    if limit <= reached.at {
        return reached;
    }
    noise(bytes, reached.at, found, reached.count, limit)
}

// Where the stretch from an offset ends at the latest.
fn stretch_end(at: usize, len: usize) -> usize
    requires { at ≤ len }
    ensures { result ≤ len }
{
    at + STRETCH.min(len - at)
}

// Finds the frames of a capture stretch by stretch, keeps them in order, and answers how many there are. The list is long enough for
// any capture of that length: a frame has at least 5 bytes. Lent as `&bytes[..]`, the capture reaches this function in registers.
pub(crate) fn find(bytes: &[u8], found: &mut [FrameAt]) -> usize
    requires bytes_len_bound { length bytes.now ≤ 4096 }
    requires bytes_len_bound_2 { length bytes.now < 5 * (length found.old + 1) }
    ensures { Found bytes.now found.new result (length bytes.now) }
{
    let mut at = 0;
    let mut n = 0;
    // No count: it goes on from where a stretch ended.
    while at < bytes.len() {
        let reached = noise(&bytes[..], at, found, n, stretch_end(at, bytes.len()));
        at = reached.at;
        n = reached.count;
    }
    n
}
