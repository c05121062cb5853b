// Places as far as they are settled, and the frames among them, which are kept with their offset in the capture.
ghost use Rattle.std.specs.Prelude.{◌≡◌, true, false, List, ◌++◌, ℕ, ◌+◌, ◌*◌, ◌<◌, ◌≤◌, length, get_or, take, drop, set};
ghost use Rattle.listing.specs.State.{settled};
ghost use Rattle.listing.specs.Parts.{Settles, Ends};

use crate::place::{FrameAt, is_settled, judge};
use crate::scan::Reached;
use link::frame::START;

// Whether so many bytes more leave the first unread place unsettled: its length byte has come, and its frame is not whole then.
pub(crate) fn is_waiting(unread: &[u8], more: usize) -> bool
    requires unread_len_bound { length unread.now ≤ 68 }
    requires more_bound { more ≤ 4096 }
    ensures { result ≡ true → settled unread.now ≡ false → (piece : List ℕ) → length piece ≡ more → settled (unread.now ++ piece) ≡ false }
{
    match unread {
        [_, l, ..] => unread.len() + more < usize::from(*l) + 4,
        _ => false,
    }
}

// Whether no byte starts a frame: all are noise, whatever follows.
pub(crate) fn is_noise(bytes: &[u8]) -> bool
    ensures { result ≡ true → (i : ℕ) → i < length bytes.now → get_or bytes.now i 0 ≡ 0x5A → ⊥ }
{
    bytes.iter().all(|b| *b != START)
}

// Judges the places before a limit as long as they are settled.
pub(crate) fn settle(bytes: &[u8], base: usize, limit: usize, found: &mut [FrameAt]) -> Reached
    requires bytes_bound { base + length bytes.now ≤ 4096 }
    requires limit_in_bounds { limit ≤ length bytes.now }
    requires bytes_len_bound { length bytes.now < 5 * (length found.old + 1) }
    ensures settles { (from : ℕ) → from ≤ base → Settles bytes.now base from (take result.count found.new) result.at }
    ensures counted { result.count ≤ length found.new }
    ensures stopped { result.at < limit → settled (drop result.at bytes.now) ≡ false }
{
    let mut at = 0;
    let mut count = 0;
    // No count: it goes on behind what stands at a place, which may be a frame.
    while at < limit && is_settled(&bytes[at..]) {
        match judge(bytes, at) {
            Some(frame) => {
                found[count] = frame.shifted(base);
                count += 1;
                at = frame.end();
            }
            None => at += 1,
        }
    }
    Reached { at, count }
}

// Judges the last bytes of a capture, of which the first place is not settled: as cut off, that is, such a place is noise. Answers how many
// frames are kept.
pub(crate) fn end(bytes: &[u8], base: usize, found: &mut [FrameAt]) -> usize
    requires bytes_bound { base + length bytes.now ≤ 4096 }
    requires bytes_len_bound { length bytes.now < 5 * (length found.old + 1) }
    requires bytes_value { settled bytes.now ≡ false }
    ensures ends { (from : ℕ) → from ≤ base → Ends bytes.now base from (take result found.new) (length bytes.now) }
    ensures counted { result ≤ length found.new }
{
    let mut at = 0;
    let mut n = 0;
    // No count: it goes on behind what was settled.
    while at < bytes.len() {
        let next = at + 1;
        let reached = settle(
            &bytes[next..],
            base + next,
            bytes.len() - next,
            &mut found[n..],
        );
        at = next + reached.at;
        n += reached.count;
    }
    n
}
