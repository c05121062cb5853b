// The capture listing (document 01, "The capture listing"): where a whole accepted frame starts, it is taken; else that byte is
// noise. The frames are found once and kept; the text is measured where it might not fit, and then written. `pieces` lists a capture as
// its bytes come.
#![tactic(auto)]

mod decimal;
mod lines;
pub mod pieces;
mod place;
mod scan;
mod settle;
mod state;
mod text;

ghost use Rattle.std.specs.Prelude.{◌≡◌, ◌+◌, ◌*◌, ◌<◌, ◌≤◌, leb, length};
ghost use Rattle.answer.specs.Answer.{on_accepted, in_room, out_after, outcome_of};
ghost use Rattle.listing.specs.Text.{listing};
ghost use Rattle.listing.specs.Parts.{Within, found_text};

use answer::Refusal;
use place::FrameAt;

pub(crate) const MAX_CAPTURE: usize = 4096;

// The longest capture that has a short list for its frames: clearing a list for any capture takes longer than listing a short one.
const SHORT_CAPTURE: usize = 64;

// Most frames of a short capture, and of any: a frame has at least 5 bytes.
const SHORT_FRAMES: usize = 12;

pub(crate) const MAX_FRAMES: usize = 819;

// Room that is always enough: so much for each byte of the capture, and so much besides.
const ROOM_PER_BYTE: usize = 8;

const ROOM_BESIDES: usize = 25;

// Whether the listing's text fits a room. It is measured only where the room is not enough for any capture of that length.
fn has_room(found: &[FrameAt], len: usize, room: usize) -> bool
    requires len_bound { len ≤ 4096 }
    requires within { Within 0 found.now len }
    requires found_len_bound { length found.now ≤ 4096 }
    requires len_len_bound { length (found_text 0 found.now len) ≤ 8 * len + 25 }
    ensures { result ≡ leb (length (found_text 0 found.now len)) room }
{
    ROOM_PER_BYTE * len + ROOM_BESIDES <= room || lines::text_size(found, 0, len) <= room
}

// Writes the listing of a capture, whose frames are kept in a lent list: too little room is 9.
fn write_with(bytes: &[u8], found: &mut [FrameAt], out: &mut [u8]) -> Result<u32, Refusal>
    requires bytes_len_bound { length bytes.now ≤ 4096 }
    requires bytes_len_bound_2 { length bytes.now < 5 * (length found.old + 1) }
    ensures result_value { outcome_of result ≡ on_accepted length (in_room (length out.old) (listing bytes.now)) }
    ensures out_after { out.new ≡ out_after (in_room (length out.old) (listing bytes.now)) out.old }
{
    let n = scan::find(bytes, found);
    if !has_room(&found[..n], bytes.len(), out.len()) {
        return Err(Refusal::Room);
    }
    let size = lines::put_listing(&found[..n], 0, bytes.len(), out);
    Ok(size as u32)
}

// With a list for so many frames. Only the list is made here, so that the code behind it is there once.
fn write_in<const N: usize>(bytes: &[u8], out: &mut [u8]) -> Result<u32, Refusal>
    requires bytes_len_bound { length bytes.now ≤ 4096 }
    requires bytes_len_bound_2 { length bytes.now < 5 * (N + 1) }
    requires frames_bound { N ≤ 819 }
    ensures result_value { outcome_of result ≡ on_accepted length (in_room (length out.old) (listing bytes.now)) }
    ensures out_after { out.new ≡ out_after (in_room (length out.old) (listing bytes.now)) out.old }
{
    let mut found = [FrameAt::UNUSED; N];
    write_with(bytes, &mut found, out)
}

// Writes the listing of a capture: above 4,096 bytes is 3, then too little room 9. Nothing is written before it is known to fit.
pub fn write(bytes: &[u8], out: &mut [u8]) -> Result<u32, Refusal>
    ensures result_value { outcome_of result ≡ on_accepted length (in_room (length out.old) (listing bytes.now)) }
    ensures out_after { out.new ≡ out_after (in_room (length out.old) (listing bytes.now)) out.old }
{
    if MAX_CAPTURE < bytes.len() {
        return Err(Refusal::Length);
    }
    if bytes.len() <= SHORT_CAPTURE {
        return write_in::<SHORT_FRAMES>(bytes, out);
    }
    write_in::<MAX_FRAMES>(bytes, out)
}
