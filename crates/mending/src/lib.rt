// Mending a capture (document 02, K8): of bytes that are a frame but for one flipped bit after the length byte, the place of that bit and
// the frame.
#![tactic(auto)]

ghost use Rattle.std.specs.Prelude.{◌≡◌, ◌+◌, ◌/◌, ◌<◌, ◌≤◌, length};
ghost use Rattle.answer.specs.Answer.{accepted, refused, on_accepted, outcome_of, out_after};
ghost use Rattle.link.specs.Frame.{read_frame};
ghost use Rattle.mending.specs.Mending.{Mended, flipped_at, place, mend_in_room, numbers};
ghost use Rattle.mending.specs.Parts.{place_of};

use answer::Refusal;
use link::copying::copy;

// The first place after the length byte.
const FIRST_PLACE: usize = 8;

// What mending tells: the place whose bit was flipped, counted as in condition 3, and the count of bytes written.
#[derive(Clone, Copy)]
pub struct FrameMended {
    pub place: u16,
    pub count: u16,
}

// The place after the length byte whose flip makes a frame. A bit adds to the remainder what a 1 becomes when it is turned once for each place
// from the bit's own to the end: so a 1 is turned, from the last place on, until it is the remainder.
fn find_place(bytes: &[u8]) -> Option<u16>
    requires { read_frame bytes.now ≡ refused 5 }
    ensures { place_of result ≡ place bytes.now }
{
    let remainder = u64::from(crc::crc16(&bytes[1..]));
    let mut turned = 1;
    for p in (FIRST_PLACE..8 * (bytes.len() - 1)).rev() {
        turned = crc::turn(turned);
        if turned == remainder {
            return Some(p as u16);
        }
    }
    None
}

// Writes the bytes with the bit at a place flipped.
fn put_flipped(bytes: &[u8], p: usize, out: &mut [u8])
    requires p_in_bounds { p / 8 + 1 < length bytes.now }
    requires bytes_in_bounds { length bytes.now ≤ length out.old }
    ensures { out.new ≡ out_after (accepted (flipped_at bytes.now p)) out.old }
{
    copy(bytes, out);
    out[p / 8 + 1] ^= 1 << (p % 8);
}

// Mends bytes that the frame reader refuses for their CRC: no place is 5, then too little room 9.
fn mend_damaged(bytes: &[u8], out: &mut [u8]) -> Result<FrameMended, Refusal>
    requires { read_frame bytes.now ≡ refused 5 }
    ensures result_value { outcome_of result ≡ on_accepted numbers (mend_in_room (length out.old) bytes.now) }
    ensures out_after { out.new ≡ out_after (on_accepted (λ (m : Mended). m.frame) (mend_in_room (length out.old) bytes.now)) out.old }
{
    let place = find_place(bytes).ok_or(Refusal::Checksum)?;
    if out.len() < bytes.len() {
        return Err(Refusal::Room);
    }
    put_flipped(bytes, usize::from(place), out);
    let count = bytes.len() as u16;
    Ok(FrameMended { place, count })
}

// Mends a capture: the frame reader's 1 to 4; a right frame is 8; no place is 5; then too little room 9. Nothing is written before it is
// known to fit.
pub fn mend(bytes: &[u8], out: &mut [u8]) -> Result<FrameMended, Refusal>
    ensures result_value { outcome_of result ≡ on_accepted numbers (mend_in_room (length out.old) bytes.now) }
    ensures out_after { out.new ≡ out_after (on_accepted (λ (m : Mended). m.frame) (mend_in_room (length out.old) bytes.now)) out.old }
{
    match link::frame::read(bytes) {
        Ok(_) => Err(Refusal::Field),
        Err(Refusal::Checksum) => mend_damaged(bytes, out),
        Err(r) => Err(r),
    }
}
