// Frames: the reader, the frame that starts a byte string, a frame's data bytes, and the writer.
ghost use Rattle.std.specs.Prelude.{◌≡◌, ◌+◌, ◌*◌, ◌/◌, ◌%◌, ◌≤◌, ◌∷◌, ◌++◌, eqb, length, get_or, take, drop, set};
ghost use Rattle.answer.specs.Answer.{accepted, on_accepted, in_room, out_after, outcome_of};
ghost use Rattle.crc.specs.Crc.{crc};
ghost use Rattle.link.specs.Frame.{read_frame, read_first, write_frame, frame_bytes, header, data_part, covered, sent};

use crate::copying::copy;
use answer::Refusal;

pub const START: u8 = 0x5A;

pub const MAX_LENGTH: u8 = 0x41;

const MAX_DATA: usize = 64;

// What the reader tells of a frame: its kind, which is the type byte, and the count of its data bytes.
#[derive(Clone, Copy)]
pub struct Header {
    pub kind: u8,
    pub count: u8,
}

// Whether the CRC that a frame of length byte l carries is the one of its length, type and data.
fn crc_holds(bytes: &[u8], l: usize) -> bool
    requires { l + 4 ≤ length bytes.now }
    ensures { result ≡ eqb (sent bytes.now l) (crc (covered bytes.now l)) }
{
    let carried = u16::from_le_bytes([bytes[l + 2], bytes[l + 3]]);
    carried == crc::crc16(&bytes[1..l + 2])
}

// Reads a byte string as a whole frame, with the checks in document 01's order.
pub fn read(bytes: &[u8]) -> Result<Header, Refusal>
    ensures { outcome_of result ≡ on_accepted header (read_frame bytes.now) }
{
    if bytes.len() == 0 {
        return Err(Refusal::Short);
    }
    if bytes[0] != START {
        return Err(Refusal::Start);
    }
    if bytes.len() == 1 {
        return Err(Refusal::Short);
    }
    let l = bytes[1];
    if l == 0 {
        return Err(Refusal::Length);
    }
    if MAX_LENGTH < l {
        return Err(Refusal::Length);
    }
    if bytes.len() < l as usize + 4 {
        return Err(Refusal::Short);
    }
    if l as usize + 4 < bytes.len() {
        return Err(Refusal::Long);
    }
    let kind = bytes[2];
    let count = l - 1;
    if crc_holds(bytes, l as usize) {
        return Ok(Header { kind, count });
    }
    Err(Refusal::Checksum)
}

// How many bytes the frame that starts a byte string has by its length byte, as far as they are there.
fn first_size(bytes: &[u8]) -> usize
    ensures within { result ≤ length bytes.now }
    ensures same { take result bytes.now ≡ take (get_or bytes.now 1 0 + 4) bytes.now }
{
    match bytes {
        [_, l, ..] => bytes.len().min(usize::from(*l) + 4),
        _ => bytes.len(),
    }
}

// Reads the frame that starts a byte string, whatever stands behind it. Its length byte says how many bytes are its own.
pub fn read_first(bytes: &[u8]) -> Result<Header, Refusal>
    ensures { outcome_of result ≡ on_accepted header (read_first bytes.now) }
{
    let size = first_size(bytes);
    read(&bytes[..size])
}

// The data bytes of a frame that was accepted with this count, as a part of it. Of any other byte string, as many bytes from the
// fourth on, or none where it has not so many.
pub fn data(bytes: &[u8], count: u8) -> &[u8]
    ensures { result.now ≡ data_part bytes.now count }
{
    let end = 3 + usize::from(count);
    bytes.get(3..end).unwrap_or(&[])
}

// Writes start, length byte and kind.
fn put_head(kind: u8, l: u8, out: &mut [u8])
    requires { 3 ≤ length out.old }
    ensures { out.new ≡ 0x5A ∷ l ∷ kind ∷ drop 3 out.old }
{
    out[0] = START;
    out[1] = l;
    out[2] = kind;
}

// Writes the data bytes behind the kind.
fn put_data(data: &[u8], out: &mut [u8])
    requires { length «data».now + 3 ≤ length out.old }
    ensures { out.new ≡ take 3 out.old ++ «data».now ++ drop (length «data».now + 3) out.old }
{
    let end = data.len() + 3;
    copy(data, &mut out[3..end]);
}

// Writes the CRC of a frame with length byte l, low byte first.
fn put_crc(l: usize, out: &mut [u8])
    requires { l + 4 ≤ length out.old }
    ensures { out.new ≡ set (set out.old (l + 2) (crc (covered out.old l) % 256)) (l + 3) (crc (covered out.old l) / 256) }
{
    let [low, high] = crc::crc16(&out[1..l + 2]).to_le_bytes();
    out[l + 2] = low;
    out[l + 3] = high;
}

// Writes the frame of a kind and at most 64 data bytes to the start of the output, which has room for it.
fn put_frame(kind: u8, data: &[u8], out: &mut [u8])
    requires data_len_bound { length «data».now ≤ 64 }
    requires data_in_bounds { length «data».now + 5 ≤ length out.old }
    ensures { out.new ≡ out_after (accepted (frame_bytes kind «data».now)) out.old }
{
    let l = data.len() + 1;
    put_head(kind, l as u8, out);
    put_data(data, out);
    put_crc(l, out);
}

// Writes a frame: more than 64 data bytes is 3, then too little room 9. Nothing is written before it is known to fit.
pub fn write(kind: u8, data: &[u8], out: &mut [u8]) -> Result<u32, Refusal>
    ensures result_value { outcome_of result ≡ on_accepted length (in_room (length out.old) (write_frame kind «data».now)) }
    ensures out_after { out.new ≡ out_after (in_room (length out.old) (write_frame kind «data».now)) out.old }
{
    let count = data.len();
    if MAX_DATA < count {
        return Err(Refusal::Length);
    }
    if out.len() < count + 5 {
        return Err(Refusal::Room);
    }
    // The same call in a branch of its own: where it knows that there is no data, the compiler leaves the copying out.
    if count == 0 {
        put_frame(kind, data, out);
        return Ok(5);
    }
    put_frame(kind, data, out);
    Ok(count as u32 + 5)
}
