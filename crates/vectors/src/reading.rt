// Reading what a line gives: its digits, and the parts of the bytes that they make.
ghost use Rattle.std.specs.Prelude.{◌<◌, IfSome};

// The most bytes or places that a line gives.
pub(crate) const MOST: usize = 512;

// The value of a hex digit. Letters are capitals, so that a call's name has no digits.
fn digit(c: u8) -> Option<u8>
    ensures { IfSome result (λ d. d < 16) }
{
    match c {
        b'0'..=b'9' => Some(c - b'0'),
        b'A'..=b'F' => Some(c - b'A' + 10),
        _ => None,
    }
}

// The bytes that a text's digits make, two each. What is no digit is passed over, and a last half byte left out.
pub(crate) fn bytes<'a>(text: &[u8], room: &'a mut [u8; MOST]) -> &'a [u8] {
    let mut digits = text.iter().filter_map(|&c| digit(c));
    for (i, byte) in room.iter_mut().enumerate() {
        let (Some(high), Some(low)) = (digits.next(), digits.next()) else {
            return &room[..i];
        };
        *byte = high * 16 + low;
    }
    room
}

// The places that a text's digits make, one each.
pub(crate) fn places<'a>(text: &[u8], room: &'a mut [u8; MOST]) -> &'a [u8] {
    let mut digits = text.iter().filter_map(|&c| digit(c));
    for (i, place) in room.iter_mut().enumerate() {
        let Some(digit) = digits.next() else {
            return &room[..i];
        };
        *place = digit;
    }
    room
}

// Byte i, and 0 past the last.
pub(crate) fn byte(bytes: &[u8], i: usize) -> u8 {
    bytes.get(i).copied().unwrap_or(0)
}

// The first bytes and those behind them; zeros and none where there are not so many.
pub(crate) fn split<const N: usize>(bytes: &[u8]) -> ([u8; N], &[u8]) {
    match bytes.split_first_chunk() {
        Some((first, rest)) => (*first, rest),
        None => ([0; N], &[]),
    }
}

// So many bytes from the first on; none where there are not so many.
pub(crate) fn first(bytes: &[u8], count: usize) -> &[u8] {
    bytes.get(..count).unwrap_or(&[])
}

// The bytes from a place on; none past the last.
pub(crate) fn rest(bytes: &[u8], from: usize) -> &[u8] {
    bytes.get(from..).unwrap_or(&[])
}
