// The frame of an Omnistat2 message: address byte, length and type, data bytes, sum.
ghost use Rattle.std.specs.Prelude.{◌≡◌, true, ◌∷◌, ◌++◌, ◌+◌, ◌*◌, ◌/◌, ◌%◌, ◌<◌, ◌≤◌, length, get_or, take, drop, eqb};
ghost use Rattle.std.proofs.Math.Seq.{paste};
ghost use Rattle.answer.specs.Answer.{outcome_of, accepted, on_accepted, in_room, out_after};
ghost use Rattle.omnistat.specs.Frame.{directed, first_of, sum_of, frame, summed};
ghost use Rattle.omnistat.specs.Omnistat.{bytes_to};
ghost use Rattle.omnistat.specs.Parts.{framed_in};

use answer::Refusal;

// The number of a thermostat and this make the first byte of its reply.
pub(crate) const REPLY: u8 = 0x80;
// The address that every thermostat answers to.
const UNIVERSAL: u8 = 0xFA;

// The numbers of thermostats.
const FIRST_NUMBER: u8 = 0x01;

const LAST_NUMBER: u8 = 0x7F;

// The end that a message is for.
#[derive(Clone, Copy)]
pub enum End {
    Thermostat,
    Host,
}

// A whole message: its first byte, its type and the count of its data bytes, which start at the third byte.
#[derive(Clone, Copy)]
pub(crate) struct Framed {
    pub first: u8,
    pub kind: u8,
    pub count: u8,
}

// Whether a message to the thermostat may start with this byte: broadcast, one thermostat's number, or universal.
pub(crate) fn is_to_thermostat(first: u8) -> bool
    ensures { result ≡ directed End.Thermostat first }
{
    first < REPLY || first == UNIVERSAL
}

// Whether a message to this end may start with this byte. At the host FA is a reply from 7A.
pub(crate) fn is_directed(end: End, first: u8) -> bool
    ensures { result ≡ directed end first }
{
    match end {
        End::Thermostat => is_to_thermostat(first),
        End::Host => first > REPLY,
    }
}

// Whether a message to this end may carry this address: at the thermostat its first byte, at the host the number of the thermostat.
pub(crate) fn is_address(end: End, address: u8) -> bool
    ensures { result ≡ directed end (first_of end address) }
{
    match end {
        End::Thermostat => is_to_thermostat(address),
        End::Host => (FIRST_NUMBER..=LAST_NUMBER).contains(&address),
    }
}

// The first byte of a message that carries this address.
pub(crate) fn first_of(end: End, address: u8) -> u8
    requires { directed end (first_of end address) ≡ true }
    ensures { result ≡ first_of end address }
{
    match end {
        End::Thermostat => address,
        End::Host => address + REPLY,
    }
}

// The counted length of a whole message with this second byte.
pub(crate) fn counted_length(second: u8) -> usize
    ensures { result ≡ second / 16 + 3 }
{
    usize::from(second / 16) + 3
}

// The sum of bytes, modulo 256.
pub(crate) fn sum(bytes: &[u8]) -> u8
    ensures { result ≡ sum_of bytes.now }
{
    let mut total: u8 = 0;
    for b in bytes {
        total = total.wrapping_add(*b);
    }
    total
}

// Whether the byte at a place is the sum of those before it.
pub(crate) fn is_summed(bytes: &[u8], last: usize) -> bool
    requires { last < length bytes.now }
    ensures { result ≡ eqb (get_or bytes.now last 0) (sum_of (take last bytes.now)) }
{
    bytes[last] == sum(&bytes[..last])
}

// Takes the frame of a message apart.
pub(crate) fn read(end: End, bytes: &[u8]) -> Result<Framed, Refusal>
    ensures { on_accepted (framed_in bytes.now) (outcome_of result) ≡ frame end bytes.now }
{
    if bytes.len() == 0 {
        return Err(Refusal::Short);
    }
    let first = bytes[0];
    if !is_directed(end, first) {
        return Err(Refusal::Start);
    }
    if bytes.len() == 1 {
        return Err(Refusal::Short);
    }
    let second = bytes[1];
    let whole = counted_length(second);
    if bytes.len() < whole {
        return Err(Refusal::Short);
    }
    if whole < bytes.len() {
        return Err(Refusal::Long);
    }
    if !is_summed(bytes, whole - 1) {
        return Err(Refusal::Checksum);
    }
    Ok(Framed {
        first,
        kind: second % 16,
        count: second / 16,
    })
}

// The count bytes from a place on, or as many of them as there are.
pub(crate) fn part(bytes: &[u8], from: usize, count: usize) -> &[u8]
    ensures { result.now ≡ take count (drop from bytes.now) }
{
    if bytes.len() < from {
        return &bytes[..0];
    }
    if bytes.len() - from < count {
        return &bytes[from..];
    }
    let past = from + count;
    &bytes[from..past]
}

// Copies all of `from` into `out`, at a place, and answers its sum. By an index: of what an adapter of `iter_mut` wrote no clause knows.
pub(crate) fn put(out: &mut [u8], at: usize, from: &[u8]) -> u8
    requires { at + length from.now ≤ length out.old }
    ensures value { result ≡ sum_of from.now }
    ensures out_after { out.new ≡ paste out.old at from.now (length from.now) }
{
    let mut total: u8 = 0;
    for (i, b) in from.iter().enumerate() {
        out[at + i] = *b;
        total = total.wrapping_add(*b);
    }
    total
}

// The second byte of a message: how many data bytes follow it, and its type.
pub(crate) fn length_and_type(count: usize, kind: u8) -> u8
    requires { (kind < 16) × (count ≤ 15) }
    ensures { result ≡ count * 16 + kind }
{
    (count as u8) * 16 + kind
}

// Writes a message of these first bytes and data bytes, with its sum, where there is room.
pub(crate) fn write(head: &[u8], payload: &[u8], out: &mut [u8]) -> Result<u32, Refusal>
    requires { length head.now + length payload.now ≤ 258 }
    ensures result_value { outcome_of result ≡ on_accepted length (in_room (length out.old) (accepted (summed (head.now ++ payload.now)))) }
    ensures out_after { out.new ≡ out_after (in_room (length out.old) (accepted (summed (head.now ++ payload.now)))) out.old }
{
    let last = head.len() + payload.len();
    if out.len() <= last {
        return Err(Refusal::Room);
    }
    let sum = put(out, 0, head);
    out[last] = sum.wrapping_add(put(out, head.len(), payload));
    Ok((last + 1) as u32)
}

// Writes the message to an address that a type and its data bytes make.
pub(crate) fn write_to(
    end: End,
    address: u8,
    kind: u8,
    payload: &[u8],
    out: &mut [u8],
) -> Result<u32, Refusal>
    requires { (kind < 16) × (length payload.now ≤ 15) }
    ensures result_value { outcome_of result ≡ on_accepted length (in_room (length out.old) (bytes_to end address kind payload.now)) }
    ensures out_after { out.new ≡ out_after (in_room (length out.old) (bytes_to end address kind payload.now)) out.old }
{
    if !is_address(end, address) {
        return Err(Refusal::Field);
    }
    let second = length_and_type(payload.len(), kind);
    write(&[first_of(end, address), second], payload, out)
}
