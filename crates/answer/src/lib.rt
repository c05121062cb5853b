// The refusals of document 01, their numbers, and the packing of an answer into a word for C.
#![tactic(auto)]

ghost use Rattle.std.specs.Prelude.{◌≡◌, ℕ, [], ◌∷◌, ◌+◌, ◌*◌, ◌%◌, ◌^◌, ◌<◌, ◌≤◌, map};
ghost use Rattle.answer.specs.Answer.{number_of, outcome_of, refused, accepted, on_accepted};
ghost use Rattle.answer.specs.Packed.{packed, byte, word, field};

// Document 01, "Answer numbers": a case for each number in use, in their order.
#[derive(Clone, Copy, PartialEq, Eq)]
pub enum Refusal {
    // 1: fewer bytes or places than the frame needs.
    Short = 1,
    // 2: wrong start byte, start code or direction.
    Start = 2,
    // 3: length byte outside its range, too many data bytes, or a capture too long.
    Length = 3,
    // 4: more bytes or places than the frame.
    Long = 4,
    // 5: CRC, sum or complement is wrong; to mending, a wrong CRC that no single flip makes right.
    Checksum = 5,
    // 6: unknown type or key.
    Unknown = 6,
    // 7: length wrong for the type.
    TypeLength = 7,
    // 8: a field outside its list; a text too long or with a wrong character, also in a text store; a capture's state that no
    // pieces lead to, or not of 74 bytes; to a meter call a whole reply that is no meter reply; a door's secret or
    // state outside its ranges, or not of 4 bytes; to mending, a right frame.
    Field = 8,
    // 9: lent output too short, a register map not of 256 bytes, or a text store not of 610.
    Room = 9,
    // 10 is retired and not used again: it was given for a cost word above 65025, and document 02, K4, makes every word a cost.
    // 11: the total would pass 2^64 - 1.
    Total = 11,
}

// The number that document 01 gives a refusal.
impl From<Refusal> for u64 {
    ghost from_gives = { λ r n. n ≡ number_of r };

    fn from(r: Refusal) -> u64 {
        r as u64
    }
}

// A packed refusal: its number and nothing else.
pub fn pack_refusal(r: Refusal) -> u64
    ensures { result ≡ packed (refused (number_of r)) }
{
    u64::from(r)
}

// A packed success with nothing to return.
pub fn pack_nothing() -> u64
    ensures { result ≡ packed (accepted []) }
{
    0
}

// A number that is a field of a packed answer: how many bits it takes there, and its value.
pub trait PackedField: Copy {
    ghost bits: { ℕ };

    ghost value: { Self → ℕ };

    // The field, and the fields above it; of more than fit, the low 64 bits.
    fn below(self, above: u64) -> u64
        ensures fits { value self < 2 ^ bits }
        ensures stacked { value self + 2 ^ bits * above < 2 ^ 64 → result ≡ value self + 2 ^ bits * above }
        ensures low_bits { result ≡ (value self + 2 ^ bits * above) % 2 ^ 64 };
}

impl PackedField for u8 {
    ghost bits = { 8 };

    ghost value = { λ b. b };

    fn below(self, above: u64) -> u64 {
        above % 0x100_0000_0000_0000 * 0x100 + self as u64
    }
}

impl PackedField for u16 {
    ghost bits = { 16 };

    ghost value = { λ w. w };

    fn below(self, above: u64) -> u64 {
        above % 0x1_0000_0000_0000 * 0x1_0000 + self as u64
    }
}

// The low byte of a packed success.
const ACCEPTED: u8 = 0;

// A packed success of some fields, the first the lowest, above the low byte; of more than fit, the low 64 bits.
pub fn pack<F: PackedField, const N: usize>(fields: [F; N]) -> u64
    ensures fits { 8 + F.bits * N ≤ 64 → result ≡ packed (accepted (map (λ f. field F.bits (F.value f)) fields)) }
    ensures low_bits { result ≡ packed (accepted (map (λ f. field F.bits (F.value f)) fields)) % 2 ^ 64 }
{
    let mut above = 0;
    for i in (0..N).rev() {
        above = fields[i].below(above);
    }
    ACCEPTED.below(above)
}

// A packed success of three bytes and a word.
pub fn pack_3_bytes_word(a: u8, b: u8, c: u8, w: u16) -> u64
    ensures { result ≡ packed (accepted (byte a ∷ byte b ∷ byte c ∷ word w ∷ [])) }
{
    (a as u64) * 256 + (b as u64) * 65536 + (c as u64) * 0x100_0000 + (w as u64) * 0x1_0000_0000
}

// A packed count of bytes or places: in a field of 16 bits, or of 32 for the listing. As the last field's, its width moves nothing.
pub fn pack_count(count: u32) -> u64
    ensures short { result ≡ packed (accepted (word count ∷ [])) }
    ensures long { result ≡ packed (accepted (field 32 count ∷ [])) }
{
    (count as u64) * 256
}

// A writer's packed answer.
pub fn pack_written(w: Result<u32, Refusal>) -> u64
    ensures short { result ≡ packed (on_accepted (λ count. word count ∷ []) (outcome_of w)) }
    ensures long { result ≡ packed (on_accepted (λ count. field 32 count ∷ []) (outcome_of w)) }
{
    match w {
        Ok(count) => pack_count(count),
        Err(r) => pack_refusal(r),
    }
}

// A packed success of one field of 56 bits: what does not fit there is cut off.
pub fn pack_56_bits(v: u64) -> u64
    ensures { result ≡ packed (accepted (field 56 (v % 2 ^ 56) ∷ [])) }
{
    v % 0x100_0000_0000_0000 * 256
}
