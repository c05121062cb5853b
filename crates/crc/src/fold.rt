// Words reduced to 16 bits by shifts and exclusive ors. The lowest bit of a word is its highest power: a shift to the right multiplies.
// The CRC is the string times x^16. Modulo x^15+x+1 the power x^16 is x^2+x, x^28 is x^14+x^13, x^30 is x^2+1 and x^64 is x^8+x^4.
ghost use Rattle.std.specs.Prelude.{◌≡◌, cond, [], ◌∷◌, ◌*◌, ◌^◌, ◌<◌, ◌%◌};
ghost use Rattle.std.specs.Int.Bits.{bit_xor};
ghost use Rattle.crc.specs.Crc.{crc};
ghost use Rattle.crc.specs.Parts.{turns, parity, odd_part, even_part};

// The powers from x^30 up become lower ones, by x^2+1. What is left stands in the 36 highest bits.
fn fold(s: u64) -> u64
    ensures { (even_part result ≡ even_part s) × (result % 2 ^ 28 ≡ 0) }
{
    let high = s << 30;
    s >> 34 << 34 ^ high ^ high >> 2
}

// Times x^64: what a word adds to the word behind it.
pub(crate) fn advance(s: u64) -> u64
    ensures { even_part result ≡ turns 64 (even_part s) }
{
    let folded = fold(s);
    folded >> 8 ^ folded >> 4
}

// 28 bits, the highest of a word, to 16. Times x^16 the powers below x^14 go by x^2+x, and the others, from x^30 up, by x^2+1.
fn reduce(n: u64) -> u64
    requires { n < 2 ^ 28 }
    ensures { result ≡ even_part (n * 2 ^ 36) }
{
    let low = n >> 14;
    let high = n % 0x4000;
    low ^ low << 1 ^ high ^ high << 2
}

// One of two numbers, by the parity of n.
fn by_parity(n: u64, odd: u64, even: u64) -> u64
    ensures { result ≡ cond (parity 64 n) odd even }
{
    if n.count_ones() % 2 == 1 {
        return odd;
    }
    even
}

// The CRC of a string whose words were advanced to s, and the exclusive or of whose words is `all`. Once s is folded, the powers from x^28
// up become lower ones too, by x^14+x^13.
pub(crate) fn finish(s: u64, all: u64) -> u16
    ensures { result ≡ bit_xor (even_part s) (odd_part all) }
{
    let folded = fold(s) >> 28;
    let high = folded % 0x100;
    (reduce(folded >> 8 ^ high << 6 ^ high << 7) ^ by_parity(all, 0xC001, 0)) as u16
}

// The CRC of 01 and a byte. That of 01 00 is 9001, and the byte adds itself times x^16. Where it is odd, the two bytes are even, and the
// x^15+x+1 in 9001 goes: 5000.
pub(crate) fn of_01_and(byte: u8) -> u16
    ensures { result ≡ crc (1 ∷ byte ∷ []) }
{
    let n = u64::from(byte);
    (by_parity(n, 0x5000, 0x9001) ^ n << 6 ^ n << 7) as u16
}
