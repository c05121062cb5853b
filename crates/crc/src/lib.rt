// The 16-bit CRC of Omni-Link frames (document 000, Appendix A): polynomial x^16+x^15+x^2+1, bits taken lowest first, start value 0.
// It is worked out without a table, eight bytes at a time. The polynomial is (x+1)(x^15+x+1): modulo the second factor a word is reduced
// by shifts, modulo the first only the parity of all bits counts.
#![tactic(auto)]

mod fold;
mod word;

ghost use Rattle.std.specs.Prelude.{◌≡◌};
ghost use Rattle.crc.specs.Crc.{crc, shift};

use fold::{advance, finish, of_01_and};
use word::{eight, head};

// The CRC of a byte string.
pub fn crc16(bytes: &[u8]) -> u16
    ensures { result ≡ crc bytes.now }
{
    // Lent again here, so that its start and length are passed in registers.
    let b = &bytes[..];
    // 01 and a byte, what the CRC covers in a frame without data. In this order of questions other strings take fewer instructions than by
    // the pattern [1, byte].
    if !b.is_empty() && b[0] == 1 && b.len() == 2 {
        return of_01_and(b[1]);
    }
    let mut i = b.len() % 8;
    let mut s = head(&b[..i]);
    let mut all = s;
    // By an index: a `for` over the words, those of `as_chunks`, is unrolled, to 690 bytes of code in place of 292, and 425 are allowed.
    while i < b.len() {
        let w = eight(b, i);
        s = advance(s) ^ w;
        all ^= w;
        i += 8;
    }
    finish(s, all)
}

// One turn of the register with no bit put in (document 000, Appendix A). In a u16 the compiler would clear the bits above it at each turn.
pub fn turn(r: u64) -> u64
    ensures { result ≡ shift r }
{
    if r % 2 == 1 {
        return r / 2 ^ 0xA001;
    }
    r / 2
}
