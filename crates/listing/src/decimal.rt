// Decimal numbers of at most four digits.
ghost use Rattle.std.specs.Prelude.{◌≡◌, ◌+◌, ◌<◌, ◌≤◌, length};
ghost use Rattle.listing.specs.Text.{number};
ghost use Rattle.listing.specs.Parts.{Put};

const ZERO: u32 = 0x30;

// How many digits a number has: one, and one more from 10, from 100 and from 1,000 on. No branch, since none would be foreseen.
pub(crate) fn digit_count(n: usize) -> usize
    requires { n < 10000 }
    ensures { result ≡ length (number n) }
{
    1 + (n > 9) as usize + (n > 99) as usize + (n > 999) as usize
}

// Writes a number from a place on, and answers the place behind it. In 32 bits a division by a constant costs less than in 64. Digit by
// digit: no clause knows the bytes that a formatter writes, and `Put` says each of them.
pub(crate) fn put_number(n: usize, out: &mut [u8], at: usize) -> usize
    requires n_bound { n < 10000 }
    requires n_in_bounds { at + length (number n) ≤ length out.old }
    ensures { Put at (number n) out.old out.new result }
{
    let v = n as u32;
    if v < 10 {
        out[at] = (ZERO + v) as u8;
        return at + 1;
    }
    if v < 100 {
        out[at] = (ZERO + v / 10) as u8;
        out[at + 1] = (ZERO + v % 10) as u8;
        return at + 2;
    }
    if v < 1000 {
        let low = v % 100;
        out[at] = (ZERO + v / 100) as u8;
        out[at + 1] = (ZERO + low / 10) as u8;
        out[at + 2] = (ZERO + low % 10) as u8;
        return at + 3;
    }
    let high = v / 100;
    let low = v % 100;
    out[at] = (ZERO + high / 10) as u8;
    out[at + 1] = (ZERO + high % 10) as u8;
    out[at + 2] = (ZERO + low / 10) as u8;
    out[at + 3] = (ZERO + low % 10) as u8;
    at + 4
}
