// Places, each 0 or 1, and bits followed by their complements: read from a lent buffer and put into one.
ghost use Rattle.std.specs.Prelude.{◌≡◌, ◌+◌, ◌*◌, ◌^◌, ◌<◌, ◌≤◌, length, IfSome};
ghost use Rattle.std.proofs.Math.Seq.{slice};
ghost use Rattle.std.proofs.lemmas.List.Edits.{sets};
ghost use Rattle.x10.specs.Places.{are_places, spelled, paired, bits};
ghost use Rattle.x10.specs.Parts.{spelling_of};

// Whether every place is 0 or 1.
pub(crate) fn are_places(places: &[u8]) -> bool
    ensures { result ≡ are_places places.now }
{
    let mut seen = 0;
    for place in places {
        seen |= *place;
    }
    seen < 2
}

// The number that `width` pairs from `from` on spell, highest bit first; None where a second place is not the complement of the first.
pub(crate) fn spelled(s: &[u8], from: usize, width: usize) -> Option<u8>
    requires { (width ≤ 8) × (from + 2 * width ≤ length s.now) }
    ensures value { spelling_of result ≡ spelled (slice from (from + 2 * width) s.now) }
    ensures upper_bound { IfSome result (λ n. n < 2 ^ width) }
{
    let mut n = 0;
    for i in 0..width {
        let at = from + 2 * i;
        let bit = s[at];
        if u16::from(bit) + u16::from(s[at + 1]) != 1 {
            return None;
        }
        n = n * 2 + bit;
    }
    Some(n)
}

// Puts the `width` bits of a number from `from` on, highest first, each followed by its complement.
pub(crate) fn put(out: &mut [u8], from: usize, n: u8, width: usize)
    requires { (width ≤ 8) × (from + 2 * width ≤ length out.old) }
    ensures { out.new ≡ sets out.old from (paired (bits width n)) }
{
    for i in 0..width {
        let at = from + 2 * i;
        let bit = (n >> (width - 1 - i)) % 2;
        out[at] = bit;
        out[at + 1] = 1 - bit;
    }
}
