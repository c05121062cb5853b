// Printing bytes in hex, and the fields of packed answers.
use std::{fmt, io};

// Bytes in hex, each behind a blank.
#[derive(Clone, Copy)]
pub(crate) struct Hex<'a>(pub(crate) &'a [u8]);

impl fmt::Display for Hex<'_> {
    fn fmt<W: fmt::Write>(&self, f: &mut fmt::Formatter<W>) -> fmt::Result {
        for byte in self.0 {
            write!(f, " {byte:02X}")?;
        }
        Ok(())
    }
}

// The number of a refusal.
#[derive(Clone, Copy)]
pub(crate) struct Refused(u8);

impl fmt::Display for Refused {
    fn fmt<W: fmt::Write>(&self, f: &mut fmt::Formatter<W>) -> fmt::Result {
        write!(f, " refused {}", self.0)
    }
}

// The seven bytes of a packed answer that are above its number, or the refusal that its number is.
fn unpack(answer: u64) -> Result<[u8; 7], Refused> {
    let [number, a, b, c, d, e, f, g] = answer.to_le_bytes();
    match number {
        0 => Ok([a, b, c, d, e, f, g]),
        _ => Err(Refused(number)),
    }
}

// What stands above the number of a packed answer, as one number, or the refusal.
pub(crate) fn value(answer: u64) -> Result<u64, Refused> {
    unpack(answer).map(|_| answer >> 8)
}

// Prints a packed answer: the bytes above its number, or the refusal.
pub(crate) fn show<F: FnOnce([u8; 7]) -> io::Result<()>>(
    to: &impl Print,
    answer: u64,
    print: F,
) -> io::Result<()>
    requires { F.IsAlwaysCallable print }
{
    match unpack(answer) {
        Ok(fields) => print(fields),
        Err(refused) => print!(to; "{refused}"),
    }
}
