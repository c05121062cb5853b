// The input of the programs: a reader, read to its end.
#![tactic(auto)]

ghost use Rattle.std.specs.Prelude.{IfSome, take};
ghost use Rattle.std.specs.Io.{StartsWith};
ghost use Rattle.std.specs.Io.KnownBytes.{Consumes};
ghost use Rattle.input.specs.Counts.{IsPrefixLen};

use std::io::Read;

// Reads once, and answers how many bytes came: none at the end, and none where the read fails.
fn read_once<R: Read>(from: &mut R, buffer: &mut [u8]) -> usize
    ensures count { IsPrefixLen result buffer.new }
    ensures bytes { Consumes (R.remaining from.old) (R.remaining from.new) (take result buffer.new) }
{
    from.read(buffer).unwrap_or(0)
}

// Reads until the buffer is full, the input ends or a read fails, and answers how many bytes came to its start. No range counts the loop:
// it goes on by as many bytes as came.
fn read_full<R: Read>(from: &mut R, buffer: &mut [u8]) -> usize
    ensures count { IsPrefixLen result buffer.new }
    ensures bytes { Consumes (R.remaining from.old) (R.remaining from.new) (take result buffer.new) }
{
    let mut done = 0;
    while done < buffer.len() {
        let n = read_once(from, &mut buffer[done..]);
        if n == 0 {
            return done;
        }
        done += n;
    }
    done
}

// Reads once more and answers whether anything came.
fn more<R: Read>(from: &mut R) -> bool {
    let mut rest = [0u8; 4096];
    0 < read_once(from, &mut rest)
}

// Reads what is left, so that whoever writes it is not cut off. The count is one that no run uses up.
fn drain<R: Read>(from: &mut R) {
    for _ in 0..u64::MAX {
        if !more(from) {
            return;
        }
    }
}

// Reads to the end: the first bytes to the start of the buffer, as many as it has room for, and answers how many they are. A read
// that fails counts as the end.
pub fn read_to_end<R: Read>(from: &mut R, buffer: &mut [u8]) -> usize
    ensures count { IsPrefixLen result buffer.new }
    ensures bytes { IfSome (R.remaining from.old) (λ xs. StartsWith xs (take result buffer.new)) }
{
    let n = read_full(from, buffer);
    if n == buffer.len() {
        drain(from);
    }
    n
}
