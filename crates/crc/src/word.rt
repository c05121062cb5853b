// Bytes of a string as numbers, the first byte lowest.
ghost use Rattle.std.specs.Prelude.{◌≡◌, ◌+◌, ◌-◌, ◌*◌, ◌^◌, ◌<◌, ◌≤◌, length};
ghost use Rattle.crc.specs.Crc.{crc};
ghost use Rattle.crc.specs.Parts.{turns, word};

// The bytes as the highest ones of a word, the first byte lowest.
fn highest(bytes: &[u8]) -> u64
    requires { length bytes.now < 8 }
    ensures { result ≡ word (length bytes.now) bytes.now 0 * 2 ^ (64 - 8 * length bytes.now) }
{
    let mut s = 0;
    for byte in bytes {
        s = s / 0x100 + u64::from(*byte) * 0x100000000000000;
    }
    s
}

// The same, with four of the bytes taken at once. The zero bits below them leave the register at its start value, 0.
pub(crate) fn head(bytes: &[u8]) -> u64
    requires { length bytes.now < 8 }
    ensures { turns 64 result ≡ crc bytes.now }
{
    let few = bytes.len() % 4;
    let s = highest(&bytes[..few]);
    if bytes.len() < 4 {
        return s;
    }
    let four = u32::from_le_bytes([bytes[few], bytes[few + 1], bytes[few + 2], bytes[few + 3]]);
    s / 0x100000000 + u64::from(four) * 0x100000000
}

// The eight bytes from an offset on.
pub(crate) fn eight(b: &[u8], i: usize) -> u64
    requires { i + 8 ≤ length b.now }
    ensures { result ≡ word 8 b.now i }
{
    u64::from_le_bytes([
        b[i],
        b[i + 1],
        b[i + 2],
        b[i + 3],
        b[i + 4],
        b[i + 5],
        b[i + 6],
        b[i + 7],
    ])
}
