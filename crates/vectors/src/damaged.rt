// Damaged Omni-Link frames, mended.
use crate::output::{Hex, show};
use crate::reading::first;
use std::io;

// More than a frame has.
const ROOM: usize = 80;

pub(crate) fn mend(to: &impl Print, bytes: &[u8]) -> io::Result<()> {
    let mut out = [0u8; ROOM];
    let answer = host::damaged::frame_mend(bytes, &mut out);
    show(to, answer, |[p, q, m, n, ..]| {
        let place = u16::from_le_bytes([p, q]);
        let count = u16::from_le_bytes([m, n]);
        let frame = Hex(first(&out, usize::from(count)));
        print!(to; " place {place}, {count} bytes{frame}")
    })
}
