// What stands at a place of the capture: a frame, or noise.
ghost use Rattle.std.specs.Prelude.{◌≡◌, ◌+◌, ◌<◌, ◌≤◌, length, drop};
ghost use Rattle.link.specs.Frame.{read_first};
ghost use Rattle.listing.specs.State.{settled};
ghost use Rattle.listing.specs.Parts.{judgement, behind, shifted};

use link::frame::{MAX_LENGTH, START};

// Bytes of a frame besides its data.
const BESIDES_DATA: u8 = 5;

// A frame of the capture: the offset of its first byte, how many bytes it has, and its type.
#[derive(Clone, Copy)]
pub(crate) struct FrameAt {
    pub(crate) offset: u16,
    pub(crate) count: u8,
    pub(crate) kind: u8,
}

impl FrameAt {
    // What a list of frames has where none is kept yet.
    pub(crate) const UNUSED: FrameAt = FrameAt {
        offset: 0,
        count: 0,
        kind: 0,
    };

    // The offset behind the frame.
    pub(crate) fn end(self) -> usize
        ensures { result ≡ behind self }
    {
        usize::from(self.offset) + usize::from(self.count)
    }

    // The same frame, where the bytes judged start at an offset of the capture.
    pub(crate) fn shifted(self, base: usize) -> FrameAt
        requires { base + self.offset ≤ 4096 }
        ensures { result ≡ shifted base self }
    {
        FrameAt {
            offset: base as u16 + self.offset,
            count: self.count,
            kind: self.kind,
        }
    }
}

// Whether a place is settled: by another byte than 5A, by its length byte, or by a whole frame's worth of bytes.
#[tactic(auto, unfolding(crate::specs::State::settled))]
pub(crate) fn is_settled(bytes: &[u8]) -> bool
    ensures { result ≡ settled bytes.now }
{
    match bytes {
        [] => false,
        [first, ..] if *first != START => true,
        [_] => false,
        [_, l, ..] => *l == 0 || MAX_LENGTH < *l || usize::from(*l) + 4 <= bytes.len(),
    }
}

// Judges an offset. Only a start byte is handed to the frame reader.
pub(crate) fn judge(bytes: &[u8], at: usize) -> Option<FrameAt>
    requires bytes_len_bound { length bytes.now ≤ 4096 }
    requires at_in_bounds { at < length bytes.now }
    ensures { result ≡ judgement at (read_first (drop at bytes.now)) }
{
    if bytes[at] != START {
        return None;
    }
    match link::frame::read_first(&bytes[at..]) {
        Ok(header) => Some(FrameAt {
            offset: at as u16,
            count: header.count + BESIDES_DATA,
            kind: header.kind,
        }),
        Err(_) => None,
    }
}
