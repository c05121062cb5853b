// A capture as the port delivers it (document 02, K3): a call for each piece, and the finishing call. Nothing is written before the
// lines of a call are known to fit.
ghost use Rattle.std.specs.Prelude.{◌≡◌, true, false, ◌++◌, ℕ, ◌+◌, ◌-◌, ◌*◌, ◌<◌, ◌≤◌, length, take, drop};
ghost use Rattle.answer.specs.Answer.{on_accepted, out_after, outcome_of};
ghost use Rattle.listing.specs.State.{settled, state_of, is_state};
ghost use Rattle.listing.specs.Pieces.{piece, finish, lent_room, printed_by, state_after};
ghost use Rattle.listing.specs.Parts.{Within, Settles, closed};

use crate::place::FrameAt;
use crate::scan::Reached;
use crate::state::State;
use crate::{MAX_CAPTURE, MAX_FRAMES, lines, settle, state};
use answer::Refusal;
use link::copying::copy;

// Most bytes of a piece that it takes to settle the places of the unread bytes: a frame has at most 69.
const AHEAD: usize = 68;

// Room for the unread bytes, and so many behind them.
const WINDOW: usize = 136;

// The longest piece that has a short list for its frames, and most frames with such a piece, and among unread bytes alone.
const SHORT_PIECE: usize = 64;

const SHORT_FRAMES: usize = 26;

const UNREAD_FRAMES: usize = 13;

// How many of a piece's bytes go behind the unread ones: none where there are none.
fn ahead(held: usize, len: usize) -> usize
    ensures most { result ≤ 68 }
    ensures within { result ≤ len }
    ensures all { 0 < held → result < 68 → result ≡ len }
{
    if held == 0 { 0 } else { len.min(AHEAD) }
}

// Copies the unread bytes and a piece behind them.
fn join(unread: &[u8], piece: &[u8], window: &mut [u8])
    requires { length unread.now + length piece.now ≤ length window.old }
    ensures { take (length unread.now + length piece.now) window.new ≡ unread.now ++ piece.now }
{
    let held = unread.len();
    let end = held + piece.len();
    copy(unread, &mut window[..held]);
    copy(piece, &mut window[held..end]);
}

// Judges the unread bytes and a piece behind them as far as they are settled. The places of the unread bytes are judged in the window;
// where they are not settled, all of the piece stands in it.
fn judge(
    unread: &[u8],
    piece: &[u8],
    base: usize,
    window: &mut [u8],
    found: &mut [FrameAt],
) -> Reached
    requires unread_len_bound { length unread.now ≤ 68 }
    requires window_len { length window.old ≡ 136 }
    requires piece_bound { base + (length unread.now + length piece.now) ≤ 4096 }
    requires piece_len_bound { length unread.now + length piece.now < 5 * (length found.old + 1) }
    ensures settles { (from : ℕ) → from ≤ base → Settles (unread.now ++ piece.now) base from (take result.count found.new) result.at }
    ensures counted { result.count ≤ length found.new }
    ensures stopped { settled (drop result.at (unread.now ++ piece.now)) ≡ false }
    ensures short { result.at < length unread.now → length piece.now ≤ 68 }
    ensures window { result.at < length unread.now → take (length unread.now + length piece.now) window.new ≡ unread.now ++ piece.now }
{
    let held = unread.len();
    let more = ahead(held, piece.len());
    join(unread, &piece[..more], window);
    let first = settle::settle(&window[..held + more], base, held, found);
    let at = first.at;
    if at < held {
        return first;
    }
    let from = at - held;
    let count = first.count;
    let second = settle::settle(
        &piece[from..],
        base + at,
        piece.len() - from,
        &mut found[count..],
    );
    Reached {
        at: at + second.at,
        count: count + second.count,
    }
}

// Writes the lines of the frames found, and the state with the bytes that stay unread: too little room is 9.
fn close(
    state: &mut [u8],
    came: usize,
    from: usize,
    unread: &[u8],
    found: &[FrameAt],
    out: &mut [u8],
) -> Result<u32, Refusal>
    requires state_len { length state.old ≡ 74 }
    requires came_bound { came ≤ 4096 }
    requires unread_len_bound { length unread.now ≤ 69 }
    requires unread_len_bound_2 { length unread.now ≤ came }
    requires within { Within from found.now (came - length unread.now) }
    requires found_len_bound { length found.now ≤ 4096 }
    ensures result_value { outcome_of result ≡ on_accepted length (printed_by (lent_room (length out.old) (closed from came found.now unread.now))) }
    ensures out_after { out.new ≡ out_after (printed_by (lent_room (length out.old) (closed from came found.now unread.now))) out.old }
    ensures state_after { state.new ≡ state_after (lent_room (length out.old) (closed from came found.now unread.now)) state.old }
{
    if !lines::frames_fit(found, from, out.len()) {
        return Err(Refusal::Room);
    }
    let size = lines::put_frames(found, from, out);
    let run = came - unread.len() - lines::last_end(found, from);
    state::put(state, came, run, unread);
    Ok(size as u32)
}

// A piece after the checks on state and length, with a lent list for its frames.
fn piece_with(
    state: &mut [u8],
    bytes: &[u8],
    found: &mut [FrameAt],
    out: &mut [u8],
) -> Result<u32, Refusal>
    requires state_value { is_state state.old ≡ true }
    requires bytes_bound { (state_of state.old).came + length bytes.now ≤ 4096 }
    requires bytes_len_bound { length (state_of state.old).unread + length bytes.now < 5 * (length found.old + 1) }
    ensures result_value { outcome_of result ≡ on_accepted length (printed_by (piece (length out.old) state.old bytes.now)) }
    ensures out_after { out.new ≡ out_after (printed_by (piece (length out.old) state.old bytes.now)) out.old }
    ensures state_after { state.new ≡ state_after (piece (length out.old) state.old bytes.now) state.old }
{
    let State { came, run, unread } = state::read(state);
    let held = unread.len();
    let base = came - held;
    let mut window = [0u8; WINDOW];
    let reached = judge(unread, bytes, base, &mut window, found);
    let at = reached.at;
    let count = reached.count;
    let total = came + bytes.len();
    if at < held {
        return close(
            state,
            total,
            base - run,
            &window[at..held + bytes.len()],
            &found[..count],
            out,
        );
    }
    close(
        state,
        total,
        base - run,
        &bytes[at - held..],
        &found[..count],
        out,
    )
}

// With a list for so many frames. Only the list is made here, so that the code behind it is there once.
fn piece_in<const N: usize>(state: &mut [u8], bytes: &[u8], out: &mut [u8]) -> Result<u32, Refusal>
    requires state_value { is_state state.old ≡ true }
    requires bytes_bound { (state_of state.old).came + length bytes.now ≤ 4096 }
    requires bytes_len_bound { length (state_of state.old).unread + length bytes.now < 5 * (N + 1) }
    requires frames_bound { N ≤ 819 }
    ensures result_value { outcome_of result ≡ on_accepted length (printed_by (piece (length out.old) state.old bytes.now)) }
    ensures out_after { out.new ≡ out_after (printed_by (piece (length out.old) state.old bytes.now)) out.old }
    ensures state_after { state.new ≡ state_after (piece (length out.old) state.old bytes.now) state.old }
{
    let mut found = [FrameAt::UNUSED; N];
    piece_with(state, bytes, &mut found, out)
}

// Takes a piece: 8 for a state that no pieces lead to, 3 where the piece takes the capture above 4,096 bytes, then 9.
pub fn piece(state: &mut [u8], bytes: &[u8], out: &mut [u8]) -> Result<u32, Refusal>
    ensures result_value { outcome_of result ≡ on_accepted length (printed_by (piece (length out.old) state.old bytes.now)) }
    ensures out_after { out.new ≡ out_after (printed_by (piece (length out.old) state.old bytes.now)) out.old }
    ensures state_after { state.new ≡ state_after (piece (length out.old) state.old bytes.now) state.old }
{
    if !state::is_state(state) {
        return Err(Refusal::Field);
    }
    let st = state::read(state);
    if MAX_CAPTURE - st.came < bytes.len() {
        return Err(Refusal::Length);
    }
    if settle::is_waiting(st.unread, bytes.len()) {
        state::append(state, bytes);
        return Ok(0);
    }
    if bytes.len() <= SHORT_PIECE {
        // Noise behind no unread byte is only counted.
        if st.unread.is_empty() && settle::is_noise(bytes) {
            state::count_noise(state, bytes.len());
            return Ok(0);
        }
        return piece_in::<SHORT_FRAMES>(state, bytes, out);
    }
    piece_in::<MAX_FRAMES>(state, bytes, out)
}

// The finishing call after the check on the state, with a lent list for the frames among the unread bytes.
fn finish_with(state: &mut [u8], found: &mut [FrameAt], out: &mut [u8]) -> Result<u32, Refusal>
    requires state_value { is_state state.old ≡ true }
    requires found_len { length found.old ≡ 13 }
    ensures result_value { outcome_of result ≡ on_accepted length (printed_by (finish (length out.old) state.old)) }
    ensures out_after { out.new ≡ out_after (printed_by (finish (length out.old) state.old)) out.old }
    ensures state_after { state.new ≡ state_after (finish (length out.old) state.old) state.old }
{
    let State { came, run, unread } = state::read(state);
    let base = came - unread.len();
    let n = settle::end(unread, base, found);
    if out.len() < lines::text_size(&found[..n], base - run, came) {
        return Err(Refusal::Room);
    }
    let size = lines::put_listing(&found[..n], base - run, came, out);
    state::put_fresh(state);
    Ok(size as u32)
}

// The finishing call: 8 for a state that no pieces lead to, then 9. It leaves a fresh state.
pub fn finish(state: &mut [u8], out: &mut [u8]) -> Result<u32, Refusal>
    ensures result_value { outcome_of result ≡ on_accepted length (printed_by (finish (length out.old) state.old)) }
    ensures out_after { out.new ≡ out_after (printed_by (finish (length out.old) state.old)) out.old }
    ensures state_after { state.new ≡ state_after (finish (length out.old) state.old) state.old }
{
    if !state::is_state(state) {
        return Err(Refusal::Field);
    }
    let mut found = [FrameAt::UNUSED; UNREAD_FRAMES];
    finish_with(state, &mut found, out)
}
