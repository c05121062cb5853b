// The lent state of a capture that comes in pieces, 74 bytes: how many bytes have come (2), how long the run of noise without a line
// is (2), the count of unread bytes (1), the unread bytes (69, those past the count zero).
ghost use Rattle.std.specs.Prelude.{◌≡◌, true, [], ◌++◌, ◌+◌, ◌/◌, ◌%◌, ◌<◌, ◌≤◌, length, set};
ghost use Rattle.listing.specs.State.{as_state, possible, zeros, all_zero, word, state_bytes, state_of, is_state, fresh};

use crate::MAX_CAPTURE;
use crate::place::is_settled;
use link::copying::copy;

const SIZE: usize = 74;

const CAME: usize = 0;

const RUN: usize = 2;

const COUNT: usize = 4;

const UNREAD: usize = 5;

// Most bytes that stay unread: a place with 69 bytes is settled.
const MAX_UNREAD: usize = 68;

const MIN_FRAME: usize = 5;

// Two bytes from a place on, the high byte first.
fn word(state: &[u8], at: usize) -> usize
    requires { at + 2 ≤ length state.now }
    ensures { result ≡ word state.now at }
{
    usize::from(u16::from_be_bytes([state[at], state[at + 1]]))
}

// Writes two bytes from a place on, the high byte first.
fn put_word(state: &mut [u8], at: usize, n: usize)
    requires at_in_bounds { at + 2 ≤ length state.old }
    requires n_bound { n < 65536 }
    ensures { state.new ≡ set (set state.old at (n / 256)) (at + 1) (n % 256) }
{
    let [high, low] = (n as u16).to_be_bytes();
    state[at] = high;
    state[at + 1] = low;
}

// What a state says: how many bytes have come, how many noise bytes stand without a line, and the bytes not read yet.
#[derive(Clone, Copy)]
pub(crate) struct State<'a> {
    pub(crate) came: usize,
    pub(crate) run: usize,
    pub(crate) unread: &'a [u8],
}

pub(crate) fn read(state: &[u8]) -> State<'_>
    requires { is_state state.now ≡ true }
    ensures { as_state result.came result.run result.unread.now ≡ state_of state.now }
{
    let end = UNREAD + state[COUNT] as usize;
    State {
        came: word(state, CAME),
        run: word(state, RUN),
        unread: &state[UNREAD..end],
    }
}

// Whether all bytes are zero. Their bits together say so, with no way out of the loop.
fn is_zero(bytes: &[u8]) -> bool
    ensures { result ≡ all_zero bytes.now }
{
    let mut all = 0u8;
    for b in bytes {
        all |= *b;
    }
    all == 0
}

// Whether pieces lead to these numbers and unread bytes.
#[tactic(auto, unfolding(crate::specs::State::possible))]
fn is_possible(came: usize, run: usize, unread: &[u8]) -> bool
    requires run_bound { run < 65536 }
    requires unread_len_bound { length unread.now ≤ 69 }
    ensures { result ≡ possible (as_state came run unread.now) }
{
    let late = run + unread.len();
    if MAX_CAPTURE < came || came < late {
        return false;
    }
    let early = came - late;
    (early == 0 || MIN_FRAME <= early) && !is_settled(unread)
}

// Whether these bytes are a state that pieces lead to.
pub(crate) fn is_state(state: &[u8]) -> bool
    ensures { result ≡ is_state state.now }
{
    if state.len() != SIZE {
        return false;
    }
    let count = state[COUNT] as usize;
    if MAX_UNREAD < count {
        return false;
    }
    let end = UNREAD + count;
    if !is_zero(&state[end..]) {
        return false;
    }
    is_possible(word(state, CAME), word(state, RUN), &state[UNREAD..end])
}

// Makes a state fresh.
pub(crate) fn put_fresh(state: &mut [u8])
    requires { length state.old ≡ 74 }
    ensures { state.new ≡ fresh }
{
    state.fill(0);
}

// Writes a state: its numbers and its unread bytes, and zeros behind them.
pub(crate) fn put(state: &mut [u8], came: usize, run: usize, unread: &[u8])
    requires state_len { length state.old ≡ 74 }
    requires came_bound { came < 65536 }
    requires run_bound { run < 65536 }
    requires unread_len_bound { length unread.now ≤ 69 }
    ensures { state.new ≡ state_bytes (as_state came run unread.now) }
{
    put_fresh(state);
    put_word(state, CAME, came);
    put_word(state, RUN, run);
    state[COUNT] = unread.len() as u8;
    let end = UNREAD + unread.len();
    copy(unread, &mut state[UNREAD..end]);
}

// Puts a piece behind the unread bytes, where no place of them is judged.
pub(crate) fn append(state: &mut [u8], piece: &[u8])
    requires state_value { is_state state.old ≡ true }
    requires piece_bound { (state_of state.old).came + length piece.now ≤ 4096 }
    requires piece_len_bound { length (state_of state.old).unread + length piece.now ≤ 69 }
    ensures { state.new ≡ state_bytes (as_state ((state_of state.old).came + length piece.now) (state_of state.old).run ((state_of state.old).unread ++ piece.now)) }
{
    let count = state[COUNT] as usize;
    let total = read(state).came + piece.len();
    let from = UNREAD + count;
    let end = from + piece.len();
    put_word(state, CAME, total);
    state[COUNT] = (count + piece.len()) as u8;
    copy(piece, &mut state[from..end]);
}

// Counts so many bytes of noise, where nothing is unread.
pub(crate) fn count_noise(state: &mut [u8], count: usize)
    requires state_value { is_state state.old ≡ true }
    requires count_bound { (state_of state.old).came + count ≤ 4096 }
    requires state_value_2 { (state_of state.old).unread ≡ [] }
    ensures { state.new ≡ state_bytes (as_state ((state_of state.old).came + count) ((state_of state.old).run + count) []) }
{
    let st = read(state);
    let total = st.came + count;
    let noise = st.run + count;
    put_word(state, CAME, total);
    put_word(state, RUN, noise);
}
