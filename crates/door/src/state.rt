// The secret, four digits; and the lent state, 4 bytes: logged in (1), wrong logins counted (1), seconds left of a shut-out (2, high byte
// first).
ghost use Rattle.std.specs.Prelude.{◌≡◌, length};
ghost use Rattle.door.specs.State.{is_secret, seconds_left, is_state, state_of, state_bytes};

#[derive(Clone, Copy)]
pub struct State {
    pub logged_in: bool,
    // Wrong logins in a row, none of them during a shut-out.
    pub wrong: u8,
    // Seconds left of a shut-out.
    pub left: u16,
}

const SIZE: usize = 4;

const DIGITS: usize = 4;

pub(crate) const MOST_WRONG: u8 = 2;

pub(crate) const SHUT_OUT: u16 = 3600;

// Whether these bytes are a secret.
#[tactic(auto, unfolding(crate::specs::State::is_secret))]
pub(crate) fn is_secret(secret: &[u8]) -> bool
    ensures { result ≡ is_secret secret.now }
{
    secret.len() == DIGITS
        && message::message::digits_listed(secret[0], secret[1], secret[2], secret[3])
}

// The seconds left that a state says.
fn seconds_left(state: &[u8]) -> u16
    requires { length state.now ≡ 4 }
    ensures { result ≡ seconds_left state.now }
{
    u16::from_be_bytes([state[2], state[3]])
}

// Whether these bytes are a state.
#[tactic(auto, unfolding(crate::specs::State::is_state))]
pub(crate) fn is_state(state: &[u8]) -> bool
    ensures { result ≡ is_state state.now }
{
    if state.len() != SIZE {
        return false;
    }
    let wrong = state[1];
    let left = seconds_left(state);
    state[0] <= 1 && wrong <= MOST_WRONG && left <= SHUT_OUT && (wrong == 0 || left == 0)
}

// The state that these bytes say.
#[tactic(auto, unfolding(crate::specs::State::state_of))]
pub(crate) fn state_of(state: &[u8]) -> State
    requires { length state.now ≡ 4 }
    ensures { result ≡ state_of state.now }
{
    State {
        logged_in: state[0] == 1,
        wrong: state[1],
        left: seconds_left(state),
    }
}

// Writes a state.
pub(crate) fn put(state: &mut [u8], st: State)
    requires { length state.old ≡ 4 }
    ensures { state.new ≡ state_bytes st }
{
    // By `to_be_bytes` the goal `returns` did not close.
    let left = st.left;
    state[0] = st.logged_in as u8;
    state[1] = st.wrong;
    state[2] = (left / 256) as u8;
    state[3] = (left % 256) as u8;
}
