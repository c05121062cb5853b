// Time that passes at the door, and what is answered to a message, by value.
ghost use Rattle.std.specs.Prelude.{◌≡◌, ◌-◌, length};
ghost use Rattle.door.specs.Door.{session, elapsed, same_digits, wrong_login, on_login, on_other, judge};

use crate::Reply;
use crate::state::{MOST_WRONG, SHUT_OUT, State};

// What is answered to a message, and the state that it leaves.
#[derive(Clone, Copy)]
pub struct Judged {
    pub reply: Reply,
    pub state: State,
}

// Seconds of silence that log out.
const SILENCE: u32 = 180;

const ACKNOWLEDGE: u8 = 0x05;

const LOGIN: u8 = 0x20;

const LOGOUT: u8 = 0x21;

// A session after so many seconds of silence.
fn session(seconds: u32, logged_in: bool) -> bool
    ensures { result ≡ session seconds logged_in }
{
    seconds < SILENCE && logged_in
}

// What is left of a shut-out after so many seconds.
fn left_after(seconds: u32, left: u16) -> u16
    ensures { result ≡ left - seconds }
{
    u32::from(left).saturating_sub(seconds) as u16
}

// The state after whole seconds.
pub(crate) fn elapsed(seconds: u32, st: State) -> State
    ensures { result ≡ elapsed seconds st }
{
    State {
        logged_in: session(seconds, st.logged_in),
        left: left_after(seconds, st.left),
        ..st
    }
}

// Whether a login has the secret's digits. All four are compared, whichever differs: `==` and `all` would end at the first.
fn same_digits(secret: &[u8], digits: &[u8]) -> bool
    requires secret_len { length secret.now ≡ 4 }
    requires digits_len { length digits.now ≡ 4 }
    ensures { result ≡ same_digits secret.now digits.now }
{
    let differing = (secret[0] != digits[0]) as u8
        + (secret[1] != digits[1]) as u8
        + (secret[2] != digits[2]) as u8
        + (secret[3] != digits[3]) as u8;
    differing == 0
}

// The state after a wrong login.
fn wrong_login(st: State) -> State
    ensures { result ≡ wrong_login st }
{
    if st.wrong < MOST_WRONG {
        return State {
            wrong: st.wrong + 1,
            ..st
        };
    }
    State {
        wrong: 0,
        left: SHUT_OUT,
        ..st
    }
}

fn on_login(right: bool, st: State) -> Judged
    ensures { result ≡ on_login right st }
{
    if 0 < st.left {
        return Judged {
            reply: Reply::NegativeAcknowledge,
            state: st,
        };
    }
    if right {
        return Judged {
            reply: Reply::Acknowledge,
            state: State {
                logged_in: true,
                wrong: 0,
                left: 0,
            },
        };
    }
    Judged {
        reply: Reply::NegativeAcknowledge,
        state: wrong_login(st),
    }
}

// Any message but a login.
fn on_other(kind: u8, st: State) -> Judged
    ensures { result ≡ on_other kind st }
{
    if !st.logged_in {
        return Judged {
            reply: Reply::NegativeAcknowledge,
            state: st,
        };
    }
    if kind == ACKNOWLEDGE {
        return Judged {
            reply: Reply::Acknowledge,
            state: st,
        };
    }
    if kind == LOGOUT {
        return Judged {
            reply: Reply::Acknowledge,
            state: State {
                logged_in: false,
                ..st
            },
        };
    }
    Judged {
        reply: Reply::PassedOn,
        state: st,
    }
}

// Judges a message at a state from which the seconds have been taken.
pub(crate) fn judge(secret: &[u8], kind: u8, data: &[u8], st: State) -> Judged
    requires secret_len { length secret.now ≡ 4 }
    requires data_len { kind ≡ 0x20 → length «data».now ≡ 4 }
    ensures { result ≡ judge secret.now kind «data».now st }
{
    if kind == LOGIN {
        return on_login(same_digits(secret, data), st);
    }
    on_other(kind, st)
}
