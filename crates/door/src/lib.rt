// The login door (document 02, K6): a controller's own, simulated, so that logins can be practised.
#![tactic(auto)]

mod judge; // time that passes, and what is answered to a message
mod state; // the secret, and the lent state

ghost use Rattle.std.specs.Prelude.{◌≡◌};
ghost use Rattle.answer.specs.Answer.{outcome_of};
ghost use Rattle.door.specs.Door.{step, reply_by, state_after};

use answer::Refusal;

// What the door answers to a message: 05, 06, or nothing of its own, since the message is passed on.
#[derive(Clone, Copy, PartialEq, Eq)]
pub enum Reply {
    Acknowledge,
    NegativeAcknowledge,
    PassedOn,
}

// Takes the message of a type and data bytes, so many whole seconds after the last accepted one: 8 for the secret and the state, then the
// writer's 6, 7, 8.
pub fn step(
    secret: &[u8],
    state: &mut [u8],
    seconds: u32,
    kind: u8,
    data: &[u8],
) -> Result<Reply, Refusal>
    ensures result_value { outcome_of result ≡ reply_by (step secret.now state.old seconds kind «data».now) }
    ensures state_after { state.new ≡ state_after (step secret.now state.old seconds kind «data».now) state.old }
{
    if !state::is_secret(secret) {
        return Err(Refusal::Field);
    }
    if !state::is_state(state) {
        return Err(Refusal::Field);
    }
    let _size = message::message::size(kind, data)?;
    let before = judge::elapsed(seconds, state::state_of(state));
    let judged = judge::judge(secret, kind, data, before);
    state::put(state, judged.state);
    Ok(judged.reply)
}
