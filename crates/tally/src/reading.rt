// Document 02, K5: a meter reply, and the cost word that it carries.
ghost use Rattle.std.specs.Prelude.{◌≡◌};
ghost use Rattle.answer.specs.Answer.{outcome_of};
ghost use Rattle.tally.specs.Reading.{word_in, reading};

use answer::Refusal;
use omnistat::reply::Reply;

// The first register of a cost word.
const COST_REGISTER: u8 = 170;

// The word of data: only two registers from 170 on have one, the high byte first.
fn word_in(start: u8, values: &[u8]) -> Result<u16, Refusal>
    ensures { outcome_of result ≡ word_in start values.now }
{
    match values {
        [high, low] if start == COST_REGISTER => Ok(u16::from_be_bytes([*high, *low])),
        _ => Err(Refusal::Field),
    }
}

// The word of a reply, from whichever thermostat.
pub(crate) fn read(reply: &[u8]) -> Result<u16, Refusal>
    ensures { outcome_of result ≡ reading reply.now }
{
    match omnistat::reply::read(reply)? {
        Reply::Data { start, count, .. } => word_in(start, omnistat::reply::values(reply, count)),
        _ => Err(Refusal::Field),
    }
}
