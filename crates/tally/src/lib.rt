// Document 01, "Cost", and document 02, K5: the value of a cost word, and the tally, a record that the caller lends and to which meter
// replies are added.
#![tactic(auto)]

ghost use Rattle.std.specs.Prelude.{◌≡◌};
ghost use Rattle.tally.specs.Cost.{millionths, power};
ghost use Rattle.answer.specs.Answer.{outcome_of};
ghost use Rattle.tally.specs.Total.{exact_sum, next_total, total_after};

use answer::Refusal;

mod reading; // a meter reply, and the cost word that it carries

// The tally: the exact sum of the accepted words, in millionths. It starts at 0. Not `Copy`, since a copy would be a second sum.
#[repr(C)]
#[derive(Drop)]
pub struct Tally {
    pub total: u64,
}

// What the last digit counts in millionths, at a number of decimals. A word has at most 6; their own arms make a table of them.
#[tactic(auto, unfolding(crate::specs::Cost::power))]
fn power(decimals: u16) -> u64
    ensures { result ≡ power decimals }
{
    match decimals {
        0 => 1_000_000,
        1 => 100_000,
        2 => 10_000,
        3 => 1_000,
        4 => 100,
        5 => 10,
        6 => 1,
        _ => 1,
    }
}

// The conversion of a cost word: its value in millionths. Every word is a cost (document 02, K4).
pub fn convert(word: u16) -> u64
    ensures { result ≡ millionths word }
{
    u64::from(word % 10000) * power(word / 10000)
}

// A value added to a total.
fn exact_sum(total: u64, value: u64) -> Result<u64, Refusal>
    ensures { outcome_of result ≡ exact_sum total value }
{
    total.checked_add(value).ok_or(Refusal::Total)
}

// The word of a meter reply added to a total.
fn next_total(total: u64, reply: &[u8]) -> Result<u64, Refusal>
    ensures { outcome_of result ≡ next_total total reply.now }
{
    let word = crate::reading::read(reply)?;
    exact_sum(total, convert(word))
}

// Adds the word of a meter reply to the tally, and answers the new total; a refusal leaves the tally as it was.
pub fn add_reply(t: &mut Tally, reply: &[u8]) -> Result<u64, Refusal>
    ensures { (outcome_of result ≡ next_total t.old.total reply.now)
        × (t.new.total ≡ total_after t.old.total reply.now) }
{
    let total = next_total(t.total, reply)?;
    t.total = total;
    Ok(total)
}
