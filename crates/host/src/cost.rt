// Document 01, "Cost", and document 02, K5: cost words, meter replies and the tally for C.
ghost use Rattle.std.specs.Prelude.{◌≡◌, [], ◌∷◌};
ghost use Rattle.answer.specs.Answer.{accepted, on_accepted};
ghost use Rattle.answer.specs.Packed.{packed, field};
ghost use Rattle.tally.specs.Cost.{millionths};
ghost use Rattle.tally.specs.Total.{next_total, total_after};

use tally::Tally;

// The value of a cost word in millionths: no word is refused.
pub fn cost_millionths(word: u16) -> u64
    ensures { result ≡ packed (accepted (field 56 (millionths word) ∷ [])) }
{
    answer::pack_56_bits(tally::convert(word))
}

// Adds the cost word of a meter reply to the lent tally.
pub fn meter_add(t: &mut Tally, bytes: &[u8]) -> u64
    ensures { (result ≡ packed (on_accepted (λ total. []) (next_total t.old.total bytes.now)))
        × (t.new.total ≡ total_after t.old.total bytes.now) }
{
    match tally::add_reply(t, bytes) {
        Ok(_) => answer::pack_nothing(),
        Err(r) => answer::pack_refusal(r),
    }
}
