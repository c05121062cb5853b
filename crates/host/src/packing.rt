// Answers packed for C: what is accepted as its fields, a refusal as its number.
ghost use Rattle.std.specs.Prelude.{◌≡◌, List};
ghost use Rattle.answer.specs.Answer.{accepted, on_accepted, outcome_of};
ghost use Rattle.answer.specs.Packed.{Field, packed};

use answer::Refusal;

// What has fields in a packed answer.
pub(crate) trait Fields {
    ghost fields: { Self → List Field };

    fn pack(self) -> u64
        ensures { result ≡ packed (accepted (fields self)) };
}

// A packed answer.
pub(crate) fn pack<T: Fields>(answered: Result<T, Refusal>) -> u64
    ensures { result ≡ packed (on_accepted T.fields (outcome_of answered)) }
{
    match answered {
        Ok(fields) => fields.pack(),
        Err(r) => answer::pack_refusal(r),
    }
}
