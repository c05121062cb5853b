// The three groups of registers, the types of their polls and the lengths of their replies; and a group by its number.
ghost use Rattle.std.specs.Prelude.{◌≡◌};
ghost use Rattle.answer.specs.Answer.{outcome_of};
ghost use Rattle.omnistat.specs.Group.{poll_type, reply_length, group_of, group_at};
ghost use Rattle.omnistat.specs.Parts.{named_of};

use answer::Refusal;

#[derive(Clone, Copy, PartialEq, Eq)]
pub enum Group {
    First,
    Second,
    Third,
}

// The group with this number, 1 to 3.
impl TryFrom<u8> for Group {
    type Error = Refusal;

    ghost try_from_gives = { λ n r. outcome_of r ≡ group_at n };

    fn try_from(n: u8) -> Result<Group, Refusal> {
        match n {
            1 => Ok(Group::First),
            2 => Ok(Group::Second),
            3 => Ok(Group::Third),
            _ => Err(Refusal::Field),
        }
    }
}

// The type of the poll of a group.
pub fn poll_type(g: Group) -> u8
    ensures { result ≡ poll_type g }
{
    match g {
        Group::First => 2,
        Group::Second => 3,
        Group::Third => 4,
    }
}

// The group whose poll has this type.
pub(crate) fn polled(kind: u8) -> Option<Group>
    ensures { named_of result ≡ group_of poll_type kind }
{
    match kind {
        2 => Some(Group::First),
        3 => Some(Group::Second),
        4 => Some(Group::Third),
        _ => None,
    }
}

// How many values the reply with a group has.
pub(crate) fn reply_length(g: Group) -> u8
    ensures { result ≡ reply_length g }
{
    match g {
        Group::First | Group::Second => 6,
        Group::Third => 10,
    }
}
