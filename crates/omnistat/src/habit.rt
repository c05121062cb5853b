// The habits of thermostats in replying to group polls, and what the host knows of one: its habit, and the group last polled.
ghost use Rattle.std.specs.Prelude.{◌≡◌, not, []};
ghost use Rattle.answer.specs.Answer.{accepted, refuse_if, on_accepted, outcome_of};
ghost use Rattle.omnistat.specs.Group.{reply_type, replied_group, habit_at};
ghost use Rattle.omnistat.specs.Message.{is_polled, group as groupValues};
ghost use Rattle.omnistat.specs.Host.{known_at};
ghost use Rattle.omnistat.specs.Answer.{known_in};
ghost use Rattle.omnistat.specs.Parts.{named_of};

use crate::frame::End;
use crate::group::Group;
use answer::Refusal;

// Numbered: the reply with each group has a type of its own. Printed: all have type 3, as source document 004 prints it.
#[derive(Clone, Copy, PartialEq, Eq)]
pub enum Habit {
    Numbered,
    Printed,
}

// The habit with this number, 0 or 1.
impl TryFrom<u8> for Habit {
    type Error = Refusal;

    ghost try_from_gives = { λ n r. outcome_of r ≡ habit_at n };

    fn try_from(n: u8) -> Result<Habit, Refusal> {
        match n {
            0 => Ok(Habit::Numbered),
            1 => Ok(Habit::Printed),
            _ => Err(Refusal::Field),
        }
    }
}

// The type of the reply with a group.
pub fn reply_type(habit: Habit, g: Group) -> u8
    ensures { result ≡ reply_type habit g }
{
    match (habit, g) {
        (Habit::Numbered, Group::First) => 3,
        (Habit::Numbered, Group::Second) => 4,
        (Habit::Numbered, Group::Third) => 5,
        (Habit::Printed, _) => 3,
    }
}

// What the host knows of a thermostat: its habit, and the group last polled.
#[derive(Clone, Copy)]
pub struct Known {
    pub habit: Habit,
    pub polled: Group,
}

// What the host names: a habit, 0 or 1, and the group last polled, 1 to 3.
pub fn known_at(habit: u8, polled: u8) -> Result<Known, Refusal>
    ensures { on_accepted known_in (outcome_of result) ≡ known_at habit polled }
{
    let habit = Habit::try_from(habit)?;
    let polled = Group::try_from(polled)?;
    Ok(Known { habit, polled })
}

impl Known {
    // The group that a reply of this type carries: by number, the one whose type it is; as printed, the polled one.
    pub(crate) fn replied(self, kind: u8) -> Option<Group>
        ensures { named_of result ≡ replied_group self.habit self.polled kind }
    {
        match (self.habit, kind) {
            (Habit::Numbered, 3) => Some(Group::First),
            (Habit::Numbered, 4) => Some(Group::Second),
            (Habit::Numbered, 5) => Some(Group::Third),
            (Habit::Printed, 3) => Some(self.polled),
            _ => None,
        }
    }

    // The group that the type of the reply with a group names: as printed, the polled one.
    pub(crate) fn carried(self, g: Group) -> Group
        ensures { accepted result ≡ replied_group self.habit self.polled (reply_type self.habit g) }
    {
        match self.habit {
            Habit::Numbered => g,
            Habit::Printed => self.polled,
        }
    }

    // Whether the reply with a group may be written: as printed, only that of the polled one.
    pub(crate) fn check_polled(self, g: Group) -> Result<(), Refusal>
        ensures { outcome_of result ≡ refuse_if (not (is_polled End.Host (known_in self) (groupValues g []))) 8 (accepted tt) }
    {
        if self.habit == Habit::Printed && g != self.polled {
            return Err(Refusal::Field);
        }
        Ok(())
    }
}
