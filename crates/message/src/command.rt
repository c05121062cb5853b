// Type 0F, command: command number, P1, P2 high, P2 low.
ghost use Rattle.std.specs.Prelude.{◌≡◌, length};
ghost use Rattle.message.specs.Command.{duration_listed, duration_of, command_listed, command_of};
ghost use Rattle.message.specs.Parts.{command_in};

use crate::lists;

// How long a unit stays off or on, as P1: 0; 1 to 99; 101 to 199; 201 to 218.
#[derive(Clone, Copy)]
pub enum Duration {
    None,
    Seconds(u8),
    Minutes(u8),
    Hours(u8),
}

// The commands, by their numbers 0, 1, 2, 3, 9, 10, 11 and 12.
#[derive(Clone, Copy)]
pub enum Command {
    Off { duration: Duration, unit: u16 },
    On { duration: Duration, unit: u16 },
    AllOff { area: u16 },
    AllOn { area: u16 },
    Level { percent: u8, unit: u16 },
    Decrement { counter: u16 },
    Increment { counter: u16 },
    SetCounter { value: u8, counter: u16 },
}

// Whether P1 stands for a duration.
fn duration_listed(p1: u8) -> bool
    ensures { result ≡ duration_listed p1 }
{
    matches!(p1, 0..=99 | 101..=199 | 201..=218)
}

// The duration that P1 stands for.
fn duration_of(p1: u8) -> Duration
    ensures { result ≡ duration_of p1 }
{
    match p1 {
        0 => Duration::None,
        1..=99 => Duration::Seconds(p1),
        100..=199 => Duration::Minutes(p1 - 100),
        _ => Duration::Hours(p1 - 200),
    }
}

// Whether a command number and its parameters are in the list.
#[tactic(auto, unfolding(crate::specs::Command::command_listed))]
pub(crate) fn command_listed(number: u8, p1: u8, p2: u16) -> bool
    ensures { result ≡ command_listed number p1 p2 }
{
    match number {
        0 | 1 => 1 <= p2 && duration_listed(p1),
        2 | 3 => p1 == 0,
        9 => 1 <= p2 && p1 <= 100,
        10 | 11 => 1 <= p2 && p1 == 0,
        12 => 1 <= p2,
        _ => false,
    }
}

// The command that a listed number and its parameters stand for.
#[tactic(auto, unfolding(crate::specs::Command::command_of))]
fn command_of(number: u8, p1: u8, p2: u16) -> Command
    ensures { result ≡ command_of number p1 p2 }
{
    match number {
        0 => Command::Off {
            duration: duration_of(p1),
            unit: p2,
        },
        1 => Command::On {
            duration: duration_of(p1),
            unit: p2,
        },
        2 => Command::AllOff { area: p2 },
        3 => Command::AllOn { area: p2 },
        9 => Command::Level {
            percent: p1,
            unit: p2,
        },
        10 => Command::Decrement { counter: p2 },
        11 => Command::Increment { counter: p2 },
        _ => Command::SetCounter {
            value: p1,
            counter: p2,
        },
    }
}

// The command that data bytes carry, which are known to be right.
pub(crate) fn of_data(data: &[u8]) -> Command
    requires { length «data».now ≡ 4 }
    ensures { result ≡ command_in «data».now }
{
    command_of(data[0], data[1], lists::word(data[2], data[3]))
}
