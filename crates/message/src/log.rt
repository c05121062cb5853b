// Type 0E, log entry.
ghost use Rattle.std.specs.Prelude.{◌≡◌, length};
ghost use Rattle.message.specs.Log.{calendar_listed, log_listed, log_of};

use crate::lists;

#[derive(Clone, Copy)]
pub struct LogEntry {
    // At least 1.
    pub number: u8,
    // The calendar fields hold only where this is not 0.
    pub time_valid: u8,
    pub month: u8,
    pub day: u8,
    pub hour: u8,
    pub minute: u8,
    pub event_type: u8,
    pub parameter_1: u8,
    pub parameter_2: u16,
}

// Whether the calendar fields are in their ranges.
#[tactic(auto, unfolding(crate::specs::Log::calendar_listed))]
fn calendar_listed(month: u8, day: u8, hour: u8, minute: u8) -> bool
    ensures { result ≡ calendar_listed month day hour minute }
{
    (1..=12).contains(&month) && (1..=31).contains(&day) && hour <= 23 && minute <= 59
}

// Whether the fields of an entry are in their lists.
#[tactic(auto, unfolding(crate::specs::Log::log_listed))]
pub(crate) fn log_listed(e: LogEntry) -> bool
    ensures { result ≡ log_listed e }
{
    1 <= e.number && (e.time_valid == 0 || calendar_listed(e.month, e.day, e.hour, e.minute))
}

// The log entry that ten data bytes carry.
pub(crate) fn log_of(data: &[u8]) -> LogEntry
    requires { length «data».now ≡ 10 }
    ensures { result ≡ log_of «data».now }
{
    LogEntry {
        number: data[0],
        time_valid: data[1],
        month: data[2],
        day: data[3],
        hour: data[4],
        minute: data[5],
        event_type: data[6],
        parameter_1: data[7],
        parameter_2: lists::word(data[8], data[9]),
    }
}
