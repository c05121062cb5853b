// The types that carry a list, and their items: zones, events, text messages.
ghost use Rattle.std.specs.Prelude.{◌≡◌};
ghost use Rattle.message.specs.Lists.{condition_of, latched_of, arming_of, zone_of, zone_listed, text_of, word_of};

// A type stays a byte: C hands over any, and one that is no type is answered 6.
pub(crate) const ZONE_STATUS: u8 = 0x16;

pub(crate) const EVENTS: u8 = 0x23;

pub(crate) const MESSAGE_STATUS: u8 = 0x25;

// Status bits 0 and 1.
#[derive(Clone, Copy)]
pub enum Condition {
    Secure,
    NotReady,
    Trouble,
}

// Status bits 2 and 3.
#[derive(Clone, Copy)]
pub enum LatchedAlarm {
    Secure,
    Tripped,
    Reset,
}

// Status bits 4 and 5.
#[derive(Clone, Copy)]
pub enum Arming {
    Disarmed,
    Armed,
    BypassedByUser,
    BypassedBySystem,
}

#[derive(Clone, Copy)]
pub struct Zone {
    pub condition: Condition,
    pub latched_alarm: LatchedAlarm,
    pub arming: Arming,
    // Status bit 6.
    pub unacknowledged_trouble: bool,
    pub loop_reading: u8,
}

// The status of a text message: of its two bits the low and the high one.
#[derive(Clone, Copy)]
pub struct TextMessage {
    pub displayed: bool,
    pub not_acknowledged: bool,
}

// A function of the whole byte, as are those of the other fields, and no `TryFrom`: `zone_listed` has decided before.
fn condition_of(status: u8) -> Condition
    ensures { result ≡ condition_of status }
{
    match status % 4 {
        0 => Condition::Secure,
        1 => Condition::NotReady,
        _ => Condition::Trouble,
    }
}

fn latched_of(status: u8) -> LatchedAlarm
    ensures { result ≡ latched_of status }
{
    match status / 4 % 4 {
        0 => LatchedAlarm::Secure,
        1 => LatchedAlarm::Tripped,
        _ => LatchedAlarm::Reset,
    }
}

fn arming_of(status: u8) -> Arming
    ensures { result ≡ arming_of status }
{
    match status / 16 % 4 {
        0 => Arming::Disarmed,
        1 => Arming::Armed,
        2 => Arming::BypassedByUser,
        _ => Arming::BypassedBySystem,
    }
}

// The zone that a status byte and a loop reading stand for.
pub(crate) fn zone_of(status: u8, reading: u8) -> Zone
    ensures { result ≡ zone_of status reading }
{
    Zone {
        condition: condition_of(status),
        latched_alarm: latched_of(status),
        arming: arming_of(status),
        unacknowledged_trouble: status / 64 % 2 == 1,
        loop_reading: reading,
    }
}

// Whether a status byte is in the list: neither field of value 3, bit 7 clear.
pub(crate) fn zone_listed(status: u8) -> bool
    ensures { result ≡ zone_listed status }
{
    status % 4 != 3 && status / 4 % 4 != 3 && status < 128
}

// The text message of two bits.
pub(crate) fn text_of(bits: u8) -> TextMessage
    ensures { result ≡ text_of bits }
{
    TextMessage {
        displayed: bits % 2 == 1,
        not_acknowledged: bits / 2 % 2 == 1,
    }
}

// A word of two bytes, high byte first.
pub(crate) fn word(hi: u8, lo: u8) -> u16
    ensures { result ≡ word_of hi lo }
{
    u16::from_be_bytes([hi, lo])
}
