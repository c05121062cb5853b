// What the messages of both ends share: the rule for runs of registers, the checks of data bytes, and what is packed of them.
ghost use Rattle.std.specs.Prelude.{◌≡◌, ◌∷◌, not, length};
ghost use Rattle.answer.specs.Answer.{accepted, refuse_if, on_accepted, in_room, out_after, outcome_of};
ghost use Rattle.answer.specs.Packed.{packed};
ghost use Rattle.omnistat.specs.Register.{within, run_allowed};
ghost use Rattle.omnistat.specs.Message.{of_length, as_run};
ghost use Rattle.omnistat.specs.Answer.{counted_fields};
ghost use Rattle.omnistat.specs.Text.{text_type};
ghost use Rattle.omnistat.specs.Omnistat.{write_bytes};
ghost use Rattle.omnistat.specs.Parts.{Says, run_in};

use crate::frame::End;
use crate::text::{FIRST_TEXT, LAST_TEXT};
use answer::Refusal;

// The most values that one message sets or returns.
const MOST_VALUES: usize = 14;
// The count of registers.
const REGISTERS: u16 = 256;

// A start register and the count of the values that follow it.
#[derive(Clone, Copy)]
pub(crate) struct Run {
    pub start: u8,
    pub count: u8,
}

// Whether a run of registers ends at or below 255 and meets no text register, 172 to 181.
#[tactic(auto, unfolding(crate::specs::Register::run_allowed))]
pub(crate) fn is_run(start: u8, count: u8) -> bool
    ensures { result ≡ run_allowed start count }
{
    let past = u16::from(start) + u16::from(count);
    past <= REGISTERS && (past <= u16::from(FIRST_TEXT) || LAST_TEXT < start)
}

// Whether there are so many data bytes.
pub(crate) fn check_length(count: usize, payload: &[u8]) -> Result<(), Refusal>
    ensures { outcome_of result ≡ of_length count payload.now tt }
{
    if payload.len() != count {
        return Err(Refusal::TypeLength);
    }
    Ok(())
}

// Whether a start register and so many values are the data bytes of a set or data message.
pub(crate) fn check_run(start: u8, count: usize) -> Result<(), Refusal>
    ensures { outcome_of result ≡ refuse_if (not (within 1 14 count)) 7 (refuse_if (not (run_allowed start count)) 8 (accepted tt)) }
{
    if !(1..=MOST_VALUES).contains(&count) {
        return Err(Refusal::TypeLength);
    }
    if !is_run(start, count as u8) {
        return Err(Refusal::Field);
    }
    Ok(())
}

// The same of the data bytes themselves.
pub(crate) fn check_run_in(payload: &[u8]) -> Result<(), Refusal>
    ensures { outcome_of result ≡ as_run (λ start values. tt) payload.now }
{
    if payload.len() == 0 {
        return Err(Refusal::TypeLength);
    }
    check_run(payload[0], payload.len() - 1)
}

// The data bytes of a set or data message: a start register and 1 to 14 values.
pub(crate) fn read_run(payload: &[u8]) -> Result<Run, Refusal>
    ensures { Says run_in payload.now result (as_run (λ start values. (start, values)) payload.now) }
{
    check_run_in(payload)?;
    Ok(Run {
        start: payload[0],
        count: (payload.len() - 1) as u8,
    })
}

// What is packed of a set or data message.
pub(crate) fn pack_run(kind: u8, address: u8, payload: &[u8]) -> u64
    ensures { result ≡ packed (as_run (λ start values. counted_fields kind address start (length values)) payload.now) }
{
    match check_run_in(payload) {
        Err(r) => answer::pack_refusal(r),
        Ok(()) => answer::pack([kind, address, payload[0], (payload.len() - 1) as u8]),
    }
}

// What is packed of a message with a fixed count of data bytes and no start register.
pub(crate) fn pack_fixed(kind: u8, address: u8, count: u8, payload: &[u8]) -> u64
    ensures { result ≡ packed (of_length count payload.now (counted_fields kind address 0 count)) }
{
    match check_length(count as usize, payload) {
        Err(r) => answer::pack_refusal(r),
        Ok(()) => answer::pack([kind, address, 0, count]),
    }
}

// Writes a start register and values to an address: as a set to the thermostat, as data to the host.
pub(crate) fn write_run(
    end: End,
    address: u8,
    start: u8,
    values: &[u8],
    out: &mut [u8],
) -> Result<u32, Refusal>
    ensures result_value { outcome_of result ≡ on_accepted length (in_room (length out.old) (write_bytes end address (text_type end) (start ∷ values.now))) }
    ensures out_after { out.new ≡ out_after (in_room (length out.old) (write_bytes end address (text_type end) (start ∷ values.now))) out.old }
{
    check_run(start, values.len())?;
    if !crate::frame::is_address(end, address) {
        return Err(Refusal::Field);
    }
    let second = crate::frame::length_and_type(values.len() + 1, crate::text::text_type(end));
    let first = crate::frame::first_of(end, address);
    crate::frame::write(&[first, second, start], values, out)
}
