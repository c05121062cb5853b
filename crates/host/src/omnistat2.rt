// Omnistat2 messages, for C.
ghost use Rattle.std.specs.Prelude.{◌≡◌, [], ◌∷◌, length};
ghost use Rattle.answer.specs.Answer.{on_accepted, outcome_of, in_room, out_after};
ghost use Rattle.answer.specs.Packed.{packed, word};
ghost use Rattle.omnistat.specs.Text.{write_text};
ghost use Rattle.omnistat.specs.Omnistat.{read, write_bytes};
ghost use Rattle.omnistat.specs.Answer.{fields};
ghost use Rattle.omnistat.specs.Host.{read_at_host, write_to_host, write_group_to_host};

use answer::{Refusal, pack_refusal, pack_written};
use omnistat::frame::End;
use omnistat::group::Group;
use omnistat::habit::known_at;

// Reads a message at the thermostat.
pub fn omnistat_read_at_thermostat(bytes: &[u8]) -> u64
    ensures { result ≡ packed (on_accepted (fields End.Thermostat) (read End.Thermostat bytes.now)) }
{
    omnistat::request::read_packed(bytes)
}

// Reads a message at the host.
pub fn omnistat_read_at_host(habit: u8, polled: u8, bytes: &[u8]) -> u64
    ensures { result ≡ packed (read_at_host habit polled bytes.now) }
{
    match known_at(habit, polled) {
        Ok(known) => omnistat::reply::read_packed(known, bytes),
        Err(r) => pack_refusal(r),
    }
}

// Writes a message to a thermostat.
pub fn omnistat_write_to_thermostat(address: u8, kind: u8, payload: &[u8], out: &mut [u8]) -> u64
    ensures value { result ≡ packed (on_accepted (λ count. word count ∷ []) (on_accepted length (in_room (length out.old) (write_bytes End.Thermostat address kind payload.now)))) }
    ensures out_after { out.new ≡ out_after (in_room (length out.old) (write_bytes End.Thermostat address kind payload.now)) out.old }
{
    pack_written(omnistat::request::write(address, kind, payload, out))
}

// What the writer of a reply answers, by the numbers of a habit and the polled group.
fn write_to_host(
    habit: u8,
    polled: u8,
    number: u8,
    kind: u8,
    payload: &[u8],
    out: &mut [u8],
) -> Result<u32, Refusal>
    ensures result_value { outcome_of result ≡ on_accepted length (in_room (length out.old) (write_to_host habit polled number kind payload.now)) }
    ensures out_after { out.new ≡ out_after (in_room (length out.old) (write_to_host habit polled number kind payload.now)) out.old }
{
    let known = known_at(habit, polled)?;
    omnistat::reply::write(known, number, kind, payload, out)
}

// Writes a reply to the host.
pub fn omnistat_write_to_host(
    habit: u8,
    polled: u8,
    number: u8,
    kind: u8,
    payload: &[u8],
    out: &mut [u8],
) -> u64
    ensures value { result ≡ packed (on_accepted (λ count. word count ∷ []) (on_accepted length (in_room (length out.old) (write_to_host habit polled number kind payload.now)))) }
    ensures out_after { out.new ≡ out_after (in_room (length out.old) (write_to_host habit polled number kind payload.now)) out.old }
{
    pack_written(write_to_host(habit, polled, number, kind, payload, out))
}

// The same of the reply with a group, by its number.
fn write_group_to_host(
    habit: u8,
    polled: u8,
    number: u8,
    group: u8,
    values: &[u8],
    out: &mut [u8],
) -> Result<u32, Refusal>
    ensures result_value { outcome_of result ≡ on_accepted length (in_room (length out.old) (write_group_to_host habit polled number group values.now)) }
    ensures out_after { out.new ≡ out_after (in_room (length out.old) (write_group_to_host habit polled number group values.now)) out.old }
{
    let known = known_at(habit, polled)?;
    let group = Group::try_from(group)?;
    omnistat::reply::write_group_by(known, number, group, values, out)
}

// Writes the reply with a group to the host.
pub fn omnistat_write_group_to_host(
    habit: u8,
    polled: u8,
    number: u8,
    group: u8,
    values: &[u8],
    out: &mut [u8],
) -> u64
    ensures value { result ≡ packed (on_accepted (λ count. word count ∷ []) (on_accepted length (in_room (length out.old) (write_group_to_host habit polled number group values.now)))) }
    ensures out_after { out.new ≡ out_after (in_room (length out.old) (write_group_to_host habit polled number group values.now)) out.old }
{
    pack_written(write_group_to_host(habit, polled, number, group, values, out))
}

// Writes a text to a thermostat.
pub fn omnistat_write_text_to_thermostat(
    address: u8,
    half: u8,
    start: u8,
    text: &[u8],
    out: &mut [u8],
) -> u64
    ensures value { result ≡ packed (on_accepted (λ count. word count ∷ []) (on_accepted length (in_room (length out.old) (write_text End.Thermostat address (record { half = half; start = start; characters = text.now }))))) }
    ensures out_after { out.new ≡ out_after (in_room (length out.old) (write_text End.Thermostat address (record { half = half; start = start; characters = text.now }))) out.old }
{
    pack_written(omnistat::request::write_text(address, half, start, text, out))
}

// Writes a text to the host.
pub fn omnistat_write_text_to_host(
    number: u8,
    half: u8,
    start: u8,
    text: &[u8],
    out: &mut [u8],
) -> u64
    ensures value { result ≡ packed (on_accepted (λ count. word count ∷ []) (on_accepted length (in_room (length out.old) (write_text End.Host number (record { half = half; start = start; characters = text.now }))))) }
    ensures out_after { out.new ≡ out_after (in_room (length out.old) (write_text End.Host number (record { half = half; start = start; characters = text.now }))) out.old }
{
    pack_written(omnistat::reply::write_text(number, half, start, text, out))
}
