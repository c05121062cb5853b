// What the model thermostat answers: to a set, and to polls of registers, groups and texts.
ghost use Rattle.std.specs.Prelude.{◌≡◌, true, cond, ◌≤◌, length};
ghost use Rattle.answer.specs.Answer.{accepted, out_after, outcome_of};
ghost use Rattle.omnistat.specs.Register.{is_text, run_allowed};
ghost use Rattle.omnistat.specs.Message.{poll, poll_group, acknowledge, negative};
ghost use Rattle.omnistat.specs.Omnistat.{counted, text};
ghost use Rattle.thermostat.specs.Step.{register_reply, text_reply, reply_bytes};

use crate::address::Address;
use crate::step::REGISTERS;
use crate::texts::Texts;
use answer::Refusal;
use omnistat::group::Group;

// Answers a set: acknowledge where its values were taken, else negative.
pub(crate) fn confirm(own: Address, taken: bool, out: &mut [u8]) -> Result<u32, Refusal>
    requires { 18 ≤ length out.old }
    ensures result_value { outcome_of result ≡ accepted (length (reply_bytes own.number (counted (cond taken acknowledge negative)))) }
    ensures out_after { out.new ≡ out_after (accepted (reply_bytes own.number (counted (cond taken acknowledge negative)))) out.old }
{
    if taken {
        return omnistat::reply::write_acknowledge(own.number, out);
    }
    omnistat::reply::write_negative(own.number, out)
}

// Answers a poll: the contents where all of its registers are listed, else negative.
pub(crate) fn report(
    own: Address,
    map: &[u8; REGISTERS],
    start: u8,
    count: u8,
    out: &mut [u8],
) -> Result<u32, Refusal>
    requires in_bounds { 18 ≤ length out.old }
    requires le_count { (1 ≤ count) × (count ≤ 14) }
    requires count_value { run_allowed start count ≡ true }
    ensures result_value { outcome_of result ≡ accepted (length (reply_bytes own.number (counted (register_reply map.now (poll start count))))) }
    ensures out_after { out.new ≡ out_after (accepted (reply_bytes own.number (counted (register_reply map.now (poll start count))))) out.old }
{
    let from = start as usize;
    let n = count as usize;
    let past = from + n;
    if !crate::registers::are_listed(from, n) {
        return omnistat::reply::write_negative(own.number, out);
    }
    omnistat::reply::write_data(own.number, start, &map[from..past], out)
}

// Answers a poll of a group: its registers, in its order.
pub(crate) fn report_group(
    own: Address,
    map: &[u8; REGISTERS],
    group: Group,
    out: &mut [u8],
) -> Result<u32, Refusal>
    requires { 18 ≤ length out.old }
    ensures result_value { outcome_of result ≡ accepted (length (reply_bytes own.number (counted (register_reply map.now (poll_group group))))) }
    ensures out_after { out.new ≡ out_after (accepted (reply_bytes own.number (counted (register_reply map.now (poll_group group))))) out.old }
{
    match group {
        Group::First => {
            let values = [map[59], map[60], map[61], map[62], map[63], map[64]];
            omnistat::reply::write_group(own.number, Group::First, &values, out)
        }
        Group::Second => {
            let values = [map[162], map[135], map[134], map[68], map[15], map[169]];
            omnistat::reply::write_group(own.number, Group::Second, &values, out)
        }
        Group::Third => {
            let values = [
                map[169], map[18], map[19], map[20], map[74], map[170], map[171], map[165],
                map[166], map[167],
            ];
            omnistat::reply::write_group(own.number, Group::Third, &values, out)
        }
    }
}

// Answers a poll of a text.
pub(crate) fn report_text(
    own: Address,
    texts: Texts,
    start: u8,
    out: &mut [u8],
) -> Result<u32, Refusal>
    requires in_bounds { 65 ≤ length out.old }
    requires start_value { is_text start ≡ true }
    ensures result_value { outcome_of result ≡ accepted (length (reply_bytes own.number (text (text_reply texts.entry.bytes.now start)))) }
    ensures out_after { out.new ≡ out_after (accepted (reply_bytes own.number (text (text_reply texts.entry.bytes.now start)))) out.old }
{
    omnistat::reply::write_text(own.number, 0, start, crate::texts::text(texts, start), out)
}
