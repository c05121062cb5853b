// X-10 patterns (document 01, "X-10 patterns"): a number, 0 or 1, for each half cycle, in a byte of its own.
#![tactic(auto)]

mod codes; // codes.rt: the code list of houses and units, and the table of functions
mod pairs; // pairs.rt: bits and their complements, read from places and put into them
mod parts; // parts.rt: the parts of a pattern

ghost use Rattle.std.specs.Prelude.{◌≡◌, length};
ghost use Rattle.answer.specs.Answer.{outcome_of, accepted, on_accepted, in_room, out_after};
ghost use Rattle.answer.specs.Packed.{packed};
ghost use Rattle.x10.specs.Answers.{message, fields};
ghost use Rattle.x10.specs.Pattern.{read, write, unit as Unit', function, extended, write_function_code};

use answer::{Refusal, pack_refusal};
use codes::{house_code, unit_code};
use parts::{STANDARD, read_key, write_long, write_standard};

// Document 001's functions that take 22 places, each with its code, D8 D4 D2 D1.
#[derive(Clone, Copy, PartialEq, Eq)]
pub enum Function {
    AllUnitsOff = 0b0000,
    AllLightsOn = 0b0001,
    On = 0b0010,
    Off = 0b0011,
    Dim = 0b0100,
    Bright = 0b0101,
    AllLightsOff = 0b0110,
    HailRequest = 0b1000,
    HailAcknowledge = 0b1001,
    StatusOn = 0b1101,
    StatusOff = 0b1110,
    StatusRequest = 0b1111,
}

// What a pattern says. House 0 to 15 stands for A to P; units are 1 to 16.
#[derive(Clone, Copy)]
pub enum Pattern {
    Unit {
        house: u8,
        unit: u8,
    },
    Function {
        house: u8,
        function: Function,
    },
    Extended {
        house: u8,
        unit: u8,
        data: u8,
        command: u8,
    },
}

// Reads a pattern. A start code, and pairs that each make 1, are 0 or 1 by themselves, so 8 is looked for only where something is refused.
pub fn read(places: &[u8]) -> Result<Pattern, Refusal>
    ensures { on_accepted message (outcome_of result) ≡ read places.now }
{
    if places.len() < STANDARD {
        return Err(Refusal::Short);
    }
    read_key(places)
}

// Packs what a pattern says: kind 0, 1 or 2, house, unit or function code, data, command.
fn pack(pattern: Pattern) -> u64
    ensures { result ≡ packed (accepted (fields (message pattern))) }
{
    match pattern {
        Pattern::Unit { house, unit } => answer::pack([0, house, unit, 0, 0]),
        Pattern::Function { house, function } => {
            answer::pack([1, house, u8::from(function), 0, 0])
        }
        Pattern::Extended {
            house,
            unit,
            data,
            command,
        } => answer::pack([2, house, unit, data, command]),
    }
}

// Reads a pattern, for C.
pub fn read_packed(places: &[u8]) -> u64
    ensures { result ≡ packed (on_accepted fields (read places.now)) }
{
    match read(places) {
        Ok(pattern) => pack(pattern),
        Err(r) => pack_refusal(r),
    }
}

// Writes a house and a unit.
pub fn write_unit(house: u8, unit: u8, out: &mut [u8]) -> Result<u32, Refusal>
    ensures result_value { outcome_of result ≡ on_accepted length (in_room (length out.old) (write (Unit' house unit))) }
    ensures out_after { out.new ≡ out_after (in_room (length out.old) (write (Unit' house unit))) out.old }
{
    let code = house_code(house)?;
    let key = unit_code(unit)?;
    write_standard(code, key, 0, out)
}

// Writes a house and a function.
pub fn write_function(house: u8, f: Function, out: &mut [u8]) -> Result<u32, Refusal>
    ensures result_value { outcome_of result ≡ on_accepted length (in_room (length out.old) (write (function house f))) }
    ensures out_after { out.new ≡ out_after (in_room (length out.old) (write (function house f))) out.old }
{
    let code = house_code(house)?;
    write_standard(code, u8::from(f), 1, out)
}

// Writes a house and the function with a code, D8 D4 D2 D1: 6 for Extended 1 and for a code that is no function's.
pub fn write_function_code(house: u8, code: u8, out: &mut [u8]) -> Result<u32, Refusal>
    ensures result_value { outcome_of result ≡ on_accepted length (in_room (length out.old) (write_function_code house code)) }
    ensures out_after { out.new ≡ out_after (in_room (length out.old) (write_function_code house code)) out.old }
{
    let f = Function::try_from(code)?;
    write_function(house, f, out)
}

// Writes an Extended 1.
pub fn write_extended(
    house: u8,
    unit: u8,
    data: u8,
    command: u8,
    out: &mut [u8],
) -> Result<u32, Refusal>
    ensures result_value { outcome_of result ≡ on_accepted length (in_room (length out.old) (write (extended house unit «data» command))) }
    ensures out_after { out.new ≡ out_after (in_room (length out.old) (write (extended house unit «data» command))) out.old }
{
    let code = house_code(house)?;
    let key = unit_code(unit)?;
    write_long(code, key, data, command, out)
}
