// The code list of houses and units, and the table of functions.
ghost use Rattle.std.specs.Prelude.{◌≡◌, ◌<◌};
ghost use Rattle.answer.specs.Answer.{outcome_of};
ghost use Rattle.x10.specs.Codes.{index_of, house_code, unit_code, function_code, function_of};

use crate::Function;
use answer::Refusal;

// House P.
const LAST_HOUSE: u8 = 15;

// The codes of houses A to P, and of units 1 to 16.
static CODES: [u8; 16] = [
    0b0110, 0b1110, 0b0010, 0b1010, 0b0001, 0b1001, 0b0101, 0b1101, 0b0111, 0b1111, 0b0011, 0b1011,
    0b0000, 0b1000, 0b0100, 0b1100,
];

// The place of each code in the list above.
static INDEX: [u8; 16] = [12, 4, 2, 10, 14, 6, 0, 8, 13, 5, 3, 11, 15, 7, 1, 9];

// The key of Extended 1, which is no function; a key stays a byte, as C hands over any.
pub const EXTENDED_1: u8 = 0b0111;

// The code of house 0 to 15.
pub(crate) fn house_code(house: u8) -> Result<u8, Refusal>
    ensures { outcome_of result ≡ house_code house }
{
    if house > LAST_HOUSE {
        return Err(Refusal::Field);
    }
    Ok(CODES[usize::from(house)])
}

// The code of unit 1 to 16, by the same list.
pub(crate) fn unit_code(unit: u8) -> Result<u8, Refusal>
    ensures { outcome_of result ≡ unit_code unit }
{
    if unit == 0 {
        return Err(Refusal::Field);
    }
    house_code(unit - 1)
}

pub(crate) fn index_of(code: u8) -> u8
    requires { code < 16 }
    ensures { result ≡ index_of code }
{
    INDEX[usize::from(code)]
}

// A function's code, D8 D4 D2 D1.
impl From<Function> for u8 {
    ghost from_gives = { λ f code. code ≡ function_code f };

    fn from(f: Function) -> u8 {
        f as u8
    }
}

// The function with a code, D8 D4 D2 D1.
impl TryFrom<u8> for Function {
    type Error = Refusal;

    ghost try_from_gives = { λ code r. outcome_of r ≡ function_of code };

    fn try_from(code: u8) -> Result<Function, Refusal> {
        match code {
            0b0000 => Ok(Function::AllUnitsOff),
            0b0001 => Ok(Function::AllLightsOn),
            0b0010 => Ok(Function::On),
            0b0011 => Ok(Function::Off),
            0b0100 => Ok(Function::Dim),
            0b0101 => Ok(Function::Bright),
            0b0110 => Ok(Function::AllLightsOff),
            0b1000 => Ok(Function::HailRequest),
            0b1001 => Ok(Function::HailAcknowledge),
            0b1101 => Ok(Function::StatusOn),
            0b1110 => Ok(Function::StatusOff),
            0b1111 => Ok(Function::StatusRequest),
            _ => Err(Refusal::Unknown),
        }
    }
}
