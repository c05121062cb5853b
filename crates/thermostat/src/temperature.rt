// Temperatures: a byte as degrees Celsius and as tenths of a degree Fahrenheit, and back.
ghost use Rattle.std.specs.Prelude.{◌≡◌};
ghost use Rattle.answer.specs.Answer.{outcome_of};
ghost use Rattle.thermostat.specs.Temperature.{celsius, fahrenheit_tenths, byte_of};

use answer::Refusal;

// 2^22 + 40: what takes the least temperature to 2^22.
const PAST_LEAST: f32 = 4194344.0;

// A byte in degrees Celsius.
pub fn celsius(byte: u8) -> f32
    ensures { result ≡ celsius byte }
{
    (byte as f32) * 0.5 - 40.0
}

// A byte in tenths of a degree Fahrenheit.
pub fn fahrenheit_tenths(byte: u8) -> i32
    ensures { result ≡ fahrenheit_tenths byte }
{
    (byte as i32) * 9 - 400
}

// The byte of a temperature in degrees Celsius, an exact half degree from -40 to 87.5. From 2^22 to 2^23 a float counts half degrees in its lowest bits: the sum rounds to the one
// byte that can be meant, and the comparison tells whether it is.
pub fn to_byte(degrees: f32) -> Result<u8, Refusal>
    ensures { outcome_of result ≡ byte_of degrees }
{
    let sum = degrees + PAST_LEAST;
    if sum != sum {
        return Err(Refusal::Field);
    }
    let byte = (f32::to_bits(sum) % 256) as u8;
    if degrees == celsius(byte) {
        return Ok(byte);
    }
    Err(Refusal::Field)
}
