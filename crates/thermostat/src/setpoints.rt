// A setpoint pair, cool and heat, in degrees Celsius.
ghost use Rattle.std.specs.Prelude.{◌≡◌};
ghost use Rattle.answer.specs.Answer.{outcome_of};
ghost use Rattle.thermostat.specs.Temperature.{celsius, bytes_of};

use answer::Refusal;

#[repr(C)]
#[derive(Clone, Copy)]
pub struct Setpoints {
    pub cool: f32,
    pub heat: f32,
}

// The pair that two bytes make.
pub fn from_bytes(cool: u8, heat: u8) -> Setpoints
    ensures { (result.cool ≡ celsius cool) × (result.heat ≡ celsius heat) }
{
    Setpoints {
        cool: crate::temperature::celsius(cool),
        heat: crate::temperature::celsius(heat),
    }
}

// The two bytes that make a pair: cool, then heat.
pub fn to_bytes(p: Setpoints) -> Result<(u8, u8), Refusal>
    ensures { outcome_of result ≡ bytes_of p.cool p.heat }
{
    let cool = crate::temperature::to_byte(p.cool)?;
    let heat = crate::temperature::to_byte(p.heat)?;
    Ok((cool, heat))
}
