// The model thermostat, temperatures and setpoints, for C.
ghost use Rattle.std.specs.Prelude.{◌≡◌, [], ◌∷◌, length};
ghost use Rattle.answer.specs.Answer.{on_accepted, out_after};
ghost use Rattle.answer.specs.Packed.{packed, word};
ghost use Rattle.thermostat.specs.Step.{step, map_of, texts_of, sent_of};
ghost use Rattle.thermostat.specs.Temperature.{celsius, fahrenheit_tenths, bytes_of, pair_fields};

use crate::packing::{Fields, pack};
use thermostat::setpoints::Setpoints;

// A step of the model thermostat.
pub fn thermostat_step(
    own: u8,
    map: &mut [u8],
    texts: &mut [u8],
    bytes: &[u8],
    out: &mut [u8],
) -> u64
    ensures value { result ≡ packed (on_accepted (λ count. word count ∷ []) (on_accepted length (sent_of (step own map.old texts.old bytes.now (length out.old))))) }
    ensures map_after { map.new ≡ map_of (step own map.old texts.old bytes.now (length out.old)) map.old }
    ensures texts_after { texts.new ≡ texts_of (step own map.old texts.old bytes.now (length out.old)) texts.old }
    ensures out_after { out.new ≡ out_after (sent_of (step own map.old texts.old bytes.now (length out.old))) out.old }
{
    answer::pack_written(thermostat::step::step(own, map, texts, bytes, out))
}

// A byte in degrees Celsius.
pub fn temperature_celsius(byte: u8) -> f32
    ensures { result ≡ celsius byte }
{
    thermostat::temperature::celsius(byte)
}

// A byte in tenths of a degree Fahrenheit.
pub fn temperature_fahrenheit_tenths(byte: u8) -> i32
    ensures { result ≡ fahrenheit_tenths byte }
{
    thermostat::temperature::fahrenheit_tenths(byte)
}

// The setpoint pair that two bytes make.
pub fn setpoints_from_bytes(cool: u8, heat: u8) -> Setpoints
    ensures { (result.cool ≡ celsius cool) × (result.heat ≡ celsius heat) }
{
    thermostat::setpoints::from_bytes(cool, heat)
}

// A pair of bytes: cool, heat.
impl Fields for (u8, u8) {
    ghost fields = { pair_fields };

    fn pack(self) -> u64 {
        answer::pack([self.0, self.1])
    }
}

// The two bytes that make a setpoint pair.
pub fn setpoints_to_bytes(p: Setpoints) -> u64
    ensures { result ≡ packed (on_accepted pair_fields (bytes_of p.cool p.heat)) }
{
    pack(thermostat::setpoints::to_bytes(p))
}
