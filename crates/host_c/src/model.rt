// The model thermostat, temperatures and setpoints, for C.
ghost use Rattle.std.specs.Prelude.{◌≡◌, [], ◌∷◌, length};
ghost use Rattle.answer.specs.Answer.{on_accepted, out_after};
ghost use Rattle.answer.specs.Packed.{packed, word};
ghost use Rattle.thermostat.specs.Step.{step, map_of, texts_of, sent_of};
ghost use Rattle.thermostat.specs.Temperature.{celsius, fahrenheit_tenths, bytes_of, pair_fields};

use thermostat::setpoints::Setpoints;

// A step of the model thermostat.
#[unsafe(no_mangle)]
pub extern "C" fn thermostat_step(
    own: u8,
    map: &mut [u8],
    texts: &mut [u8],
    bytes: &[u8],
    out: &mut [u8],
) -> u64
    ensures value { result ≡ packed (on_accepted (λ count. word count ∷ []) (on_accepted length (sent_of (step own map.old texts.old bytes.now (length out.old))))) }
    ensures map_after { map.new ≡ map_of (step own map.old texts.old bytes.now (length out.old)) map.old }
    ensures texts_after { texts.new ≡ texts_of (step own map.old texts.old bytes.now (length out.old)) texts.old }
    ensures out_after { out.new ≡ out_after (sent_of (step own map.old texts.old bytes.now (length out.old))) out.old }
{
    host::model::thermostat_step(own, map, texts, bytes, out)
}

// A byte in degrees Celsius.
#[unsafe(no_mangle)]
pub extern "C" fn temperature_celsius(byte: u8) -> f32
    ensures { result ≡ celsius byte }
{
    host::model::temperature_celsius(byte)
}

// A byte in tenths of a degree Fahrenheit.
#[unsafe(no_mangle)]
pub extern "C" fn temperature_fahrenheit_tenths(byte: u8) -> i32
    ensures { result ≡ fahrenheit_tenths byte }
{
    host::model::temperature_fahrenheit_tenths(byte)
}

// The setpoint pair that two bytes make.
#[unsafe(no_mangle)]
pub extern "C" fn setpoints_from_bytes(cool: u8, heat: u8) -> Setpoints
    ensures { (result.cool ≡ celsius cool) × (result.heat ≡ celsius heat) }
{
    host::model::setpoints_from_bytes(cool, heat)
}

// The two bytes that make a setpoint pair.
#[unsafe(no_mangle)]
pub extern "C" fn setpoints_to_bytes(p: Setpoints) -> u64
    ensures { result ≡ packed (on_accepted pair_fields (bytes_of p.cool p.heat)) }
{
    host::model::setpoints_to_bytes(p)
}
