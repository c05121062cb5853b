// Which registers are listed, which may be written, and the bytes that each takes.
ghost use Rattle.std.specs.Prelude.{◌≡◌, ◌+◌, ◌<◌, ◌≤◌, length};
ghost use Rattle.thermostat.specs.Registers.{settable};
ghost use Rattle.thermostat.specs.Map.{run};
ghost use Rattle.thermostat.specs.Step.{all_settable, all_listed};
ghost use Rattle.thermostat.specs.Parts.{takes};

use crate::tables::{high, is_listed, is_writable, low};

// The registers whose bytes are a list and no range: the energy price level, and the baud rate of the expansion.
const PRICE_LEVEL: usize = 70;

const EXPANSION_BAUD: usize = 132;

// The price levels: low, mid, high, critical.
#[tactic(auto, using(crate::proofs::Laws::Rules::price_levels))]
fn is_price_level(v: u8) -> bool
    ensures { result ≡ takes 70 v }
{
    matches!(v, 0 | 1 | 2 | 4)
}

// The baud rates, each by the byte that stands for it.
#[tactic(auto, using(crate::proofs::Laws::Rules::bauds))]
fn is_baud(v: u8) -> bool
    ensures { result ≡ takes 132 v }
{
    matches!(v, 0 | 1 | 42 | 54 | 126)
}

// Whether a byte is among those that a register takes.
fn is_taken(r: usize, v: u8) -> bool
    requires { r < 256 }
    ensures { result ≡ takes r v }
{
    match r {
        PRICE_LEVEL => is_price_level(v),
        EXPANSION_BAUD => is_baud(v),
        _ => low(r) <= v && v <= high(r),
    }
}

// Whether a register is listed, writable and takes a byte, by the tables.
fn is_settable(r: usize, v: u8) -> bool
    requires { r < 256 }
    ensures { result ≡ settable r v }
{
    is_writable(r) && is_taken(r, v)
}

// Whether the registers from a start take these values, each listed and writable.
#[tactic(auto, using(crate::proofs::Laws::Map::settable_next, crate::proofs::Laws::Map::settable_ended))]
pub(crate) fn are_settable(start: usize, values: &[u8]) -> bool
    requires { start + length values.now ≤ 256 }
    ensures { result ≡ all_settable start values.now }
{
    for (i, &v) in values.iter().enumerate() {
        if !is_settable(start + i, v) {
            return false;
        }
    }
    true
}

// Whether all of count registers from a start are listed.
#[tactic(auto, using(crate::proofs::Laws::Map::listed_next, crate::proofs::Laws::Map::listed_ended))]
pub(crate) fn are_listed(start: usize, count: usize) -> bool
    requires { start + count ≤ 256 }
    ensures { result ≡ all_listed (run start count) }
{
    for r in start..start + count {
        if !is_listed(r) {
            return false;
        }
    }
    true
}
