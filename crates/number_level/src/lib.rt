// REALs, levels, rates and steps. What is public asks nothing of its arguments: no REAL and no pattern is out
// of its reach.
#![tactic(auto)]

ghost use Rattle.std.specs.Prelude.{◌≡◌, ◌≤◌, ◌<◌, ◌^◌};
ghost use Rattle.std.specs.Float.{binary32};
ghost use Rattle.std.specs.Float.Ieee.{nan_bits};
ghost use Rattle.lighting_levels.specs.Paper.Level.{greatest_level, least_amount, real, bits, nearest_to, amount_of, limit_of, level_of, units_or, amount_units, level_units, real_of, read_out};

use lighting_levels::{GREATEST_LEVEL, LEAST_LEVEL};

// The least rate and the least step, 0.125 percent, in units.
const LEAST_AMOUNT: u32 = LEAST_LEVEL / 8;

// ---- patterns

// Whether a pattern is a NaN's: `f32::from_bits` is not defined there.
fn nan_bits(pattern: u32) -> bool
    ensures { result ≡ nan_bits binary32 pattern }
{
    pattern % 0x8000_0000 > 0x7F80_0000
}

// The REAL that a pattern stands for.
#[tactic(auto, unfolding(lighting_levels::specs::Paper::Level::real))]
pub fn real_from(pattern: u32) -> f32
    ensures { result ≡ real pattern }
{
    if nan_bits(pattern) {
        f32::NAN
    } else {
        f32::from_bits(pattern)
    }
}

// A REAL's pattern. No record holds a NaN, for which one pattern is fixed here, since `f32::to_bits` is not
// defined there.
#[tactic(auto, unfolding(lighting_levels::specs::Paper::Level::bits))]
pub fn bits_of(x: f32) -> u32
    ensures { result ≡ bits x }
{
    if x.is_nan() { 0x7FC0_0000 } else { x.to_bits() }
}

// ---- from a REAL to units

// The rounding: the whole number nearest to n / 1,024, a half going to the even one. What is added carries
// all that is more than a half to the next number, and a half only from an odd one.
fn rounded(n: u64) -> u64
    requires { n < 2 ^ 34 }
    ensures { result ≡ nearest_to n 1024 }
{
    (n + 511 + n / 1024 % 2) / 1024
}

// A rate or a step: from 0.125 to 100.
pub fn amount_of_real(x: f32) -> Option<u32>
    ensures { result ≡ amount_of x }
{
    if x >= 0.125 && x <= 100.0 {
        // x * 2^26 is a whole number, since a REAL has 24 digits, and 1,024 of it are a unit.
        let n = (f64::from(x) * 67_108_864.0) as u64;
        Some(rounded(n) as u32)
    } else {
        None
    }
}

// A Min or a Max: from 1 to 100.
fn limit_of_real(x: f32) -> Option<u32>
    ensures { result ≡ limit_of x }
{
    if x < 1.0 { None } else { amount_of_real(x) }
}

// A level: 0 and minus zero are 0; above 0 and below 1 it is 65,536; from 1 to 100 the nearest unit.
pub fn level_of_real(x: f32) -> Option<u32>
    ensures { result ≡ level_of x }
{
    if x == 0.0 {
        Some(0)
    } else if x > 0.0 && x < 1.0 {
        Some(LEAST_LEVEL)
    } else {
        limit_of_real(x)
    }
}

pub fn amount_of(pattern: u32) -> Option<u32>
    ensures { result ≡ amount_of (real pattern) }
{
    amount_of_real(real_from(pattern))
}

pub fn limit_of(pattern: u32) -> Option<u32>
    ensures { result ≡ limit_of (real pattern) }
{
    limit_of_real(real_from(pattern))
}

pub fn level_of(pattern: u32) -> Option<u32>
    ensures { result ≡ level_of (real pattern) }
{
    level_of_real(real_from(pattern))
}

// ---- where a REAL is out of range

#[tactic(auto, unfolding(lighting_levels::specs::Paper::Level::units_or))]
pub fn units_or(otherwise: u32, level: Option<u32>) -> u32
    ensures { result ≡ units_or otherwise level }
{
    level.unwrap_or(otherwise)
}

// A rate or a step that is kept as a REAL: from 0.125 to 100 percent, whatever the REAL, so that a division
// by it is safe.
#[tactic(auto, unfolding(lighting_levels::specs::Paper::Level::amount_units, lighting_levels::specs::Paper::Level::units_or))]
pub fn amount_units(x: f32) -> u32
    ensures value { result ≡ amount_units x }
    ensures lower_bound { (least_amount ≤ result) × (result ≤ greatest_level) }
{
    amount_of_real(x).unwrap_or(LEAST_AMOUNT)
}

// A command's level that is kept as a REAL.
#[tactic(auto, unfolding(lighting_levels::specs::Paper::Level::level_units, lighting_levels::specs::Paper::Level::units_or))]
pub fn level_units(x: f32) -> u32
    ensures value { result ≡ level_units x }
    ensures upper_bound { result ≤ greatest_level }
{
    level_of_real(x).unwrap_or(0)
}

// ---- from a level to a REAL

// One division by a power of two, which is exact.
fn real_of(level: u32) -> f32
    requires { level ≤ greatest_level }
    ensures { result ≡ real_of level }
{
    (level as f32) / 65536.0
}

// A level as it is read: the pattern of the REAL equal to it. No level is above 6,553,600.
#[tactic(auto, unfolding(lighting_levels::specs::Paper::Level::read_out))]
pub fn read_out(level: u32) -> u32
    ensures { result ≡ read_out level }
{
    bits_of(real_of(level.min(GREATEST_LEVEL)))
}
