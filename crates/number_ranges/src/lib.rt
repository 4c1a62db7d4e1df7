// Ranges: what a frame may ask for, what a record may hold, and places in a table.
#![tactic(auto)]

pub mod rows;

ghost use Rattle.std.specs.Prelude.{◌≡◌};
ghost use Rattle.lighting_outputs.specs.Paper.Parameters.{longest_movement};
ghost use Rattle.lighting_outputs.specs.Paper.Rows.{row_of, within, is_level, is_slot, is_priority, meets};
ghost use Rattle.lighting_outputs.specs.declared.Property.TheVariants.{FadeTime};

use lighting_levels::{GREATEST_LEVEL, LEAST_LEVEL};
use lighting_outputs::{LEAST_TIME, NO_SLOT, Parameters, Property, SLOT_6};

// Both ends belong to the range.
#[tactic(auto, using(lighting_levels::proofs::Choosing::ifs), unfolding(lighting_outputs::specs::Paper::Rows::within))]
pub fn is_within(low: u32, high: u32, v: u32) -> bool
    ensures { result ≡ within low high v }
{
    low <= v && v <= high
}

// A level in units: 0, or 1 to 100 percent.
#[tactic(auto, using(lighting_levels::proofs::Choosing::ifs), unfolding(lighting_outputs::specs::Paper::Rows::is_level))]
pub fn is_level(v: u32) -> bool
    ensures { result ≡ is_level v }
{
    v == 0 || is_within(LEAST_LEVEL, GREATEST_LEVEL, v)
}

// ---- times, in milliseconds, as the set of parameters has them

// A command's fade time: Fade_Time's row.
pub fn is_fade_time(parameters: Parameters, v: u32) -> bool
    ensures { result ≡ meets (row_of parameters FadeTime) v }
{
    rows::fits(parameters, Property::FadeTime, v)
}

pub fn is_duration(parameters: Parameters, v: u32) -> bool
    ensures { result ≡ within 100 parameters.duration v }
{
    is_within(LEAST_TIME, parameters.duration, v)
}

// A fade lasts at most the longest fade time, and no ramp longer than this.
const LONGEST_RAMP: u32 = 800_000;

fn longest_movement(parameters: Parameters) -> u32
    ensures { result ≡ longest_movement parameters }
{
    parameters.fade.max(LONGEST_RAMP)
}

// What a movement lasts.
pub fn is_length(parameters: Parameters, v: u32) -> bool
    ensures { result ≡ within 1 (longest_movement parameters) v }
{
    is_within(1, longest_movement(parameters), v)
}

// ---- slots

// Slot 6, here 5, is the warning's alone.
#[tactic(auto, using(lighting_levels::proofs::Choosing::ifs), unfolding(lighting_outputs::specs::Paper::Rows::is_slot))]
pub fn is_slot(i: u32) -> bool
    ensures { result ≡ is_slot i }
{
    i != u32::from(SLOT_6) && i < u32::from(NO_SLOT)
}

// A priority is a slot's number counted from 1.
#[tactic(auto, using(lighting_levels::proofs::Choosing::ifs), unfolding(lighting_outputs::specs::Paper::Rows::is_priority))]
pub fn is_priority(n: u32) -> bool
    ensures { result ≡ is_priority n }
{
    n != 0 && is_slot(n - 1)
}

// ---- places in a table

// A number of one byte as the place of a record in its table.
// Stays: the must-fail edit `one_output_for_all` is of it (docs/PROMISES.md).
pub fn index(n: u8) -> usize
    ensures { result ≡ n }
{
    usize::from(n)
}
