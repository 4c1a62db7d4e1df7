// What a property's value must be: one row a property. What is kept of it meets the row: a write is judged by
// it, and so is a record.
ghost use Rattle.std.specs.Prelude.{◌≡◌};
ghost use Rattle.lighting_levels.specs.Paper.Level.{real};
ghost use Rattle.lighting_outputs.specs.Paper.Rows.{row_of, is_amount, meets};

use lighting_levels::{GREATEST_LEVEL, LEAST_LEVEL};
use lighting_outputs::{LEAST_TIME, Parameters, Property, Range};

// In milliseconds: `longest_blink` of the definitions is the same.
const LONGEST_BLINK: u32 = 86_400_000;

pub fn row_of(parameters: Parameters, p: Property) -> Range
    ensures { result ≡ row_of parameters p }
{
    match p {
        Property::RelinquishDefault | Property::BinaryActiveValue | Property::BinaryInactiveValue =>
            Range::Percent,
        Property::FadeTime => Range::Whole {
            low: LEAST_TIME,
            high: parameters.fade,
        },
        Property::RampRate | Property::StepIncrement => Range::Amount,
        Property::BlinkEnable | Property::Polarity => Range::Whole { low: 0, high: 1 },
        Property::BlinkTime | Property::BlinkWarnDelay => Range::Whole {
            low: 0,
            high: LONGEST_BLINK,
        },
        Property::MinValue | Property::MaxValue => Range::Limit,
        Property::CommandPriority => Range::Priority,
        Property::ElapsedActiveTime => Range::Whole { low: 0, high: 0 },
        Property::PresentValue
        | Property::ProgressValue
        | Property::InProcess
        | Property::LastOperation
        | Property::LastLevel
        | Property::LastRate
        | Property::LastStep
        | Property::LastFadeTime
        | Property::LastDuration
        | Property::BinaryPresentValue
        | Property::RelayState
        | Property::SlotValue(_)
        | Property::Unknown => Range::ReadOnly,
    }
}

// ---- what is kept

// A rate or a step, 0.125 to 100; and by its pattern.
#[tactic(auto, unfolding(lighting_outputs::specs::Paper::Rows::is_amount, lighting_levels::specs::Paper::Level::in_range))]
pub fn is_amount(x: f32) -> bool
    ensures { result ≡ is_amount x }
{
    number_level::amount_of_real(x).is_some()
}

pub fn is_amount_pattern(pattern: u32) -> bool
    ensures { result ≡ is_amount (real pattern) }
{
    is_amount(number_level::real_from(pattern))
}

#[tactic(auto, unfolding(lighting_outputs::specs::Paper::Rows::meets))]
fn is_met(row: Range, v: u32) -> bool
    ensures { result ≡ meets row v }
{
    match row {
        Range::Percent => super::is_level(v),
        Range::Limit => super::is_within(LEAST_LEVEL, GREATEST_LEVEL, v),
        Range::Amount => is_amount_pattern(v),
        Range::Whole { low, high } => super::is_within(low, high, v),
        Range::Priority => super::is_slot(v),
        Range::ReadOnly => false,
    }
}

// What is kept of a property.
pub fn fits(parameters: Parameters, p: Property, v: u32) -> bool
    ensures { result ≡ meets (row_of parameters p) v }
{
    is_met(row_of(parameters, p), v)
}
