// The table of properties: which number is which, what a write asks of its value, and what it changes. What a
// property reads as is the crate `property_read`. By value, and on any record at all.
#![tactic(auto)]

pub mod settings;
pub mod values;

ghost use Rattle.std.specs.Prelude.{◌≡◌};
ghost use Rattle.lighting_outputs.specs.Paper.Properties.{property_of, number_of, same, change_of};

use lighting_outputs::{Asked, Parameters, Property};
use number_ranges::rows;

// By its number. 21 to 30 are slots 1 to 16, counted from 0 here.
#[tactic(auto, using(crate::proofs::Keys::property_of_above, crate::proofs::Keys::property_of_key, crate::proofs::Keys::property_of_none, crate::proofs::Keys::property_of_slot))]
pub fn property_of(n: u8) -> Property
    ensures { result ≡ property_of n }
{
    match n {
        0x00 => Property::Unknown,
        0x01 => Property::RelinquishDefault,
        0x02 => Property::FadeTime,
        0x03 => Property::RampRate,
        0x04 => Property::StepIncrement,
        0x05 => Property::BlinkEnable,
        0x06 => Property::BlinkTime,
        0x07 => Property::BlinkWarnDelay,
        0x08 => Property::MinValue,
        0x09 => Property::MaxValue,
        0x0A => Property::CommandPriority,
        0x0B => Property::ElapsedActiveTime,
        0x0C => Property::PresentValue,
        0x0D => Property::ProgressValue,
        0x0E => Property::InProcess,
        0x0F => Property::LastOperation,
        0x10 => Property::LastLevel,
        0x11 => Property::LastRate,
        0x12 => Property::LastStep,
        0x13 => Property::LastFadeTime,
        0x14 => Property::LastDuration,
        0x17 => Property::BinaryActiveValue,
        0x18 => Property::BinaryInactiveValue,
        0x19 => Property::Polarity,
        0x1A => Property::BinaryPresentValue,
        0x1B => Property::RelayState,
        0x21..=0x30 => Property::SlotValue(n - 0x21),
        _ => Property::Unknown,
    }
}

// And each property's number. A slot's is wider than a byte for what stands for no slot.
pub fn number_of(p: Property) -> u32
    ensures { result ≡ number_of p }
{
    match p {
        Property::Unknown => 0,
        Property::RelinquishDefault => 0x01,
        Property::FadeTime => 0x02,
        Property::RampRate => 0x03,
        Property::StepIncrement => 0x04,
        Property::BlinkEnable => 0x05,
        Property::BlinkTime => 0x06,
        Property::BlinkWarnDelay => 0x07,
        Property::MinValue => 0x08,
        Property::MaxValue => 0x09,
        Property::CommandPriority => 0x0A,
        Property::ElapsedActiveTime => 0x0B,
        Property::PresentValue => 0x0C,
        Property::ProgressValue => 0x0D,
        Property::InProcess => 0x0E,
        Property::LastOperation => 0x0F,
        Property::LastLevel => 0x10,
        Property::LastRate => 0x11,
        Property::LastStep => 0x12,
        Property::LastFadeTime => 0x13,
        Property::LastDuration => 0x14,
        Property::BinaryActiveValue => 0x17,
        Property::BinaryInactiveValue => 0x18,
        Property::Polarity => 0x19,
        Property::BinaryPresentValue => 0x1A,
        Property::RelayState => 0x1B,
        Property::SlotValue(i) => 0x21 + u32::from(i),
    }
}

#[tactic(auto, unfolding(lighting_outputs::specs::Paper::Properties::same))]
pub fn is_same(n: Property, m: Property) -> bool
    ensures { result ≡ same n m }
{
    number_of(n) == number_of(m)
}

// Kind 04, a write, by the property's row and the value's 32 bits.
#[tactic(auto, unfolding(lighting_outputs::specs::Paper::Properties::change_of))]
pub fn change_of(parameters: Parameters, p: Property, x: u32) -> Asked
    ensures { result ≡ change_of parameters p x }
{
    values::change_by(rows::row_of(parameters, p), p, x)
}
