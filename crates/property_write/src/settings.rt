// What a write of a property changes: one setting, and with it the movement or the burning time. `n` is the
// property that is written, `v` its value as it is kept.
ghost use Rattle.std.specs.Prelude.{◌≡◌, ◌%◌, eqb};
ghost use Rattle.lighting_levels.specs.Paper.Choice.{when◌then◌else◌};
ghost use Rattle.lighting_levels.specs.Paper.Level.{real};
ghost use Rattle.lighting_outputs.specs.Paper.Properties.{same, settings_with, relay_with, end_movement, activity_with, burning_with, changed, min_over_max};

use super::is_same;
use lighting_outputs::{Activity, Output, Property, Relay, Settings};

// A field of the property `field`: the new value if this is the one that is written, else as it was.
#[tactic(auto, using(lighting_levels::proofs::Choosing::ifs))]
fn field_with<T: Copy>(field: Property, n: Property, new: T, was: T) -> T
    ensures { result ≡ (when same field n then new else was) }
{
    if is_same(field, n) { new } else { was }
}

#[tactic(auto, unfolding(lighting_outputs::specs::Paper::Properties::settings_with))]
pub fn settings_with(c: Settings, n: Property, v: u32) -> Settings
    ensures { result ≡ settings_with c n v }
{
    let amount = number_level::real_from(v);
    Settings {
        default: field_with(Property::RelinquishDefault, n, v, c.default),
        fade: field_with(Property::FadeTime, n, v, c.fade),
        ramp: field_with(Property::RampRate, n, amount, c.ramp),
        step: field_with(Property::StepIncrement, n, amount, c.step),
        enable: field_with(Property::BlinkEnable, n, v == 1, c.enable),
        blink: field_with(Property::BlinkTime, n, v, c.blink),
        delay: field_with(Property::BlinkWarnDelay, n, v, c.delay),
        min: field_with(Property::MinValue, n, v, c.min),
        max: field_with(Property::MaxValue, n, v, c.max),
        slot: field_with(Property::CommandPriority, n, (v % 256) as u8, c.slot),
    }
}

// And the settings of the relay. Its Binary_Present_Value is never written.
#[tactic(auto, unfolding(lighting_outputs::specs::Paper::Properties::relay_with))]
pub fn relay_with(relay: Relay, n: Property, v: u32) -> Relay
    ensures { result ≡ relay_with relay n v }
{
    Relay {
        active: field_with(Property::BinaryActiveValue, n, v, relay.active),
        inactive: field_with(Property::BinaryInactiveValue, n, v, relay.inactive),
        reverse: field_with(Property::Polarity, n, v == 1, relay.reverse),
        ..relay
    }
}

// An end to a movement, and to nothing else.
#[tactic(auto, unfolding(lighting_outputs::specs::Paper::Properties::end_movement))]
pub fn end_movement(a: Activity) -> Activity
    ensures { result ≡ end_movement a }
{
    match a {
        Activity::Moving(_) => Activity::Still,
        Activity::Still | Activity::Warned(_) => a,
    }
}

// 'Writing 08 or 09 ends the movement'.
#[tactic(auto, using(lighting_levels::proofs::Choosing::ifs), unfolding(lighting_outputs::specs::Paper::Properties::activity_with))]
fn activity_with(a: Activity, n: Property) -> Activity
    ensures { result ≡ activity_with a n }
{
    if is_same(Property::MinValue, n) || is_same(Property::MaxValue, n) {
        end_movement(a)
    } else {
        a
    }
}

// 0B written clears the burning time.
#[tactic(auto, unfolding(lighting_outputs::specs::Paper::Properties::burning_with))]
fn burning_with(b: u64, n: Property) -> u64
    ensures { result ≡ burning_with b n }
{
    field_with(Property::ElapsedActiveTime, n, 0, b)
}

// Slots, duration and last command stay.
#[tactic(auto, unfolding(lighting_outputs::specs::Paper::Properties::changed))]
pub fn change(o: Output, n: Property, v: u32) -> Output
    ensures { result ≡ changed o n v }
{
    output_record::with_settings(
        o,
        settings_with(o.settings, n, v),
        relay_with(o.relay, n, v),
        activity_with(o.activity, n),
        burning_with(o.burning, n),
    )
}

// 'Min over Max', which is 13.
#[tactic(auto, unfolding(lighting_outputs::specs::Paper::Properties::min_over_max))]
pub fn min_over_max(c: Settings) -> bool
    ensures { result ≡ min_over_max c }
{
    c.max < c.min
}
