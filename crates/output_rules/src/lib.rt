// The record rules, as the test that is made of every lent record; those on what is under way are the crate
// `output_activity_rules`, those on the relay `output_relay`. Slots are counted from 0: slot 6 is 5.
#![tactic(auto)]

ghost use Rattle.std.specs.Prelude.{◌≡◌};
ghost use Rattle.lighting_outputs.specs.Paper.Slots.{slot6, is_live, winner};
ghost use Rattle.lighting_outputs.specs.Paper.Rules.{levels_sound, times_sound, reals_sound, settings_sound, slots_sound, activity_by, sound};

use lighting_outputs::{Activity, Output, Parameters, Property, SLOT_6, Settings, Slots};
use number_ranges::rows::{fits, is_amount};

// ---- settings

// Each meets the row of its property, and Min is at most Max.
#[tactic(auto, using(lighting_levels::proofs::Choosing::ifs), unfolding(lighting_outputs::specs::Paper::Rules::levels_sound))]
fn levels_sound(parameters: Parameters, c: Settings) -> bool
    ensures { result ≡ levels_sound parameters c }
{
    fits(parameters, Property::RelinquishDefault, c.default)
        && fits(parameters, Property::MinValue, c.min)
        && fits(parameters, Property::MaxValue, c.max)
        && c.min <= c.max
}

#[tactic(auto, using(lighting_levels::proofs::Choosing::ifs), unfolding(lighting_outputs::specs::Paper::Rules::times_sound))]
fn times_sound(parameters: Parameters, c: Settings) -> bool
    ensures { result ≡ times_sound parameters c }
{
    fits(parameters, Property::FadeTime, c.fade)
        && fits(parameters, Property::BlinkTime, c.blink)
        && fits(parameters, Property::BlinkWarnDelay, c.delay)
}

#[tactic(auto, using(lighting_levels::proofs::Choosing::ifs), unfolding(lighting_outputs::specs::Paper::Rules::reals_sound))]
fn reals_sound(c: Settings) -> bool
    ensures { result ≡ reals_sound c }
{
    is_amount(c.ramp) && is_amount(c.step)
}

#[tactic(auto, using(lighting_levels::proofs::Choosing::ifs), unfolding(lighting_outputs::specs::Paper::Rules::settings_sound))]
fn settings_sound(parameters: Parameters, c: Settings) -> bool
    ensures { result ≡ settings_sound parameters c }
{
    levels_sound(parameters, c)
        && times_sound(parameters, c)
        && reals_sound(c)
        && fits(parameters, Property::CommandPriority, c.slot as u32)
}

// ---- slots

// A live slot holds a level. The loop takes the lowest live slot away until none is left, over a copy of the
// levels alone.
// Stays: a loop over the mask, from live slot to live slot. A test of each of the sixteen slots was tried,
// and was slower (docs/BENCHMARK.md).
#[tactic(auto, using(crate::proofs::LiveSlots::low_broken, crate::proofs::LiveSlots::low_within, crate::proofs::LiveSlots::none_live))]
fn live_sound(s: Slots) -> bool
    ensures { result ≡ slots_sound s }
{
    let levels = s.levels;
    let mut left = s.live;
    while 0 < left {
        let i = u16::trailing_zeros(left) as usize;
        if !number_ranges::is_level(levels[i]) {
            return false;
        }
        left &= left - 1;
    }
    true
}

// Where no slot is live, the levels are not looked at.
#[tactic(auto, using(crate::proofs::LiveSlots::none_live))]
fn slots_sound(s: Slots) -> bool
    ensures { result ≡ slots_sound s }
{
    s.live == 0 || live_sound(s)
}

// ---- what is under way

// v is Present_Value, which the relay's rule asks for too: it is looked up once.
fn activity_sound(parameters: Parameters, t: u64, high: u32, s: Slots, v: u32, a: Activity) -> bool
    ensures { result ≡ activity_by parameters t (is_live s slot6) (winner s) high v a }
{
    output_activity_rules::activity_by(
        parameters,
        t,
        output_slots::is_live(s, SLOT_6),
        output_slots::winning(s),
        high,
        v,
        a,
    )
}

// ---- the record at panel time t

// The rules on the slots come last: a test of levels copies them, and what was read before such a copy would
// be kept on the stack beside it.
// Stays: `s` for the slots, which three calls take (tried and too slow: `o.slots` in each of them copies them
// three times, 13 instructions more for each output of a frame).
#[tactic(auto, using(crate::proofs::Order::in_order, crate::proofs::Order::settings_first, lighting_levels::proofs::Choosing::ifs))]
pub fn is_sound(parameters: Parameters, t: u64, o: Output) -> bool
    ensures { result ≡ sound parameters t o }
{
    let c = o.settings;
    let s = o.slots;
    if !settings_sound(parameters, c) {
        return false;
    }
    let v = output_value::present_value(c, s);
    output_relay::relay_sound(v, o.relay)
        && o.burning <= t
        && output_activity_rules::timer_sound(t, o.timer)
        && activity_sound(parameters, t, c.max, s, v, o.activity)
        && slots_sound(s)
}
