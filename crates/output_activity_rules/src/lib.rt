// The record rules on what is under way: a movement, a warning, a duration. Slots are counted from 0: 7 to 16
// are 6 to 15.
#![tactic(auto)]

ghost use Rattle.std.specs.Prelude.{◌≡◌, ◌<◌};
ghost use Rattle.lighting_outputs.specs.Paper.Rules.{span_sound, movement_sound, warning_by, warning_sound, activity_by, timer_sound};

use lighting_outputs::{Activity, Movement, NO_SLOT, Parameters, Timer, Warning};
use number_ranges::{is_slot, is_within};

// The slots that a warning may belong to, 7 to 16.
const SLOT_7: u32 = 6;

const LAST_SLOT: u32 = 15;

// Its end is after panel time t, what is left of it is no longer than it lasts, and it lasts 1 ms to the
// longest that a movement may last.
#[tactic(auto, using(lighting_levels::proofs::Choosing::ifs), unfolding(lighting_outputs::specs::Paper::Rules::span_sound))]
fn span_sound(parameters: Parameters, t: u64, m: Movement) -> bool
    ensures { result ≡ span_sound parameters t m }
{
    t < m.over
        && m.over - t <= u64::from(m.length)
        && number_ranges::is_length(parameters, m.length)
}

// It belongs to the winner w, starts from 0 to Max, here high, and aims at Present_Value v.
#[tactic(auto, using(lighting_levels::proofs::Choosing::ifs), unfolding(lighting_outputs::specs::Paper::Rules::movement_sound))]
fn movement_sound(parameters: Parameters, t: u64, w: u32, high: u32, v: u32, m: Movement) -> bool
    ensures { result ≡ movement_sound parameters t w high v m }
{
    m.owner < NO_SLOT
        && u32::from(m.owner) == w
        && m.start <= high
        && m.target == v
        && span_sound(parameters, t, m)
}

// A warning's own slot is 7 to 16, and its Y a slot level; e is the end of its phase.
#[tactic(auto, using(lighting_levels::proofs::Choosing::ifs), unfolding(lighting_outputs::specs::Paper::Rules::warning_by))]
fn warning_by(t: u64, w: Warning, e: u64) -> bool
    ensures { result ≡ warning_by t w e }
{
    is_within(SLOT_7, LAST_SLOT, u32::from(w.owner))
        && number_ranges::is_level(w.level)
        && t < e
        && e <= w.over
}

#[tactic(auto, unfolding(lighting_outputs::specs::Paper::Rules::warning_sound))]
fn warning_sound(t: u64, w: Warning) -> bool
    ensures { result ≡ warning_sound t w }
{
    warning_by(t, w, output_due::phase_end(w, w.phase))
}

// Slot 6 is live, here l, exactly during a warning.
#[tactic(auto, using(lighting_levels::proofs::Choosing::ifs), unfolding(lighting_outputs::specs::Paper::Rules::activity_by))]
pub fn activity_by(
    parameters: Parameters,
    t: u64,
    l: bool,
    w: u32,
    high: u32,
    v: u32,
    a: Activity,
) -> bool
    ensures { result ≡ activity_by parameters t l w high v a }
{
    match a {
        Activity::Still => !l,
        Activity::Moving(m) => !l && movement_sound(parameters, t, w, high, v, m),
        Activity::Warned(g) => l && warning_sound(t, g),
    }
}

// No duration is tied to slot 6, and its moment is after panel time.
#[tactic(auto, using(lighting_levels::proofs::Choosing::ifs), unfolding(lighting_outputs::specs::Paper::Rules::timer_sound))]
pub fn timer_sound(t: u64, m: Option<Timer>) -> bool
    ensures { result ≡ timer_sound t m }
{
    m.is_none_or(|timer| is_slot(u32::from(timer.slot)) && t < timer.due)
}
