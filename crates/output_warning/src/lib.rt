// Whether a zero that kind 02 writes starts a blink warning, and the warning's first phase. By value, and on
// any record at all. Slots are counted from 0: the paper's slot 6, which a warning holds, is 5. `t` is the
// moment, `c` the settings, `s` the slots, `x` the slot.
#![tactic(auto)]

ghost use Rattle.std.specs.Prelude.{◌≡◌, ◌<◌};
ghost use Rattle.lighting_outputs.specs.Paper.Writing.{zero_or_empty, zero_or_empty_from, blinks, zero_or_empty_above, warns_by, warns, first_level, first_phase, warning_from};
ghost use Rattle.lighting_outputs.specs.Paper.Slots.{slot_count};

use lighting_outputs::{Phase, SLOT_6, SLOTS, Settings, Slots, Warning};
use panel_time::PanelTime;

// ---- whether it starts

// A slot is 'zero or empty'.
#[tactic(auto, using(lighting_levels::proofs::Choosing::ifs), unfolding(lighting_outputs::specs::Paper::Writing::zero_or_empty))]
fn is_zero_or_empty(s: Slots, i: usize) -> bool
    requires { i < slot_count }
    ensures { result ≡ zero_or_empty s i }
{
    !output_slots::is_live(s, i as u8) || s.levels[i] == 0
}

fn zero_or_empty_from(s: Slots, from: usize) -> bool
    ensures { result ≡ zero_or_empty_from s from }
{
    (from..SLOTS).all(|i| is_zero_or_empty(s, i))
}

// 'if Blink_Enable is 1, Blink_Time B plus delay D is above 0'. The sum is made in 64 bits, for a lent record
// holds any B and D.
#[tactic(auto, using(lighting_levels::proofs::Choosing::ifs), unfolding(lighting_outputs::specs::Paper::Writing::blinks))]
fn does_blink(c: Settings) -> bool
    ensures { result ≡ blinks c }
{
    c.enable && 0 < u64::from(c.blink) + u64::from(c.delay)
}

// 'Relinquish_Default and slots X + 1 to 16 are zero or empty'.
#[tactic(auto, using(lighting_levels::proofs::Choosing::ifs), unfolding(lighting_outputs::specs::Paper::Writing::zero_or_empty_above))]
fn zero_or_empty_above(c: Settings, s: Slots, x: u8) -> bool
    ensures { result ≡ zero_or_empty_above c s x }
{
    c.default == 0 && zero_or_empty_from(s, usize::from(x) + 1)
}

// `w` is the winner, `y` Present_Value. 'slots 1 to X - 1 are empty': the winner is no lower than x. The
// cheap tests come first.
#[tactic(auto, using(lighting_levels::proofs::Choosing::ifs), unfolding(lighting_outputs::specs::Paper::Writing::warns_by))]
fn warns_by(c: Settings, s: Slots, x: u8, w: u32, y: u32) -> bool
    ensures { result ≡ warns_by c s x w y }
{
    SLOT_6 < x && does_blink(c) && u32::from(x) <= w && 0 < y && zero_or_empty_above(c, s, x)
}

#[tactic(auto, unfolding(lighting_outputs::specs::Paper::Writing::warns))]
pub fn does_warn(c: Settings, s: Slots, x: u8) -> bool
    ensures { result ≡ warns c s x }
{
    warns_by(
        c,
        s,
        x,
        output_slots::winning(s),
        output_value::present_value(c, s),
    )
}

// ---- how it starts

// What slot 6 holds first: with no Blink_Time it holds the old level `y` at once.
// Stays: two functions, this and `first_phase`: one over both types would be no more than an `if`.
#[tactic(auto, using(lighting_levels::proofs::Choosing::ifs), unfolding(lighting_outputs::specs::Paper::Writing::first_level))]
pub fn first_level(c: Settings, y: u32) -> u32
    ensures { result ≡ first_level c y }
{
    if c.blink == 0 { y } else { 0 }
}

#[tactic(auto, using(lighting_levels::proofs::Choosing::ifs), unfolding(lighting_outputs::specs::Paper::Writing::first_phase))]
fn first_phase(c: Settings) -> Phase
    ensures { result ≡ first_phase c }
{
    if c.blink == 0 {
        Phase::Delay
    } else {
        Phase::Blink
    }
}

// 'B, D and Y are those of the start': the phases' moments are made here, once.
#[tactic(auto, unfolding(lighting_outputs::specs::Paper::Writing::warning_from))]
pub fn warning_from(t: PanelTime, c: Settings, x: u8, y: u32) -> Warning
    ensures { result ≡ warning_from t.milliseconds c x y }
{
    Warning {
        phase: first_phase(c),
        owner: x,
        level: y,
        turn: t.later(c.blink),
        over: t.later(c.blink) + u64::from(c.delay),
    }
}
