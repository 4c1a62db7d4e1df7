// A target is put in slot p, with the movement that leads to it. By value.
// `t` is the moment, `c` the settings, `f` the level from which a command starts, `s` the slots and `a` the
// activity that it finds; `g` is the target, in units.
// Stays: slots and activity as two parameters. They are two fields of the output's record, which a command
// finds apart (with any warning ended); a struct of them, as the result has, would be no plainer.
#![tactic(auto)]

ghost use Rattle.std.specs.Prelude.{◌≡◌, ◌≤◌};
ghost use Rattle.lighting_outputs.specs.Paper.Commands.{replaced, placed, movement, ramp_length, target, faded_over, faded_to, ramped_at, ramped_to};

use lighting_outputs::{Activity, Effect, Movement, Pace, Settings, Slots};
use panel_time::PanelTime;

// 'If p is then the winner [w] it replaces the movement; if not, an existing movement goes on'.
#[tactic(auto, using(lighting_levels::proofs::Choosing::ifs), unfolding(lighting_outputs::specs::Paper::Commands::replaced))]
fn replace(w: u32, p: u8, new: Activity, old: Activity) -> Activity
    ensures { result ≡ replaced w p new old }
{
    if w == u32::from(p) { new } else { old }
}

// The winner is asked for after the target was put.
#[tactic(auto, unfolding(lighting_outputs::specs::Paper::Commands::placed))]
pub fn place(s: Slots, a: Activity, p: u8, g: u32, new: Activity) -> Effect
    ensures { result ≡ placed s a p g new }
{
    let n = output_slots::fill(s, p, g);
    Effect {
        slots: n,
        activity: replace(output_slots::winning(n), p, new, a),
    }
}

// A movement of slot p at t, from `start` to g over l: 'If s = g there is no movement'.
#[tactic(auto, using(lighting_levels::proofs::Choosing::ifs), unfolding(lighting_outputs::specs::Paper::Commands::movement))]
fn begin(t: PanelTime, p: u8, start: u32, g: u32, l: u32, pace: Pace) -> Activity
    ensures { result ≡ movement t.milliseconds p start g l pace }
{
    if start == g {
        Activity::Still
    } else {
        Activity::Moving(Movement {
            owner: p,
            start,
            target: g,
            length: l,
            over: t.later(l),
            pace,
        })
    }
}

// 'L = ceiling(1,000 × |g - s| / R)', d the way: no rate is below an eighth of a percent, so the length fits.
#[tactic(auto, unfolding(lighting_outputs::specs::Paper::Commands::ramp_length))]
fn ramp_length(d: u32, rate: u32) -> u32
    requires { 8192 ≤ rate }
    ensures { result ≡ ramp_length d rate }
{
    (1000 * u64::from(d)).div_ceil(u64::from(rate)) as u32
}

// 'A target is brought into Min..Max if above zero'.
#[tactic(auto, unfolding(lighting_outputs::specs::Paper::Commands::target))]
pub fn target_of(c: Settings, x: f32) -> u32
    ensures { result ≡ target c x }
{
    output_value::clamp_lit(c, number_level::level_units(x))
}

// ---- fades and ramps
// Stays: `t`, `c`, `f`, `s` and `a` one by one, as the definitions `faded_to` and `ramped_to` take them.

#[tactic(auto, unfolding(lighting_outputs::specs::Paper::Commands::faded_over))]
fn fade_over(t: PanelTime, c: Settings, f: u32, s: Slots, a: Activity, g: u32, l: u32) -> Effect
    ensures { result ≡ faded_over t.milliseconds c f s a g l }
{
    place(s, a, c.slot, g, begin(t, c.slot, f, g, l, Pace::Fade))
}

#[tactic(auto, unfolding(lighting_outputs::specs::Paper::Commands::faded_to))]
pub fn fade_to(t: PanelTime, c: Settings, f: u32, s: Slots, a: Activity, x: f32, l: u32) -> Effect
    ensures { result ≡ faded_to t.milliseconds c f s a x l }
{
    fade_over(t, c, f, s, a, target_of(c, x), l)
}

#[tactic(auto, unfolding(lighting_outputs::specs::Paper::Commands::ramped_at))]
fn ramp_at(t: PanelTime, c: Settings, f: u32, s: Slots, a: Activity, g: u32, rate: u32) -> Effect
    requires le_rate { 8192 ≤ rate }
    ensures { result ≡ ramped_at t.milliseconds c f s a g rate }
{
    let l = ramp_length(g.abs_diff(f), rate);
    place(s, a, c.slot, g, begin(t, c.slot, f, g, l, Pace::Ramp(rate)))
}

#[tactic(auto, unfolding(lighting_outputs::specs::Paper::Commands::ramped_to))]
pub fn ramp_to(
    t: PanelTime,
    c: Settings,
    f: u32,
    s: Slots,
    a: Activity,
    x: f32,
    rate: f32,
) -> Effect
    ensures { result ≡ ramped_to t.milliseconds c f s a x rate }
{
    ramp_at(
        t,
        c,
        f,
        s,
        a,
        target_of(c, x),
        number_level::amount_units(rate),
    )
}
