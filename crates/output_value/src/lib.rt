// What an output shows: Present_Value, Progress_Value, In_Process.
#![tactic(auto)]

ghost use Rattle.std.specs.Prelude.{◌≡◌, ◌-◌, ◌*◌, ◌/◌, ◌≤◌, min};
ghost use Rattle.lighting_outputs.specs.Paper.Value.{clamp, clamp_lit, present_value, elapsed, distance_moved, reached_by, reached, progress_by, progress_value, lit, in_process};

use lighting_outputs::{Activity, Movement, Output, Pace, Settings, Slots};

// ---- Present_Value

// Brought into Min..Max. The number may be a sum of two levels.
pub fn clamp(c: Settings, v: u64) -> u32
    ensures { result ≡ clamp c v }
{
    v.max(u64::from(c.min)).min(u64::from(c.max)) as u32
}

#[tactic(auto, using(lighting_levels::proofs::Choosing::ifs), unfolding(lighting_outputs::specs::Paper::Value::clamp_lit))]
pub fn clamp_lit(c: Settings, v: u32) -> u32
    ensures { result ≡ clamp_lit c v }
{
    if v == 0 { 0 } else { clamp(c, u64::from(v)) }
}

#[tactic(auto, unfolding(lighting_outputs::specs::Paper::Value::present_value))]
pub fn present_value(c: Settings, s: Slots) -> u32
    ensures { result ≡ present_value c s }
{
    clamp_lit(c, output_slots::winning_level(c.default, s))
}

// ---- a movement

// The milliseconds of a movement that have gone by: its length less what is left of it. This is the one place
// that makes them from moments (§4 of the change requests): whether the movement still runs is asked of all
// 64 bits, and what is then left of it is brought to 32. From here on only the product has 64, its quotient,
// and what a ramp's quotient is asked.
fn elapsed(t: u64, m: Movement) -> u32
    ensures { result ≡ elapsed t m }
{
    m.length - m.over.saturating_sub(t).min(u64::from(m.length)) as u32
}

// An even share of the way d: k of l. The product has up to 64 bits, and the share is at most d.
fn fade_distance(d: u32, l: u32, k: u32) -> u32
    requires { k ≤ l }
    ensures { result ≡ d * k / l }
{
    if l == 0 {
        0
    } else {
        (u64::from(d) * u64::from(k) / u64::from(l)) as u32
    }
}

// The way at a rate in units a second, k milliseconds long, stopping at d.
fn ramp_distance(rate: u32, d: u32, k: u32) -> u32
    ensures { result ≡ min d (rate * k / 1000) }
{
    (u64::from(rate) * u64::from(k) / 1000).min(u64::from(d)) as u32
}

#[tactic(auto, unfolding(lighting_outputs::specs::Paper::Value::distance_moved))]
fn distance_moved(p: Pace, d: u32, l: u32, k: u32) -> u32
    requires { k ≤ l }
    ensures { result ≡ distance_moved p d l k }
{
    match p {
        Pace::Fade => fade_distance(d, l, k),
        Pace::Ramp(rate) => ramp_distance(rate, d, k),
    }
}

#[tactic(auto, using(lighting_levels::proofs::Choosing::ifs, lighting_outputs::proofs::Time::Way::distance_moved_most), unfolding(lighting_outputs::specs::Paper::Value::reached_by))]
fn reached_by(m: Movement, k: u32) -> u32
    requires { k ≤ m.length }
    ensures { result ≡ reached_by m k }
{
    if m.start <= m.target {
        m.start + distance_moved(m.pace, m.target - m.start, m.length, k)
    } else {
        m.start - distance_moved(m.pace, m.start - m.target, m.length, k)
    }
}

#[tactic(auto, unfolding(lighting_outputs::specs::Paper::Value::reached))]
fn reached(t: u64, m: Movement) -> u32
    ensures { result ≡ reached t m }
{
    reached_by(m, elapsed(t, m))
}

// ---- Progress_Value and In_Process

#[tactic(auto, unfolding(lighting_outputs::specs::Paper::Value::progress_by))]
fn progress_by(t: u64, v: u32, a: Activity) -> u32
    ensures { result ≡ progress_by t v a }
{
    match a {
        Activity::Moving(m) => reached(t, m),
        Activity::Still | Activity::Warned(_) => v,
    }
}

#[tactic(auto, unfolding(lighting_outputs::specs::Paper::Value::progress_value))]
pub fn progress_value(t: u64, o: Output) -> u32
    ensures { result ≡ progress_value t o }
{
    progress_by(t, present_value(o.settings, o.slots), o.activity)
}

// Whether the lamp gives light.
#[tactic(auto, unfolding(lighting_outputs::specs::Paper::Value::lit))]
pub fn is_lit(t: u64, o: Output) -> bool
    ensures { result ≡ lit t o }
{
    0 < progress_value(t, o)
}

#[tactic(auto, unfolding(lighting_outputs::specs::Paper::Value::in_process))]
pub fn in_process(a: Activity) -> u32
    ensures { result ≡ in_process a }
{
    match a {
        Activity::Moving(_) => 1,
        Activity::Still | Activity::Warned(_) => 0,
    }
}
