// How long a lamp gives light: of the milliseconds of a stretch those at whose start Progress_Value is above
// zero (§2 of the change requests), by one product and one division at most, whatever the stretch. On any
// record at all: with a way, a rate or a length of 0 too.
#![tactic(auto)]

ghost use Rattle.std.specs.Prelude.{◌≡◌, ◌<◌, eqb};
ghost use Rattle.lighting_outputs.specs.Paper.Value.{present_value, in_process};
ghost use Rattle.lighting_outputs.specs.Engine.Light.{last_short, moment_after, gone_at, count_before, count_since, lit_from_zero, lit_from_light, lit_at, lit_moving, lit_in_movement, lit_resting, lit_stretch};

use lighting_outputs::{Activity, Movement, Output, Pace};

// Stays: `s` units in `w` milliseconds, as the definitions of specs/Engine/Light.antt take them. A struct of
// the two would be no plainer: they are a rate in some calls, and a way and a length in others.

// ---- when so many units of a movement's way are gone. In milliseconds of the movement, which have 32 bits
// once they are known to be at most its length (§4 of the change requests)

// The last millisecond of a movement at which u units are not yet gone, where s units go in w milliseconds.
// Of all s, as in a fade to 0, it is the last of the w; else, in a ramp, it takes a product, which has up to
// 64 bits.
#[tactic(auto, unfolding(lighting_outputs::specs::Engine::Light::last_short))]
fn last_short(u: u32, s: u32, w: u32) -> u64
    requires { 0 < s }
    ensures { result ≡ last_short u s w }
{
    if u == s {
        u64::from(w.saturating_sub(1))
    } else {
        (u64::from(u) * u64::from(w)).saturating_sub(1) / u64::from(s)
    }
}

// The moment after the millisecond k of a movement, if it lasts so long.
#[tactic(auto, using(lighting_levels::proofs::Choosing::ifs), unfolding(lighting_outputs::specs::Engine::Light::moment_after))]
fn moment_after(k: u32, m: Movement) -> Option<u64>
    ensures { result ≡ moment_after k m }
{
    if k < m.length {
        Some(m.over.saturating_sub(u64::from(m.length - (k + 1))))
    } else {
        None
    }
}

// The moment from which on the first unit is gone: no product.
#[tactic(auto, using(crate::proofs::Short::gone_first, lighting_levels::proofs::Choosing::ifs), unfolding(lighting_outputs::specs::Engine::Light::gone_at))]
fn first_gone_at(s: u32, w: u32, m: Movement) -> Option<u64>
    ensures { result ≡ gone_at 1 s w m }
{
    if s == 0 {
        None
    } else {
        moment_after(w.saturating_sub(1) / s, m)
    }
}

// The moment from which on u units are gone. Whether the movement lasts so long is asked of the whole
// quotient, before it is narrowed.
#[tactic(auto, using(crate::proofs::Short::gone_short, lighting_levels::proofs::Choosing::ifs), unfolding(lighting_outputs::specs::Engine::Light::gone_at))]
fn gone_at(u: u32, s: u32, w: u32, m: Movement) -> Option<u64>
    ensures { result ≡ gone_at u s w m }
{
    if s == 0 {
        None
    } else {
        moment_after(last_short(u, s, w).min(u64::from(m.length)) as u32, m)
    }
}

// ---- how many milliseconds

// Of the n milliseconds from a moment on, those before the moment d, and those from it on.
#[tactic(auto, unfolding(lighting_outputs::specs::Engine::Light::count_before))]
fn count_before(from: u64, n: u64, d: Option<u64>) -> u64
    ensures { result ≡ count_before from n d }
{
    d.map_or(n, |at| n.min(at.saturating_sub(from)))
}

#[tactic(auto, unfolding(lighting_outputs::specs::Engine::Light::count_since))]
fn count_since(from: u64, n: u64, d: Option<u64>) -> u64
    ensures { result ≡ count_since from n d }
{
    d.map_or(0, |at| n.saturating_sub(at.saturating_sub(from)))
}

#[tactic(auto, using(lighting_levels::proofs::Choosing::ifs), unfolding(lighting_outputs::specs::Engine::Light::lit_from_zero))]
fn lit_from_zero(s: u32, w: u32, from: u64, n: u64, m: Movement) -> u64
    ensures { result ≡ lit_from_zero s w from n m }
{
    if m.target == 0 {
        0
    } else {
        count_since(from, n, first_gone_at(s, w, m))
    }
}

#[tactic(auto, using(lighting_levels::proofs::Choosing::ifs), unfolding(lighting_outputs::specs::Engine::Light::lit_from_light))]
fn lit_from_light(s: u32, w: u32, from: u64, n: u64, m: Movement) -> u64
    ensures { result ≡ lit_from_light s w from n m }
{
    if m.target == 0 {
        count_before(from, n, gone_at(m.start, s, w, m))
    } else {
        n
    }
}

// A movement that goes s units in w milliseconds.
#[tactic(auto, using(lighting_levels::proofs::Choosing::ifs), unfolding(lighting_outputs::specs::Engine::Light::lit_at))]
fn lit_at(s: u32, w: u32, from: u64, n: u64, m: Movement) -> u64
    ensures { result ≡ lit_at s w from n m }
{
    if m.start == 0 {
        lit_from_zero(s, w, from, n, m)
    } else {
        lit_from_light(s, w, from, n, m)
    }
}

#[tactic(auto, unfolding(lighting_outputs::specs::Engine::Light::lit_by_pace, lighting_outputs::specs::Engine::Light::lit_moving))]
fn lit_moving(from: u64, n: u64, m: Movement) -> u64
    ensures { result ≡ lit_moving from n m }
{
    match m.pace {
        // From 0 or to 0 the way is the other end.
        Pace::Fade => lit_at(m.start.max(m.target), m.length, from, n, m),
        Pace::Ramp(rate) => lit_at(rate, 1000, from, n, m),
    }
}

// ---- of an output

pub fn is_moving(o: Output) -> bool
    ensures { result ≡ eqb (in_process o.activity) 1 }
{
    output_value::in_process(o.activity) == 1
}

#[tactic(auto, unfolding(lighting_outputs::specs::Engine::Light::lit_in_movement))]
pub fn lit_in_movement(from: u64, n: u64, a: Activity) -> u64
    ensures { result ≡ lit_in_movement from n a }
{
    match a {
        Activity::Moving(m) => lit_moving(from, n, m),
        Activity::Still | Activity::Warned(_) => 0,
    }
}

// Without a movement Progress_Value is Present_Value: all or none.
#[tactic(auto, using(lighting_levels::proofs::Choosing::ifs), unfolding(lighting_outputs::specs::Engine::Light::lit_resting))]
pub fn lit_resting(n: u64, o: Output) -> u64
    ensures { result ≡ lit_resting n (present_value o.settings o.slots) }
{
    if 0 < output_value::present_value(o.settings, o.slots) {
        n
    } else {
        0
    }
}

#[tactic(auto, using(lighting_levels::proofs::Choosing::ifs), unfolding(lighting_outputs::specs::Engine::Light::lit_stretch))]
pub fn lit_stretch(from: u64, n: u64, o: Output) -> u64
    ensures { result ≡ lit_stretch from n o }
{
    if is_moving(o) {
        lit_in_movement(from, n, o.activity)
    } else {
        lit_resting(n, o)
    }
}
