// What falls due on an output at one moment: a duration, a phase of a warning, the end of a movement. By
// value, and on any record at all.
#![tactic(auto)]

ghost use Rattle.std.specs.Prelude.{◌≡◌, [], ◌∷◌};
ghost use Rattle.lighting_outputs.specs.Paper.Slots.{slot6, emptied};
ghost use Rattle.lighting_outputs.specs.Paper.Passing.{timer_due, phase_end, activity_due, is_due, timer_at, emptied_by, expired, end_movement_of, end_movement_by, end_movement_on_expiry, delayed, next_phase, next_activity, activity_at, phase_slots, next_slots, slots_at, after_events, fire};
ghost use Rattle.lighting_outputs.specs.Engine.Advance.{any_due};

use lighting_outputs::{Activity, Output, Phase, SLOT_6, Slots, Timer, Warning};

// ---- when

#[tactic(auto, unfolding(lighting_outputs::specs::Paper::Passing::timer_due))]
pub fn timer_due(m: Option<Timer>) -> Option<u64>
    ensures { result ≡ timer_due m }
{
    m.map(|timer| timer.due)
}

#[tactic(auto, unfolding(lighting_outputs::specs::Paper::Passing::phase_end))]
pub fn phase_end(w: Warning, p: Phase) -> u64
    ensures { result ≡ phase_end w p }
{
    match p {
        Phase::Blink => w.turn,
        Phase::Delay => w.over,
    }
}

#[tactic(auto, unfolding(lighting_outputs::specs::Paper::Passing::activity_due))]
pub fn activity_due(a: Activity) -> Option<u64>
    ensures { result ≡ activity_due a }
{
    match a {
        Activity::Still => None,
        Activity::Moving(m) => Some(m.over),
        Activity::Warned(w) => Some(phase_end(w, w.phase)),
    }
}

#[tactic(auto, unfolding(lighting_outputs::specs::Paper::Passing::is_due))]
fn is_due(t: u64, d: Option<u64>) -> bool
    ensures { result ≡ is_due t d }
{
    d == Some(t)
}

fn is_timer_due(t: u64, m: Option<Timer>) -> bool
    ensures { result ≡ is_due t (timer_due m) }
{
    is_due(t, timer_due(m))
}

fn is_activity_due(t: u64, a: Activity) -> bool
    ensures { result ≡ is_due t (activity_due a) }
{
    is_due(t, activity_due(a))
}

// Whether anything is due at t of what is under way.
#[tactic(auto, using(lighting_levels::proofs::Choosing::if_itself, lighting_levels::proofs::Choosing::ifs))]
pub fn is_any_due(t: u64, m: Option<Timer>, a: Activity) -> bool
    ensures { result ≡ any_due t (timer_due m ∷ activity_due a ∷ []) }
{
    is_timer_due(t, m) || is_activity_due(t, a)
}

// ---- a duration

#[tactic(auto, using(lighting_levels::proofs::Choosing::ifs), unfolding(lighting_outputs::specs::Paper::Passing::timer_at))]
fn timer_at(t: u64, m: Option<Timer>) -> Option<Timer>
    ensures { result ≡ timer_at t m }
{
    if is_timer_due(t, m) { None } else { m }
}

#[tactic(auto, unfolding(lighting_outputs::specs::Paper::Passing::emptied_by))]
fn empty_by(m: Option<Timer>, s: Slots) -> Slots
    ensures { result ≡ emptied_by m s }
{
    m.map_or(s, |timer| output_slots::empty(s, timer.slot))
}

#[tactic(auto, using(lighting_levels::proofs::Choosing::ifs), unfolding(lighting_outputs::specs::Paper::Passing::expired))]
fn expire(t: u64, m: Option<Timer>, s: Slots) -> Slots
    ensures { result ≡ expired t m s }
{
    if is_timer_due(t, m) {
        empty_by(m, s)
    } else {
        s
    }
}

// A slot that empties ends the movement that it owned.
#[tactic(auto, using(lighting_levels::proofs::Choosing::ifs), unfolding(lighting_outputs::specs::Paper::Passing::end_movement_of))]
pub fn end_movement_of(q: u8, a: Activity) -> Activity
    ensures { result ≡ end_movement_of q a }
{
    match a {
        Activity::Moving(m) if m.owner == q => Activity::Still,
        Activity::Still | Activity::Moving(_) | Activity::Warned(_) => a,
    }
}

#[tactic(auto, unfolding(lighting_outputs::specs::Paper::Passing::end_movement_by))]
fn end_movement_by(m: Option<Timer>, a: Activity) -> Activity
    ensures { result ≡ end_movement_by m a }
{
    m.map_or(a, |timer| end_movement_of(timer.slot, a))
}

#[tactic(auto, using(lighting_levels::proofs::Choosing::ifs), unfolding(lighting_outputs::specs::Paper::Passing::end_movement_on_expiry))]
fn end_movement_on_expiry(t: u64, m: Option<Timer>, a: Activity) -> Activity
    ensures { result ≡ end_movement_on_expiry t m a }
{
    if is_timer_due(t, m) {
        end_movement_by(m, a)
    } else {
        a
    }
}

// ---- a phase of a warning, or the end of a movement

#[tactic(auto, unfolding(lighting_outputs::specs::Paper::Passing::delayed))]
fn delay(w: Warning) -> Warning
    ensures { result ≡ delayed w }
{
    Warning {
        phase: Phase::Delay,
        ..w
    }
}

#[tactic(auto, using(lighting_levels::proofs::Choosing::ifs), unfolding(lighting_outputs::specs::Paper::Passing::next_phase))]
fn next_phase(w: Warning, p: Phase) -> Activity
    ensures { result ≡ next_phase w p }
{
    match p {
        Phase::Blink if w.turn < w.over => Activity::Warned(delay(w)),
        Phase::Blink | Phase::Delay => Activity::Still,
    }
}

#[tactic(auto, unfolding(lighting_outputs::specs::Paper::Passing::next_activity))]
fn next_activity(a: Activity) -> Activity
    ensures { result ≡ next_activity a }
{
    match a {
        Activity::Still | Activity::Moving(_) => Activity::Still,
        Activity::Warned(w) => next_phase(w, w.phase),
    }
}

#[tactic(auto, using(lighting_levels::proofs::Choosing::ifs), unfolding(lighting_outputs::specs::Paper::Passing::activity_at))]
fn activity_at(t: u64, a: Activity) -> Activity
    ensures { result ≡ activity_at t a }
{
    if is_activity_due(t, a) {
        next_activity(a)
    } else {
        a
    }
}

// The end of a warning with a delay: slot 6 and the warning's own slot empty.
fn warning_empty(s: Slots, i: u8) -> Slots
    ensures { result ≡ emptied (emptied s slot6) i }
{
    output_slots::empty(output_slots::empty(s, SLOT_6), i)
}

#[tactic(auto, using(lighting_levels::proofs::Choosing::ifs), unfolding(lighting_outputs::specs::Paper::Passing::phase_slots))]
fn phase_slots(w: Warning, p: Phase, s: Slots) -> Slots
    ensures { result ≡ phase_slots w p s }
{
    match p {
        Phase::Blink if w.turn < w.over => output_slots::fill(s, SLOT_6, w.level),
        Phase::Blink => output_slots::empty(s, SLOT_6),
        Phase::Delay => warning_empty(s, w.owner),
    }
}

#[tactic(auto, unfolding(lighting_outputs::specs::Paper::Passing::next_slots))]
fn next_slots(a: Activity, s: Slots) -> Slots
    ensures { result ≡ next_slots a s }
{
    match a {
        Activity::Still | Activity::Moving(_) => s,
        Activity::Warned(w) => phase_slots(w, w.phase, s),
    }
}

#[tactic(auto, using(lighting_levels::proofs::Choosing::ifs), unfolding(lighting_outputs::specs::Paper::Passing::slots_at))]
fn slots_at(t: u64, a: Activity, s: Slots) -> Slots
    ensures { result ≡ slots_at t a s }
{
    if is_activity_due(t, a) {
        next_slots(a, s)
    } else {
        s
    }
}

// Judged after each act and after each moment's due events: the relay, by Present_Value.
#[tactic(auto, unfolding(lighting_outputs::specs::Paper::Passing::after_events))]
pub fn after_events(o: Output) -> Output
    ensures { result ≡ after_events o }
{
    output_record::with_relay(
        o,
        output_relay::switch(output_value::present_value(o.settings, o.slots), o.relay),
    )
}

// The duration first: it may end the movement, and the slot that it empties may be the warning's.
#[tactic(auto, unfolding(lighting_outputs::specs::Paper::Passing::fire))]
pub fn fire_at(t: u64, o: Output) -> Output
    ensures { result ≡ fire t o }
{
    let left = end_movement_on_expiry(t, o.timer, o.activity);
    after_events(output_record::with_due(
        o,
        slots_at(t, left, expire(t, o.timer, o.slots)),
        activity_at(t, left),
        timer_at(t, o.timer),
    ))
}
