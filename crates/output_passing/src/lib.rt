// The passing of time: from due moment to due moment, at most three an output and frame. Nothing here lives a
// millisecond by itself.
#![tactic(auto)]

ghost use Rattle.std.specs.Prelude.{◌≡◌, ◌-◌};
ghost use Rattle.lighting_outputs.specs.Engine.Advance.{sooner, due, burned_by, with_burned_saturating, fire_due, event_step, event_steps, advance, later};
ghost use Rattle.lighting_outputs.specs.Engine.Light.{lit_in_movement, lit_resting};
ghost use Rattle.lighting_levels.specs.Paper.Choice.{when◌then◌else◌};
ghost use Rattle.lighting_outputs.specs.Paper.Value.{present_value};

use lighting_outputs::Output;

// ---- burning time

#[tactic(auto, unfolding(lighting_outputs::specs::Engine::Advance::burned_by))]
fn burn(lit: u64, o: Output) -> Output
    ensures { result ≡ burned_by lit o }
{
    output_record::with_burning(o, o.burning.saturating_add(lit))
}

#[tactic(auto, unfolding(lighting_outputs::specs::Engine::Advance::with_burned_saturating))]
fn with_burned_saturating(from: u64, n: u64, o: Output) -> Output
    ensures { result ≡ with_burned_saturating from n o }
{
    burn(output_light::lit_stretch(from, n, o), o)
}

// ---- the next due moment, or `to` if nothing falls due before it

#[tactic(auto, unfolding(lighting_outputs::specs::Engine::Advance::sooner))]
fn sooner(to: u64, d: Option<u64>) -> u64
    ensures { result ≡ sooner to d }
{
    d.map_or(to, |at| to.min(at))
}

#[tactic(auto, unfolding(lighting_outputs::specs::Engine::Advance::due))]
fn next_due(to: u64, o: Output) -> u64
    ensures { result ≡ due to o }
{
    sooner(
        sooner(to, output_due::activity_due(o.activity)),
        output_due::timer_due(o.timer),
    )
}

// ---- three event steps, and what is left of the way

// What falls due at d; where nothing does, the relay is not judged either.
#[tactic(auto, using(lighting_levels::proofs::Choosing::ifs), unfolding(lighting_outputs::specs::Engine::Advance::fire_due))]
fn fire_due(d: u64, o: Output) -> Output
    ensures { result ≡ fire_due d o }
{
    if output_due::is_any_due(d, o.timer, o.activity) {
        output_due::fire_at(d, o)
    } else {
        o
    }
}

// A stretch up to d, and what falls due at its end, or nothing after the last one. One function makes every
// stretch: a second one would be passed the record by value, which costs more than the stretch.
// Stays: `fires` says whether it is the last one. Two functions were tried, and were slower
// (docs/BENCHMARK.md).
#[tactic(auto, using(lighting_levels::proofs::Choosing::ifs), unfolding(lighting_outputs::specs::Engine::Advance::event_step, lighting_outputs::specs::Engine::Advance::event_steps))]
fn stretch(now: u64, d: u64, fires: bool, o: Output) -> Output
    ensures { result ≡ (when fires then event_step now d o else event_steps 0 now d o) }
{
    let burned = with_burned_saturating(now, d.saturating_sub(now), o);
    if fires { fire_due(d, burned) } else { burned }
}

fn one_event_step(now: u64, to: u64, o: Output) -> Output
    ensures { result ≡ event_steps 1 now to o }
{
    let d = next_due(to, o);
    stretch(d, to, false, stretch(now, d, true, o))
}

// Stays: a step more than `one_event_step`, and `three_event_steps` one more. One function by a count would
// call itself, which no function of the panel may (tools/loops.py).
fn two_event_steps(now: u64, to: u64, o: Output) -> Output
    ensures { result ≡ event_steps 2 now to o }
{
    let d = next_due(to, o);
    one_event_step(d, to, stretch(now, d, true, o))
}

pub fn three_event_steps(now: u64, to: u64, o: Output) -> Output
    ensures { result ≡ advance now to o }
{
    let d = next_due(to, o);
    two_event_steps(d, to, stretch(now, d, true, o))
}

// ---- the way of most outputs at most frames: nothing falls due up to its end, and `rest` or `move_on` is
// all of it

#[tactic(auto, unfolding(lighting_outputs::specs::Engine::Advance::later))]
pub fn is_later(to: u64, o: Output) -> bool
    ensures { result ≡ later to o }
{
    to < next_due(u64::MAX, o)
}

// Of an output without a movement, and of one with it. Each is called in one place, so that the compiler puts
// it there and copies no record.
pub fn rest(now: u64, to: u64, o: Output) -> Output
    ensures { result ≡ burned_by (lit_resting (to - now) (present_value o.settings o.slots)) o }
{
    burn(output_light::lit_resting(to.saturating_sub(now), o), o)
}

pub fn move_on(now: u64, to: u64, o: Output) -> Output
    ensures { result ≡ burned_by (lit_in_movement now (to - now) o.activity) o }
{
    burn(
        output_light::lit_in_movement(now, to.saturating_sub(now), o.activity),
        o,
    )
}
