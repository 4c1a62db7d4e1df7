// The eleven lighting commands, by value. A command acts on slot p, Lighting_Command_Priority. `t` is the
// moment, `c` the settings, `f` the level from which the command starts, `s` the slots and `a` the activity
// that it finds, with any warning ended; `g` is a target, in units.
#![tactic(auto)]

ghost use Rattle.std.specs.Prelude.{◌≡◌};
ghost use Rattle.lighting_outputs.specs.Paper.Commands.{without_warning, activity_without_warning, jumped, went_to, stepped_up, stepped_down, raised, halted, stopped, relinquished, effect, commanded_from, commanded};

use lighting_outputs::{Activity, Command, Effect, Operation, Output, SLOT_6, Settings, Slots};
use panel_time::PanelTime;

// ---- 'and first ends any warning by emptying slot 6'

#[tactic(auto, unfolding(lighting_outputs::specs::Paper::Commands::without_warning))]
fn end_warning(s: Slots, a: Activity) -> Slots
    ensures { result ≡ without_warning s a }
{
    match a {
        Activity::Still | Activity::Moving(_) => s,
        Activity::Warned(_) => output_slots::empty(s, SLOT_6),
    }
}

#[tactic(auto, unfolding(lighting_outputs::specs::Paper::Commands::activity_without_warning))]
fn without_warning(a: Activity) -> Activity
    ensures { result ≡ activity_without_warning a }
{
    match a {
        Activity::Still | Activity::Moving(_) => a,
        Activity::Warned(_) => Activity::Still,
    }
}

// ---- 'GOTO and steps jump'

#[tactic(auto, unfolding(lighting_outputs::specs::Paper::Commands::jumped))]
fn jump(c: Settings, s: Slots, a: Activity, g: u32) -> Effect
    ensures { result ≡ jumped c s a g }
{
    command_moving::place(s, a, c.slot, g, Activity::Still)
}

#[tactic(auto, unfolding(lighting_outputs::specs::Paper::Commands::went_to))]
fn go_to(c: Settings, s: Slots, a: Activity, x: f32) -> Effect
    ensures { result ≡ went_to c s a x }
{
    jump(c, s, a, command_moving::target_of(c, x))
}

// Stays: two steps, since one with a closure would be no plainer: each is one call, and has its definition.
#[tactic(auto, unfolding(lighting_outputs::specs::Paper::Commands::stepped_up))]
fn step_up(c: Settings, f: u32, s: Slots, a: Activity, x: f32) -> Effect
    ensures { result ≡ stepped_up c f s a x }
{
    jump(
        c,
        s,
        a,
        command_steps::step_up_from(c, f, number_level::amount_units(x)),
    )
}

#[tactic(auto, unfolding(lighting_outputs::specs::Paper::Commands::stepped_down))]
fn step_down(c: Settings, f: u32, s: Slots, a: Activity, x: f32) -> Effect
    ensures { result ≡ stepped_down c f s a x }
{
    jump(
        c,
        s,
        a,
        command_steps::step_down_from(c, f, number_level::amount_units(x)),
    )
}

// ---- STOP and RELINQUISH

// 'the reached level, raised to Min if above zero'.
#[tactic(auto, using(lighting_levels::proofs::Choosing::ifs), unfolding(lighting_outputs::specs::Paper::Commands::raised))]
fn raise(c: Settings, v: u32) -> u32
    ensures { result ≡ raised c v }
{
    if v == 0 { 0 } else { v.max(c.min) }
}

#[tactic(auto, unfolding(lighting_outputs::specs::Paper::Commands::halted))]
fn halt(c: Settings, f: u32, s: Slots) -> Effect
    ensures { result ≡ halted c f s }
{
    Effect {
        slots: output_slots::fill(s, c.slot, raise(c, f)),
        activity: Activity::Still,
    }
}

// 'if a movement belongs to p, it ends [..]. Else it changes no slot'.
#[tactic(auto, using(lighting_levels::proofs::Choosing::ifs), unfolding(lighting_outputs::specs::Paper::Commands::stopped))]
fn stop(c: Settings, f: u32, s: Slots, a: Activity) -> Effect
    ensures { result ≡ stopped c f s a }
{
    match a {
        Activity::Moving(m) if m.owner == c.slot => halt(c, f, s),
        Activity::Still | Activity::Moving(_) | Activity::Warned(_) => Effect {
            slots: s,
            activity: a,
        },
    }
}

// 'RELINQUISH empties slot p; if p owned the movement, it ends'.
#[tactic(auto, unfolding(lighting_outputs::specs::Paper::Commands::relinquished))]
fn relinquish(c: Settings, s: Slots, a: Activity) -> Effect
    ensures { result ≡ relinquished c s a }
{
    Effect {
        slots: output_slots::empty(s, c.slot),
        activity: output_due::end_movement_of(c.slot, a),
    }
}

// ---- a command

#[tactic(auto, unfolding(lighting_outputs::specs::Paper::Commands::effect))]
fn make_effect(t: PanelTime, c: Settings, f: u32, s: Slots, a: Activity, k: Operation) -> Effect
    ensures { result ≡ effect t.milliseconds c f s a k }
{
    match k {
        Operation::Stop => stop(c, f, s, a),
        Operation::FadeTo(x) => command_moving::fade_to(t, c, f, s, a, x, c.fade),
        Operation::FadeToOver(x, l) => command_moving::fade_to(t, c, f, s, a, x, l),
        Operation::RampTo(x) => command_moving::ramp_to(t, c, f, s, a, x, c.ramp),
        Operation::RampToAtRate(x, rate) => command_moving::ramp_to(t, c, f, s, a, x, rate),
        Operation::StepUp => step_up(c, f, s, a, c.step),
        Operation::StepDown => step_down(c, f, s, a, c.step),
        Operation::StepUpBy(x) => step_up(c, f, s, a, x),
        Operation::StepDownBy(x) => step_down(c, f, s, a, x),
        Operation::Goto(x) => go_to(c, s, a, x),
        Operation::Relinquish => relinquish(c, s, a),
    }
}

#[tactic(auto, unfolding(lighting_outputs::specs::Paper::Commands::commanded_from))]
fn command_from(t: PanelTime, o: Output, f: u32, k: Command) -> Output
    ensures { result ≡ commanded_from t.milliseconds o f k }
{
    let c = o.settings;
    let a = o.activity;
    let n = make_effect(
        t,
        c,
        f,
        end_warning(o.slots, a),
        without_warning(a),
        k.operation,
    );
    output_record::with_command(
        o,
        n,
        command_durations::time(t, c.slot, o.timer, k.duration),
        k,
    )
}

// 'It starts from Progress_Value before it': not from Present_Value, at which a running movement only aims.
#[tactic(auto, unfolding(lighting_outputs::specs::Paper::Commands::commanded))]
pub fn command(t: PanelTime, o: Output, k: Command) -> Output
    ensures { result ≡ commanded t.milliseconds o k }
{
    command_from(t, o, output_value::progress_value(t.milliseconds, o), k)
}
