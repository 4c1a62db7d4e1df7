// The tables that a caller lends: each record in turn, and one record taken out and put back. The functions
// here are thin: a record is taken out of its table by value, a by-value function of the crates below does
// the work, and the record is put back.
#![tactic(auto)]

ghost use Rattle.std.specs.Prelude.{map, Ok, ◌≡◌, ◌≤◌, ◌<◌, length, replicate, set, get_or};
ghost use Rattle.lighting_outputs.specs.Paper.Fresh.{fresh_for, fresh_output};
ghost use Rattle.lighting_frames.specs.Paper.Stations.{fresh_station};
ghost use Rattle.lighting_outputs.specs.Engine.Advance.{advance};
ghost use Rattle.lighting_outputs.specs.Paper.Acting.{served};
ghost use Rattle.lighting_outputs.specs.declared.PanelRequest.TheVariants.{ToOutput};
ghost use Rattle.lighting_panel.specs.Engine.VerdictPrecondition.{Standing};

use lighting_frames::Station;
use lighting_outputs::{Answer, Output, OutputRequest, PanelRequest, Parameters, Request};
use panel_time::PanelTime;

// ---- each record of a table

pub fn fresh_outputs(outputs: &mut [Output], parameters: Parameters)
    ensures { outputs.new ≡ replicate (length outputs.old) (fresh_for parameters) }
{
    outputs.fill(output_fresh::fresh_output(parameters));
}

pub fn fresh_stations(stations: &mut [Station])
    ensures { stations.new ≡ replicate (length stations.old) fresh_station }
{
    stations.fill(output_fresh::fresh_station());
}

// Stays: `from` and `to` as two numbers. A range would be no plainer: it is half open by its name, and what
// falls due at `to` is done here.

// Brings one output to a moment, from due moment to due moment. A function of its own, so that the copies of
// a record that the compiler makes here stay out of the way of most outputs (docs/DESIGN.md, 'With and
// without a movement apart').
fn step_output(outputs: &mut [Output], i: usize, from: u64, to: u64)
    requires { i < length outputs.old }
    ensures { outputs.new ≡ set outputs.old i (advance from to (get_or outputs.old i fresh_output)) }
{
    outputs[i] = output_passing::three_event_steps(from, to, outputs[i]);
}

// Brings one output to a moment. Where nothing falls due on the way, only its burning time changes: by the
// movement, or by Present_Value alone.
#[tactic(auto, using(lighting_outputs::proofs::Time::Quiet::advance_later, lighting_outputs::proofs::Time::Quiet::stretch_moving, lighting_outputs::proofs::Time::Quiet::stretch_resting))]
fn advance_output(outputs: &mut [Output], i: usize, from: u64, to: u64)
    requires { i < length outputs.old }
    ensures { outputs.new ≡ set outputs.old i (advance from to (get_or outputs.old i fresh_output)) }
{
    let o = outputs[i];
    if output_light::is_moving(o) {
        if output_passing::is_later(to, o) {
            outputs[i] = output_passing::move_on(from, to, o);
        } else {
            step_output(outputs, i, from, to);
        }
    } else if output_passing::is_later(to, o) {
        outputs[i] = output_passing::rest(from, to, o);
    } else {
        step_output(outputs, i, from, to);
    }
}

// Brings every output to a moment. While time stands nothing falls due, and no record is written.
#[tactic(auto, using(crate::proofs::Loops::mapped, crate::proofs::Loops::mapped_all, crate::proofs::Loops::mapped_more))]
pub fn advance_outputs(outputs: &mut [Output], from: u64, to: u64)
    requires standing { Standing from outputs.old }
    requires from_le_to { from ≤ to }
    ensures { outputs.new ≡ map (advance from to) outputs.old }
{
    if to <= from {
        return;
    }
    for i in 0..outputs.len() {
        advance_output(outputs, i, from, to);
    }
}

// ---- one record of a table

// A request to one output: the output is taken out, acted on, and put back.
#[tactic(auto, unfolding(lighting_outputs::specs::Paper::Acting::served))]
fn serve_output(
    outputs: &mut [Output],
    tenant: bool,
    time: PanelTime,
    at: usize,
    request: OutputRequest,
) -> Answer
    requires at_in_bounds { at < length outputs.old }
    ensures value { result ≡ (served tenant time.milliseconds outputs.old at (Ok (ToOutput request))).answer }
    ensures outputs_after { outputs.new ≡ (served tenant time.milliseconds outputs.old at (Ok (ToOutput request))).outputs }
{
    let done = output_acting::act(tenant, time, outputs[at], request);
    outputs[at] = done.output;
    done.answer
}

// Any request, of a tenant or of a service station: one that its fields refuse touches no output.
#[tactic(auto, unfolding(lighting_outputs::specs::Paper::Acting::served))]
pub fn serve(
    outputs: &mut [Output],
    tenant: bool,
    time: PanelTime,
    at: usize,
    request: Request,
) -> Answer
    requires at_in_bounds { at < length outputs.old }
    ensures value { result ≡ (served tenant time.milliseconds outputs.old at request).answer }
    ensures outputs_after { outputs.new ≡ (served tenant time.milliseconds outputs.old at request).outputs }
{
    match request {
        Err(refusal) => Answer::from(refusal),
        Ok(PanelRequest::ToOutput(asked)) => serve_output(outputs, tenant, time, at, asked),
    }
}
