// The panel over what a caller lends: two tables, outputs and station records, and beside them the panel's
// own record, which has the panel time, the set of parameters and the marks. The two public operations ask
// nothing of what is lent. The contract of each is one equation: all that it leaves of what is lent, and its
// answer, are what `start_step` and `frame_step` say.
#![tactic(auto)]

ghost use Rattle.std.specs.Prelude.{Ok, ◌≡◌, length};
ghost use Rattle.lighting_panel.specs.Engine.VerdictPrecondition.{Standing, Arrival, VerdictPrecondition};
ghost use Rattle.lighting_panel.specs.Paper.Panel.{panel_of, panel_result, start_step};
ghost use Rattle.lighting_panel.specs.Engine.Executing.{execute, frame_step};

use lighting_frames::{Call, Station, Verdict};
use lighting_outputs::{Answer, Output, Parameters, Refusal};
use lighting_panel::PanelRecord;
use panel_time::PanelTime;

// Stays: the three that are lent go as three parameters through all four functions, since `start` and `frame`
// are what docs/SUPPLY.md and README.md name for a caller. A struct of them has its place in `replay_line`.

// A first arrival: the panel goes to its time and acts, and the station keeps number, frame and answer.
#[tactic(auto, unfolding(lighting_panel::specs::Engine::Executing::execute))]
fn arrive(
    outputs: &mut [Output],
    stations: &mut [Station],
    kept: &mut PanelRecord,
    bytes: &[u8],
    call: Call,
) -> Answer
    requires standing { Standing kept.old.time outputs.old }
    requires arrival { Arrival kept.old.time (length outputs.old) (length stations.old) bytes.now call }
    ensures { panel_result (panel_of outputs.new stations.new kept.new) result ≡ execute bytes.now (panel_of outputs.old stations.old kept.old) (Ok (Verdict.Arrives call)) }
{
    let before = *kept;
    panel_tables::advance_outputs(outputs, panel_record::time_of(before), call.time);
    let answer = panel_tables::serve(
        outputs,
        tenant_view::is_tenant(panel_record::tenants_of(before), call.station),
        PanelTime::new(call.time),
        number_ranges::index(call.output),
        call.request,
    );
    stations[number_ranges::index(call.station)] = station_frame::station_record(
        answer,
        call.number,
        bytes,
    );
    *kept = panel_record::with_time(before, call.time);
    answer
}

// Refusals 2 to 8 and copies leave everything. A clock brings every output to its time.
#[tactic(auto, unfolding(lighting_panel::specs::Engine::Executing::execute))]
fn execute(
    outputs: &mut [Output],
    stations: &mut [Station],
    kept: &mut PanelRecord,
    bytes: &[u8],
    v: Result<Verdict, Refusal>,
) -> Answer
    requires standing { Standing kept.old.time outputs.old }
    requires verdict_precondition { VerdictPrecondition kept.old.time (length outputs.old) (length stations.old) bytes.now v }
    ensures { panel_result (panel_of outputs.new stations.new kept.new) result ≡ execute bytes.now (panel_of outputs.old stations.old kept.old) v }
{
    match v {
        Err(refusal) => Answer::from(refusal),
        Ok(Verdict::Copied(a)) => a,
        Ok(Verdict::Clocked(t)) => {
            let before = *kept;
            panel_tables::advance_outputs(outputs, panel_record::time_of(before), t);
            *kept = panel_record::with_time(before, t);
            Answer::Done
        }
        Ok(Verdict::Arrives(call)) => arrive(outputs, stations, kept, bytes, call),
    }
}

// Writes every lent record fresh, keeps the set and the marks and answers Done; or meets 17 by the set, or 1
// by its counts. No mark is refused.
#[tactic(auto, using(lighting_panel::proofs::Carried::start_step_done, lighting_panel::proofs::Carried::start_step_outside, lighting_panel::proofs::Carried::start_step_refused))]
pub fn start(
    outputs: &mut [Output],
    stations: &mut [Station],
    kept: &mut PanelRecord,
    parameters: Parameters,
    tenants: u32,
) -> Answer
    ensures { panel_result (panel_of outputs.new stations.new kept.new) result ≡ start_step parameters tenants (panel_of outputs.old stations.old kept.old) }
{
    if !panel_record::is_startable(parameters) {
        return Answer::from(Refusal::BadParameters);
    }
    if !station_judging::counts_sound(parameters, outputs.len(), stations.len()) {
        return Answer::from(Refusal::BrokenRecords);
    }
    panel_tables::fresh_outputs(outputs, parameters);
    panel_tables::fresh_stations(stations);
    *kept = panel_record::fresh_record(parameters, tenants);
    Answer::Done
}

// Takes one string of bytes: judges it by the kept set and its station's record, and carries the verdict out.
#[tactic(auto, using(lighting_panel::proofs::Carried::all_stay, lighting_panel::proofs::Carried::decide_sure, lighting_panel::proofs::Carried::frame_step_execute, lighting_panel::proofs::Carried::frame_step_refused, lighting_panel::proofs::Carried::octets, lighting_panel::proofs::Carried::sound_outputs, lighting_panel::proofs::Carried::sound_startable, lighting_panel::proofs::Carried::sound_stations))]
pub fn frame(
    outputs: &mut [Output],
    stations: &mut [Station],
    kept: &mut PanelRecord,
    bytes: &[u8],
) -> Answer
    ensures { panel_result (panel_of outputs.new stations.new kept.new) result ≡ frame_step (panel_of outputs.old stations.old kept.old) bytes.now }
{
    let record = *kept;
    if !panel_judging::panel_sound(outputs, stations, record) {
        return Answer::from(Refusal::BrokenRecords);
    }
    let verdict = panel_judging::decide(outputs, stations, record, bytes);
    execute(outputs, stations, kept, bytes, verdict)
}
