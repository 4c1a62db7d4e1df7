// What a frame meets before anything is written: refusal 1, by the counts and each lent record, and the
// verdict on its bytes.
#![tactic(auto)]

ghost use Rattle.std.specs.Prelude.{true, ◌≡◌, length};
ghost use Rattle.lighting_levels.specs.Paper.Choice.{every};
ghost use Rattle.lighting_outputs.specs.Paper.Startable.{startable};
ghost use Rattle.lighting_outputs.specs.Paper.Rules.{sound};
ghost use Rattle.lighting_frames.specs.Paper.Stations.{station_sound};
ghost use Rattle.lighting_panel.specs.Paper.Panel.{panel_of, panel_sound};
ghost use Rattle.lighting_panel.specs.Engine.Judging.{decide};

use lighting_frames::{Station, Verdict};
use lighting_outputs::{Output, Parameters, Refusal};
use lighting_panel::PanelRecord;

// ---- refusal 1

fn outputs_sound(outputs: &[Output], parameters: Parameters, t: u64) -> bool
    ensures { result ≡ every (sound parameters t) outputs.now }
{
    outputs
        .iter()
        .all(|o| output_rules::is_sound(parameters, t, *o))
}

fn stations_sound(stations: &[Station]) -> bool
    ensures { result ≡ every station_sound stations.now }
{
    stations.iter().all(|k| station_judging::station_sound(*k))
}

// Refusal 1: the kept set, then by it the counts, then each record.
#[tactic(auto, using(lighting_levels::proofs::Choosing::ifs), unfolding(lighting_panel::specs::Paper::Panel::panel_sound, lighting_panel::specs::Paper::Panel::rules_kept))]
pub fn panel_sound(outputs: &[Output], stations: &[Station], kept: PanelRecord) -> bool
    ensures { result ≡ panel_sound (panel_of outputs.now stations.now kept) }
{
    let parameters = panel_record::parameters_of(kept);
    panel_record::is_startable(parameters)
        && station_judging::counts_sound(parameters, outputs.len(), stations.len())
        && outputs_sound(outputs, parameters, panel_record::time_of(kept))
        && stations_sound(stations)
}

// ---- the verdict

// What is to be done with the bytes, by the record of the station that they name.
#[tactic(auto, using(lighting_panel::proofs::Carried::octets, lighting_panel::proofs::Carried::station_found), unfolding(lighting_panel::specs::Engine::Judging::decide))]
pub fn decide(
    outputs: &[Output],
    stations: &[Station],
    kept: PanelRecord,
    bytes: &[u8],
) -> Result<Verdict, Refusal>
    requires parameters_value { startable kept.parameters ≡ true }
    requires stations_len { length stations.now ≡ kept.parameters.stations }
    ensures { result ≡ decide (panel_of outputs.now stations.now kept) bytes.now }
{
    let parameters = panel_record::parameters_of(kept);
    let f = frame_parse::parse(parameters, outputs.len(), bytes);
    let at = number_ranges::index(station_judging::station_of(f));
    station_judging::judge_by_station(panel_record::time_of(kept), stations[at], bytes, f)
}
