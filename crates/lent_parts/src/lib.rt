// Parts of larger tables, lent to the panel for one operation.
#![tactic(auto)]

ghost use Rattle.std.specs.Prelude.{◌≡◌, take};
ghost use Rattle.lighting_panel.specs.Paper.Panel.{panel_of};
ghost use Rattle.lent_parts.specs.Lending.{begun, sent};

use lighting_frames::Station;
use lighting_outputs::{Answer, Output, Parameters};
use lighting_panel::PanelRecord;

// The first n outputs and the first k stations are lent to the panel, which is started with the set and the
// marks.
// Stays: the counts beside the tables, since the clauses give all of the tables, the rest of them too, and
// README names this for a caller.
#[tactic(auto, using(crate::proofs::Parts::parts_joined, lighting_levels::proofs::Parts::part_taken), unfolding(crate::specs::Lending::begun))]
pub fn start(
    outputs: &mut [Output],
    stations: &mut [Station],
    kept: &mut PanelRecord,
    n: usize,
    k: usize,
    parameters: Parameters,
    tenants: u32,
) -> Answer
    ensures value { result ≡ (begun n k parameters tenants (panel_of outputs.old stations.old kept.old)).answer }
    ensures kept_after { panel_of outputs.new stations.new kept.new ≡ (begun n k parameters tenants (panel_of outputs.old stations.old kept.old)).panel }
{
    let lent = n.min(outputs.len());
    let beside = k.min(stations.len());
    panel::start(
        &mut outputs[..lent],
        &mut stations[..beside],
        kept,
        parameters,
        tenants,
    )
}

// They are lent with the first `count` bytes.
#[tactic(auto, using(crate::proofs::Parts::parts_joined, lighting_levels::proofs::Parts::part_taken), unfolding(crate::specs::Lending::sent))]
pub fn send(
    outputs: &mut [Output],
    stations: &mut [Station],
    kept: &mut PanelRecord,
    n: usize,
    k: usize,
    bytes: &[u8],
    count: usize,
) -> Answer
    ensures value { result ≡ (sent n k (take count bytes.now) (panel_of outputs.old stations.old kept.old)).answer }
    ensures kept_after { panel_of outputs.new stations.new kept.new ≡ (sent n k (take count bytes.now) (panel_of outputs.old stations.old kept.old)).panel }
{
    let lent = n.min(outputs.len());
    let beside = k.min(stations.len());
    let held = count.min(bytes.len());
    panel::frame(
        &mut outputs[..lent],
        &mut stations[..beside],
        kept,
        &bytes[..held],
    )
}
