// The panel's own record, which is lent beside its two tables, by value; and the set of parameters and the
// marks that it keeps.
#![tactic(auto)]

ghost use Rattle.std.specs.Prelude.{◌≡◌};
ghost use Rattle.lighting_outputs.specs.Paper.Parameters.{four_hours};
ghost use Rattle.lighting_outputs.specs.Paper.Startable.{startable};
ghost use Rattle.lighting_panel.specs.Paper.Panel.{fresh_record, with_time};

use lighting_outputs::{
    LEAST_TIME, MOST_DURATION, MOST_FADE, MOST_OUTPUTS, MOST_STATIONS, Parameters,
};
use lighting_panel::PanelRecord;
use number_ranges::is_within;

// ---- the set of parameters

// The old panel's (§7): eight stations, so many outputs, fades of four hours, durations of a day.
pub fn four_hours(outputs: u32) -> Parameters
    ensures { result ≡ four_hours outputs }
{
    Parameters {
        stations: 8,
        outputs,
        fade: MOST_FADE,
        duration: MOST_DURATION,
    }
}

// Whether a panel may be started with the set, and may keep it: the one test.
#[tactic(auto, using(lighting_levels::proofs::Choosing::ifs), unfolding(lighting_outputs::specs::Paper::Startable::startable))]
pub fn is_startable(parameters: Parameters) -> bool
    ensures { result ≡ startable parameters }
{
    is_within(1, MOST_STATIONS, parameters.stations)
        && is_within(1, MOST_OUTPUTS, parameters.outputs)
        && is_within(LEAST_TIME, MOST_FADE, parameters.fade)
        && is_within(LEAST_TIME, MOST_DURATION, parameters.duration)
}

// ---- the record

// The marks are kept as they are given.
pub fn fresh_record(parameters: Parameters, tenants: u32) -> PanelRecord
    ensures { result ≡ fresh_record parameters tenants }
{
    PanelRecord {
        time: 0,
        parameters,
        tenants,
    }
}

// Stays: what may not change. docs/DESIGN.md says that the panel's record is read here, by value, and nowhere
// else, so that a later change of it moves these.
pub fn time_of(kept: PanelRecord) -> u64
    ensures { result ≡ kept.time }
{
    kept.time
}

pub fn parameters_of(kept: PanelRecord) -> Parameters
    ensures { result ≡ kept.parameters }
{
    kept.parameters
}

pub fn tenants_of(kept: PanelRecord) -> u32
    ensures { result ≡ kept.tenants }
{
    kept.tenants
}

// It names no other field.
pub fn with_time(kept: PanelRecord, t: u64) -> PanelRecord
    ensures { result ≡ with_time kept t }
{
    PanelRecord { time: t, ..kept }
}
