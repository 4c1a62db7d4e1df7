// What a first arrival's request does to its output, once the output is at the frame's time: it acts,
// reads, or is refused. By value, and on any record at all; the time comes from six bytes.
#![tactic(auto)]

ghost use Rattle.std.specs.Prelude.{◌≡◌};
ghost use Rattle.lighting_outputs.specs.Paper.Properties.{settings_with, relay_with, min_over_max};
ghost use Rattle.lighting_outputs.specs.Paper.Relay.{inactive_not_below};
ghost use Rattle.lighting_outputs.specs.Paper.Acting.{done, unchanged, changed_unless, acted};

use lighting_outputs::{Answer, Outcome, Output, OutputRequest, Property, Refusal};
use panel_time::PanelTime;
use property_write::settings;

// The output changed, and judged.
#[tactic(auto, unfolding(lighting_outputs::specs::Paper::Acting::done))]
fn done(o: Output) -> Outcome
    ensures { result ≡ done o }
{
    Outcome {
        output: output_due::after_events(o),
        answer: Answer::Done,
    }
}

// The output as it was: a read, or a refusal.
#[tactic(auto, unfolding(lighting_outputs::specs::Paper::Acting::unchanged))]
fn unchanged(o: Output, a: Answer) -> Outcome
    ensures { result ≡ unchanged o a }
{
    Outcome {
        output: o,
        answer: a,
    }
}

// A write of a property, unless it would leave Min over Max (m), or the relay's inactive value not below its
// active one.
// Stays: two facts, as the definition `changed_unless` takes them, and no switch between steps.
#[tactic(auto, using(lighting_levels::proofs::Choosing::ifs), unfolding(lighting_outputs::specs::Paper::Acting::changed_unless))]
fn change_unless(m: bool, unordered: bool, o: Output, n: Property, v: u32) -> Outcome
    ensures { result ≡ changed_unless m unordered o n v }
{
    if m {
        unchanged(o, Answer::from(Refusal::MinOverMax))
    } else if unordered {
        unchanged(o, Answer::from(Refusal::RelayNotInOrder))
    } else {
        done(settings::change(o, n, v))
    }
}

// The settings as they would be decide.
fn change(o: Output, n: Property, v: u32) -> Outcome
    ensures { result ≡ changed_unless (min_over_max (settings_with o.settings n v)) (inactive_not_below (relay_with o.relay n v)) o n v }
{
    change_unless(
        settings::min_over_max(settings::settings_with(o.settings, n, v)),
        output_relay::inactive_not_below(settings::relay_with(o.relay, n, v)),
        o,
        n,
        v,
    )
}

// The station's mark is asked by a read alone (§8).
#[tactic(auto, unfolding(lighting_outputs::specs::Paper::Acting::acted))]
pub fn act(tenant: bool, t: PanelTime, o: Output, q: OutputRequest) -> Outcome
    ensures { result ≡ acted tenant t.milliseconds o q }
{
    match q {
        OutputRequest::Write { slot, level } => done(output_writing::write(t, o, slot, level)),
        OutputRequest::Empty { slot } => done(output_writing::relinquish_slot(o, slot)),
        OutputRequest::Change { property, value } => change(o, property, value),
        OutputRequest::Read(property) => unchanged(
            o,
            property_read::read_property(tenant, t.milliseconds, o, property),
        ),
        OutputRequest::Commands(k) => done(command_effect::command(t, o, k)),
    }
}
