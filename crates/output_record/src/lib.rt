// Every way in which an output's record is changed: the like of specs/Paper/Record.antt. A fresh record is
// the crate `output_fresh`.
#![tactic(auto)]

ghost use Rattle.std.specs.Prelude.{◌≡◌};
ghost use Rattle.lighting_outputs.specs.Paper.Record.{with_burning, with_due, with_relay, with_effect, with_command, with_settings};

use lighting_outputs::{Activity, Command, Effect, Output, Relay, Settings, Slots, Timer};

// Time passes while nothing falls due: of all the ways this one is gone most.
#[tactic(auto, unfolding(lighting_outputs::specs::Paper::Record::with_burning))]
pub fn with_burning(o: Output, b: u64) -> Output
    ensures { result ≡ with_burning o b }
{
    Output { burning: b, ..o }
}

// A moment's due events.
pub fn with_due(o: Output, slots: Slots, activity: Activity, timer: Option<Timer>) -> Output
    ensures { result ≡ with_due o slots activity timer }
{
    Output {
        slots,
        activity,
        timer,
        ..o
    }
}

// The relay judged.
pub fn with_relay(o: Output, relay: Relay) -> Output
    ensures { result ≡ with_relay o relay }
{
    Output { relay, ..o }
}

// A slot written or emptied.
#[tactic(auto, unfolding(lighting_outputs::specs::Paper::Record::with_effect))]
pub fn with_effect(o: Output, slots: Slots, activity: Activity) -> Output
    ensures { result ≡ with_effect o slots activity }
{
    Output {
        slots,
        activity,
        ..o
    }
}

// A command.
#[tactic(auto, unfolding(lighting_outputs::specs::Paper::Record::with_command))]
pub fn with_command(o: Output, n: Effect, timer: Option<Timer>, k: Command) -> Output
    ensures { result ≡ with_command o n timer k }
{
    Output {
        slots: n.slots,
        activity: n.activity,
        timer,
        last: k,
        ..o
    }
}

// A property written.
#[tactic(auto, unfolding(lighting_outputs::specs::Paper::Record::with_settings))]
pub fn with_settings(
    o: Output,
    settings: Settings,
    relay: Relay,
    activity: Activity,
    burning: u64,
) -> Output
    ensures { result ≡ with_settings o settings relay activity burning }
{
    Output {
        settings,
        relay,
        activity,
        burning,
        ..o
    }
}
