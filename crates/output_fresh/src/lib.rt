// Fresh records, by value.
#![tactic(auto)]

ghost use Rattle.std.specs.Prelude.{◌≡◌};
ghost use Rattle.lighting_outputs.specs.Paper.Parameters.{fresh_fade};
ghost use Rattle.lighting_outputs.specs.Paper.Fresh.{fresh_settings, fresh_relay, fresh_with, fresh_for};
ghost use Rattle.lighting_frames.specs.Paper.Stations.{fresh_station};

use lighting_frames::{LONGEST_FRAME, Station};
use lighting_levels::{GREATEST_LEVEL, LEAST_LEVEL};
use lighting_outputs::{
    Activity, Answer, Command, Duration, Operation, Output, Parameters, Relay, SLOT_16, SLOTS,
    Settings, Slots,
};

// 1,000 ms, or the longest fade time where that is less.
fn fresh_fade(parameters: Parameters) -> u32
    ensures { result ≡ fresh_fade parameters }
{
    parameters.fade.min(1_000)
}

#[tactic(auto, unfolding(lighting_levels::specs::Paper::Level::real, lighting_outputs::specs::Paper::Fresh::fresh_settings))]
fn fresh_settings(fade: u32) -> Settings
    ensures { result ≡ fresh_settings fade }
{
    Settings {
        default: 0,
        fade,
        ramp: 10.0,
        step: 5.0,
        enable: false,
        blink: 0,
        delay: 0,
        min: LEAST_LEVEL,
        max: GREATEST_LEVEL,
        slot: SLOT_16,
    }
}

// Levels of 50 and 45 percent, polarity normal, inactive.
#[tactic(auto, unfolding(lighting_outputs::specs::Paper::Fresh::fresh_relay))]
fn fresh_relay() -> Relay
    ensures { result ≡ fresh_relay }
{
    Relay {
        active: 50 * LEAST_LEVEL,
        inactive: 45 * LEAST_LEVEL,
        reverse: false,
        binary: false,
    }
}

// No live slot, last operation STOP without duration, burning time 0.
#[tactic(auto, unfolding(lighting_outputs::specs::Paper::Fresh::fresh_with))]
fn fresh_with(fade: u32) -> Output
    ensures { result ≡ fresh_with fade }
{
    Output {
        settings: fresh_settings(fade),
        slots: Slots {
            live: 0,
            levels: [0; SLOTS],
        },
        activity: Activity::Still,
        timer: None,
        burning: 0,
        last: Command {
            operation: Operation::Stop,
            duration: Duration::Omitted,
        },
        relay: fresh_relay(),
    }
}

#[tactic(auto, unfolding(lighting_outputs::specs::Paper::Fresh::fresh_for))]
pub fn fresh_output(parameters: Parameters) -> Output
    ensures { result ≡ fresh_for parameters }
{
    fresh_with(fresh_fade(parameters))
}

// Number 0: no first arrival yet.
#[tactic(auto, unfolding(lighting_frames::specs::Paper::Stations::fresh_station))]
pub fn fresh_station() -> Station
    ensures { result ≡ fresh_station }
{
    Station {
        answer: Answer::Done,
        number: 0,
        frame: [0; LONGEST_FRAME],
    }
}
