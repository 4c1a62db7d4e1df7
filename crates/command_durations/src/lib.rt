// A command's duration, by value.
#![tactic(auto)]

ghost use Rattle.std.specs.Prelude.{◌≡◌, ◌+◌};
ghost use Rattle.lighting_outputs.specs.Paper.Commands.{timed};
ghost use Rattle.lighting_outputs.specs.Paper.Passing.{running};

use lighting_outputs::{Duration, Timer};
use panel_time::PanelTime;

// 'slot p empties d ms later': milliseconds, as they were sent.
fn running(t: PanelTime, p: u8, d: u32) -> Option<Timer>
    ensures { result ≡ running p (t.milliseconds + d) }
{
    Some(Timer {
        slot: p,
        due: t.later(d),
    })
}

// 'a new one replaces it, 0 cancels it, Absent leaves it running'.
#[tactic(auto, unfolding(lighting_outputs::specs::Paper::Commands::timed))]
pub fn time(t: PanelTime, p: u8, m: Option<Timer>, d: Duration) -> Option<Timer>
    ensures { result ≡ timed t.milliseconds p m d }
{
    match d {
        Duration::Lasts(l) => running(t, p, l),
        Duration::Cancels => None,
        Duration::Omitted => m,
    }
}
