// Where a step leads, by value: f is the level from which it starts, x the step, in units.
#![tactic(auto)]

ghost use Rattle.std.specs.Prelude.{◌≡◌};
ghost use Rattle.lighting_outputs.specs.Paper.Commands.{step_up_from, step_down_from};

use lighting_outputs::Settings;

// 'Step up: s plus step [..] brought into Min..Max'. The sum is made in 64 bits.
#[tactic(auto, unfolding(lighting_outputs::specs::Paper::Commands::step_up_from))]
pub fn step_up_from(c: Settings, f: u32, x: u32) -> u32
    ensures { result ≡ step_up_from c f x }
{
    output_value::clamp(c, u64::from(f) + u64::from(x))
}

// 's minus step, not below 0'. 'Step down from s = 0 stays 0': it does not light a dark output at Min.
#[tactic(auto, using(lighting_levels::proofs::Choosing::ifs), unfolding(lighting_outputs::specs::Paper::Commands::step_down_from))]
pub fn step_down_from(c: Settings, f: u32, x: u32) -> u32
    ensures { result ≡ step_down_from c f x }
{
    if f == 0 {
        0
    } else {
        output_value::clamp(c, u64::from(f.saturating_sub(x)))
    }
}
