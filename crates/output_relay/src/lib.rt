// The relay of an output (§3 of the change requests): how Present_Value switches it, its state, and the rules
// on it. By value, and on any relay at all.
#![tactic(auto)]

ghost use Rattle.std.specs.Prelude.{◌≡◌, true, ltb, leb, eqb};
ghost use Rattle.lighting_levels.specs.Paper.Choice.{when◌then◌else◌};
ghost use Rattle.lighting_levels.specs.Paper.Level.{least_level};
ghost use Rattle.lighting_outputs.specs.declared.Parameters.{Parameters};
ghost use Rattle.lighting_outputs.specs.Paper.Relay.{binary_at, switched, relay_state, inactive_not_below};
ghost use Rattle.lighting_outputs.specs.Paper.Rules.{relay_sound};

use lighting_levels::{GREATEST_LEVEL, LEAST_LEVEL};
use lighting_outputs::Relay;
use number_ranges::is_within;

// Binary_Present_Value where Present_Value is v: between the two values it is as it was.
#[tactic(auto, using(lighting_levels::proofs::Choosing::ifs), unfolding(lighting_outputs::specs::Paper::Relay::binary_at))]
fn binary_at(v: u32, relay: Relay) -> bool
    ensures { result ≡ binary_at v relay }
{
    relay.active <= v || (v > relay.inactive && relay.binary)
}

// The relay judged.
#[tactic(auto, unfolding(lighting_outputs::specs::Paper::Relay::switched))]
pub fn switch(v: u32, relay: Relay) -> Relay
    ensures { result ≡ switched v relay }
{
    Relay {
        binary: binary_at(v, relay),
        ..relay
    }
}

// Its state: Binary_Present_Value, or its opposite under reverse.
#[tactic(auto, using(lighting_levels::proofs::Choosing::ifs), unfolding(lighting_outputs::specs::Paper::Relay::relay_state))]
pub fn relay_state(relay: Relay) -> bool
    ensures { result ≡ relay_state relay }
{
    relay.binary != relay.reverse
}

// 'the inactive value not below the active one', which is 16.
#[tactic(auto, unfolding(lighting_outputs::specs::Paper::Relay::inactive_not_below))]
pub fn inactive_not_below(relay: Relay) -> bool
    ensures { result ≡ inactive_not_below relay }
{
    relay.active <= relay.inactive
}

// ---- the rules on it, where Present_Value is v

// 0, or from 1 percent on: of a value that is below a level.
#[tactic(auto, using(lighting_levels::proofs::Choosing::ifs))]
fn is_low_level(inactive: u32) -> bool
    ensures { result ≡ (when eqb inactive 0 then true else leb least_level inactive) }
{
    inactive == 0 || LEAST_LEVEL <= inactive
}

// Binary_Present_Value is as judging leaves it: where active, Present_Value is above the inactive value;
// where inactive, below the active one.
#[tactic(auto, using(lighting_levels::proofs::Choosing::ifs))]
fn is_judged(v: u32, relay: Relay) -> bool
    ensures { result ≡ (when relay.binary then ltb relay.inactive v else ltb v relay.active) }
{
    if relay.binary {
        relay.inactive < v
    } else {
        v < relay.active
    }
}

// Every lent record is tested at every frame, so the rules stand here in fewer comparisons than in the
// definition (proofs/Fewer.antt): where the inactive value is below the active one, the active one is above
// 0, and the inactive one below 100 percent if the active one is at most that. No number of the set of
// parameters plays a part.
#[tactic(auto, using(crate::proofs::Fewer::fewer, lighting_levels::proofs::Choosing::ifs))]
pub fn relay_sound(v: u32, relay: Relay) -> bool
    ensures { (p : Parameters) → result ≡ relay_sound p v relay }
{
    relay.inactive < relay.active
        && is_within(LEAST_LEVEL, GREATEST_LEVEL, relay.active)
        && is_low_level(relay.inactive)
        && is_judged(v, relay)
}
