// A property's new value: as it is kept, or the refusal that it meets. 9 is a property's that is not
// writable, 10 a priority's, 11 a REAL's, 12 a whole number's.
ghost use Rattle.std.specs.Prelude.{◌≡◌, true, ◌-◌};
ghost use Rattle.lighting_outputs.specs.Paper.Rows.{is_priority};
ghost use Rattle.lighting_outputs.specs.Paper.Properties.{change_to, change_by};

use lighting_outputs::{Asked, OutputRequest, Property, Range, Refusal};

// The write of a value that is taken, as it is kept.
fn kept(n: Property, value: u32) -> Asked
    ensures { result ≡ Ok (OutputRequest.Change n value) }
{
    Ok(OutputRequest::Change { property: n, value })
}

#[tactic(auto, unfolding(lighting_outputs::specs::Paper::Properties::change_to))]
fn change_to(n: Property, v: Option<u32>) -> Asked
    ensures { result ≡ change_to n v }
{
    kept(n, v.ok_or(Refusal::RealOutOfRange)?)
}

#[tactic(auto, using(crate::proofs::Priorities::priority_range, lighting_levels::proofs::Choosing::ifs, lighting_outputs::proofs::Laws::change_by_on), unfolding(lighting_outputs::specs::Paper::Properties::change_by))]
pub fn change_by(row: Range, n: Property, x: u32) -> Asked
    ensures { result ≡ change_by row n x }
{
    match row {
        Range::Percent => change_to(n, number_level::level_of(x)),
        Range::Limit => change_to(n, number_level::limit_of(x)),
        Range::Amount if number_ranges::rows::is_amount_pattern(x) => kept(n, x),
        Range::Amount => Err(Refusal::RealOutOfRange),
        Range::Whole { low, high } if number_ranges::is_within(low, high, x) => kept(n, x),
        Range::Whole { .. } => Err(Refusal::WholeOutOfRange),
        Range::Priority if number_ranges::is_priority(x) => kept(n, x - 1),
        Range::Priority => Err(Refusal::BadPriority),
        Range::ReadOnly => Err(Refusal::NotWritable),
    }
}

// A priority's slot.
#[tactic(auto, using(crate::proofs::Priorities::priority_range))]
pub fn slot_of(n: u32) -> u8
    requires { is_priority n ≡ true }
    ensures { result ≡ n - 1 }
{
    (n - 1) as u8
}
