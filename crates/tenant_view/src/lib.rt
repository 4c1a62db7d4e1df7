// Tenant stations and service stations (§8): which stations are tenants, and what a tenant is shown.
#![tactic(auto)]

ghost use Rattle.std.specs.Prelude.{◌≡◌, ◌<◌};
ghost use Rattle.lighting_outputs.specs.Paper.Tenants.{is_tenant, whole_percent, shown_level, hidden};

use lighting_levels::LEAST_LEVEL;
use lighting_outputs::SLOT_6;

// Bit n of the marks makes station n a tenant: tested by a shifted mask.
pub fn is_tenant(marks: u32, station: u8) -> bool
    requires { station < 32 }
    ensures { result ≡ is_tenant marks station }
{
    marks & (1u32 << station) != 0
}

// A level rounded down to whole percent: the least level above 0 is one percent.
#[tactic(auto, unfolding(lighting_outputs::specs::Paper::Tenants::whole_percent))]
fn whole_percent(level: u32) -> u32
    ensures { result ≡ whole_percent level }
{
    level / LEAST_LEVEL * LEAST_LEVEL
}

// A level that a tenant reads in whole percent, and a service station as it is.
// Stays: `tenant` is the mark of a station, as the definition takes it, and no switch between steps.
#[tactic(auto, using(lighting_levels::proofs::Choosing::ifs), unfolding(lighting_outputs::specs::Paper::Tenants::shown_level))]
pub fn shown_level(tenant: bool, level: u32) -> u32
    ensures { result ≡ shown_level tenant level }
{
    if tenant { whole_percent(level) } else { level }
}

// Slots 1 to 6 are hidden from a tenant.
#[tactic(auto, using(lighting_levels::proofs::Choosing::ifs), unfolding(lighting_outputs::specs::Paper::Tenants::hidden))]
pub fn is_hidden(tenant: bool, slot: u8) -> bool
    ensures { result ≡ hidden tenant slot }
{
    tenant && slot <= SLOT_6
}
