// The panel: its definitions are over the types of the layers below.
#![tactic(auto)]

// What a panel keeps beside its two tables, lent as one record.
#[derive(Clone, Copy)]
pub struct PanelRecord {
    // The panel time
    pub time: u64,
    // The set of parameters that the panel was started with (§6)
    pub parameters: lighting_outputs::Parameters,
    // The marks of the stations (§8): bit n makes station n a tenant
    pub tenants: u32,
}
