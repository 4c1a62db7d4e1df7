// Levels and REALs of the dimming panel: the types. Levels are in units of 1/65,536 percent. The definitions
// of specs/ are over these very types, and so is the code of the crates above.
#![tactic(auto)]

// One percent, which is the least level above 0, and 100 percent, in units.
pub const LEAST_LEVEL: u32 = 65_536;

pub const GREATEST_LEVEL: u32 = 6_553_600;
