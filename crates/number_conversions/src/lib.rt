// The conversions of REALs for other languages: the static library that the comparison with another binary32
// library links. A REAL comes as its pattern, and units go out as they are; 4,294,967,295, which no level,
// limit, rate or step has, stands for a refusal.
#![tactic(auto)]

ghost use Rattle.std.specs.Prelude.{◌≡◌};
ghost use Rattle.lighting_levels.specs.Paper.Level.{real, level_of, limit_of, amount_of, units_or, read_out};

#[unsafe(no_mangle)]
pub extern "C" fn bobbinonyx_level(pattern: u32) -> u32
    ensures { result ≡ units_or 4294967295 (level_of (real pattern)) }
{
    number_level::units_or(4294967295, number_level::level_of(pattern))
}

#[unsafe(no_mangle)]
pub extern "C" fn bobbinonyx_limit(pattern: u32) -> u32
    ensures { result ≡ units_or 4294967295 (limit_of (real pattern)) }
{
    number_level::units_or(4294967295, number_level::limit_of(pattern))
}

#[unsafe(no_mangle)]
pub extern "C" fn bobbinonyx_amount(pattern: u32) -> u32
    ensures { result ≡ units_or 4294967295 (amount_of (real pattern)) }
{
    number_level::units_or(4294967295, number_level::amount_of(pattern))
}

#[unsafe(no_mangle)]
pub extern "C" fn bobbinonyx_read_out(units: u32) -> u32
    ensures { result ≡ read_out units }
{
    number_level::read_out(units)
}
