// A set of parameters and the marks as the numbers of a row: stations, outputs, the longest fade time, the
// longest duration, the marks.
use super::NUMBERS;
use super::numbers::Narrow;
use lighting_outputs::Parameters;

pub const PARAMETERS_NUMBERS: usize = 5;

pub fn parameters_of(n: &[u64; NUMBERS]) -> Parameters {
    Parameters {
        stations: n[0].narrow(),
        outputs: n[1].narrow(),
        fade: n[2].narrow(),
        duration: n[3].narrow(),
    }
}

pub fn tenants_of(n: &[u64; NUMBERS]) -> u32 {
    n[4].narrow()
}

pub fn parameters_numbers(parameters: Parameters, tenants: u32) -> [u64; PARAMETERS_NUMBERS] {
    [
        parameters.stations,
        parameters.outputs,
        parameters.fade,
        parameters.duration,
        tenants,
    ]
    .map(u64::from)
}
