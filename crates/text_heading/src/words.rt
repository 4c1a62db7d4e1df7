// The words of a list's first line: their letters, and each one's number in what is named.
ghost use Rattle.std.specs.Prelude.{◌≡◌};
ghost use Rattle.text_heading.specs.Words.{letters, letter, base, may_follow, number_in, set_with, marks_with, with_number, bounds, fits, has_come, with_come};

use crate::{Bounds, Came, Named, Word};
use lighting_outputs::{
    LEAST_TIME, MOST_DURATION, MOST_FADE, MOST_OUTPUTS, MOST_STATIONS, Parameters,
};

// ---- letters

#[tactic(auto, unfolding(crate::specs::Words::letters))]
pub fn letters(w: Word) -> &'static [u8]
    ensures { result.now ≡ letters w }
{
    match w {
        Word::Outputs => b"outputs",
        Word::Stations => b"stations",
        Word::Fade => b"fade",
        Word::Duration => b"duration",
        Word::Tenants => b"tenants",
    }
}

// The letter of a word after the first k, none after the last.
pub fn letter(w: Word, k: u8) -> Option<u8>
    ensures { result ≡ letter w k }
{
    letters(w).get(usize::from(k)).copied()
}

// ---- how a word's number is written

#[tactic(auto, unfolding(crate::specs::Words::base))]
pub fn base(w: Word) -> u8
    ensures { result ≡ base w }
{
    match w {
        Word::Outputs | Word::Stations | Word::Fade | Word::Duration => 10,
        Word::Tenants => 16,
    }
}

// Whether after k digits one more may come: of hexadecimal ones there are eight at most.
#[tactic(auto, using(lighting_levels::proofs::Choosing::ifs), unfolding(crate::specs::Words::may_follow))]
pub fn may_follow(w: Word, k: u8) -> bool
    ensures { result ≡ may_follow w k }
{
    base(w) == 10 || k < 8
}

// ---- a word's number

#[tactic(auto, unfolding(crate::specs::Words::number_in))]
pub fn number_in(w: Word, named: Named) -> u32
    ensures { result ≡ number_in w named }
{
    match w {
        Word::Outputs => named.parameters.outputs,
        Word::Stations => named.parameters.stations,
        Word::Fade => named.parameters.fade,
        Word::Duration => named.parameters.duration,
        Word::Tenants => named.tenants,
    }
}

#[tactic(auto, unfolding(crate::specs::Words::set_with))]
fn set_with(w: Word, n: u32, set: Parameters) -> Parameters
    ensures { result ≡ set_with w n set }
{
    match w {
        Word::Outputs => Parameters { outputs: n, ..set },
        Word::Stations => Parameters { stations: n, ..set },
        Word::Fade => Parameters { fade: n, ..set },
        Word::Duration => Parameters { duration: n, ..set },
        Word::Tenants => set,
    }
}

#[tactic(auto, unfolding(crate::specs::Words::marks_with))]
fn marks_with(w: Word, n: u32, marks: u32) -> u32
    ensures { result ≡ marks_with w n marks }
{
    match w {
        Word::Outputs | Word::Stations | Word::Fade | Word::Duration => marks,
        Word::Tenants => n,
    }
}

#[tactic(auto, unfolding(crate::specs::Words::with_number))]
pub fn with_number(w: Word, n: u32, named: Named) -> Named
    ensures { result ≡ with_number w n named }
{
    Named {
        parameters: set_with(w, n, named.parameters),
        tenants: marks_with(w, n, named.tenants),
    }
}

#[tactic(auto, unfolding(crate::specs::Words::bounds))]
pub fn bounds(w: Word) -> Bounds
    ensures { result ≡ bounds w }
{
    match w {
        Word::Outputs => Bounds {
            least: 1,
            most: MOST_OUTPUTS,
        },
        Word::Stations => Bounds {
            least: 1,
            most: MOST_STATIONS,
        },
        Word::Fade => Bounds {
            least: LEAST_TIME,
            most: MOST_FADE,
        },
        Word::Duration => Bounds {
            least: LEAST_TIME,
            most: MOST_DURATION,
        },
        Word::Tenants => Bounds {
            least: 0,
            most: u32::MAX,
        },
    }
}

#[tactic(auto, unfolding(crate::specs::Words::fits))]
pub fn fits(w: Word, named: Named) -> bool
    ensures { result ≡ fits w named }
{
    let b = bounds(w);
    number_ranges::is_within(b.least, b.most, number_in(w, named))
}

// ---- which words have come

#[tactic(auto, unfolding(crate::specs::Words::has_come))]
pub fn has_come(w: Word, came: Came) -> bool
    ensures { result ≡ has_come w came }
{
    match w {
        Word::Outputs => true,
        Word::Stations => came.stations,
        Word::Fade => came.fade,
        Word::Duration => came.duration,
        Word::Tenants => came.tenants,
    }
}

#[tactic(auto, unfolding(crate::specs::Words::with_come))]
pub fn with_come(w: Word, came: Came) -> Came
    ensures { result ≡ with_come w came }
{
    match w {
        Word::Outputs => came,
        Word::Stations => Came {
            stations: true,
            ..came
        },
        Word::Fade => Came { fade: true, ..came },
        Word::Duration => Came {
            duration: true,
            ..came
        },
        Word::Tenants => Came {
            tenants: true,
            ..came
        },
    }
}
