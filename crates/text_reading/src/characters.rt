// What a line holds after one more character.
ghost use Rattle.std.specs.Prelude.{◌≡◌};
ghost use Rattle.text_reading.specs.Reading.{digit_held, naming_held, opened, byte_held, half_held, dashed, step, may_begin};

use crate::{Fault, Held};
use text_heading::Heading;

// ---- what a line holds after one more character: c, and v, what it is worth as a digit

#[tactic(auto, unfolding(crate::specs::Reading::digit_held))]
fn digit_held(v: Option<u8>) -> Held
    ensures { result ≡ digit_held v }
{
    match v {
        Some(d) => Held::Half(d),
        None => Held::Spoilt(Fault::NoDigit),
    }
}

#[tactic(auto, unfolding(crate::specs::Reading::naming_held))]
fn naming_held(h: Heading, v: Option<u8>, c: u8) -> Held
    ensures { result ≡ naming_held h v c }
{
    Held::Naming(text_heading::step(h, v, c))
}

// The first character that is no blank.
#[tactic(auto, using(lighting_levels::proofs::Choosing::ifs), unfolding(crate::specs::Reading::opened))]
fn opened(named: bool, v: Option<u8>, c: u8) -> Held
    ensures { result ≡ opened named v c }
{
    if text_characters::is_blank(c) {
        Held::Blank
    } else if c == b'#' {
        Held::Comment
    } else if !named {
        naming_held(text_heading::fresh_heading(), v, c)
    } else if c == b'-' {
        Held::Dash
    } else {
        digit_held(v)
    }
}

#[tactic(auto, using(lighting_levels::proofs::Choosing::ifs), unfolding(crate::specs::Reading::byte_held))]
fn byte_held(v: Option<u8>, c: u8) -> Held
    ensures { result ≡ byte_held v c }
{
    if text_characters::is_blank(c) {
        Held::Whole
    } else {
        digit_held(v)
    }
}

#[tactic(auto, using(lighting_levels::proofs::Choosing::ifs), unfolding(crate::specs::Reading::half_held))]
fn half_held(v: Option<u8>, c: u8) -> Held
    ensures { result ≡ half_held v c }
{
    match v {
        Some(_) => Held::Whole,
        None if text_characters::is_blank(c) => Held::Spoilt(Fault::HalfByte),
        None => Held::Spoilt(Fault::NoDigit),
    }
}

#[tactic(auto, using(lighting_levels::proofs::Choosing::ifs), unfolding(crate::specs::Reading::dashed))]
fn dashed(c: u8) -> Held
    ensures { result ≡ dashed c }
{
    if text_characters::is_blank(c) {
        Held::Dash
    } else {
        Held::Spoilt(Fault::NoDigit)
    }
}

#[tactic(auto, unfolding(crate::specs::Reading::step))]
pub fn step(named: bool, h: Held, v: Option<u8>, c: u8) -> Held
    ensures { result ≡ step named h v c }
{
    match h {
        Held::Blank => opened(named, v, c),
        Held::Naming(n) => naming_held(n, v, c),
        Held::Whole => byte_held(v, c),
        Held::Half(_) => half_held(v, c),
        Held::Dash => dashed(c),
        Held::Comment | Held::Spoilt(_) => h,
    }
}

// Whether the first digit of a byte may come next: the list has named its outputs, and the line holds nothing
// yet, or whole bytes.
#[tactic(auto, unfolding(crate::specs::Reading::may_begin))]
pub fn may_begin(named: bool, h: Held) -> bool
    ensures { result ≡ may_begin named h }
{
    match h {
        Held::Blank | Held::Whole => named,
        Held::Comment | Held::Naming(_) | Held::Half(_) | Held::Dash | Held::Spoilt(_) => false,
    }
}
