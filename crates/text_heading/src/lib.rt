// The first line of a list that says something, read a character at a time: `outputs N`, and after it further
// words with their numbers. It names the set of parameters that the panel is started with, and the marks of
// tenants.
#![tactic(auto)]

pub mod words;

ghost use Rattle.std.specs.Prelude.{◌≡◌, ◌+◌, min};
ghost use Rattle.text_heading.specs.Heading.{fresh_heading, with_place, no_word, no_number, misspelt, unnumbered, lettered, grown, takes_digit, digit_of, counted, counted_on, gapped, numbered, marked, word_begun, trailed, heading_step, fitting, judged, ended};

use lighting_outputs::{MOST_DURATION, MOST_FADE, Parameters};

// A word that has a number of the set, or the marks.
#[derive(Clone, Copy)]
pub enum Word {
    Outputs,
    Stations,
    Fade,
    Duration,
    Tenants,
}

// What a first line names: the set of parameters (§6), and the marks of tenants (§8).
#[derive(Clone, Copy)]
pub struct Named {
    pub parameters: Parameters,
    pub tenants: u32,
}

// The range of a word's number: both ends belong to it.
#[derive(Clone, Copy)]
pub struct Bounds {
    pub least: u32,
    pub most: u32,
}

// Which of the words after `outputs` have come.
#[derive(Clone, Copy)]
pub struct Came {
    pub stations: bool,
    pub fade: bool,
    pub duration: bool,
    pub tenants: bool,
}

// What makes a first line a bad one.
#[derive(Clone, Copy)]
pub enum HeadingFault {
    // it does not begin with `outputs`
    NoOutputs,
    // no number follows `outputs`
    BadCount,
    // a further word is none of the four, or comes twice, or is not followed by a number
    BadWord,
    // `tenants` is not followed by 1 to 8 hexadecimal digits
    BadMarks,
    // this word's number is out of range
    Outside(Word),
}

// Where in the line the next character stands.
#[derive(Clone, Copy)]
pub enum Place {
    // after so many letters of a word
    Letters(Word, u8),
    // after a word and a blank
    Gap(Word),
    // after so many digits of a word's number, or more where they are 255
    Number(Word, u8),
    // after a number and a blank
    Trail,
    Spoilt(HeadingFault),
}

// The line so far: the numbers that it has named, with those that hold where it names none, the words that
// have come, and the place.
#[derive(Clone, Copy)]
pub struct Heading {
    pub named: Named,
    pub came: Came,
    pub place: Place,
}

// ---- the line after one more character: c, and v, what it is worth as a digit

// Before its first character. Left out are eight stations, the greatest times, and no marks.
#[tactic(auto, unfolding(crate::specs::Heading::fresh_heading))]
pub fn fresh_heading() -> Heading
    ensures { result ≡ fresh_heading }
{
    Heading {
        named: Named {
            parameters: Parameters {
                stations: 8,
                outputs: 0,
                fade: MOST_FADE,
                duration: MOST_DURATION,
            },
            tenants: 0,
        },
        came: Came {
            stations: false,
            fade: false,
            duration: false,
            tenants: false,
        },
        place: Place::Letters(Word::Outputs, 0),
    }
}

#[tactic(auto, unfolding(crate::specs::Heading::with_place))]
fn with_place(h: Heading, place: Place) -> Heading
    ensures { result ≡ with_place h place }
{
    Heading { place, ..h }
}

// What is wrong where a word is not there whole, and where no number follows it.
#[tactic(auto, unfolding(crate::specs::Heading::no_word))]
fn no_word(w: Word) -> HeadingFault
    ensures { result ≡ no_word w }
{
    match w {
        Word::Outputs => HeadingFault::NoOutputs,
        Word::Stations | Word::Fade | Word::Duration | Word::Tenants => HeadingFault::BadWord,
    }
}

#[tactic(auto, unfolding(crate::specs::Heading::no_number))]
fn no_number(w: Word) -> HeadingFault
    ensures { result ≡ no_number w }
{
    match w {
        Word::Outputs => HeadingFault::BadCount,
        Word::Stations | Word::Fade | Word::Duration => HeadingFault::BadWord,
        Word::Tenants => HeadingFault::BadMarks,
    }
}

#[tactic(auto, unfolding(crate::specs::Heading::misspelt))]
fn misspelt(h: Heading, w: Word) -> Heading
    ensures { result ≡ misspelt h w }
{
    with_place(h, Place::Spoilt(no_word(w)))
}

#[tactic(auto, unfolding(crate::specs::Heading::unnumbered))]
fn unnumbered(h: Heading, w: Word) -> Heading
    ensures { result ≡ unnumbered h w }
{
    with_place(h, Place::Spoilt(no_number(w)))
}

// After k letters of a word.
#[tactic(auto, using(crate::proofs::Letters::letter_within, lighting_levels::proofs::Choosing::ifs), unfolding(crate::specs::Heading::lettered, crate::specs::Heading::lettered_by))]
fn lettered(h: Heading, w: Word, k: u8, c: u8) -> Heading
    ensures { result ≡ lettered h w k c }
{
    match words::letter(w, k) {
        Some(l) if c == l => with_place(h, Place::Letters(w, k + 1)),
        None if text_characters::is_blank(c) => with_place(h, Place::Gap(w)),
        Some(_) | None => misspelt(h, w),
    }
}

// One more digit. The greatest number stands for all above it too.
fn grown(w: Word, n: u32, v: u8) -> u32
    ensures { result ≡ grown w n v }
{
    let m = u64::from(words::base(w)) * u64::from(n) + u64::from(v);
    u32::try_from(m).unwrap_or(u32::MAX)
}

// Whether after k digits of a word's number v is one more.
#[tactic(auto, using(lighting_levels::proofs::Choosing::ifs), unfolding(crate::specs::Heading::takes_digit))]
fn takes_digit(w: Word, k: u8, v: u8) -> bool
    ensures { result ≡ takes_digit w k v }
{
    v < words::base(w) && words::may_follow(w, k)
}

#[tactic(auto, using(lighting_levels::proofs::Choosing::ifs), unfolding(crate::specs::Heading::digit_of))]
fn digit_of(w: Word, k: u8, v: Option<u8>) -> Option<u8>
    ensures { result ≡ digit_of w k v }
{
    match v {
        Some(d) if takes_digit(w, k, d) => v,
        Some(_) | None => None,
    }
}

// v is one more digit, after k that made the number n.
#[tactic(auto, unfolding(crate::specs::Heading::counted))]
fn counted(h: Heading, w: Word, k: u8, n: u32, v: u8) -> Heading
    ensures { result ≡ counted h w k n v }
{
    Heading {
        named: words::with_number(w, grown(w, n, v), h.named),
        place: Place::Number(w, k.saturating_add(1)),
        ..h
    }
}

#[tactic(auto, unfolding(crate::specs::Heading::counted_on))]
fn counted_on(h: Heading, w: Word, k: u8, v: u8) -> Heading
    ensures { result ≡ counted_on h w k v }
{
    counted(h, w, k, words::number_in(w, h.named), v)
}

#[tactic(auto, using(lighting_levels::proofs::Choosing::ifs), unfolding(crate::specs::Heading::gapped, crate::specs::Heading::gapped_by))]
fn gapped(h: Heading, w: Word, v: Option<u8>, c: u8) -> Heading
    ensures { result ≡ gapped h w v c }
{
    match digit_of(w, 0, v) {
        Some(d) => counted(h, w, 0, 0, d),
        None if text_characters::is_blank(c) => h,
        None => unnumbered(h, w),
    }
}

#[tactic(auto, using(lighting_levels::proofs::Choosing::ifs), unfolding(crate::specs::Heading::numbered, crate::specs::Heading::numbered_by))]
fn numbered(h: Heading, w: Word, k: u8, v: Option<u8>, c: u8) -> Heading
    ensures { result ≡ numbered h w k v c }
{
    match digit_of(w, k, v) {
        Some(d) => counted_on(h, w, k, d),
        None if text_characters::is_blank(c) => with_place(h, Place::Trail),
        None => unnumbered(h, w),
    }
}

// The first letter of a further word has come.
#[tactic(auto, unfolding(crate::specs::Heading::marked))]
fn marked(h: Heading, w: Word) -> Heading
    ensures { result ≡ marked h w }
{
    Heading {
        came: words::with_come(w, h.came),
        place: Place::Letters(w, 1),
        ..h
    }
}

#[tactic(auto, using(lighting_levels::proofs::Choosing::ifs), unfolding(crate::specs::Heading::word_begun))]
fn word_begun(h: Heading, w: Word) -> Heading
    ensures { result ≡ word_begun h w }
{
    if words::has_come(w, h.came) {
        with_place(h, Place::Spoilt(HeadingFault::BadWord))
    } else {
        marked(h, w)
    }
}

#[tactic(auto, using(lighting_levels::proofs::Choosing::ifs), unfolding(crate::specs::Heading::trailed, text_characters::specs::Characters::is_blank))]
fn trailed(h: Heading, c: u8) -> Heading
    ensures { result ≡ trailed h c }
{
    match c {
        b's' => word_begun(h, Word::Stations),
        b'f' => word_begun(h, Word::Fade),
        b'd' => word_begun(h, Word::Duration),
        b't' => word_begun(h, Word::Tenants),
        _ if text_characters::is_blank(c) => h,
        _ => with_place(h, Place::Spoilt(HeadingFault::BadWord)),
    }
}

#[tactic(auto, unfolding(crate::specs::Heading::heading_step, crate::specs::Heading::step_at))]
pub fn step(h: Heading, v: Option<u8>, c: u8) -> Heading
    ensures { result ≡ heading_step h v c }
{
    match h.place {
        Place::Letters(w, k) => lettered(h, w, k, c),
        Place::Gap(w) => gapped(h, w, v, c),
        Place::Number(w, k) => numbered(h, w, k, v, c),
        Place::Trail => trailed(h, c),
        Place::Spoilt(_) => h,
    }
}

// ---- the line's end

// What is named, unless this word's number is out of range.
#[tactic(auto, using(lighting_levels::proofs::Choosing::ifs), unfolding(crate::specs::Heading::fitting))]
fn fitting(w: Word, named: Named) -> Result<Named, HeadingFault>
    ensures { result ≡ fitting w named (Ok named) }
{
    if words::fits(w, named) {
        Ok(named)
    } else {
        Err(HeadingFault::Outside(w))
    }
}

#[tactic(auto, using(lighting_levels::proofs::Choosing::ifs), unfolding(crate::specs::Heading::judged, crate::specs::Heading::fitting))]
fn judged(named: Named) -> Result<Named, HeadingFault>
    ensures { result ≡ judged named }
{
    fitting(Word::Stations, named)?;
    fitting(Word::Outputs, named)?;
    fitting(Word::Fade, named)?;
    fitting(Word::Duration, named)
}

#[tactic(auto, unfolding(crate::specs::Heading::ended, crate::specs::Heading::ended_at))]
pub fn ended(h: Heading) -> Result<Named, HeadingFault>
    ensures { result ≡ ended h }
{
    match h.place {
        Place::Letters(w, _) => Err(no_word(w)),
        Place::Gap(w) => Err(no_number(w)),
        Place::Number(_, _) | Place::Trail => judged(h.named),
        Place::Spoilt(f) => Err(f),
    }
}
