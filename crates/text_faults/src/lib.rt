// The line that says what is wrong with a list.
#![tactic(auto, using(text_printing::proofs::Pages::texts))]

ghost use Rattle.text_printing.specs.Page.{Wrote};
ghost use Rattle.text_faults.specs.Faults.{bounds_words, outside_words, heading_words, fault_words, placed, fault_line, ended_line};

use text_heading::{Bounds, HeadingFault, Word, words};
use text_printing::Page;
use text_reading::Fault;

#[tactic(auto, using(text_printing::proofs::Pages::texts), unfolding(crate::specs::Faults::placed))]
fn put_placed(page: &mut Page, k: u64)
    ensures { Wrote page.old (placed k) page.new }
{
    page.put_all(b"line ");
    page.put_decimal(k);
    page.put_all(b": ");
}

#[tactic(auto, using(text_printing::proofs::Pages::texts), unfolding(crate::specs::Faults::bounds_words))]
fn put_bounds(page: &mut Page, b: Bounds)
    ensures { Wrote page.old (bounds_words b) page.new }
{
    page.put_decimal(u64::from(b.least));
    page.put_all(b" to ");
    page.put_decimal(u64::from(b.most));
}

// A number out of range: its word, its range, and the refusal of such a start.
#[tactic(auto, using(text_printing::proofs::Pages::texts), unfolding(crate::specs::Faults::outside_words))]
fn put_outside(page: &mut Page, w: Word)
    ensures { Wrote page.old (outside_words w) page.new }
{
    page.put(b'`');
    page.put_all(words::letters(w));
    page.put_all(b"` is to be ");
    put_bounds(page, words::bounds(w));
    page.put_all(b": Refused 17");
}

#[tactic(auto, using(text_printing::proofs::Pages::texts), unfolding(crate::specs::Faults::heading_words))]
fn put_heading_words(page: &mut Page, f: HeadingFault)
    ensures { Wrote page.old (heading_words f) page.new }
{
    match f {
        HeadingFault::NoOutputs => page.put_all(b"the first line is to be `outputs N`"),
        HeadingFault::BadCount => page.put_all(b"N is to be 1 to 64"),
        HeadingFault::BadWord => page.put_all(
            b"after `outputs N` may come `stations S`, `fade F`, `duration D` and `tenants HEX`, each once",
        ),
        HeadingFault::BadMarks => page.put_all(b"HEX is to be 1 to 8 hexadecimal digits"),
        HeadingFault::Outside(w) => put_outside(page, w),
    }
}

#[tactic(auto, using(text_printing::proofs::Pages::texts), unfolding(crate::specs::Faults::fault_words))]
fn put_fault_words(page: &mut Page, f: Fault)
    ensures { Wrote page.old (fault_words f) page.new }
{
    match f {
        Fault::InHeading(h) => put_heading_words(page, h),
        Fault::NoDigit => page.put_all(b"a character that is no hexadecimal digit"),
        Fault::HalfByte => page.put_all(b"half a byte"),
    }
}

#[tactic(auto, using(text_printing::proofs::Pages::texts), unfolding(crate::specs::Faults::fault_line))]
pub fn put_fault(page: &mut Page, k: u64, f: Fault)
    ensures { Wrote page.old (fault_line k f) page.new }
{
    put_placed(page, k);
    put_fault_words(page, f);
    page.put(b'\n');
}

#[tactic(auto, using(text_printing::proofs::Pages::texts), unfolding(crate::specs::Faults::ended_line))]
pub fn put_ended(page: &mut Page, k: u64)
    ensures { Wrote page.old (ended_line k) page.new }
{
    put_placed(page, k);
    page.put_all(b"the list ends before `outputs N`");
    page.put(b'\n');
}
