// What is found of every output, on pages of text that are written out: a block for each output, or a line of
// the report. An error is always the writer's.
#![tactic(auto, using(text_printing::proofs::Pages::texts))]

ghost use Rattle.std.specs.Prelude.{◌≡◌, IfOk, OnErr, OnOk, false, length, take};
ghost use Rattle.std.specs.Io.KnownBytes.{Appends};
ghost use Rattle.text_printing.specs.Page.{Wrote};
ghost use Rattle.text_found.specs.Found.{found_head, found_output, roomy, with_room, with_found};
ghost use Rattle.text_found.specs.Partly.{FoundPartly};

use lighting_outputs::Output;
use std::io;
use std::io::Write;
use text_printing::Page;

// A page with fewer free bytes than this is written out before more text is put on it. No answer's line and
// no output's block is longer.
const ROOM: usize = 1024;

// ---- pages

// A text, such as a page's, is written out.
pub fn flush<W: Write>(out: &mut W, text: &[u8]) -> io::Result<()>
    ensures { OnOk result (Appends (W.contents out.old) (W.contents out.new) text.now) }
{
    out.write_all(text)
}

#[tactic(auto, using(text_printing::proofs::Pages::texts, lighting_levels::proofs::Choosing::ifs), unfolding(crate::specs::Found::roomy))]
fn has_room(page: &Page) -> bool
    ensures { result ≡ roomy (length page.now.bytes.now) page.now.mark }
{
    ROOM < page.room()
}

// Room for more: a page that has too little is written out, and written on from its start.
#[tactic(auto, using(text_printing::proofs::Pages::texts, lighting_levels::proofs::Choosing::ifs), unfolding(crate::specs::Found::with_room, crate::specs::Found::marked))]
pub fn with_room<W: Write>(out: &mut W, page: &mut Page) -> io::Result<()>
    ensures value { IfOk result (λ _. page.new ≡ with_room page.old) }
    ensures err { OnErr result ((page.new ≡ page.old) × (roomy (length page.old.bytes.now) page.old.mark ≡ false)) }
{
    if !has_room(page) {
        flush(out, page.text())?;
        page.clear();
    }
    Ok(())
}

// ---- what is found

// Stays: `report` is the yes or no of which the definition `with_found` and the theorems of proofs/Room.antt
// speak.

// An output: its block of lines, or its line of the report.
#[tactic(auto, using(text_printing::proofs::Pages::texts, lighting_levels::proofs::Choosing::ifs), unfolding(crate::specs::Found::found_output))]
fn put_output(page: &mut Page, report: bool, i: u64, time: u64, o: Output)
    ensures { Wrote page.old (found_output report i time o) page.new }
{
    if report {
        text_report::put_report_line(page, i, time, o);
    } else {
        text_block::put_block(page, i, time, o);
    }
}

// The line `--`, and the report's head.
#[tactic(auto, using(text_printing::proofs::Pages::texts, lighting_levels::proofs::Choosing::ifs), unfolding(crate::specs::Found::found_head))]
fn put_head(page: &mut Page, report: bool, time: u64)
    ensures { Wrote page.old (found_head report time) page.new }
{
    page.put_all(b"--\n");
    if report {
        text_report::put_report_head(page, time);
    }
}

// Every output of the panel, on as many pages as it takes: the last page. An error leaves on the page what
// some of the outputs, from the first on, put there.
pub fn put_found<W: Write>(
    outputs: &[Output],
    n: usize,
    time: u64,
    out: &mut W,
    page: &mut Page,
    report: bool,
) -> io::Result<()>
    ensures value { IfOk result (λ _. page.new ≡ with_found page.old report time (take n outputs.now)) }
    ensures err { OnErr result (FoundPartly page.old report time (take n outputs.now) page.new) }
{
    put_head(page, report, time);
    for (i, o) in outputs[..n.min(outputs.len())].iter().enumerate() {
        with_room(out, page)?;
        put_output(page, report, i as u64, time, *o);
    }
    Ok(())
}
