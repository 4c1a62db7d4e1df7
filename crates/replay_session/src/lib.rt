// A list of frames, read and replayed over a panel: a line for each answer, then what is found of every
// output, or a report for people in place of that. A bad line ends it with a line that says what is wrong and
// where.
//
// Thin: the crate `replay_line` takes each line, `text_reading` its characters, and `text_found` says what is
// found. Input and output go by pages of 64 KiB, so that memory does not grow with the list. An error is
// always the reader's or the writer's, and ends the session: the tables are then what the text before it
// made.
#![tactic(auto)]

ghost use Rattle.std.specs.Prelude.{◌≡◌, IfOk, OnErr, OnOk};
ghost use Rattle.text_reading.specs.Reading.{fresh_reader};
ghost use Rattle.replay_line.specs.Tables.{panel_in, with_panel};
ghost use Rattle.replay_line.specs.Taking.{taken, through, Went, Replayed};
ghost use Rattle.replay_session.specs.Reached.{Reached, ReachedIn};

use replay_line::Tables;
use std::io;
use std::io::{Read, Write};
use text_printing::Page;
use text_reading::Reader;

// ---- the list

// The lines that end in these bytes are taken, up to a bad one; the answer: whether all of them were good. A
// page that is full is written out on the way. An error comes after the end of a line, which is taken.
// Stays: a turn takes a line, whose end `feed_line` finds, so that no `for` over the bytes is plainer.
#[tactic(auto, using(replay_line::proofs::Through::text_over))]
fn take_chunk<W: Write>(
    tables: &mut Tables,
    reader: &mut Reader,
    s: &[u8],
    out: &mut W,
    page: &mut Page,
) -> io::Result<bool>
    ensures reader_value { OnOk result (reader.new ≡ (through (panel_in tables.old) reader.old s.now).reader) }
    ensures good_value { IfOk result (λ good. good ≡ (through (panel_in tables.old) reader.old s.now).good) }
    ensures kept_after { OnOk result (panel_in tables.new ≡ (through (panel_in tables.old) reader.old s.now).panel) }
    ensures same_tables { tables.new ≡ with_panel tables.old (panel_in tables.new) }
    ensures err { OnErr result (ReachedIn s.now (panel_in tables.old) reader.old (panel_in tables.new)) }
{
    let mut i: usize = 0;
    while i < s.len() {
        let fed = text_reading::feed_line(*reader, s, i);
        *reader = fed.reader;
        i = fed.next;
        if i < s.len() {
            i += 1;
            let good = replay_line::take_line(tables, page, reader);
            text_found::with_room(out, page)?;
            if !good {
                return Ok(false);
            }
        }
    }
    Ok(true)
}

// All of it, up to a bad line; the answer: whether there was none. A proved loop has to end, and nothing says
// that the input does: the turns are counted up to a number that no run comes to.
#[tactic(auto, using(replay_line::proofs::Parts::went_none, replay_line::proofs::Parts::went_then))]
fn take_all<R: Read, W: Write>(
    tables: &mut Tables,
    reader: &mut Reader,
    input: &mut R,
    chunk: &mut [u8],
    out: &mut W,
    page: &mut Page,
) -> io::Result<bool>
    ensures went { IfOk result (λ good. Went (panel_in tables.old) reader.old (panel_in tables.new) reader.new good) }
    ensures same_tables { tables.new ≡ with_panel tables.old (panel_in tables.new) }
    ensures err { OnErr result (Reached (panel_in tables.old) reader.old (panel_in tables.new)) }
{
    for _ in 0..u64::MAX {
        let n = input.read(chunk)?;
        if n == 0 {
            break;
        }
        let good = take_chunk(tables, reader, &chunk[..n], out, page)?;
        if !good {
            return Ok(false);
        }
    }
    Ok(true)
}

// ---- its end

// What is found, of a list that named its outputs.
fn put_end<W: Write>(
    tables: &Tables,
    out: &mut W,
    page: &mut Page,
    report: bool,
) -> io::Result<()> {
    let kept = *tables.kept;
    text_found::put_found(
        tables.outputs,
        panel_record::parameters_of(kept).outputs as usize,
        panel_record::time_of(kept),
        out,
        page,
        report,
    )
}

// The last line may lack its newline. It is taken before an error can come.
fn end_list<W: Write>(
    tables: &mut Tables,
    reader: &mut Reader,
    out: &mut W,
    page: &mut Page,
    report: bool,
) -> io::Result<()>
    ensures { tables.new ≡ with_panel tables.old (taken (panel_in tables.old) reader.old).panel }
{
    let line = reader.line;
    if !replay_line::take_line(tables, page, reader) {
        return Ok(());
    }
    if reader.named {
        put_end(tables, out, page, report)
    } else {
        text_faults::put_ended(page, line);
        Ok(())
    }
}

// An error too leaves the tables as some text of a list does: as the lines that were taken.
#[tactic(auto, using(crate::proofs::Reaching::replayed_part, replay_line::proofs::Parts::replayed, replay_line::proofs::Parts::replayed_bad, replay_line::proofs::Parts::went_is))]
fn replay<R: Read, W: Write>(
    tables: &mut Tables,
    input: &mut R,
    chunk: &mut [u8],
    out: &mut W,
    page: &mut Page,
    report: bool,
) -> io::Result<()>
    ensures replayed { Replayed (panel_in tables.old) (panel_in tables.new) }
    ensures same_tables { tables.new ≡ with_panel tables.old (panel_in tables.new) }
{
    let mut reader = text_reading::fresh_reader();
    if take_all(tables, &mut reader, input, chunk, out, page)? {
        end_list(tables, &mut reader, out, page, report)?;
    }
    text_found::flush(out, page.text())
}

// Over tables of its own, which the panel is lent: 64 outputs and 32 stations, of which the list names how
// many there are.
// Stays: `report` is yes or no, as the definitions of what is found take it (`with_found`).
pub fn run<R: Read, W: Write>(input: &mut R, out: &mut W, report: bool) -> io::Result<()> {
    let parameters = panel_record::four_hours(64);
    let mut outputs = [output_fresh::fresh_output(parameters); 64];
    let mut stations = [output_fresh::fresh_station(); 32];
    let mut kept = panel_record::fresh_record(parameters, 0);
    let mut tables = Tables {
        outputs: &mut outputs,
        stations: &mut stations,
        kept: &mut kept,
    };
    let mut bytes = [0u8; 65536];
    let mut page = Page::new(&mut bytes);
    let mut chunk = [0u8; 65536];
    replay(&mut tables, input, &mut chunk, out, &mut page, report)
}
