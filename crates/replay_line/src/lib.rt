// A line of a list, at its end: the line that names the set starts the panel of so many outputs and stations,
// bytes go to that panel, and the answer or the fault is put on the page. Nothing is read or written here but
// what is lent, and the contracts give all of it.
#![tactic(auto)]

ghost use Rattle.std.specs.Prelude.{◌≡◌};
ghost use Rattle.text_reading.specs.Reading.{content};
ghost use Rattle.text_printing.specs.Page.{Wrote};
ghost use Rattle.replay_line.specs.Tables.{panel_in, with_panel};
ghost use Rattle.replay_line.specs.Taking.{sent_on, started_with, taken};

use lighting_frames::Station;
use lighting_outputs::{Answer, Output};
use lighting_panel::PanelRecord;
use text_heading::Named;
use text_printing::Page;
use text_reading::{Line, Reader};

// The tables, of any length, and the panel's own record: the panel is the first so many of their records.
#[derive(Drop)]
pub struct Tables<'a> {
    pub outputs: &'a mut [Output],
    pub stations: &'a mut [Station],
    pub kept: &'a mut PanelRecord,
}

// The panel of the set that a list names is started.
fn start(tables: &mut Tables, named: Named)
    ensures { tables.new ≡ with_panel tables.old (started_with named (panel_in tables.old)) }
{
    let set = named.parameters;
    lent_parts::start(
        tables.outputs,
        tables.stations,
        tables.kept,
        set.outputs as usize,
        set.stations as usize,
        set,
        named.tenants,
    );
}

// The bytes go to the panel of the kept set: the first ones of those that the reader keeps.
#[tactic(auto, unfolding(text_reading::specs::Reading::content))]
fn send(tables: &mut Tables, reader: &Reader) -> Answer
    ensures value { result ≡ (sent_on (content reader.now) (panel_in tables.old)).answer }
    ensures kept_after { tables.new ≡ with_panel tables.old (sent_on (content reader.now) (panel_in tables.old)).panel }
{
    let set = panel_record::parameters_of(*tables.kept);
    lent_parts::send(
        tables.outputs,
        tables.stations,
        tables.kept,
        set.outputs as usize,
        set.stations as usize,
        &reader.bytes,
        reader.count,
    )
}

// The line that the reader has come to the end of. The reader is then at the next line; the answer: whether
// the line was a good one.
// Stays: what may not change. The yes or no is `good` of the definition `taken`, and a bad line too leaves a
// reader.
#[tactic(auto, using(text_printing::proofs::Pages::texts), unfolding(crate::specs::Taking::taken, crate::specs::Taking::taken_by))]
pub fn take_line(tables: &mut Tables, page: &mut Page, reader: &mut Reader) -> bool
    ensures reader_value { reader.new ≡ (taken (panel_in tables.old) reader.old).reader }
    ensures good_value { result ≡ (taken (panel_in tables.old) reader.old).good }
    ensures wrote { Wrote page.old (taken (panel_in tables.old) reader.old).text page.new }
    ensures kept_after { tables.new ≡ with_panel tables.old (taken (panel_in tables.old) reader.old).panel }
{
    match text_reading::line_of(reader.held) {
        Line::Nothing => {
            *reader = text_reading::next_line(*reader);
            true
        }
        Line::Started(named) => {
            start(tables, named);
            *reader = text_reading::with_named(text_reading::next_line(*reader));
            true
        }
        Line::Frame => {
            let answer = send(tables, reader);
            page.put_answer(answer);
            *reader = text_reading::next_line(*reader);
            true
        }
        Line::Wrong(fault) => {
            text_faults::put_fault(page, reader.line, fault);
            *reader = text_reading::next_line(*reader);
            false
        }
    }
}
