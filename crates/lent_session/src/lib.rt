// Tables made by hand, lent to the panel: rows that are read set up outputs, stations and the panel's record,
// start the panel, send frames, and ask for what is left, which is written as rows of the same form.
// The crate `lent_rows` has the rows. A row's first character is its letter:
//   t N K T      N outputs and K stations are lent from here on, every record fresh, at panel time T; the
//                kept set is the old panel's of N outputs (§7), and no station is a tenant (§8)
//   p S C F D M  the kept set is from here on S stations, C outputs, the longest fade F, the longest
//                duration D, and the kept marks are M; a number that is left out is 0
//   o I ..       the record of output I, 48 numbers
//   s I ..       the record of station I, 34 numbers
//   b S C F D M  a start with this set and these marks: a line with its answer
//   f ..         the bytes of a frame, which is sent: a line with its answer
//   l            what is left: a row t, a row p, and a row for each lent record that is not fresh as
//                document 01 has it
// Any other line is a comment.
//
// The contracts of `lent_parts` give the panel's part whole. What is read and written no contract can
// say: the stored text and the comparison of tests/lent look at it, and the functions about it are proved
// safe and ending. An error is always the reader's or the writer's, and ends the session.
#![tactic(auto)]

use lent_rows::numbers::{Narrow, place};
use lent_rows::parameters::{parameters_numbers, parameters_of, tenants_of};
use lent_rows::{NUMBERS, Record, Row};
use lighting_frames::Station;
use lighting_outputs::{Answer, Output, Parameters};
use lighting_panel::PanelRecord;
use std::io;
use std::io::{Read, Write};
use text_printing::Page;

// ---- the tables

// One record more than any panel has.
const OUTPUTS: usize = 65;

const STATIONS: usize = 33;

// The tables, of which the first so many records are lent, and the panel's own record.
#[derive(Drop)]
struct Tables<'a> {
    outputs: &'a mut [Output],
    stations: &'a mut [Station],
    kept: PanelRecord,
    lent_outputs: usize,
    lent_stations: usize,
}

impl<'a> Tables<'a> {
    // Every record fresh, as many lent as the row says, and the set that of the old panel.
    fn clear(&mut self, row: &[u64; NUMBERS]) {
        let parameters = panel_record::four_hours(row[0].narrow());
        panel_tables::fresh_outputs(self.outputs, parameters);
        panel_tables::fresh_stations(self.stations);
        self.keep(parameters, 0, row[2]);
        self.lent_outputs = place(row[0]);
        self.lent_stations = place(row[1]);
    }

    fn keep(&mut self, parameters: Parameters, tenants: u32, moment: u64) {
        self.kept = panel_record::with_time(
            panel_record::fresh_record(parameters, tenants),
            moment,
        );
    }

    // The panel is started with the set and the marks.
    // Stays: like `send` only in what it lends, the tables and their counts.
    fn start(&mut self, parameters: Parameters, tenants: u32) -> Answer {
        lent_parts::start(
            self.outputs,
            self.stations,
            &mut self.kept,
            self.lent_outputs,
            self.lent_stations,
            parameters,
            tenants,
        )
    }

    // The first so many bytes go to the panel.
    fn send(&mut self, bytes: &[u8], count: usize) -> Answer {
        lent_parts::send(
            self.outputs,
            self.stations,
            &mut self.kept,
            self.lent_outputs,
            self.lent_stations,
            bytes,
            count,
        )
    }
}

// The record of a row, in its place.
fn lend<R: Record>(records: &mut [R], row: &[u64; NUMBERS]) {
    let at = place(row[0]);
    if at < records.len() {
        records[at] = R::of(row);
    }
}

// ---- what is left

// A row for each of the first so many records that is not fresh: whose row, but for its place, is not that of
// a fresh one, which is made once.
fn put_records<R: Record, W: Write>(
    records: &[R],
    lent: usize,
    out: &mut W,
    page: &mut Page,
) -> io::Result<()> {
    let mut fresh = R::fresh().row(0);
    for (at, record) in records.iter().enumerate().take(lent) {
        let row = record.row(at);
        fresh[0] = row[0];
        if row != fresh {
            text_found::with_room(out, page)?;
            lent_rows::put_row(page, R::LETTER, &row[..R::LENGTH]);
        }
    }
    Ok(())
}

fn put_left<W: Write>(tables: &Tables, out: &mut W, page: &mut Page) -> io::Result<()> {
    text_found::with_room(out, page)?;
    let counts = [
        tables.lent_outputs as u64,
        tables.lent_stations as u64,
        panel_record::time_of(tables.kept),
    ];
    lent_rows::put_row(page, b't', &counts);
    text_found::with_room(out, page)?;
    let set = parameters_numbers(
        panel_record::parameters_of(tables.kept),
        panel_record::tenants_of(tables.kept),
    );
    lent_rows::put_row(page, b'p', &set);
    put_records(tables.outputs, tables.lent_outputs, out, page)?;
    put_records(tables.stations, tables.lent_stations, out, page)
}

// ---- rows

fn put_answer<W: Write>(answer: Answer, out: &mut W, page: &mut Page) -> io::Result<()> {
    text_found::with_room(out, page)?;
    page.put_answer(answer);
    Ok(())
}

// A row at its end.
fn take_row<W: Write>(
    tables: &mut Tables,
    row: &Row,
    out: &mut W,
    page: &mut Page,
) -> io::Result<()> {
    let numbers = &row.numbers;
    match row.letter {
        Some(b't') => tables.clear(numbers),
        Some(b'o') => lend(tables.outputs, numbers),
        Some(b's') => lend(tables.stations, numbers),
        Some(b'p') => tables.keep(
            parameters_of(numbers),
            tenants_of(numbers),
            panel_record::time_of(tables.kept),
        ),
        Some(b'b') => {
            let answer = tables.start(parameters_of(numbers), tenants_of(numbers));
            put_answer(answer, out, page)?;
        }
        Some(b'f') => {
            let answer = tables.send(&row.bytes(), row.count);
            put_answer(answer, out, page)?;
        }
        Some(b'l') => put_left(tables, out, page)?,
        _ => {}
    }
    Ok(())
}

// ---- the text

// The rows that end in these bytes are taken; the last one may go on.
fn take_chunk<W: Write>(
    tables: &mut Tables,
    row: &mut Row,
    s: &[u8],
    out: &mut W,
    page: &mut Page,
) -> io::Result<()> {
    for c in s {
        if *c == b'\n' {
            row.close();
            take_row(tables, row, out, page)?;
            *row = Row::new();
        } else {
            row.feed(*c);
        }
    }
    Ok(())
}

// All of it. A proved loop has to end, and nothing says that the input does: the turns are counted up to a
// number that no run comes to.
fn take_all<R: Read, W: Write>(
    tables: &mut Tables,
    input: &mut R,
    chunk: &mut [u8],
    out: &mut W,
    page: &mut Page,
) -> io::Result<()> {
    let mut row = Row::new();
    for _ in 0..u64::MAX {
        let n = input.read(chunk)?;
        if n == 0 {
            break;
        }
        take_chunk(tables, &mut row, &chunk[..n], out, page)?;
    }
    Ok(())
}

// Over tables of its own, of which none is lent as yet.
pub fn run<R: Read, W: Write>(input: &mut R, out: &mut W) -> io::Result<()> {
    let parameters = panel_record::four_hours(1);
    let mut outputs = [output_fresh::fresh_output(parameters); OUTPUTS];
    let mut stations = [output_fresh::fresh_station(); STATIONS];
    let mut tables = Tables {
        outputs: &mut outputs,
        stations: &mut stations,
        kept: panel_record::fresh_record(parameters, 0),
        lent_outputs: 0,
        lent_stations: 0,
    };
    let mut bytes = [0u8; 65536];
    let mut page = Page::new(&mut bytes);
    let mut chunk = [0u8; 65536];
    take_all(&mut tables, input, &mut chunk, out, &mut page)?;
    text_found::flush(out, page.text())
}
