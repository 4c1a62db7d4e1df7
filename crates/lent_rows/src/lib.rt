// The tables of a panel as rows of numbers in text. A row is a line: a letter that says what it is, then
// decimal numbers with anything but digits between them. Every number is taken: one that a field cannot
// hold becomes the greatest that it can, and numbers after the 49th are left out.
#![tactic(auto)]

ghost use Rattle.std.specs.Prelude.{◌≡◌, ℕ, ◌<◌, ◌≤◌, min, slice_index};
ghost use Rattle.lent_rows.specs.declared.TheConstants.{NUMBERS};
ghost use Rattle.text_printing.specs.Page.{Wrote};
ghost use Rattle.lent_rows.specs.Rows.{no_row, fed, closed, row_text};

pub mod numbers;
pub mod outputs;
pub mod parameters;
pub mod stations;

use numbers::Narrow;
use text_printing::Page;

// The numbers of a row: an output's place and its 48 fields. No other row has more.
pub const NUMBERS: usize = 49;

// A record of a table, which has a row of its own: its place, then its fields.
pub trait Record: Copy {
    ghost LENGTH: { ℕ };

    const LETTER: u8;

    // How many numbers the row has.
    const LENGTH: usize;

    // The record of a row.
    fn of(row: &[u64; NUMBERS]) -> Self;

    // The row of a record at a place of its table, and zeros after it.
    fn row(self, at: usize) -> [u64; NUMBERS];

    // As document 01 has it.
    fn fresh() -> Self;

    ghost within: { LENGTH ≤ NUMBERS };
}

// Whether a record is a fresh one: the two have the same row. Each call makes the fresh row anew, so who asks
// it of a whole table makes that row once, as `lent_session` does.
pub fn is_fresh<R: Record>(record: R) -> bool {
    record.row(0) == R::fresh().row(0)
}

// ---- a row, read

// A row as far as it is read: its letter, once it has come; the numbers that are whole, and zeros after them;
// and the number that may still go on.
// Stays: an array and a count, since the panel's programs have no heap.
#[derive(Clone, Copy)]
pub struct Row {
    pub letter: Option<u8>,
    pub numbers: [u64; NUMBERS],
    pub count: usize,
    pub pending: Option<u64>,
}

impl Row {
    pub fn new() -> Row
        ensures { result ≡ no_row }
    {
        Row {
            letter: None,
            numbers: [0; NUMBERS],
            count: 0,
            pending: None,
        }
    }

    // One more character, which is no newline. Before the letter zero bytes are passed over.
    pub fn feed(&mut self, c: u8)
        ensures { self.new ≡ fed self.old c }
    {
        if self.letter.is_none() {
            if c != 0 {
                self.letter = Some(c);
            }
        } else if c.is_ascii_digit() {
            self.pending = Some(numbers::digit_after(self.pending.unwrap_or(0), c));
        } else {
            self.close();
        }
    }

    // The number under way ends.
    pub fn close(&mut self)
        ensures { self.new ≡ closed self.old }
    {
        if let Some(number) = self.pending
            && self.count < NUMBERS
        {
            self.numbers[self.count] = number;
            self.count += 1;
        }
        self.pending = None;
    }

    // The bytes of a frame.
    pub fn bytes(&self) -> [u8; NUMBERS]
        ensures { (i : ℕ) → i < NUMBERS → slice_index result i ≡ min (slice_index self.now.numbers i) 255 }
    {
        self.numbers.map(|n| n.narrow())
    }
}

// ---- a row, written

#[tactic(auto, using(text_printing::proofs::Pages::texts, crate::proofs::Texts::numbers_more), unfolding(crate::specs::Rows::numbers_text))]
pub fn put_row(page: &mut Page, letter: u8, row: &[u64])
    ensures { Wrote page.old (row_text letter row.now) page.new }
{
    page.put(letter);
    for n in row {
        page.put(b' ');
        page.put_decimal(*n);
    }
    page.put(b'\n');
}

#[cfg(test)]
mod tests {
    use super::is_fresh;

    // A fresh output and a fresh station, and each of them with one field changed.
    #[test]
    fn fresh_records(rt: HostRuntime) {
        let output = output_fresh::fresh_output(panel_record::four_hours(64));
        assert!(rt; is_fresh(output), "a fresh output");
        let mut lit = output;
        lit.burning = 1;
        assert!(rt; !is_fresh(lit), "an output that was lit");
        let mut binary = output;
        binary.relay.binary = true;
        assert!(rt; !is_fresh(binary), "an output whose relay moved");

        let station = output_fresh::fresh_station();
        assert!(rt; is_fresh(station), "a fresh station");
        let mut counted = station;
        counted.number = 1;
        assert!(rt; !is_fresh(counted), "a station that sent a frame");
        let mut framed = station;
        framed.frame[30] = 1;
        assert!(rt; !is_fresh(framed), "a station whose last byte is kept");
    }
}
