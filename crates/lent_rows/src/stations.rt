// A station's record as the numbers of a row, and back. After its place: the answer's case 1 and number 2,
// the last number 3, and the frame's bytes 4 to 34.
ghost use Rattle.std.proofs.Common.{rules};

use super::numbers::Narrow;
use super::{NUMBERS, Record};
use lighting_frames::{LONGEST_FRAME, Station};
use lighting_outputs::Answer;

impl Record for Station {
    ghost LENGTH = { 35 };

    ghost within = { Prim.search rules };

    const LETTER: u8 = b's';

    const LENGTH: usize = 35;

    fn of(row: &[u64; NUMBERS]) -> Station {
        Station {
            answer: answer_of(row[1], row[2]),
            number: row[3].narrow(),
            frame: frame_of(&row[4..]),
        }
    }

    fn row(self, at: usize) -> [u64; NUMBERS] {
        let mut n = [0; NUMBERS];
        n[0] = at as u64;
        let (kind, number) = numbers_of(self.answer);
        n[1] = kind;
        n[2] = number;
        n[3] = u64::from(self.number);
        for (number, byte) in n[4..].iter_mut().zip(&self.frame) {
            *number = u64::from(*byte);
        }
        n
    }

    fn fresh() -> Station {
        output_fresh::fresh_station()
    }
}

// ---- the answer, by its case and its number

fn answer_of(kind: u64, n: u64) -> Answer {
    match kind {
        0 => Answer::Done,
        1 => Answer::Value(n.narrow()),
        2 => Answer::Absent,
        _ => Answer::Refused(n.narrow()),
    }
}

fn numbers_of(answer: Answer) -> (u64, u64) {
    match answer {
        Answer::Done => (0, 0),
        Answer::Value(value) => (1, u64::from(value)),
        Answer::Absent => (2, 0),
        Answer::Refused(number) => (3, u64::from(number)),
    }
}

// ---- the frame

fn frame_of(numbers: &[u64]) -> [u8; LONGEST_FRAME] {
    let mut frame = [0; LONGEST_FRAME];
    for (byte, n) in frame.iter_mut().zip(numbers) {
        *byte = n.narrow();
    }
    frame
}
