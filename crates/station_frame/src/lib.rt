// A frame as a station keeps it, in the bytes of the longest, and read back.
#![tactic(auto)]

ghost use Rattle.std.specs.Prelude.{◌≡◌, ◌≤◌, length};
ghost use Rattle.lighting_frames.specs.Paper.Kinds.{longest_frame};
ghost use Rattle.lighting_frames.specs.Paper.Copies.{same_bytes};
ghost use Rattle.lighting_panel.specs.Engine.Judging.{padded, restored};

use lighting_frames::{LONGEST_FRAME, Station};
use lighting_outputs::Answer;

// Zeros after its own bytes.
fn pad(b: &[u8]) -> [u8; LONGEST_FRAME]
    requires { length b.now ≤ longest_frame }
    ensures { result ≡ padded b.now }
{
    let mut frame = [0; LONGEST_FRAME];
    frame[..b.len()].copy_from_slice(b);
    frame
}

// Whether the bytes are those that the record keeps: as many as its kind has, and each the same.
pub fn same_frame(b: &[u8], f: [u8; LONGEST_FRAME]) -> bool
    ensures { result ≡ same_bytes b.now (restored f) }
{
    b == &f[..frame_kinds::kind_length(f[0]) as usize]
}

// What the station keeps of a first arrival: number, frame and answer.
pub fn station_record(a: Answer, last: u32, b: &[u8]) -> Station
    requires { length b.now ≤ longest_frame }
    ensures { result ≡ record { answer = a; number = last; frame = padded b.now } }
{
    Station {
        answer: a,
        number: last,
        frame: pad(b),
    }
}
