// Replays a list of frames from standard input over a panel, and writes a line for each answer, then what is
// found of every output; with the word `report`, a report for people in place of that. Any other word, or a
// second one, is answered with a line that says how the program is called, and nothing is run.
#![tactic(auto)]

use std::env::FillError;
use std::io;
use std::io::Write;
use std::rt::Env;

// Whether there is no argument here. An empty one counts as none, and one that is longer than what it was
// read into is there.
fn is_missing(got: Result<usize, FillError>) -> bool {
    matches!(got, Ok(0) | Err(FillError::NotPresent))
}

// Whether the argument is the word `report`.
fn is_report(word: &[u8; 16], got: Result<usize, FillError>) -> bool {
    matches!(got, Ok(6)) && word.starts_with(b"report")
}

fn put_usage<W: Write>(out: &mut W) -> io::Result<()> {
    out.write_all(
        b"usage: replay [report] < LIST   (LIST: a line `outputs N`, then a frame in hex to a line; see docs/FRAMES.md)\n",
    )
}

fn main(rt: HostRuntime) -> io::Result<()> {
    let mut input = rt.stdin();
    let mut out = rt.stdout();
    let mut word = [0u8; 16];
    let first = rt.arg(1, &mut word);
    let mut other = [0u8; 16];
    let second = rt.arg(2, &mut other);
    if !is_missing(second) {
        return put_usage(&mut out);
    }
    if is_missing(first) {
        return replay_session::run(&mut input, &mut out, false);
    }
    if !is_report(&word, first) {
        return put_usage(&mut out);
    }
    replay_session::run(&mut input, &mut out, true)
}
