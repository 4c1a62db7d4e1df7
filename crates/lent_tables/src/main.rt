// Lends tables made by hand to the panel: rows of numbers come from standard input, and what the frames
// answer and leave goes to standard output.
#![tactic(auto)]

use std::io;

fn main(rt: HostRuntime) -> io::Result<()> {
    lent_session::run(&mut rt.stdin(), &mut rt.stdout())
}
