// Bench figures 1 to 10, through the running panel: the list is in the file stdin, what the paper says of it
// in stdout.
#![tactic(auto)]

use std::io;

fn main(rt: HostRuntime) -> io::Result<()> {
    replay_session::run(&mut rt.stdin(), &mut rt.stdout(), false)
}
