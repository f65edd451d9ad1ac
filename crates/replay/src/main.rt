// Plays the log of calls on standard input on one desk, and prints each answer.
#![tactic(auto)]

use std::io;

fn main(rt: HostRuntime) -> io::Result<()> {
    play::play_log(&mut rt.stdin(), &mut rt.stdout())?;
    Ok(())
}
