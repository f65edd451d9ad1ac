// Plays the logs that its arguments name, each on a desk of its own, and prints the answers.
#![tactic(auto)]

use std::env::{Env, FillError};
use std::fs::File;
use std::io::{self, ErrorKind};
use std::str;

// An argument has at most so many bytes.
const NAME_BYTES: usize = 4096;

// Plays the log of that name, or says on standard error why it cannot be opened.
fn play_file(rt: &HostRuntime, name: &str) -> io::Result<()> {
    match File::open(rt, name) {
        Ok(mut file) => {
            play::play_log(&mut file, &mut rt.stdout())?;
            Ok(())
        }
        Err(e) => eprintln!(rt; "{name}: {e}"),
    }
}

// Plays the log that one argument names. One that is too long or no text names no file.
fn play_named(rt: &HostRuntime, name: &[u8]) -> io::Result<()> {
    match str::from_utf8(name) {
        Ok(text) => play_file(rt, text),
        Err(_) => eprintln!(rt; ": {}", io::Error::from(ErrorKind::InvalidFilename)),
    }
}

fn main(rt: HostRuntime) -> io::Result<()> {
    let mut name = [0u8; NAME_BYTES];
    // Nothing says how many arguments there are: the first that is not present ends the loop.
    for number in 1..usize::MAX {
        match rt.arg(number, &mut name) {
            Ok(length) => play_named(&rt, &name[..length])?,
            Err(FillError::TooLong) => play_named(&rt, b"")?,
            Err(FillError::NotPresent) => break,
        }
    }
    Ok(())
}
