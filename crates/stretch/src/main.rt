//! The program `stretch`: runs the command of its words over standard input and standard output.
//!
//! It prints nothing by itself, and ends with the number of the status.
#![tactic(auto)]

mod streams;

use crate::streams::{StdSink, StdSource};
use online_play::{BestFit, FirstFit, LeastLoaded, Name, Online, Player};
use std::alloc::{AllocError, Global};
use std::io::ErrorKind;
use std::process::ExitCode;
use std::{env, io};
use stretch_bench::{Status, run_bench};

/// The number that the program ends with where it cannot have its words, for another cause than memory.
const NO_WORDS: u8 = 20;

/// Why the words cannot be had.
#[derive(Drop)]
enum WordsFault {
    Memory,
    Other,
}

impl From<AllocError> for WordsFault {
    fn from(_error: AllocError) -> WordsFault {
        WordsFault::Memory
    }
}

impl From<io::Error> for WordsFault {
    fn from(error: io::Error) -> WordsFault {
        match error.kind() {
            ErrorKind::OutOfMemory => WordsFault::Memory,
            _ => WordsFault::Other,
        }
    }
}

/// The words after the program's name.
fn words_of(rt: &HostRuntime) -> Result<Vec<String>, WordsFault> {
    let words = env::args(rt)?.skip(1).collect(rt.alloc())?;
    Ok(words)
}

/// A player under its name.
fn player(alloc: Global, name: &str, player: Box<dyn Online>) -> Result<Player, AllocError> {
    Ok(Player {
        name: Name::new(alloc, name)?,
        player,
    })
}

/// Runs the words against the three named players.
fn run(alloc: Global, words: &[String], rt: &HostRuntime) -> Result<Status, AllocError> {
    let mut players = Vec::new(alloc);
    players.push(player(alloc, "first-fit", Box::new(alloc, FirstFit)?)?)?;
    players.push(player(alloc, "best-fit", Box::new(alloc, BestFit)?)?)?;
    players.push(player(alloc, "least-loaded", Box::new(alloc, LeastLoaded)?)?)?;
    let mut source = StdSource::new(rt.stdin());
    let mut sink = StdSink::new(rt.stdout());
    Ok(run_bench(alloc, words, &players, &mut source, &mut sink))
}

fn main(rt: HostRuntime) -> ExitCode {
    let words = match words_of(&rt) {
        Ok(words) => words,
        Err(WordsFault::Memory) => return ExitCode::from(Status::OutOfMemory.code()),
        Err(WordsFault::Other) => return ExitCode::from(NO_WORDS),
    };
    match run(rt.alloc(), words.as_slice(), &rt) {
        Ok(status) => ExitCode::from(status.code()),
        Err(AllocError) => ExitCode::from(Status::OutOfMemory.code()),
    }
}
