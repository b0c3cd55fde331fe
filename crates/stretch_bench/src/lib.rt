//! The commands of the program `stretch`, over any source and any sink.
#![tactic(auto)]

mod answering;
mod bench;
mod checking;
mod command;
mod drilling;
mod due;
#[cfg(test)]
mod failing_tests;
#[cfg(test)]
mod fault_tests;
mod force_search;
pub mod laws;
mod lines;
mod minimising;
mod number;
mod playing;
mod reporting;
mod run;
mod scaling;
mod searching;
mod settings;
mod status;
mod talking;
#[cfg(test)]
mod tests;
mod upgrading;
mod valuing;
mod weakening;

pub use bench::run_bench;
pub use command::{Command, read_words};
pub use settings::{MOST_ENTRIES, MOST_FORCE_ENTRIES, MOST_VISITS};
pub use status::Status;
