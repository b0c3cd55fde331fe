//! Online algorithms: what one is, how it places the items of a list, and when the adversary forces every one.
#![tactic(auto)]

pub mod laws;
mod online;
mod players;
mod rule;
mod transcript;

pub use loads::Actual;
pub use online::{Online, loads_after};
pub use players::{BestFit, FirstFit, LeastLoaded};
pub use transcript::{Bins, Name, Player, Transcript};

#[cfg(test)]
mod tests;
