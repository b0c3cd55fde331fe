//! Games whose items have listed sizes alone: checked, searched and spelled.
#![tactic(auto)]

mod checking;
mod game;
pub mod laws;
mod solving;
mod strategy;

pub use checker::{CheckFault as ListedCheckFault, Why as ListedWhy};
pub use checking::{ListedAccepted, check_listed};
pub use game::{ListedFault, ListedGame};
pub use solving::{ListedAnswer, solve_listed};
pub use strategy::{ListedStrategy, listed_text};

#[cfg(test)]
mod tests;
