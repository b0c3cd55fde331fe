//! What a strategy shows, and large legal strategies that are made from a number.
#![tactic(auto)]

mod depth;
mod drill;
mod lowest;
mod summary;

pub use drill::{MOST_COPIES, drill_strategy};
pub use summary::{Report, summarise};

#[cfg(test)]
mod tests;
