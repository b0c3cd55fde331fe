//! The search of a game under a counted budget: a strategy of one side, or the visit at which the budget ended.
#![tactic(auto)]

mod answer;
mod distinct_loads;
mod expanding;
mod finish_nodes;
mod game_search;
mod naming;
mod nodes;
mod reached;
mod replies;
mod rooms;
mod skipping;
mod space;
mod table;
mod wins;
mod wins_writing;
mod writing;

pub use answer::Answer;
pub use game_search::{solve, solve_listed};

#[cfg(test)]
mod tests;
