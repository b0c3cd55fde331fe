//! Strategies as values and as text: the types of a strategy file and its one spelling.
#![tactic(auto)]

mod adversary;
mod algorithm;
mod buffer;
mod head;
pub mod laws;
mod node;
mod position;
mod rule;
mod spelled;
mod stop;
mod text;
mod words;
mod writing;

pub use adversary::{parse_adversary, read_adversary};
pub use algorithm::{parse_algorithm, read_algorithm};
pub use head::{parse_end, parse_first, parse_game, parse_nodes, parse_side};
pub use node::{
    Act, AdvNode, AdvNodes, AlgNode, AlgNodes, Entries, Entry, Format, Nodes, Placement,
    Placements, Side, Step, Strategy, Then,
};
pub use rule::Rule;
pub use text::{Text, text_of};
pub use writing::write_strategy;

#[cfg(test)]
mod file_tests;
#[cfg(test)]
mod tests;
