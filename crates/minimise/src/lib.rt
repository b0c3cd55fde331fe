//! The canonical form of a strategy: distinct positions, reached nodes, and one order of the nodes; and the same in
//! format 2.
#![tactic(auto)]

mod adversary;
mod algorithm;
mod canonical;
pub mod laws;
mod node;
mod order;
mod representatives;
mod upgraded;

pub use canonical::minimise;
pub use upgraded::upgrade;

#[cfg(test)]
mod tests;
