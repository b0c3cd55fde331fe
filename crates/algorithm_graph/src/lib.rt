//! The nodes of the algorithm: their rules, and what a legal strategy of the algorithm answers.
#![tactic(auto)]

mod file;
pub mod laws;
mod pool;
mod replay;
mod rules;

pub use file::FileAlgorithm;
pub use pool::{AlgJudged, AlgPool, AlgorithmRules};
pub use rules::{judge, node_fault};

#[cfg(test)]
mod tests;
