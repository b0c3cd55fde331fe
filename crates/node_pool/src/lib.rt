//! Nodes of either side, judged in their order: what they are judged by, and growing lists of them.
#![tactic(auto)]

mod judged;
mod pool;
mod side;
mod terms;

pub use judged::JudgedNodes;
pub use pool::Pool;
pub use side::NodeRules;
pub use terms::Terms;

#[cfg(test)]
mod tests;
