//! The adversary's side: the rules of a node, and what a legal strategy is.
#![tactic(auto)]

pub mod laws;
mod plays;
mod pool;
mod renamed;
mod rules;
mod step;

pub use plays::{first_child, packing_for, refute, refute_by, without_beyond};
pub use pool::{AdvJudged, AdvPool, AdversaryRules};
pub use renamed::renumber_next;
pub use rules::{judge, node_fault};
pub use step::packing_of;

#[cfg(test)]
mod tests;
