//! What a legal strategy of either side is.
#![tactic(auto)]

pub mod laws;
