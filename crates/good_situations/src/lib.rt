//! Good situations: positions from which a simple rule keeps every load below the target.
#![tactic(auto)]

mod big_finish;
mod finish;
mod kept_order;
pub mod laws;

pub use big_finish::{BigFinish, big_bound, big_finishes};
pub use finish::{Finish, finishes, finishes_after};

#[cfg(test)]
mod tests;
