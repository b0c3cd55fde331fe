//! The checker: reads the text of a strategy line by line, and judges each node as soon as its line is whole.
#![tactic(auto)]

mod fault;
mod head;
mod keeper;
pub mod laws;
mod node;
mod reading;
mod sizes;

pub use fault::{Accepted, AcceptedListed, CheckFault, Heading, Wanted, Why};
pub use reading::{check, check_listed, load, load_from};

#[cfg(test)]
mod tests;
