//! The exact value of a number of bins and a capacity, shown by a strategy of each side.
#![tactic(auto)]

pub mod laws;
mod targets;
mod valued;

pub use targets::value;
pub use valued::Valued;

#[cfg(test)]
mod tests;
