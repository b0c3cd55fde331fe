//! The loads that the assignments of a list of items reach, as one bit for each list of loads of all bins but one.
#![tactic(auto)]

mod planes;
mod rows;
mod words;

pub use planes::Planes;

#[cfg(test)]
mod tests;
