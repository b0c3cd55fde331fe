//! Packings: the offline placements that show that a list of items fits.
#![tactic(auto)]

mod counters;
mod edits;
pub mod laws;
mod packing;

pub use packing::Packing;

#[cfg(test)]
mod tests;
