//! The relaxed game of a pass of a search: a hint whose numbers nothing is claimed of.
#![tactic(auto)]

mod loads_order;
mod packed_loads;
mod pass_table;
mod ranks;
mod rows;

pub use packed_loads::PackedLoads;
pub use pass_table::PassTable;

#[cfg(test)]
mod tests;
