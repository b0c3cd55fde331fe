//! Passes of the search, paths of moves and their order, and the meter that counts visits.
#![tactic(auto)]

pub mod laws;
mod meter;
mod pass;
mod path;

pub use meter::{Meter, VisitFault};
pub use pass::allows;
pub use path::{Path, PathMove};

#[cfg(test)]
mod tests;
