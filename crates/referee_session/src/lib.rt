//! A referee: an adversary's strategy plays against answers that come one by one.
#![tactic(auto)]

mod answer;
pub mod laws;
mod line;
mod refereeing;
mod session;
mod stand;
mod told;

pub use answer::parse_bin;
pub use refereeing::{Ending, SessionFault, referee};
pub use session::Session;

#[cfg(test)]
mod tests;
