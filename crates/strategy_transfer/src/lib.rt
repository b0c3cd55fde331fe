//! Legal strategies moved to other games: to greater numbers, or to another target.
#![tactic(auto)]

mod copies;
mod ends;
mod fault;
mod scaled;
mod weakened;

pub use fault::TransferFault;
pub use scaled::scale;
pub use weakened::weaken;

#[cfg(test)]
mod tests;
