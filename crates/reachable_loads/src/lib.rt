//! Which lists of items fit offline, told from the sorted loads that their assignments reach.
#![tactic(auto)]

mod best_fit;
mod packing;
mod placing;
mod reach;
mod rooms;
mod sets;

pub use packing::pack;
pub use reach::Reach;
pub use rooms::{packable, room_between, room_bounds, room_of};

#[cfg(test)]
mod tests;
