//! The loads of a game's bins without the bins' numbers, and positions: the loads beside the items so far.
#![tactic(auto)]

mod actual;
mod bins;
mod bytes;
mod earlier;
mod from_bytes;
mod item_list;
pub mod laws;
mod moved;
mod packed;
mod packed_list;
mod position;
mod sorted_loads;

pub use actual::Actual;
pub use bins::{bin_with, most_on_load, same_up_to_renaming};
pub use earlier::EarlierPositions;
pub use from_bytes::loads_from_bytes;
pub use item_list::are_items_of;
pub use packed::PackedPosition;
pub use packed_list::PackedPositions;
pub use position::{Position, Positions};
pub use sorted_loads::Loads;

#[cfg(test)]
mod tests;
