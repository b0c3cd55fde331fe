//! Positions of the game.

use crate::sorted_loads::Loads;
use items::{Items, Sequence};
use std::mem::size_of;

/// A position: the loads of the bins and the items so far. Bins are alike, so positions are taken up to
/// the numbers of the bins. A position takes at most 320 bytes, all of them inline, and no memory besides.
#[derive(PartialEq, Eq, Hash, Debug, Drop)]
pub struct Position {
    /// The loads, descending.
    pub loads: Loads,
    /// The items that led to them.
    pub items: Items,
}

/// A list of positions that grows at its end.
pub type Positions = Sequence<Position>;

// Positions are kept by the hundred thousand.
const _: () = prove!(size_of::<Position>() <= 320);
