//! What is asked of the items of a position: what may still come, for a search that sends no size below a least one.

use pass_game::PackedLoads;

/// What may still come.
#[derive(Clone, Copy)]
pub(crate) struct Look {
    /// The greatest size of which an item still packs; 0 where none does.
    pub(crate) room: u16,
    /// The greatest size of which two items still pack; 0 where none does.
    pub(crate) pair: u16,
    /// How many items larger than half the capacity still pack.
    pub(crate) big: u16,
    /// A word that is the same for items after which the same may come.
    pub(crate) profile: u64,
}

impl Look {
    /// Nothing may come.
    pub(crate) fn none() -> Look {
        Look {
            room: 0,
            pair: 0,
            big: 0,
            profile: 0,
        }
    }
}

/// Equal items, one after the other, after which a load is at the target.
#[derive(Clone, Copy)]
pub(crate) struct Burst {
    /// The size of each.
    pub(crate) size: u16,
    /// How many items.
    pub(crate) count: u16,
}

/// The packings of the items along the path of a search, by depth.
pub(crate) trait Offline: Drop {
    /// Makes the items of the next depth those of this one and one more.
    fn add(&mut self, depth: usize, size: u16);

    /// What may still come after the items of a depth, of the sizes from a least one on.
    fn look(&mut self, depth: usize, least: u16) -> Look;

    /// A burst from these loads, after the items that were looked at last.
    fn burst(&self, loads: PackedLoads) -> Option<Burst>;
}
