//! The loads to which an item may lead.

use items::Game;
use pass_game::PackedLoads;

// The most bins of a game.
const PLACES: usize = 8;

/// Up to eight loads, each with its key.
#[derive(Clone, Copy)]
pub(crate) struct Replies {
    loads: [PackedLoads; PLACES],
    keys: [u64; PLACES],
    count: usize,
}

impl Replies {
    /// No loads.
    pub(crate) fn none() -> Replies {
        Replies {
            loads: [PackedLoads::zero(); PLACES],
            keys: [0; PLACES],
            count: 0,
        }
    }

    /// Puts loads and their key at the end, where there is a place.
    pub(crate) fn push(&mut self, loads: PackedLoads, key: u64) {
        if self.count < PLACES {
            self.loads[self.count] = loads;
            self.keys[self.count] = key;
            self.count += 1;
        }
    }

    /// How many loads there are.
    pub(crate) fn len(&self) -> usize {
        self.count
    }

    /// The loads in a place.
    pub(crate) fn loads(&self, place: usize) -> PackedLoads {
        self.loads[place % PLACES]
    }

    /// Their key.
    pub(crate) fn key(&self, place: usize) -> u64 {
        self.keys[place % PLACES]
    }
}

/// How many items of a size the bins take, each below the target.
pub(crate) fn count_below(game: &Game, loads: PackedLoads, size: u16) -> u16 {
    let size = size.max(1);
    let mut count = 0u16;
    for place in 0..usize::from(game.m()) {
        let space = (game.t() - 1).saturating_sub(loads.at(place));
        count = count.saturating_add(space / size);
    }
    count
}
