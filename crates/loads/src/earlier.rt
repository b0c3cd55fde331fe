//! Lists that say which position an earlier node has.

ghost use Rattle.std.specs.Prelude.{◌≡◌, ◌↔◌, ◌+◌, ◌*◌, ◌<◌, ◌≤◌, List, Contains, IsTrue, sum};
ghost use Rattle.items.specs.Multiset.{IsMultiset, IsSize};
ghost use Rattle.loads.specs.After.{after};
ghost use Rattle.loads.specs.declared.position.Position.{Position};
ghost use Rattle.loads.specs.Position.{position, StandsAt};

use crate::item_list::items_with;
use crate::position::Positions;
use crate::sorted_loads::Loads;
use items::{Items, MOST_SIZE, MOST_VOLUME};

/// The positions of the earlier nodes of a strategy, by the nodes' numbers, counted from 0.
pub trait EarlierPositions {
    // The positions in the order of the nodes' numbers.
    ghost positions: { Self → List Position };

    /// Whether there is a position of this number, and it is the one after an item of size `s` went to a bin of this
    /// load. Takes no memory; the cost is linear in the position.
    fn is_after(&self, i: usize, loads: &Loads, items: &[u16], load: u16, s: u16) -> bool
        requires items { IsMultiset MOST_SIZE items.now }
        requires size { IsSize MOST_SIZE s }
        requires fits { sum items.now + s ≤ MOST_VOLUME }
        requires member { Contains loads.now load }
        requires below { load + s < 2 * MOST_SIZE }
        ensures { IsTrue result ↔ StandsAt (positions self.now) i (after (position loads.now items.now) load s) };
}

impl EarlierPositions for Positions {
    ghost positions = { λ a. a };

    fn is_after(&self, i: usize, loads: &Loads, items: &[u16], load: u16, s: u16) -> bool {
        match loads.after(load, s) {
            Some(loads) => is_at(self, i, &loads, &items_with(items, s)),
            None => false,
        }
    }
}

// Whether there is a position of this number and it has these loads and items.
fn is_at(positions: &Positions, i: usize, loads: &Loads, items: &Items) -> bool
    ensures { IsTrue result ↔ StandsAt positions.now i (position loads.now items.now) }
{
    match positions.get(i) {
        Some(position) => position.loads.same(loads) && position.items.same(items),
        None => false,
    }
}
