//! Laws of loads and positions, as contracts of functions that do nothing.

ghost use Rattle.std.specs.Prelude.{◌≡◌, ◌↔◌, ◌+◌, ◌<◌, ◌≤◌, ℕ, Contains, IsTrue, length, slice_index, slice_set, sum};
ghost use Rattle.items.specs.Multiset.{Same};
ghost use Rattle.loads.specs.Descending.{IsStrictlyDescending, distinct};
ghost use Rattle.loads.specs.Loads.{AreLoads, loads_after};

use crate::packed::PackedPosition;
use crate::position::Position;
use crate::sorted_loads::Loads;
use std::hash::Hash;

/// Loads are no more than a game has bins, descending, each below the greatest target.
pub fn loads_are_of_some_game(loads: &Loads)
    ensures { AreLoads loads.now }
{
    let _loads = loads.as_slice();
}

/// Two values of loads are equal exactly where they are the same multiset.
pub fn loads_are_their_multiset(first: &Loads, second: &Loads)
    ensures { (first.now ≡ second.now) ↔ Same first.now second.now }
{
    let _first = first.as_slice();
    let _second = second.as_slice();
}

/// The different loads have the same numbers as the loads, and each is greater than the next.
pub fn distinct_loads_descend(loads: &Loads)
    ensures descend { IsStrictlyDescending (distinct loads.now) }
    ensures numbers { (load : ℕ) → Contains (distinct loads.now) load ↔ Contains loads.now load }
{
    let _loads = loads.as_slice();
}

/// An item in any of the bins that have a load gives, but for the bins' numbers, the loads after it.
pub fn bins_of_a_load_are_alike(actual: &[u16], loads: &Loads, bin: usize, size: u16)
    requires renamed { Same actual.now loads.now }
    requires in_range { bin < length actual.now }
    ensures { let load = slice_index actual.now bin in
        Same (slice_set actual.now bin (load + size)) (loads_after loads.now load size) }
{}

/// An item raises the sum of the loads by its size, and leaves their number.
pub fn an_item_adds_its_size(loads: &Loads, load: u16, size: u16)
    requires { Contains loads.now load }
    ensures sum { sum (loads_after loads.now load size) ≡ sum loads.now + size }
    ensures number { length (loads_after loads.now load size) ≡ length loads.now }
{}

/// No place of the descending loads is lower after an item.
pub fn loads_never_fall(loads: &Loads, load: u16, size: u16)
    requires { Contains loads.now load }
    ensures { (k : ℕ) → slice_index loads.now k ≤ slice_index (loads_after loads.now load size) k }
{
    let _loads = loads.as_slice();
}

/// The comparison of loads says that they are equal exactly where they are, and equal loads hash alike.
pub fn equality_of_loads_is_exact(first: &Loads, second: &Loads)
    ensures exact { IsTrue (⟦<Loads as PartialEq>⟧.eq first.now second.now) ↔ (first.now ≡ second.now) }
    ensures hash { IsTrue (⟦<Loads as PartialEq>⟧.eq first.now second.now)
        → ⟦<Loads as Hash>⟧.hash_input first.now ≡ ⟦<Loads as Hash>⟧.hash_input second.now }
{}

/// The comparison of positions says that they are equal exactly where both loads and items are, and equal
/// positions hash alike.
pub fn equality_of_positions_is_exact(first: &Position, second: &Position)
    ensures exact { IsTrue (⟦<Position as PartialEq>⟧.eq first.now second.now) ↔ (first.now ≡ second.now) }
    ensures hash { IsTrue (⟦<Position as PartialEq>⟧.eq first.now second.now)
        → ⟦<Position as Hash>⟧.hash_input first.now ≡ ⟦<Position as Hash>⟧.hash_input second.now }
{}

/// The comparison of packed positions says that they are equal exactly where both loads and items are, and
/// equal ones hash alike.
pub fn equality_of_packed_positions_is_exact(first: &PackedPosition, second: &PackedPosition)
    ensures exact { IsTrue (⟦<PackedPosition as PartialEq>⟧.eq first.now second.now) ↔ (first.now ≡ second.now) }
    ensures hash { IsTrue (⟦<PackedPosition as PartialEq>⟧.eq first.now second.now)
        → ⟦<PackedPosition as Hash>⟧.hash_input first.now ≡ ⟦<PackedPosition as Hash>⟧.hash_input second.now }
{}
