//! Laws of tables, as contracts of functions that do nothing.

ghost use Rattle.std.specs.Prelude.{◌≡◌, ◌↔◌, IsTrue};
ghost use Rattle.transposition.specs.Laws.{NewPositionsFindRoom};

use crate::key::Key;
use std::hash::Hash;

/// A table with room for all positions of a list, and entries of these alone, is below its capacity when a new one of
/// them comes.
pub fn new_positions_find_room()
    ensures { NewPositionsFindRoom }
{}

/// The comparison of keys says that they are equal exactly where their positions are, and equal keys hash alike.
pub fn equality_of_keys_is_exact(first: &Key, second: &Key)
    ensures exact { IsTrue (⟦<Key as PartialEq>⟧.eq first.now second.now) ↔ (first.now ≡ second.now) }
    ensures hash { IsTrue (⟦<Key as PartialEq>⟧.eq first.now second.now)
        → ⟦<Key as Hash>⟧.hash_input first.now ≡ ⟦<Key as Hash>⟧.hash_input second.now }
{}
