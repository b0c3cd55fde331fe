//! The transposition table of a search: what it found at positions.

ghost use Rattle.std.specs.Prelude.{◌≡◌, ◌↔◌, ◌<◌, ◌≤◌, ℕ, List, IsSome, IsOk, IfOk, IsTrue, OnOk, OnErr, None, length};
ghost use Rattle.std.specs.Prelude.{if◌then◌else◌};
ghost use Rattle.loads.specs.Position.{are_equal};
ghost use Rattle.loads.specs.declared.position.Position.{Position};
ghost use Rattle.transposition.specs.Bounded.{bounded, IsBoundedMap, SameEntries, Puts, PutsForOther};
ghost use Rattle.transposition.specs.Memo.{verdict_of};
ghost use Rattle.transposition.specs.declared.verdict.Verdict.{Verdict};

use crate::clock_table::ClockTable;
use crate::key::Key;
use crate::lru_table::LruTable;
use crate::verdict::Verdict;
use std::alloc::AllocError;

/// A table of the verdicts of positions: a map of at most so many entries.
pub trait Memo {
    // The entries, each a position and its verdict.
    ghost entries: { Self → List (Position × Verdict) };

    // How many entries there may be.
    ghost room: { Self → ℕ };

    /// How many entries there may be. No call changes it.
    fn capacity(&self) -> usize
        ensures value { result ≡ room self.now };

    /// How many entries there are: at most the capacity, and no position has two.
    fn len(&self) -> usize
        ensures value { result ≡ length (entries self.now) }
        ensures valid { IsBoundedMap are_equal (bounded (entries self.now) (room self.now)) };

    /// The verdict of this position's entry; None exactly where it has none. Leaves the entries. Takes no memory.
    fn get(&mut self, key: &Key) -> Option<Verdict>
        ensures value { result ≡ verdict_of (entries self.old) key.now }
        ensures same { SameEntries are_equal (entries self.old) (entries self.new) }
        ensures capacity { room self.new ≡ room self.old };

    /// Puts a verdict at a position. A position that is there keeps its entry, takes the verdict, takes no memory and
    /// cannot fail. A new position adds an entry, and at capacity one other entry is dropped. Where memory is refused,
    /// the entries stay.
    fn put(&mut self, key: Key, verdict: Verdict) -> Result<(), AllocError>
        ensures present { IsSome (verdict_of (entries self.old) key)
            → IsOk result × Puts are_equal (entries self.old) (entries self.new) key verdict 0 }
        ensures below { OnOk result (verdict_of (entries self.old) key ≡ None
            → length (entries self.old) < room self.old
            → Puts are_equal (entries self.old) (entries self.new) key verdict 1) }
        ensures full { OnOk result (verdict_of (entries self.old) key ≡ None
            → room self.old ≤ length (entries self.old)
            → (dropped : Position) × PutsForOther are_equal (entries self.old) (entries self.new) key verdict dropped) }
        ensures err { OnErr result (SameEntries are_equal (entries self.old) (entries self.new)) }
        ensures capacity { room self.new ≡ room self.old };

    /// Puts a verdict at a position where there are fewer entries than the capacity, as `put` does, and tells whether
    /// the position is new: one look-up in place of two.
    fn insert(&mut self, key: Key, verdict: Verdict) -> Result<bool, AllocError>
        requires below { length (entries self.old) < room self.old }
        ensures puts { IfOk result (λ is_new. (IsTrue is_new ↔ (verdict_of (entries self.old) key ≡ None))
            × Puts are_equal (entries self.old) (entries self.new) key verdict (if is_new then 1 else 0)) }
        ensures err { OnErr result (SameEntries are_equal (entries self.old) (entries self.new)) }
        ensures capacity { room self.new ≡ room self.old };
}

/// A table that drops the entry that was used least recently.
pub type LruMemo = LruTable<Key, Verdict>;

/// A table in which a hand goes round and drops an entry that was not used of late.
pub type ClockMemo = ClockTable<Key, Verdict>;

impl Memo for LruMemo {
    ghost entries = { λ a. a.entries };

    ghost room = { λ a. a.capacity };

    fn capacity(&self) -> usize {
        LruTable::capacity(self)
    }

    fn len(&self) -> usize {
        LruTable::len(self)
    }

    fn get(&mut self, key: &Key) -> Option<Verdict> {
        LruTable::get(self, key)
    }

    fn put(&mut self, key: Key, verdict: Verdict) -> Result<(), AllocError> {
        LruTable::insert(self, key, verdict)?;
        Ok(())
    }

    fn insert(&mut self, key: Key, verdict: Verdict) -> Result<bool, AllocError> {
        LruTable::insert(self, key, verdict)
    }
}

impl Memo for ClockMemo {
    ghost entries = { λ a. a.entries };

    ghost room = { λ a. a.capacity };

    fn capacity(&self) -> usize {
        ClockTable::capacity(self)
    }

    fn len(&self) -> usize {
        ClockTable::len(self)
    }

    fn get(&mut self, key: &Key) -> Option<Verdict> {
        ClockTable::get(self, key)
    }

    fn put(&mut self, key: Key, verdict: Verdict) -> Result<(), AllocError> {
        ClockTable::insert(self, key, verdict)?;
        Ok(())
    }

    fn insert(&mut self, key: Key, verdict: Verdict) -> Result<bool, AllocError> {
        ClockTable::insert(self, key, verdict)
    }
}
