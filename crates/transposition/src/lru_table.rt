//! A table of bounded size that drops the entry that was used least recently.

ghost use Rattle.std.specs.Prelude.{◌≡◌, ◌↔◌, ◌<◌, ◌≤◌, ◌+◌, [], IsSome, IsOk, IfOk, IsTrue, OnOk, OnErr, None, length};
ghost use Rattle.transposition.specs.Bounded.{bounded, found, IsBoundedMap, SameEntries, Puts, PutsForOther};

use lru::LruCache;
use std::alloc::{AllocError, Global};
use std::hash::Hash;
use std::marker::Model;
use std::num::NonZeroUsize;

/// A map of at most so many entries. A new key at capacity takes the place of the entry that was used least
/// recently. Memory is taken as entries come. Clauses see the entries and the capacity.
#[derive(Drop)]
pub struct LruTable<K: Eq + Hash, V> {
    cache: LruCache<K, V>,
}

impl<K: Eq + Hash, V> Model for LruTable<K, V> {
    ghost use Rattle.transposition.specs.Bounded.{Bounded, bounded};

    ghost Value = { Bounded K V };

    ghost view = { λ a. bounded a.cache.entries a.cache.cap };
}

impl<K: Eq + Hash + Drop, V: Copy + Drop> LruTable<K, V> {
    /// A table without entries.
    pub fn new(alloc: Global, capacity: usize) -> Result<Self, AllocError>
        requires { 1 ≤ capacity }
        ensures empty { IfOk result (λ table. table ≡ bounded [] capacity) }
    {
        Ok(LruTable {
            cache: LruCache::sparse(alloc, NonZeroUsize::new(capacity).unwrap())?,
        })
    }

    /// How many entries there may be.
    pub fn capacity(&self) -> usize
        ensures value { result ≡ self.now.capacity }
    {
        self.cache.cap().get()
    }

    /// How many entries there are.
    pub fn len(&self) -> usize
        ensures value { result ≡ length self.now.entries }
        ensures valid { IsBoundedMap K.eq self.now }
    {
        self.cache.len()
    }

    /// The value of the key's entry; None exactly where it has none. Takes no memory.
    pub fn get(&mut self, key: &K) -> Option<V>
        ensures value { result ≡ found K.eq self.old.entries key.now }
        ensures same { SameEntries K.eq self.old.entries self.new.entries }
        ensures capacity { self.new.capacity ≡ self.old.capacity }
    {
        prove!(self.cache.len() <= self.cache.cap().get());
        self.cache.get(key).copied()
    }

    /// Puts a value at a key, and tells whether the key is new. A key that is there keeps its entry, takes the value,
    /// takes no memory and cannot fail. A new key adds an entry, and at capacity one other entry is dropped. Where
    /// memory is refused, the entries stay.
    pub fn insert(&mut self, key: K, value: V) -> Result<bool, AllocError>
        ensures present { IsSome (found K.eq self.old.entries key)
            → IsOk result × Puts K.eq self.old.entries self.new.entries key value 0 }
        ensures below { OnOk result (found K.eq self.old.entries key ≡ None
            → length self.old.entries < self.old.capacity
            → Puts K.eq self.old.entries self.new.entries key value 1) }
        ensures full { OnOk result (found K.eq self.old.entries key ≡ None
            → self.old.capacity ≤ length self.old.entries
            → (dropped : K) × PutsForOther K.eq self.old.entries self.new.entries key value dropped) }
        ensures err { OnErr result (SameEntries K.eq self.old.entries self.new.entries) }
        ensures is_new { IfOk result (λ is_new. IsTrue is_new ↔ (found K.eq self.old.entries key ≡ None)) }
        ensures capacity { self.new.capacity ≡ self.old.capacity }
    {
        prove!(self.cache.len() <= self.cache.cap().get());
        let old = self.cache.put(key, value)?;
        Ok(old.is_none())
    }
}
