//! A table of bounded size in which a hand goes round and drops an entry that was not used of late.

ghost use Rattle.std.specs.Prelude.{◌≡◌, ◌↔◌, ◌<◌, ◌≤◌, ◌+◌, ◌-◌, ◌*◌, ◌^◌, [], IsSome, IsOk, IfOk, IsTrue, OnOk};
ghost use Rattle.std.specs.Prelude.{None, OnErr, length};
ghost use Rattle.transposition.specs.Clock.{Drops};
ghost use Rattle.indexmap.specs.IndexMap.{spare};
ghost use Rattle.transposition.specs.Bounded.{bounded, found, IsBoundedMap, SameEntries, Puts, PutsForOther};

use crate::clock::Clock;
use indexmap::IndexMap;
use std::alloc::{AllocError, Global};
use std::hash::Hash;
use std::marker::Model;

// For how many entries a new table has room. The map's index has nine entries for each of a power of two of groups, so
// twice nine, and four times as many each time, fill it before it grows.
const FIRST_ROOM: usize = 18;

/// A map of at most so many entries. Each entry has a mark, which a look-up sets. At capacity a hand goes round the
/// entries, clears marks and drops the first entry without one for a new key. Memory is taken as entries come.
/// Clauses see the entries and the capacity.
#[derive(Drop)]
pub struct ClockTable<K: Eq + Hash, V> {
    map: IndexMap<K, V>,
    clock: Clock,
    capacity: usize,
}

impl<K: Eq + Hash, V> Model for ClockTable<K, V> {
    ghost use Rattle.std.specs.Prelude.{◌≡◌, ◌≤◌, length};
    ghost use Rattle.transposition.specs.Bounded.{Bounded, bounded};

    ghost Value = { Bounded K V };

    ghost view = { λ a. bounded a.map.entries a.capacity };

    ghost invariant = { λ a. (length a.clock.marks ≡ length a.map.entries) × (length a.map.entries ≤ a.capacity)
        × (1 ≤ a.capacity) };
}

impl<K: Eq + Hash + Drop, V: Copy + Drop> ClockTable<K, V> {
    /// A table without entries, with room for the first few.
    pub fn new(alloc: Global, capacity: usize) -> Result<Self, AllocError>
        requires { 1 ≤ capacity }
        ensures empty { IfOk result (λ table. table ≡ bounded [] capacity) }
    {
        Ok(ClockTable {
            map: IndexMap::with_capacity(alloc, capacity.min(FIRST_ROOM))?,
            clock: Clock::new(alloc),
            capacity,
        })
    }

    /// How many entries there may be.
    pub fn capacity(&self) -> usize
        ensures value { result ≡ self.now.capacity }
    {
        self.capacity
    }

    /// How many entries there are.
    pub fn len(&self) -> usize
        ensures value { result ≡ length self.now.entries }
        ensures valid { IsBoundedMap K.eq self.now }
    {
        self.map.len()
    }

    /// The value of the key's entry; None exactly where it has none. Takes no memory.
    pub fn get(&mut self, key: &K) -> Option<V>
        ensures value { result ≡ found K.eq self.old.entries key.now }
        ensures same { SameEntries K.eq self.old.entries self.new.entries }
        ensures capacity { self.new.capacity ≡ self.old.capacity }
    {
        let (place, _, value) = self.map.get_full(key)?;
        let value = *value;
        self.clock.mark(place);
        Some(value)
    }

    /// Puts a value at a key, and tells whether the key is new. A key that is there keeps its entry, takes the value,
    /// takes no memory and cannot fail. A new key adds an entry, and at capacity one other entry is dropped. Where
    /// memory is refused, the entries stay.
    pub fn insert(&mut self, key: K, value: V) -> Result<bool, AllocError>
        ensures present { IsSome (found K.eq self.old.entries key)
            → IsOk result × Puts K.eq self.old.entries self.new.entries key value 0 }
        ensures below { OnOk result (found K.eq self.old.entries key ≡ None
            → length self.old.entries < self.old.capacity
            → Puts K.eq self.old.entries self.new.entries key value 1) }
        ensures full { OnOk result (found K.eq self.old.entries key ≡ None
            → self.old.capacity ≤ length self.old.entries
            → (dropped : K) × PutsForOther K.eq self.old.entries self.new.entries key value dropped) }
        ensures err { OnErr result (SameEntries K.eq self.old.entries self.new.entries) }
        ensures is_new { IfOk result (λ is_new. IsTrue is_new ↔ (found K.eq self.old.entries key ≡ None)) }
        ensures capacity { self.new.capacity ≡ self.old.capacity }
    {
        if !has_room(&self.map, &self.clock) {
            if self.map.contains_key(&key) {
                self.map.insert(key, value).unwrap();
                return Ok(false);
            }
            make_room(&mut self.map, &mut self.clock, self.capacity)?;
        }
        if self.map.insert(key, value).unwrap().is_some() {
            return Ok(false);
        }
        if self.map.len() <= self.capacity {
            self.clock.add();
        } else {
            drop_one(&mut self.map, &mut self.clock);
        }
        Ok(true)
    }
}

// Whether there is room for one more entry and its mark.
fn has_room<K: Eq + Hash, V>(map: &IndexMap<K, V>, clock: &Clock) -> bool
    ensures entry { IsTrue result → 0 < spare map.now }
    ensures mark { IsTrue result → 0 < clock.now.room }
{
    map.len() < map.capacity() && clock.has_room()
}

// Makes room for about four times as many entries, but for no more than one beyond the capacity.
fn make_room<K: Eq + Hash, V>(
    map: &mut IndexMap<K, V>,
    clock: &mut Clock,
    capacity: usize,
) -> Result<(), AllocError>
    requires { length map.old.entries ≤ capacity }
    ensures entry { OnOk result (0 < spare map.new) }
    ensures mark { OnOk result (0 < clock.new.room) }
    ensures entries { map.new.entries ≡ map.old.entries }
    ensures marks { clock.new.marks ≡ clock.old.marks }
{
    let more = more_room(map.len(), capacity);
    map.reserve(more)?;
    clock.reserve(more)
}

// How many entries to make room for, where there are so many.
fn more_room(number: usize, capacity: usize) -> usize
    requires within { number ≤ capacity }
    ensures some { 0 < result }
    ensures within { result ≤ capacity - number + 1 }
{
    number
        .saturating_mul(3)
        .max(FIRST_ROOM)
        .min((capacity - number).saturating_add(1))
}

// Drops the entry of one of the first places, at which the hand stops, and the last entry takes its place.
fn drop_one<K: Eq + Hash + Drop, V: Drop>(map: &mut IndexMap<K, V>, clock: &mut Clock)
    requires some { 0 < length clock.old.marks }
    requires one_more { length map.old.entries ≡ length clock.old.marks + 1 }
    ensures dropped { (dropped : K) × Drops K.eq (length clock.old.marks) map.old.entries map.new.entries dropped }
    ensures number { length map.new.entries + 1 ≡ length map.old.entries }
    ensures marks { length clock.new.marks ≡ length clock.old.marks }
{
    prove!(map.len() > 0);
    let place = clock.stop();
    map.swap_remove_index(place);
    clock.pass();
}
