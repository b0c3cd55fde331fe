//! Positions with few and small items, in 42 bytes.

ghost use Rattle.std.specs.Prelude.{◌≡◌, ◌↔◌, ◌+◌, ◌*◌, ◌<◌, ◌≤◌, All, IsTrue, fold, length, sum, take, true, ◌∷◌, []};
ghost use Rattle.items.specs.Counters.{counters_of};
ghost use Rattle.items.specs.Multiset.{put_ascending, put_times};
ghost use Rattle.loads.specs.Loads.{AreLoads};
ghost use Rattle.loads.specs.Position.{position};
ghost use Rattle.transposition.specs.SmallPositions.{are_small, padded};

use items::{Items, MOST_BINS, MOST_SIZE, MOST_VOLUME};
use loads::{Loads, loads_from_bytes};
use std::alloc::Global;
use std::hash::Hasher;
use std::marker::Model;

// The greatest size that has a counter.
pub(crate) const SIZES: u16 = 32;

// The greatest total of the items, so that each counter is a byte.
pub(crate) const MOST_SMALL_VOLUME: u16 = 255;

/// A position whose items have sizes up to 32 and a total of at most 255: the loads in a byte each, how many items
/// have each size, and their total. Clauses see the position. The allocator that is kept is never asked.
#[derive(Debug, Drop)]
pub(crate) struct SmallPosition {
    bins: u8,
    volume: u8,
    loads: [u8; MOST_BINS as usize],
    counters: [u8; SIZES as usize],
    alloc: Global,
}

impl Model for SmallPosition {
    ghost use Rattle.loads.specs.declared.position.Position.{Position};
    ghost use Rattle.transposition.specs.SmallPositions.{IsSmallPosition, counted_position};

    ghost Value = { Position };

    ghost view = { λ a. counted_position a.bins a.loads a.counters };

    ghost invariant = { λ a. IsSmallPosition a.bins a.volume a.loads a.counters };
}

impl SmallPosition {
    /// The position of these loads and items.
    pub(crate) fn of(alloc: Global, loads: &Loads, items: &Items) -> SmallPosition
        requires { are_small items.now ≡ true }
        ensures { result ≡ position loads.now items.now }
    {
        let loads = loads.as_slice();
        SmallPosition {
            bins: loads.len() as u8,
            volume: items.volume() as u8,
            loads: load_bytes(loads),
            counters: counter_bytes(items.counters()),
            alloc,
        }
    }

    /// Whether the position is a small one still after one more item, of size `s`.
    pub(crate) fn may_take(&self, s: u16) -> bool
        requires { 1 ≤ s }
        ensures { result ≡ are_small (put_ascending s self.now.items) }
    {
        s <= SIZES && u16::from(self.volume) + s <= MOST_SMALL_VOLUME
    }

    /// The position of these loads and of the items with one more, of size `s`.
    pub(crate) fn after(&self, loads: &Loads, s: u16) -> SmallPosition
        requires low { 1 ≤ s }
        requires small { are_small (put_ascending s self.now.items) ≡ true }
        ensures { result ≡ position loads.now (put_ascending s self.now.items) }
    {
        let loads = loads.as_slice();
        let mut counters = self.counters;
        counters[usize::from(s) - 1] += 1;
        SmallPosition {
            bins: loads.len() as u8,
            volume: self.volume + s as u8,
            loads: load_bytes(loads),
            counters,
            alloc: self.alloc,
        }
    }

    /// The position of these loads and the same items.
    pub(crate) fn with_loads(&self, loads: &Loads) -> SmallPosition
        ensures { result ≡ position loads.now self.now.items }
    {
        let loads = loads.as_slice();
        SmallPosition {
            bins: loads.len() as u8,
            volume: self.volume,
            loads: load_bytes(loads),
            counters: self.counters,
            alloc: self.alloc,
        }
    }

    /// The loads.
    pub(crate) fn loads(&self) -> Loads
        ensures value { result ≡ self.now.loads }
    {
        loads_from_bytes(self.alloc, &self.loads[..self.bins as usize])
    }

    /// The items.
    pub(crate) fn items(&self) -> Items
        ensures value { result ≡ self.now.items }
    {
        let mut items = Items::empty();
        for (i, n) in self.counters.iter().enumerate() {
            put_times(&mut items, i as u16 + 1, *n);
        }
        items
    }

    /// A copy of this position.
    pub(crate) fn copy(&self) -> SmallPosition
        ensures { result ≡ self.now }
    {
        SmallPosition {
            bins: self.bins,
            volume: self.volume,
            loads: self.loads,
            counters: self.counters,
            alloc: self.alloc,
        }
    }

    /// Whether both are the same position.
    pub(crate) fn same(&self, other: &SmallPosition) -> bool
        ensures { IsTrue result ↔ (self.now ≡ other.now) }
    {
        let bins = self.bins == other.bins;
        let loads = self.loads == other.loads;
        let counters = self.counters == other.counters;
        bins & loads & counters
    }

    /// Lets a hash take in the loads and the counters.
    pub(crate) fn feed<H: Hasher>(&self, state: &mut H)
        ensures { state.new ≡ fold H.write state.old
            (padded self.now.loads ∷ take SIZES (counters_of self.now.items) ∷ []) }
    {
        state.write(&self.loads);
        state.write(&self.counters);
    }
}

// Puts so many items of one size in.
fn put_times(items: &mut Items, size: u16, number: u8)
    requires low { 1 ≤ size }
    requires high { size ≤ MOST_SIZE }
    requires fits { sum items.old + number * size ≤ MOST_VOLUME }
    ensures { items.new ≡ put_times number size items.old }
{
    for _i in 0..number {
        items.put(size);
    }
}

/// Whether a byte counts each size of these items.
pub(crate) fn have_small_counters(items: &Items) -> bool
    ensures { result ≡ are_small items.now }
{
    items.largest() <= SIZES && items.volume() <= MOST_SMALL_VOLUME
}

// The loads in a byte each, and a 0 for each bin that the game does not have.
fn load_bytes(loads: &[u16]) -> [u8; MOST_BINS as usize]
    requires { AreLoads loads.now }
    ensures { result ≡ padded loads.now }
{
    let mut bytes = [0, 0, 0, 0, 0, 0, 0, 0];
    for (i, load) in loads.iter().enumerate() {
        bytes[i] = *load as u8;
    }
    bytes
}

// The first counters, in a byte each.
fn counter_bytes(counters: &[u16]) -> [u8; SIZES as usize]
    requires enough { SIZES ≤ length counters.now }
    requires low { All (λ n. n < 256) (take SIZES counters.now) }
    ensures { result ≡ take SIZES counters.now }
{
    let mut bytes = [0; SIZES as usize];
    for i in 0..SIZES as usize {
        bytes[i] = counters[i] as u8;
    }
    bytes
}
