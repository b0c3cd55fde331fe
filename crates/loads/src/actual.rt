//! Loads by bin number.

ghost use Rattle.std.specs.Prelude.{◌≡◌, ◌+◌, ◌<◌, ◌≤◌, length, replicate, slice_index};
ghost use Rattle.items.specs.Game.{IsGame};
ghost use Rattle.loads.specs.ByBin.{placed};

use items::Game;
use std::marker::Model;

/// The loads of the bins of a game by bin number, the bins being numbered from 0. Clauses see the list of
/// the loads. They lie inline, so no call on them takes memory.
#[derive(Debug, Drop)]
pub struct Actual {
    loads: [u16; 8],
    bins: usize,
}

impl Model for Actual {
    ghost use Rattle.std.specs.Prelude.{◌≤◌, ℕ, List, take};

    ghost Value = { List ℕ };

    ghost view = { λ a. take a.bins a.loads };

    ghost invariant = { λ a. a.bins ≤ 8 };
}

impl Actual {
    /// The loads before the first item: 0 for each bin.
    pub fn zero(game: &Game) -> Actual
        ensures value { result ≡ replicate game.now.bins 0 }
        ensures legal { IsGame game.now }
    {
        Actual {
            loads: [0; 8],
            bins: usize::from(game.m()),
        }
    }

    /// The loads by bin number.
    pub fn as_slice(&self) -> &[u16]
        ensures value { result.now ≡ self.now }
        ensures few { length self.now ≤ 8 }
    {
        &self.loads[..self.bins]
    }

    /// The loads by bin number, for writing. Clauses say no more of them after it: they are for one call that has
    /// the slice to itself.
    pub fn as_mut_slice(&mut self) -> &mut [u16]
        ensures value { result.now ≡ self.old }
    {
        &mut self.loads[..self.bins]
    }

    /// Adds an item of this size to a bin.
    pub fn put(&mut self, bin: u8, size: u16)
        requires in_range { bin < length self.old }
        requires fits { slice_index self.old bin + size < 65536 }
        ensures added { self.new ≡ placed self.old bin size }
    {
        self.loads[usize::from(bin)] += size;
    }
}
