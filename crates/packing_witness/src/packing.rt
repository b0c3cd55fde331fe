//! Packings of items into bins.

ghost use Rattle.std.specs.Prelude.{◌≡◌, ◌↔◌, ◌+◌, ◌*◌, ◌≤◌, [], ◌∷◌, ◌++◌, IsTrue, OnOk, OnErr, IfOk};
ghost use Rattle.std.specs.Prelude.{◌<◌, All, MatchOption, length, replicate, slice_get, sum, take};
ghost use Rattle.items.specs.Multiset.{IsSize};
ghost use Rattle.items.specs.Packable.{IsPacking};
ghost use Rattle.packing_witness.specs.Edits.{without, scaled, CanScale};

use crate::counters::{counters_of, counters_with, empties};
use crate::edits::{first_out, times};
use items::{Game, Items, MOST_SIZE, MOST_VOLUME, Nums, Sequence};
use std::alloc::{AllocError, Global};
use std::marker::Model;
use std::mem;

/// A list of bins, each the list of the sizes in it. Clauses see it as a list of lists. That it is a
/// packing of some items is what `holds` tells.
#[derive(Drop)]
pub struct Packing {
    lists: Vec<Nums>,
}

impl Model for Packing {
    ghost use Rattle.std.specs.Prelude.{ℕ, List};

    ghost Value = { List (List ℕ) };

    ghost view = { λ a. a.lists.items };
}

impl Packing {
    /// No bins. Takes no memory.
    pub fn new(alloc: Global) -> Packing
        ensures empty { result ≡ [] }
    {
        Packing {
            lists: Vec::new(alloc),
        }
    }

    /// Puts a bin at the end. Where memory is refused, the packing stays as it was and the bin is dropped.
    pub fn push_bin(&mut self, bin: Nums) -> Result<(), AllocError>
        ensures ok { OnOk result (self.new ≡ self.old ++ bin ∷ []) }
        ensures err { OnErr result (self.new ≡ self.old) }
    {
        self.lists.push(bin)?;
        Ok(())
    }

    /// Takes the bin of a number away, so that another one is made in its memory; an empty one where there is none.
    /// Those before it stay. Takes no memory.
    pub fn lend_bin(&mut self, k: usize) -> Nums
        ensures bin { MatchOption (slice_get self.old k) (result ≡ []) (λ bin. result ≡ bin) }
        ensures before { take k self.new ≡ take k self.old }
        ensures number { length self.new ≡ length self.old }
    {
        let empty = Sequence::new(*self.lists.allocator());
        if k >= self.lists.len() {
            return empty;
        }
        mem::replace(&mut self.lists[k], empty)
    }

    /// Puts a bin after so many others, in place of what stands there, and answers how many it makes. Where memory is
    /// refused, the packing stays as it was and the bin is dropped.
    pub fn put_bin(&mut self, k: usize, bin: Nums) -> Result<usize, AllocError>
        requires { k ≤ length self.old }
        ensures bins { OnOk result (take (k + 1) self.new ≡ take k self.old ++ bin ∷ []) }
        ensures number { OnOk result (k < length self.new) }
        ensures next { IfOk result (λ next. next ≡ k + 1) }
        ensures err { OnErr result (self.new ≡ self.old) }
    {
        if k < self.lists.len() {
            self.lists[k] = bin;
            return Ok(k + 1);
        }
        self.lists.push(bin)?;
        Ok(self.lists.len())
    }

    /// Drops the bins from a place on, counted from 0. Takes no memory.
    pub fn truncate(&mut self, n: usize)
        ensures kept { self.new ≡ take n self.old }
    {
        self.lists.truncate(n);
    }

    /// The bins in their order.
    pub fn bins(&self) -> &[Nums]
        ensures value { result.now ≡ self.now }
    {
        self.lists.as_slice()
    }

    /// A copy of the packing, with the same bins.
    pub fn copy(&self) -> Result<Packing, AllocError>
        ensures same { IfOk result (λ made. made ≡ self.now) }
    {
        let mut made = Packing::new(*self.lists.allocator());
        made.push_copies(self.bins())?;
        Ok(made)
    }

    /// The bins when the first such number of the first bin that has one is taken out; None exactly
    /// where no bin has it.
    pub fn without(&self, item: u16) -> Result<Option<Packing>, AllocError>
        ensures exact { IfOk result (λ found. found ≡ without item self.now) }
    {
        let bins = self.bins();
        let mut made = Packing::new(*self.lists.allocator());
        for (i, bin) in bins.iter().enumerate() {
            if let Some(rest) = first_out(bin, item)? {
                made.push_bin(rest)?;
                made.push_copies(&bins[i + 1..])?;
                return Ok(Some(made));
            }
            made.push_bin(bin.copy()?)?;
        }
        Ok(None)
    }

    /// Each number of each bin times a factor, none of which may pass 65,535: the packing on the scale of
    /// a game whose numbers are multiplied.
    pub fn scaled(&self, c: u16) -> Result<Packing, AllocError>
        requires { CanScale c self.now }
        ensures exact { IfOk result (λ made. made ≡ scaled c self.now) }
    {
        let mut made = Packing::new(*self.lists.allocator());
        for bin in self.bins() {
            made.push_bin(times(bin, c)?)?;
        }
        Ok(made)
    }

    /// Whether this is a packing of the items: as many bins as the game has, each summing to at most
    /// the capacity, and together the multiset of the items. Takes no memory.
    pub fn holds(&self, game: &Game, items: &Items) -> bool
        ensures exact { IsTrue result ↔ IsPacking game.now self.now items.now }
    {
        self.lists.len() == usize::from(game.m())
            && empties(&mut counters_of(items), self.lists.as_slice(), game.g())
    }

    /// Whether this is a packing of a list of items together with `n` more of size `s`. Takes no memory.
    pub fn holds_list(&self, game: &Game, items: &[u16], s: u16, n: u16) -> bool
        requires items { All (IsSize MOST_SIZE) items.now }
        requires size { IsSize MOST_SIZE s }
        requires fits { sum items.now + n * s ≤ MOST_VOLUME }
        ensures exact { IsTrue result ↔ IsPacking game.now self.now (items.now ++ replicate n s) }
    {
        usize::from(game.m()) == self.lists.len()
            && empties(
                &mut counters_with(items, s, n),
                self.lists.as_slice(),
                game.g(),
            )
    }

    // Puts copies of bins at the end. Where memory is refused, some of them may have been put there.
    fn push_copies(&mut self, bins: &[Nums]) -> Result<(), AllocError>
        ensures ok { OnOk result (self.new ≡ self.old ++ bins.now) }
    {
        for bin in bins {
            self.push_bin(bin.copy()?)?;
        }
        Ok(())
    }
}
