//! The loads that assignments reach, kept as bits.

ghost use Rattle.std.specs.Prelude.{◌≡◌, ◌↔◌, ℕ, ◌+◌, ◌-◌, ◌<◌, ◌≤◌, [], ◌∷◌, ◌++◌, length};
ghost use Rattle.std.specs.Prelude.{replicate, sum, IsTrue, All, MatchOption, IfOk};
ghost use Rattle.items.specs.Packable.{Packable};
ghost use Rattle.reach_planes.specs.Layout.{AreDigits, IsStart, digits_of, rows_of};
ghost use Rattle.reach_planes.specs.Planes.{FitsInPlanes};
ghost use Rattle.reach_planes.specs.Reached.{HasTotals, IsLeastLoad, sent};

use crate::rows::{any_of, digit_sums, first_set, halves, push_digits, put_item, row_of, rows};
use items::{Game, Nums};
use std::alloc::{AllocError, Global};
use std::marker::Model;

/// The most bits of a plane.
const MOST_BITS: u64 = 1_048_576;

/// A list of items of a game, with the loads of all its assignments to bins of the capacity. A bit stands
/// for the loads of all bins but the last, whose load is the items' total less theirs. Sizes and loads are
/// whole numbers on the scale of the capacity. Clauses see the game and the list of items.
#[derive(Drop)]
pub struct Planes {
    game: Game,
    items: Nums,
    total: u16,
    sums: Vec<u16>,
    words: Vec<u64>,
}

impl Model for Planes {
    ghost use Rattle.reach_planes.specs.Layout.{ArePlanes};
    ghost use Rattle.reach_planes.specs.Reached.{ItemsSent, sent};

    ghost Value = { ItemsSent };

    ghost view = { λ a. sent a.game a.items };

    ghost invariant = { λ a. ArePlanes a.game a.items a.total a.sums.items a.words.items };
}

impl Planes {
    /// Whether the loads of a game fit: whether there are at most 1,048,576 lists of loads up to the
    /// capacity of all bins but one. Takes no memory.
    pub fn fits(game: &Game) -> bool
        ensures exact { IsTrue result ↔ FitsInPlanes game.now }
    {
        (u64::from(game.g()) + 1).pow(u32::from(game.m()) - 1) <= MOST_BITS
    }

    /// The list of no items. Fails only where memory runs out.
    pub fn start(alloc: Global, game: &Game) -> Result<Planes, AllocError>
        requires { FitsInPlanes game.now }
        ensures ok { IfOk result (λ made. made ≡ sent game.now []) }
    {
        prove!(game.m() <= 8);
        let mut words = zeros(alloc, halves(game) * rows(game))?;
        words[0] = 1;
        Ok(Planes {
            game: *game,
            items: Nums::new(alloc),
            total: 0,
            sums: digit_sums(alloc, game)?,
            words,
        })
    }

    /// The list with one more item, of size `s`, at its end; the items may then fit no longer. Copies the
    /// plane once, and passes over it once for each bin. Fails only where memory runs out.
    pub fn add(&self, s: u16) -> Result<Planes, AllocError>
        requires low { 1 ≤ s }
        requires high { s ≤ self.now.game.capacity }
        ensures ok { IfOk result (λ more. more ≡ sent self.now.game (self.now.items ++ s ∷ [])) }
    {
        let alloc = self.items.allocator();
        let mut items = self.items.copy()?;
        items.push(s)?;
        let total = self.total.saturating_add(s);
        let lack = total.saturating_sub(self.game.g());
        let sums = Vec::from_slice(alloc, self.sums.as_slice())?;
        let source = self.words.as_slice();
        let mut words = Vec::from_slice(alloc, source)?;
        put_item(
            words.as_mut_slice(),
            source,
            sums.as_slice(),
            &self.game,
            lack,
            s,
        );
        Ok(Planes {
            game: self.game,
            items,
            total,
            sums,
            words,
        })
    }

    /// The game.
    pub fn game(&self) -> &Game
        ensures value { result.now ≡ self.now.game }
    {
        &self.game
    }

    /// Whether some assignment of the items has these loads, in whatever order. Takes no memory, and a time
    /// that does not depend on the size of the plane.
    pub fn contains(&self, loads: &[u16]) -> bool
        requires one_each { length loads.now ≡ self.now.game.bins }
        requires fit { All (λ load. load ≤ self.now.game.capacity) loads.now }
        ensures exact { IsTrue result ↔ HasTotals self.now.game self.now.items loads.now }
    {
        let last = usize::from(self.game.m()) - 1;
        sum_of(loads) == self.total && self.marks(loads[0], &loads[1..last])
    }

    /// The least load of a bin under any assignment of the items; None exactly where they have none. Looks
    /// at each word of the plane once. Takes no memory.
    pub fn least_load(&self) -> Option<u16>
        ensures exact { MatchOption result
            (¬ Packable self.now.game self.now.items) (IsLeastLoad self.now.game self.now.items) }
    {
        let rows = self.sums.len();
        let last = self.game.g() / 64;
        for half in 0..usize::from(last) + 1 {
            let bits = any_of(self.words.as_slice(), half * rows, rows);
            if bits != 0 {
                return Some(64 * half as u16 + bits.trailing_zeros() as u16);
            }
        }
        None
    }

    /// The loads of some assignment of the items, by bin number; None exactly where they have none. Which
    /// loads they are is free. Fails only where memory runs out.
    pub fn some_loads(&self) -> Result<Option<Nums>, AllocError>
        ensures exact { IfOk result (λ found. MatchOption found
            (¬ Packable self.now.game self.now.items) (HasTotals self.now.game self.now.items)) }
    {
        let rows = self.sums.len();
        let last = self.game.g() / 64;
        for half in 0..usize::from(last) + 1 {
            if let Some(row) = first_set(self.words.as_slice(), half * rows, rows) {
                let word = self.words[half * rows + row];
                let loads = self.loads_of(64 * half as u16 + word.trailing_zeros() as u16, row)?;
                return Ok(Some(loads));
            }
        }
        Ok(None)
    }

    // Whether some load of the last bin goes with these of the other bins.
    fn marks(&self, load: u16, digits: &[u16]) -> bool
        requires fits { load ≤ self.now.game.capacity }
        requires digits { AreDigits self.now.game digits.now }
        ensures { IsTrue result ↔ IsStart self.now.game self.now.items (load ∷ digits.now) }
    {
        let row = row_of(digits, usize::from(self.game.g()) + 1);
        let word = self.words[usize::from(load / 64) * self.sums.len() + row];
        (word >> (load % 64)) & 1 == 1
    }

    // The loads by bin number, from that of the first bin and the number that the others spell.
    fn loads_of(&self, load: u16, row: usize) -> Result<Nums, AllocError>
        requires row { row < rows_of self.now.game }
        requires start { IsStart self.now.game self.now.items
            (load ∷ digits_of (self.now.game.capacity + 1) (self.now.game.bins - 2) row) }
        ensures { IfOk result (HasTotals self.now.game self.now.items) }
    {
        let mut loads = Nums::new(self.items.allocator());
        loads.push(load)?;
        push_digits(
            &mut loads,
            row,
            usize::from(self.game.g()) + 1,
            self.game.m() - 2,
        )?;
        loads.push(self.total - load - self.sums[row])?;
        Ok(loads)
    }
}

// The sum of some loads.
fn sum_of(loads: &[u16]) -> u16
    requires { sum loads.now < 65536 }
    ensures { result ≡ sum loads.now }
{
    loads.iter().sum()
}

// So many words with no bit set.
fn zeros(alloc: Global, count: usize) -> Result<Vec<u64>, AllocError>
    ensures { IfOk result (λ words. words.items ≡ replicate count 0) }
{
    vec![in alloc; 0u64; count]
}
