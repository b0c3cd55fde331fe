//! The sizes that the items of a game may have.

ghost use Rattle.std.specs.Prelude.{◌≡◌, ◌↔◌, ◌+◌, ◌≤◌, ◌<◌, ◌++◌, [], ◌∷◌, IsTrue, All, Contains, MatchOption};
ghost use Rattle.std.specs.List.{range_with_len};
ghost use Rattle.items.specs.Multiset.{AreSizes, IsLeastAbove, IsSize, sizes_of};
ghost use Rattle.items.specs.SizeBits.{IsClearFrom, sizes_in};

use crate::game::Game;
use crate::limits::MOST_SIZE;
use std::marker::Model;

/// The sizes that items may have: any strictly ascending list of sizes from 1 to 120 that is not
/// empty, seen by clauses as that list. It takes 16 bytes whatever it holds, and no call on it takes memory.
#[derive(Drop)]
pub struct Sizes {
    // The bit at the place `s`, counted from 0, is set where `s` is one of the sizes.
    bits: u128,
}

impl Model for Sizes {
    ghost use Rattle.std.specs.Prelude.{ℕ, List};
    ghost use Rattle.items.specs.SizeBits.{sizes_in, AreSizeBits};

    ghost Value = { List ℕ };

    ghost view = { λ a. sizes_in a.bits };

    ghost invariant = { λ a. AreSizeBits a.bits };
}

impl Sizes {
    /// All sizes of a game: from 1 to the capacity.
    pub fn of_game(game: &Game) -> Sizes
        ensures value { result ≡ sizes_of game.now }
    {
        Sizes {
            bits: up_to(game.g()),
        }
    }

    /// The sizes of a list, in one pass; None exactly where the list is empty, is not strictly
    /// ascending, or has a number that is no size of the game.
    pub fn from_slice(game: &Game, list: &[u16]) -> Option<Sizes>
        ensures exact { MatchOption result
            (AreSizes game.now.capacity list.now → ⊥)
            (λ sizes. (sizes ≡ list.now) × AreSizes game.now.capacity list.now) }
    {
        if list.is_empty() {
            return None;
        }
        let most = game.g();
        let mut bits = 0u128;
        let mut last = 0u16;
        for s in list {
            if *s <= last || *s > most {
                return None;
            }
            bits = with_greater(bits, *s);
            last = *s;
        }
        Some(Sizes { bits })
    }

    /// A copy of the sizes.
    pub fn copy(&self) -> Sizes
        ensures same { result ≡ self.now }
        ensures sizes { AreSizes MOST_SIZE self.now }
    {
        Sizes { bits: self.bits }
    }

    /// Whether items may have this size.
    pub fn contains(&self, s: u16) -> bool
        ensures exact { IsTrue result ↔ Contains self.now s }
    {
        is_set(self.bits, s)
    }

    /// The least of the sizes that is above `s`; None exactly where none is. A loop from 0 by this
    /// call comes to each of the sizes once, in ascending order.
    pub fn least_above(&self, s: u16) -> Option<u16>
        ensures exact { MatchOption result (All (λ size. size ≤ s) self.now) (IsLeastAbove self.now s) }
        ensures sizes { AreSizes MOST_SIZE self.now }
    {
        next_set(self.bits, s)
    }
}

// The word of the sizes from 1 to `most`.
fn up_to(most: u16) -> u128
    requires low { 1 ≤ most }
    requires high { most ≤ MOST_SIZE }
    ensures value { sizes_in result ≡ range_with_len 1 most }
    ensures clear { IsClearFrom (MOST_SIZE + 1) result }
{
    (1u128 << (most + 1)) - 2
}

// The word with one more size, which is greater than those that are there.
fn with_greater(bits: u128, s: u16) -> u128
    requires low { 1 ≤ s }
    requires high { s ≤ MOST_SIZE }
    requires greater { IsClearFrom s bits }
    ensures value { sizes_in result ≡ sizes_in bits ++ s ∷ [] }
    ensures clear { IsClearFrom (s + 1) result }
{
    bits | (1u128 << s)
}

// Whether the number is a size whose bit is set.
fn is_set(bits: u128, s: u16) -> bool
    ensures exact { IsTrue result ↔ Contains (sizes_in bits) s }
{
    if !is_size(s) {
        return false;
    }
    (bits >> s) & 1 == 1
}

// Whether the number is a size of some game.
fn is_size(s: u16) -> bool
    ensures exact { IsTrue result ↔ IsSize MOST_SIZE s }
{
    (1..=MOST_SIZE).contains(&s)
}

// The least size above `s` whose bit is set.
fn next_set(bits: u128, s: u16) -> Option<u16>
    requires { IsClearFrom (MOST_SIZE + 1) bits }
    ensures exact { MatchOption result (All (λ size. size ≤ s) (sizes_in bits)) (IsLeastAbove (sizes_in bits) s) }
{
    if s >= MOST_SIZE {
        return None;
    }
    let rest = bits >> (s + 1);
    if rest == 0 {
        return None;
    }
    Some(s + 1 + rest.trailing_zeros() as u16)
}
