//! Laws on ascending lists and on lists with the same numbers, as contracts of functions that do nothing.

ghost use Rattle.std.specs.Prelude.{◌≡◌, ◌==◌, ◌↔◌, IsTrue, ℕ, ◌+◌, ◌*◌, List, [], ◌∷◌, ◌++◌, if◌then◌else◌};
ghost use Rattle.std.specs.Prelude.{length, replicate, sum};
ghost use Rattle.std.specs.List.Sorted.{IsNonDecreasing};
ghost use Rattle.items.specs.Game.{IsGame};
ghost use Rattle.items.specs.Multiset.{AreSizes, IsMultiset, Same, count, put_ascending, put_times};

use crate::game::Game;
use crate::items::Items;
use crate::limits::MOST_SIZE;
use crate::sizes::Sizes;
use std::hash::Hash;

/// The numbers of a game are within their ranges.
pub fn game_is_legal(game: &Game)
    ensures { IsGame game.now }
{
    let _bins = game.m();
}

/// Items are an ascending list of sizes, with a total within the limit.
pub fn items_are_a_multiset(items: &Items)
    ensures { IsMultiset MOST_SIZE items.now }
{
    let _volume = items.volume();
}

/// The sizes that items may have are a list of sizes: at least one, strictly ascending, each from 1 to 120.
pub fn sizes_are_sizes(sizes: &Sizes)
    ensures { AreSizes MOST_SIZE sizes.now }
{
    let _first = sizes.least_above(0);
}

/// Ascending lists with the same numbers, each as often, are equal.
pub fn equal_from_counts()
    ensures { (xs ys : List ℕ) → IsNonDecreasing xs → IsNonDecreasing ys → Same xs ys → xs ≡ ys }
{}

/// Lists with the same numbers, each as often, have the same total and the same length.
pub fn totals_from_counts()
    ensures total { (xs ys : List ℕ) → Same xs ys → sum xs ≡ sum ys }
    ensures length { (xs ys : List ℕ) → Same xs ys → length xs ≡ length ys }
{}

/// A number put in at its place keeps a list ascending, and counts as it does at the list's end.
pub fn put_in_order()
    ensures ascending { (x : ℕ) (xs : List ℕ) → IsNonDecreasing xs → IsNonDecreasing (put_ascending x xs) }
    ensures counts { (x y : ℕ) (xs : List ℕ) → count y (put_ascending x xs) ≡ (if y == x then 1 else 0) + count y xs }
    ensures end { (x : ℕ) (xs : List ℕ) → Same (xs ++ x ∷ []) (put_ascending x xs) }
    ensures total { (x : ℕ) (xs : List ℕ) → sum (put_ascending x xs) ≡ x + sum xs }
{}

/// A number put in n times at its place keeps a list ascending, and counts as it does n times at the list's end.
pub fn put_times_in_order()
    ensures ascending { (n x : ℕ) (xs : List ℕ) → IsNonDecreasing xs → IsNonDecreasing (put_times n x xs) }
    ensures end { (n x : ℕ) (xs : List ℕ) → Same (xs ++ replicate n x) (put_times n x xs) }
    ensures total { (n x : ℕ) (xs : List ℕ) → sum (put_times n x xs) ≡ n * x + sum xs }
{}

/// `==` on multisets of items holds exactly where their ascending lists are equal, and equal ones hash alike.
pub fn items_equal_as_lists()
    ensures equal { (xs ys : List ℕ) → IsTrue (⟦<Items as PartialEq>⟧.eq xs ys) ↔ (xs ≡ ys) }
    ensures hash { (xs ys : List ℕ) → IsTrue (⟦<Items as PartialEq>⟧.eq xs ys)
        → ⟦<Items as Hash>⟧.hash_input xs ≡ ⟦<Items as Hash>⟧.hash_input ys }
{}
