//! A packing of items.

ghost use Rattle.std.specs.Prelude.{◌≡◌, ℕ, ◌+◌, ◌-◌, ◌<◌, ◌≤◌, [], ◌∷◌, ◌++◌, length};
ghost use Rattle.std.specs.Prelude.{slice_index, slice_set, All, IfOk, MatchOption};
ghost use Rattle.std.specs.Bool.{OnTrue, OnFalse};
ghost use Rattle.items.specs.Multiset.{IsSize};
ghost use Rattle.items.specs.Packable.{IsAssignment, IsPacking, Packable};
ghost use Rattle.packing_witness.specs.Contents.{items_in};

use crate::best_fit::{best_fit, descending};
use crate::placing::place_all;
use items::{Game, Items, Nums};
use packing_witness::Packing;
use std::alloc::{AllocError, Global};

/// A packing of the items; None exactly where they do not fit offline. Which packing it is, is free: that of
/// best fit where it places them, else one found by placing. Fails only where memory runs out.
pub fn pack(alloc: Global, game: &Game, items: &Items) -> Result<Option<Packing>, AllocError>
    ensures exact { IfOk result (λ found. MatchOption found
        (¬ Packable game.now items.now) (λ packing. IsPacking game.now packing items.now)) }
{
    if items.largest() > game.g() {
        return Ok(None);
    }
    let list = descending(alloc, items)?;
    match assign(alloc, game, list.as_slice())? {
        Some(bins) => {
            let packing = packing_of(alloc, game, list.as_slice(), bins.as_slice())?;
            Ok(Some(packing))
        }
        None => Ok(None),
    }
}

// A bin for each item; None exactly where the items do not fit.
fn assign(alloc: Global, game: &Game, items: &[u16]) -> Result<Option<Vec<usize>>, AllocError>
    requires { All (IsSize game.now.capacity) items.now }
    ensures { IfOk result (λ found. MatchOption found
        (¬ Packable game.now items.now) (λ bins. IsAssignment game.now items.now bins.items)) }
{
    match best_fit(alloc, game, items)? {
        Some(bins) => Ok(Some(bins)),
        None => place_all(alloc, game, items),
    }
}

// The packing that puts each item in its bin.
fn packing_of(
    alloc: Global,
    game: &Game,
    items: &[u16],
    bins: &[usize],
) -> Result<Packing, AllocError>
    requires { IsAssignment game.now items.now bins.now }
    ensures { IfOk result (λ packing. IsPacking game.now packing items.now) }
{
    let mut packing = Packing::new(alloc);
    for bin in 0..usize::from(game.m()) {
        packing.push_bin(contents(alloc, items, bins, bin)?)?;
    }
    Ok(packing)
}

// The items in a bin.
fn contents(alloc: Global, items: &[u16], bins: &[usize], bin: usize) -> Result<Nums, AllocError>
    requires { length bins.now ≡ length items.now }
    ensures { IfOk result (λ list. list ≡ items_in bin items.now bins.now) }
{
    let mut list = Nums::new(alloc);
    for (i, item) in items.iter().enumerate() {
        if bins[i] == bin {
            list.push(*item)?;
        }
    }
    Ok(list)
}
