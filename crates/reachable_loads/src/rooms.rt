//! The room and the packability of a multiset of items.

ghost use Rattle.std.specs.Prelude.{◌≡◌, ◌≢◌, ◌↔◌, ℕ, ◌+◌, ◌≤◌, [], ◌∷◌, ◌++◌, drop, length, sum, All, IfOk, IsTrue};
ghost use Rattle.std.specs.Bool.{OnTrue};
ghost use Rattle.items.specs.Multiset.{IsSize};
ghost use Rattle.items.specs.Packable.{IsRoom, Packable};
ghost use Rattle.reachable_loads.specs.Rooms.{IsRoomBetween};

use crate::best_fit::{COMMON, descending, fits_by_best_fit, push_descending, room_by_best_fit};
use crate::placing::place_all;
use items::{Game, Items};
use std::alloc::{AllocError, Global};

/// The greatest size of an item that may come next, so that the items still fit; 0 where none may, and
/// where the items do not fit. Mostly best fit shows it at once, and takes no memory; else the items are placed
/// exactly with one more, of each size from that on which best fit leaves. Fails only where memory runs out.
pub fn room_of(alloc: Global, game: &Game, items: &Items) -> Result<u16, AllocError>
    ensures exact { IfOk result (IsRoom game.now items.now) }
{
    let (least, most) = room_bounds(game, items, game.g());
    if least == most {
        return Ok(least);
    }
    room_between(alloc, game, items, least, most)
}

/// A size from which on the room is and one up to which it is, where a bound on it is known. Mostly they are one, the
/// room. Takes no memory.
pub fn room_bounds(game: &Game, items: &Items, most: u16) -> (u16, u16)
    requires bound { (size : ℕ) → Packable game.now (items.now ++ size ∷ []) → size ≤ most }
    ensures between { IsRoomBetween game.now items.now result.0 result.1 }
    ensures room { result.0 ≡ result.1 → IsRoom game.now items.now result.0 }
{
    let most = most.min(room_by_volume(game, items));
    if most == 0 {
        return (0, 0);
    }
    (room_by_best_fit(game, items), most)
}

/// Whether the items fit: whether they have an assignment. Fails only where memory runs out.
pub fn packable(alloc: Global, game: &Game, items: &Items) -> Result<bool, AllocError>
    ensures exact { IfOk result (λ fits. IsTrue fits ↔ Packable game.now items.now) }
{
    if items.largest() > game.g() {
        return Ok(false);
    }
    if fits_by_best_fit(game, items) {
        return Ok(true);
    }
    let list = descending(alloc, items)?;
    let fits = fits_by_placing(alloc, game, list.as_slice())?;
    Ok(fits)
}

// What the total of the bins and the capacity leave; 0 where an item is above the capacity.
fn room_by_volume(game: &Game, items: &Items) -> u16
    ensures bound { (size : ℕ) → Packable game.now (items.now ++ size ∷ []) → size ≤ result }
    ensures within { result ≤ game.now.capacity }
    ensures sizes { 1 ≤ result → All (IsSize game.now.capacity) items.now }
{
    let capacity = game.g();
    if items.largest() > capacity {
        return 0;
    }
    let bins = game.m();
    (bins * capacity)
        .saturating_sub(items.volume())
        .min(capacity)
}

// Whether a list of items fits.
fn fits_by_placing(alloc: Global, game: &Game, list: &[u16]) -> Result<bool, AllocError>
    requires { All (IsSize game.now.capacity) list.now }
    ensures { IfOk result (λ fits. IsTrue fits ↔ Packable game.now list.now) }
{
    match place_all(alloc, game, list)? {
        Some(_bins) => Ok(true),
        None => Ok(false),
    }
}

/// The room, where it is told that it is from a size on and up to another. The items are placed with one more, of each
/// size between them. Fails only where memory runs out.
pub fn room_between(
    alloc: Global,
    game: &Game,
    items: &Items,
    least: u16,
    most: u16,
) -> Result<u16, AllocError>
    requires between { IsRoomBetween game.now items.now least most }
    requires apart { least ≢ most }
    ensures exact { IfOk result (IsRoom game.now items.now) }
{
    let mut list = Vec::with_capacity(alloc, COMMON)?;
    list.push(most)?;
    push_descending(&mut list, items)?;
    let room = room_by_placing(alloc, game, list.as_mut_slice(), least, most)?;
    Ok(room)
}

// The room of a list but for its first place, from a size on that may come, or from 0, by placing the list with each
// larger size there.
fn room_by_placing(
    alloc: Global,
    game: &Game,
    list: &mut [u16],
    least: u16,
    most: u16,
) -> Result<u16, AllocError>
    requires first { 1 ≤ length list.old }
    requires sizes { All (IsSize game.now.capacity) (drop 1 list.old) }
    requires order { least ≤ most }
    requires within { most ≤ game.now.capacity }
    requires may_come { 1 ≤ least → Packable game.now (drop 1 list.old ++ least ∷ []) }
    requires bound { (size : ℕ) → Packable game.now (drop 1 list.old ++ size ∷ []) → size ≤ most }
    ensures { IfOk result (IsRoom game.now (drop 1 list.old)) }
{
    for size in least..most {
        list[0] = size + 1;
        if !fits_by_placing(alloc, game, list)? {
            return Ok(size);
        }
    }
    Ok(most)
}
