//! The answers of an algorithm to a list of items.

ghost use Rattle.std.specs.Prelude.{◌≡◌, ◌≤◌, ◌<◌, ◌+◌, ◌*◌, ◌↔◌, ℕ, All, Err, IfOk, IsTrue, MatchOption, OnOk, sum};
ghost use Rattle.items.specs.Multiset.{IsSize, Same};
ghost use Rattle.items.specs.Packable.{Packable};
ghost use Rattle.online_play.specs.Algorithm.{bins_of};
ghost use Rattle.algorithm_graph.specs.Replies.{replies};
ghost use Rattle.match_player.specs.Answers.{IsLeastUnpackable, answered_by};
ghost use Rattle.match_player.specs.declared.answered.AnswerFault.TheVariants.{Unpackable};

use crate::answered::{AnswerFault, Answered};
use algorithm_graph::FileAlgorithm;
use algorithm_graph::laws::file_is_legal;
use items::laws::game_is_legal;
use items::{Game, Items, Nums};
use online_play::{Bins, Online, loads_after};
use reachable_loads::packable;
use std::alloc::{AllocError, Global};

/// The bins that a file's algorithm answers for the items of a list, one after the other, and the loads that these
/// give, each below the target. The cost grows with the square of the number of items, of which a packable list has at
/// most m·g, times the bins. Whether the list is packable is asked once, and only where it is not, for its prefixes.
///
/// # Errors
///
/// [`AnswerFault::Unpackable`] with the length of the least prefix that is not packable, where there is one.
pub fn answer(
    alloc: Global,
    algorithm: &FileAlgorithm,
    items: &[u16],
) -> Result<Answered, AnswerFault>
    ensures packable { OnOk result (Packable algorithm.now.game items.now) }
    ensures answered { let file = algorithm.now in
        IfOk result (λ answered. answered ≡ answered_by file.game (replies file.game file.nodes) items.now) }
    ensures below { IfOk result (λ answered. All (λ load. load < algorithm.now.game.target) answered.loads) }
    ensures unpackable { (place : ℕ) → result ≡ Err (Unpackable place)
        → IsLeastUnpackable algorithm.now.game items.now place }
{
    file_is_legal(algorithm);
    let game = algorithm.game();
    if !is_packable(alloc, &game, items)? {
        let place = least_unpackable(alloc, &game, items)?;
        return Err(AnswerFault::Unpackable { place });
    }
    let bins = bins_of(alloc, algorithm, &game, items)?;
    let loads = loads_after(&game, algorithm, items);
    Ok(Answered {
        items: Nums::from_slice(alloc, items)?,
        bins,
        loads: Nums::from_slice(alloc, loads.as_slice())?,
    })
}

// The bins that a player answers for the items of a packable list.
fn bins_of<O: Online>(
    alloc: Global,
    player: &O,
    game: &Game,
    items: &[u16],
) -> Result<Bins, AllocError>
    requires packable { Packable game.now items.now }
    ensures { IfOk result (λ bins. bins ≡ bins_of (O.answer player.now game.now) items.now) }
{
    let mut bins = Bins::new(alloc);
    for i in 0..items.len() {
        bins.push(player.place(game, &items[..i + 1]))?;
    }
    Ok(bins)
}

// Whether a list of any numbers is packable.
fn is_packable(alloc: Global, game: &Game, list: &[u16]) -> Result<bool, AllocError>
    ensures { IfOk result (λ fits. IsTrue fits ↔ Packable game.now list.now) }
{
    match multiset_of(game, list) {
        Some(items) => packable(alloc, game, &items),
        None => Ok(false),
    }
}

// The multiset of a list; none where a number is no size of the game, or the total is above that of the bins.
fn multiset_of(game: &Game, list: &[u16]) -> Option<Items>
    ensures { MatchOption result (Packable game.now list.now → ⊥) (λ items. Same list.now items) }
{
    game_is_legal(game);
    let mut items = Items::empty();
    for size in list {
        if !may_come(game, &items, *size) {
            return None;
        }
        items.put(*size);
    }
    Some(items)
}

// Whether an item is of the game and does not bring the total above that of the bins.
fn may_come(game: &Game, items: &Items, size: u16) -> bool
    ensures exact { IsTrue result ↔ (IsSize game.now.capacity size
        × (sum items.now + size ≤ game.now.bins * game.now.capacity)) }
{
    let total = game.m() * game.g();
    1 <= size && (size <= game.g() && items.volume() + size <= total)
}

// The length of the least prefix that is not packable.
fn least_unpackable(alloc: Global, game: &Game, items: &[u16]) -> Result<usize, AllocError>
    requires unpackable { Packable game.now items.now → ⊥ }
    ensures { IfOk result (IsLeastUnpackable game.now items.now) }
{
    for k in 0..items.len() {
        if !is_packable(alloc, game, &items[..k])? {
            return Ok(k);
        }
    }
    Ok(items.len())
}
