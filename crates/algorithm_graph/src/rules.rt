//! The rules of an algorithm's node.

ghost use Rattle.std.specs.Prelude.{◌≡◌, ◌↔◌, ◌++◌, ◌≤◌, ◌<◌, IsTrue, All, Contains, MatchOption};
ghost use Rattle.std.specs.Prelude.{IfOk, length, slice_get, Some, sum, take, ℕ};
ghost use Rattle.items.specs.Multiset.{IsMultiset, IsSize, sizes_of};
ghost use Rattle.loads.specs.Loads.{IsLoads};
ghost use Rattle.loads.specs.Position.{AreItemsOf, IsEmptyPosition, position};
ghost use Rattle.strategy_text.specs.Rules.{AllMet};
ghost use Rattle.algorithm_graph.specs.Nodes.{entries_of};
ghost use Rattle.algorithm_graph.specs.Rules.{MeetsRules, Breaks, Meets, NamesLoad, rules_past_items};
ghost use Rattle.algorithm_graph.specs.Rules.{FinishesIfSaid, BigFinishesIfSaid, RepliesIfSaid};
ghost use Rattle.algorithm_graph.specs.Judging.{node_at, sizes_in, sizes_up_to, if_one_of, BreaksPastItems};
ghost use Rattle.algorithm_graph.specs.Judging.{HaveRoom, HasSize, LeadsOn};

use good_situations::{big_finishes, finishes};
use items::laws::game_is_legal;
use items::{Game, Items, MOST_SIZE, Sizes};
use loads::{EarlierPositions, Loads, are_items_of};
use node_pool::Terms;
use reachable_loads::room_of;
use std::alloc::{AllocError, Global};
use strategy_text::{Act, AlgNode, Entry, Format, Rule};

/// The first rule that the node breaks under these terms as the node that follows the earlier ones; None exactly where
/// it breaks none. The rule `root` is judged only where the node is the last one. A node that replies costs the room of
/// its items, once; any other is judged without memory.
pub fn judge<E: EarlierPositions>(
    alloc: Global,
    terms: &Terms,
    earlier: &E,
    last: bool,
    node: &AlgNode,
) -> Result<Option<Rule>, AllocError>
    ensures exact { let terms = terms.now in IfOk result (λ fault. MatchOption fault
        (MeetsRules terms.game terms.sizes (E.positions earlier.now) last node.now)
        (Breaks terms.game terms.sizes (E.positions earlier.now) last node.now)) }
{
    let loads = node.loads.as_slice();
    let Some(loads) = Loads::from_slice(alloc, &terms.game(), loads) else {
        return Ok(Some(Rule::Loads));
    };
    let items = node.items.as_slice();
    if !are_items_of(terms.sizes(), &loads, items) {
        return Ok(Some(Rule::Items));
    }
    fault_past_items(alloc, terms, earlier, last, &loads, items, &node.act)
}

/// The first rule of the whole game that the node breaks as the node that follows the earlier ones; None exactly
/// where it breaks none. The rule `root` is judged only where the node is the last one. The cost is that of `judge`.
pub fn node_fault<E: EarlierPositions>(
    alloc: Global,
    game: &Game,
    earlier: &E,
    last: bool,
    node: &AlgNode,
) -> Result<Option<Rule>, AllocError>
    ensures exact { IfOk result (λ fault. MatchOption fault
        (MeetsRules game.now (sizes_of game.now) (E.positions earlier.now) last node.now)
        (Breaks game.now (sizes_of game.now) (E.positions earlier.now) last node.now)) }
{
    judge(
        alloc,
        &Terms::of_game(Format::Two, game),
        earlier,
        last,
        node,
    )
}

// The first rule past `items` that a node breaks which does this at the position of these loads and items.
fn fault_past_items<E: EarlierPositions>(
    alloc: Global,
    terms: &Terms,
    earlier: &E,
    last: bool,
    loads: &Loads,
    items: &[u16],
    act: &Act,
) -> Result<Option<Rule>, AllocError>
    requires loads { IsLoads terms.now.game loads.now }
    requires items { AreItemsOf terms.now.sizes loads.now items.now }
    ensures exact { let node = node_at (position loads.now items.now) act.now in let terms = terms.now in
        IfOk result (λ fault. MatchOption fault
        (AllMet (Meets terms.game terms.sizes (E.positions earlier.now) last node) rules_past_items)
        (BreaksPastItems terms.game terms.sizes (E.positions earlier.now) last node)) }
{
    let game = &terms.game();
    if !finishes_if_said(game, loads, items, act) {
        return Ok(Some(Rule::Finish));
    }
    if !big_finishes_if_said(game, loads, items, act) {
        return Ok(Some(Rule::Big));
    }
    if !replies_if_said(alloc, terms, loads, items, act)? {
        return Ok(Some(Rule::Replies));
    }
    let entries = entries_of(act);
    if !name_loads(game, loads, entries) {
        return Ok(Some(Rule::Reply));
    }
    if !lead_to_children(game, earlier, loads, items, entries) {
        return Ok(Some(Rule::Child));
    }
    if last && !is_root(loads, items) {
        return Ok(Some(Rule::Root));
    }
    Ok(None)
}

fn finishes_if_said(game: &Game, loads: &Loads, items: &[u16], act: &Act) -> bool
    ensures { IsTrue result ↔ FinishesIfSaid game.now (node_at (position loads.now items.now) act.now) act.now }
{
    match act {
        Act::Finish => finishes(game, loads),
        Act::Big(_) => true,
        Act::Reply(_) => true,
    }
}

fn big_finishes_if_said(game: &Game, loads: &Loads, items: &[u16], act: &Act) -> bool
    requires { IsMultiset game.now.capacity items.now }
    ensures { IsTrue result ↔ BigFinishesIfSaid game.now (node_at (position loads.now items.now) act.now) act.now }
{
    match act {
        Act::Finish => true,
        Act::Big(b) => {
            let items = Items::from_slice(game, items).unwrap();
            big_finishes(game, loads, &items, *b)
        }
        Act::Reply(_) => true,
    }
}

// Whether a node that replies does so to each size that may come.
fn replies_if_said(
    alloc: Global,
    terms: &Terms,
    loads: &Loads,
    items: &[u16],
    act: &Act,
) -> Result<bool, AllocError>
    requires { IsMultiset terms.now.game.capacity items.now }
    ensures { IfOk result (λ met. IsTrue met
        ↔ RepliesIfSaid terms.now.game terms.now.sizes (node_at (position loads.now items.now) act.now) act.now) }
{
    match act {
        Act::Finish => Ok(true),
        Act::Big(_) => Ok(true),
        Act::Reply(entries) => {
            let room = room_after(alloc, &terms.game(), items)?;
            Ok(are_sizes_up_to(terms.sizes(), room, entries.as_slice()))
        }
    }
}

// The greatest size of an item with which the items are packable, and 0 where there is none.
fn room_after(alloc: Global, game: &Game, items: &[u16]) -> Result<u16, AllocError>
    requires { IsMultiset game.now.capacity items.now }
    ensures { IfOk result (HaveRoom game.now items.now) }
{
    let items = Items::from_slice(game, items).unwrap();
    let room = room_of(alloc, game, &items)?;
    Ok(room)
}

// Whether the entries have the sizes that are at most the room, ascending.
fn are_sizes_up_to(sizes: &Sizes, room: u16, entries: &[Entry]) -> bool
    ensures { IsTrue result ↔ (sizes_in entries.now ≡ sizes_up_to sizes.now room) }
{
    let mut place = 0;
    for below in 0..room {
        let Some(next) = past_entry(sizes, entries, place, below + 1) else {
            return false;
        };
        place = next;
    }
    place == entries.len()
}

// The place after the entry of this size, and the same place where items do not have the size; None where the entry
// of a size that they have does not stand there.
fn past_entry(sizes: &Sizes, entries: &[Entry], place: usize, size: u16) -> Option<usize>
    requires { place ≤ length entries.now }
    ensures { let in_order = sizes_in entries.now in MatchOption result
        (Contains sizes.now size × (slice_get in_order place ≡ Some size → ⊥))
        (λ next. (next ≤ length entries.now) × (take next in_order ≡ take place in_order ++ if_one_of sizes.now size)) }
{
    if !sizes.contains(size) {
        return Some(place);
    }
    if place < entries.len() && entries[place].size == size {
        return Some(place + 1);
    }
    None
}

// The entries of a node that replies; none of any other.
fn entries_of(act: &Act) -> &[Entry]
    ensures { result.now ≡ entries_of act.now }
{
    match act {
        Act::Finish => &[],
        Act::Big(_) => &[],
        Act::Reply(entries) => entries.as_slice(),
    }
}

fn name_loads(game: &Game, loads: &Loads, entries: &[Entry]) -> bool
    ensures { IsTrue result ↔ All (NamesLoad game.now loads.now) entries.now }
{
    for entry in entries {
        if !names_load(game, loads, entry) {
            return false;
        }
    }
    true
}

fn names_load(game: &Game, loads: &Loads, entry: &Entry) -> bool
    ensures exact { IsTrue result ↔ NamesLoad game.now loads.now entry.now }
{
    has_load(loads.as_slice(), entry.load)
        && u32::from(entry.load) + u32::from(entry.size) < u32::from(game.t())
}

fn has_load(loads: &[u16], load: u16) -> bool
    ensures { IsTrue result ↔ Contains loads.now load }
{
    loads.contains(&load)
}

// Whether each entry leads to an earlier node at the position after its item.
fn lead_to_children<E: EarlierPositions>(
    game: &Game,
    earlier: &E,
    loads: &Loads,
    items: &[u16],
    entries: &[Entry],
) -> bool
    requires loads { IsLoads game.now loads.now }
    requires total { sum items.now ≡ sum loads.now }
    requires items { IsMultiset MOST_SIZE items.now }
    requires sizes { All (HasSize game.now) entries.now }
    requires named { All (NamesLoad game.now loads.now) entries.now }
    ensures exact { IsTrue result
        ↔ All (LeadsOn (E.positions earlier.now) (position loads.now items.now)) entries.now }
{
    for entry in entries {
        if !leads_to_child(game, earlier, loads, items, entry) {
            return false;
        }
    }
    true
}

fn leads_to_child<E: EarlierPositions>(
    game: &Game,
    earlier: &E,
    loads: &Loads,
    items: &[u16],
    entry: &Entry,
) -> bool
    requires loads { IsLoads game.now loads.now }
    requires total { sum items.now ≡ sum loads.now }
    requires items { IsMultiset MOST_SIZE items.now }
    requires size { HasSize game.now entry.now }
    requires named { NamesLoad game.now loads.now entry.now }
    ensures exact { IsTrue result
        ↔ LeadsOn (E.positions earlier.now) (position loads.now items.now) entry.now }
{
    game_is_legal(game);
    earlier.is_after(entry.to as usize, loads, items, entry.load, entry.size)
}

// Whether all bins are empty and there are no items.
fn is_root(loads: &Loads, items: &[u16]) -> bool
    ensures exact { IsTrue result ↔ IsEmptyPosition (position loads.now items.now) }
{
    items.is_empty() && loads.as_slice().iter().all(|load| *load == 0)
}
