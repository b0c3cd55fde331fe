ghost use Rattle.std.specs.Prelude.{◌+◌, ◌<◌};

use super::*;
use items::{Game, Items, Sizes};
use std::alloc::Global;
use std::collections::HashSet;

// The loads of a list, if they are loads of so many bins below 240.
fn loads_of(alloc: Global, bins: u16, list: &[u16]) -> Option<Loads> {
    let game = Game::new(bins, 120, 240).ok()?;
    Loads::from_slice(alloc, &game, list)
}

// An item of size 120, and up to 60 of size 1.
fn items_of(ones: u16) -> Items {
    Items::empty().add(120).add_times(1, ones.min(60))
}

#[test]
fn only_descending_loads_below_the_target_are_taken(rt: HostRuntime) {
    let cases: [(&[u16], bool); 7] = [
        (&[0, 0, 0], true),
        (&[239, 239, 1], true),
        (&[4, 1, 4], false),
        (&[240, 0, 0], false),
        (&[1, 1], false),
        (&[1, 1, 1, 1], false),
        (&[], false),
    ];
    for (list, taken) in cases {
        assert!(rt; loads_of(rt.alloc(), 3, list).is_some() == taken);
    }
}

// Whether an item of size `s` leads from one list of loads to another; to none where no bin has the load.
fn leads_to(alloc: Global, game: Game, list: &[u16], load: u16, s: u16, after: &[u16]) -> bool
    requires { load + s < game.target }
{
    let Some(loads) = Loads::from_slice(alloc, &game, list) else {
        return false;
    };
    match loads.place(&game, load, s) {
        Some(placed) => placed.as_slice() == after,
        None => after.is_empty(),
    }
}

#[test]
fn an_item_goes_to_one_bin_of_its_load(rt: HostRuntime) {
    let game = Game::new(2, 3, 4).ok().expect(&rt, "a game");
    assert!(rt; leads_to(rt.alloc(), game, &[2, 0], 0, 2, &[2, 2]));
    assert!(rt; leads_to(rt.alloc(), game, &[2, 2], 2, 1, &[3, 2]));
    assert!(rt; leads_to(rt.alloc(), game, &[2, 0], 1, 1, &[]));
}

#[test]
fn a_grown_load_moves_to_its_place(rt: HostRuntime) {
    let game = Game::new(8, 60, 120).ok().expect(&rt, "a game");
    let before = [90, 70, 70, 50, 30, 30, 10, 0];
    let after = [90, 75, 70, 70, 50, 30, 10, 0];
    assert!(rt; leads_to(rt.alloc(), game, &before, 30, 45, &after));
}

// Whether these are the different loads of a list.
fn are_distinct(alloc: Global, list: &[u16], distinct: &[u16]) -> Option<bool> {
    let loads = loads_of(alloc, 5, list)?;
    if loads.distinct_count() != distinct.len() {
        return Some(false);
    }
    for (i, load) in distinct.iter().enumerate() {
        if loads.distinct_at(i) != *load {
            return Some(false);
        }
    }
    Some(true)
}

#[test]
fn different_loads_are_counted_from_the_greatest(rt: HostRuntime) {
    let alloc = rt.alloc();
    assert!(rt; are_distinct(alloc, &[7, 7, 3, 0, 0], &[7, 3, 0]) == Some(true));
    assert!(rt; are_distinct(alloc, &[0, 0, 0, 0, 0], &[0]) == Some(true));
}

#[test]
fn loads_of_bins_are_sorted_downwards(rt: HostRuntime) {
    let game = Game::new(5, 10, 20).ok().expect(&rt, "a game");
    let actual = [3, 0, 7, 0, 7];
    let sorted = Loads::sorted(rt.alloc(), &game, &actual);
    assert!(rt; sorted.as_slice() == [7, 7, 3, 0, 0].as_slice());
    assert!(rt; same_up_to_renaming(&actual, &sorted));
    assert!(rt; !same_up_to_renaming(&[3, 0, 7, 3, 7], &sorted));
}

#[test]
fn the_lowest_bin_with_a_load_is_named(rt: HostRuntime) {
    let actual = [3, 0, 7, 0, 7];
    assert!(rt; bin_with(&actual, 7) == Some(2));
    assert!(rt; bin_with(&actual, 0) == Some(1));
    assert!(rt; bin_with(&actual, 5).is_none());
}

#[test]
fn positions_are_found_by_their_number(rt: HostRuntime) {
    let game = Game::new(3, 3, 5).ok().expect(&rt, "a game");
    let loads = Loads::zero(rt.alloc(), &game);
    let mut positions = Positions::new(rt.alloc());
    let items = Items::empty();
    assert!(rt; positions.push(Position { loads, items }).is_ok());
    let first = positions.get(0).expect(&rt, "a position");
    assert!(rt; first.loads.as_slice() == [0, 0, 0].as_slice());
    assert!(rt; positions.len() == 1 && positions.get(1).is_none());
}

fn position_of(alloc: Global, loads: &[u16], ones: u16) -> Option<Position> {
    let loads = loads_of(alloc, 2, loads)?;
    let items = items_of(ones);
    Some(Position { loads, items })
}

// Whether a set that has the first position has the other.
fn is_one_key(alloc: Global, first: Position, other: &Position) -> Option<bool> {
    let mut seen = HashSet::new(alloc);
    seen.insert(first).ok()?;
    Some(seen.contains(other))
}

// Whether the position of loads 1 1 and two items is one key with another.
fn is_key_of(alloc: Global, loads: &[u16], ones: u16) -> Option<bool> {
    let first = position_of(alloc, &[1, 1], 2)?;
    is_one_key(alloc, first, &position_of(alloc, loads, ones)?)
}

#[test]
fn equal_positions_are_one_key(rt: HostRuntime) {
    assert!(rt; is_key_of(rt.alloc(), &[1, 1], 2) == Some(true));
    assert!(rt; is_key_of(rt.alloc(), &[2, 0], 2) == Some(false));
    assert!(rt; is_key_of(rt.alloc(), &[1, 1], 1) == Some(false));
}

fn loads_of_8(alloc: Global) -> Option<Loads> {
    loads_of(alloc, 8, &[239, 120, 120, 7, 1, 0, 0, 0])
}

fn packed(alloc: Global, ones: u16) -> Option<PackedPosition> {
    let loads = loads_of_8(alloc)?;
    PackedPosition::of(alloc, &loads, &items_of(ones)).ok()
}

fn comes_back(alloc: Global, ones: u16) -> Option<bool> {
    let packed = packed(alloc, ones)?;
    let loads = loads_of_8(alloc)?;
    Some(packed.loads().same(&loads.copy()) && packed.items().same(&items_of(ones)))
}

// Whether the positions with so many ones are packed alike.
fn are_alike(alloc: Global, ones: u16, others: u16) -> Option<bool> {
    let first = packed(alloc, ones)?.copy().ok()?;
    Some(first == packed(alloc, others)?)
}

#[test]
fn packed_positions_come_back_whole(rt: HostRuntime) {
    assert!(rt; comes_back(rt.alloc(), 0) == Some(true));
    assert!(rt; comes_back(rt.alloc(), 60) == Some(true));
    assert!(rt; are_alike(rt.alloc(), 60, 60) == Some(true));
    assert!(rt; are_alike(rt.alloc(), 60, 59) == Some(false));
}

// The list of the positions with so many ones, in their order.
fn list_of(alloc: Global, loads: &Loads, each: [u16; 4]) -> Option<PackedPositions> {
    let mut list = PackedPositions::new(alloc);
    for ones in each {
        list.push(loads, &items_of(ones)).ok()?;
    }
    Some(list)
}

fn has(list: &PackedPositions, i: usize, loads: &Loads, ones: u16) -> bool {
    match list.get(i) {
        Some(position) => position.loads.same(loads) && position.items.same(&items_of(ones)),
        None => false,
    }
}

// In a slot lie up to 21 loads and items.
#[test]
fn packed_positions_are_found_by_their_number(rt: HostRuntime) {
    let loads = loads_of(rt.alloc(), 3, &[3, 2, 2]).expect(&rt, "loads");
    let list = list_of(rt.alloc(), &loads, [17, 18, 0, 4]).expect(&rt, "positions");
    for (i, ones) in [(0, 17), (1, 18), (2, 0), (3, 4)] {
        assert!(rt; has(&list, i, &loads, ones));
    }
    assert!(rt; !has(&list, 0, &loads, 18));
    assert!(rt; list.len() == 4 && list.get(4).is_none());
}

// A list of three positions, of which the first two follow loads 3 2 2 with items 1 1 2 3.
fn given_as_lists(alloc: Global) -> Option<PackedPositions> {
    let mut list = PackedPositions::new(alloc);
    list.push_lists(&[4, 2, 2], &[1, 1, 1, 2, 3]).ok()?;
    list.push_lists(&[3, 3, 2], &[1, 1, 1, 2, 3]).ok()?;
    list.push_lists(&[4, 2, 2], &[1, 1, 2, 2, 2]).ok()?;
    Some(list)
}

// Whether a position is the one after an item of size 1 went to a bin of loads 3 2 2 that has this load.
fn is_after(list: &PackedPositions, i: usize, before: &Loads, load: u16) -> Option<bool> {
    if load > 3 || bin_with(before.as_slice(), load).is_none() {
        return None;
    }
    Some(list.is_after(i, before, &[1, 1, 2, 3], load, 1))
}

#[test]
fn a_position_given_as_lists_is_found_after_an_item(rt: HostRuntime) {
    let list = given_as_lists(rt.alloc()).expect(&rt, "positions");
    let loads = loads_of(rt.alloc(), 3, &[3, 2, 2]).expect(&rt, "loads");
    let cases = [
        (0, 3, true),
        (1, 2, true),
        (0, 2, false),
        (2, 3, false),
        (3, 3, false),
    ];
    for (i, load, after) in cases {
        assert!(rt; is_after(&list, i, &loads, load) == Some(after));
    }
}

#[test]
fn items_of_loads_ascend_to_their_sum(rt: HostRuntime) {
    let game = Game::new(3, 3, 5).ok().expect(&rt, "a game");
    let loads = loads_of(rt.alloc(), 3, &[3, 2, 2]).expect(&rt, "loads");
    let sizes = Sizes::of_game(&game);
    let cases: [(&[u16], bool); 5] = [
        (&[1, 1, 2, 3], true),
        (&[1, 2, 1, 3], false),
        (&[1, 1, 2, 2], false),
        (&[1, 1, 1, 4], false),
        (&[3, 3, 3], false),
    ];
    for (items, of_loads) in cases {
        assert!(rt; are_items_of(&sizes, &loads, items) == of_loads);
    }
}
