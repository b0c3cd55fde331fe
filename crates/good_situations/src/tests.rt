ghost use Rattle.std.specs.Prelude.{◌↔◌, IsTrue};
ghost use Rattle.good_situations.specs.KeptOrder.{CanAdd};

use super::*;
use items::{Game, Items};
use loads::Loads;
use std::alloc::Global;
use std::test::Fail;

// A position of a game.
fn position(
    alloc: Global,
    game: &Game,
    loads: &[u16],
    items: &[u16],
) -> Result<(Loads, Items), Fail> {
    let loads = Loads::from_slice(alloc, game, loads).ok_or("no loads")?;
    let items = Items::from_slice(game, items).ok_or("no items")?;
    Ok((loads, items))
}

// Whether an item can be added to each load.
fn fits(actual: &[u16], s: u16) -> bool
    ensures { IsTrue result ↔ CanAdd actual.now s }
{
    actual
        .iter()
        .all(|load| u32::from(*load) + u32::from(s) <= 65535)
}

// The bins of three items under an order kept at `finish`, in a game of three bins.
fn finish_bins(game: &Game, mut actual: [u16; 3], sizes: [u16; 3]) -> Option<[u8; 3]> {
    if game.m() != 3 {
        return None;
    }
    let order = Finish::begin(game, &actual);
    let mut bins = [0; 3];
    for (i, s) in sizes.iter().enumerate() {
        if !fits(&actual, *s) {
            return None;
        }
        let bin = order.bin(&actual, *s);
        bins[i] = bin;
        actual[usize::from(bin)] += *s;
    }
    Some(bins)
}

// The bins of three items under an order kept at `big`, in a game of three bins.
fn big_bins(game: &Game, mut actual: [u16; 3], b: u16, sizes: [u16; 3]) -> Option<[u8; 3]> {
    if game.m() != 3 || b > 2 {
        return None;
    }
    let mut order = BigFinish::begin(game, &actual, b);
    let mut bins = [0; 3];
    for (i, s) in sizes.iter().enumerate() {
        if !fits(&actual, *s) {
            return None;
        }
        let bin = order.place(game, &actual, *s);
        bins[i] = bin;
        actual[usize::from(bin)] += *s;
    }
    Some(bins)
}

#[test]
fn loads_finish_where_they_cover_what_the_bins_hold(rt: HostRuntime) -> Result<(), Fail> {
    let cases = [
        (2, 2, 3, [2, 0], true),
        (2, 2, 3, [1, 1], false),
        (2, 2, 3, [0, 0], false),
        (2, 3, 5, [0, 0], true),
    ];
    for (m, g, t, loads, want) in cases {
        let game = Game::new(m, g, t)?;
        let (loads, _items) = position(rt.alloc(), &game, &loads, &[])?;
        assert_eq!(rt; finishes(&game, &loads), want);
    }
    for (t, want) in [(240, true), (226, true), (225, false)] {
        let game = Game::new(8, 120, t)?;
        assert_eq!(rt; finishes(&game, &Loads::zero(rt.alloc(), &game)), want);
    }
    Ok(())
}

// Loads of the game 3 6 9, a load among them, an item, and whether the loads after it finish: whether the first two,
// each at least 3, come to 10.
const AFTER: [([u16; 3], u16, u16, bool); 6] = [
    ([5, 2, 0], 5, 2, true),
    ([5, 2, 0], 5, 1, false),
    ([5, 2, 0], 2, 3, true),
    ([5, 2, 0], 2, 2, false),
    ([6, 3, 1], 1, 3, true),
    ([5, 3, 3], 3, 1, false),
];

// Whether the loads after an item finish, where the item fits a load of the game 3 6 9.
fn finish_after(alloc: Global, list: &[u16], load: u16, s: u16) -> Option<bool> {
    let game = Game::new(3, 6, 9).ok()?;
    let loads = Loads::from_slice(alloc, &game, list)?;
    if list.contains(&load) && s < 9 && load < 9 - s {
        Some(finishes_after(&game, &loads, load, s))
    } else {
        None
    }
}

#[test]
fn loads_after_an_item_finish_as_they_do(rt: HostRuntime) {
    for (list, load, s, want) in &AFTER {
        assert!(rt; finish_after(rt.alloc(), list, *load, *s) == Some(*want));
    }
}

#[test]
fn the_least_number_of_reserved_bins_is_found(rt: HostRuntime) -> Result<(), Fail> {
    let cases = [
        (9, [4, 4, 4].as_slice(), [4, 4, 4].as_slice(), Some(0)),
        (9, [4, 4, 0].as_slice(), [4, 4].as_slice(), None),
        (9, [8, 4, 2].as_slice(), [2, 2, 2, 4, 4].as_slice(), Some(1)),
        (10, [4, 3].as_slice(), [3, 4].as_slice(), Some(1)),
        (9, [4, 3].as_slice(), [3, 4].as_slice(), None),
    ];
    for (t, loads, items, want) in cases {
        let game = Game::new(loads.len() as u16, 6, t)?;
        let (loads, items) = position(rt.alloc(), &game, loads, items)?;
        assert_eq!(rt; big_bound(&game, &loads, &items), want);
        for b in [0, 1, 2, 3, 65535] {
            let meets = want.is_some_and(|least| b == least);
            assert_eq!(rt; big_finishes(&game, &loads, &items, b), meets);
        }
    }
    Ok(())
}

#[test]
fn items_go_to_the_bins_of_the_kept_order(rt: HostRuntime) -> Result<(), Fail> {
    let game = Game::new(3, 4, 7)?;
    assert_eq!(rt; finish_bins(&game, [0, 0, 0], [3, 4, 1]), Some([0, 1, 0]));
    assert_eq!(rt; finish_bins(&game, [0, 0, 0], [4, 4, 4]), Some([0, 1, 2]));
    let game = Game::new(3, 6, 9)?;
    assert_eq!(rt; finish_bins(&game, [4, 0, 7], [1, 1, 5]), Some([2, 0, 1]));
    assert_eq!(rt; big_bins(&game, [4, 4, 4], 0, [3, 2, 1]), Some([0, 1, 0]));
    assert_eq!(rt; big_bins(&game, [8, 4, 2], 1, [1, 3, 4]), Some([1, 1, 2]));
    assert_eq!(rt; big_bins(&game, [8, 4, 2], 1, [4, 4, 1]), Some([2, 0, 1]));
    Ok(())
}
