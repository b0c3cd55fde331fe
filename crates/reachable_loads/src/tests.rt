ghost use Rattle.std.specs.Prelude.{◌≡◌, ◌<◌};

use super::*;
use crate::best_fit::{best_fit, descending, fits_by_best_fit, room_by_best_fit};
use crate::sets::Sets;
use items::{Game, Items, Nums};
use reach_planes::Planes;
use std::alloc::{AllocError, Global};
use std::test::Fail;

// What is told after these items, one after the other.
fn told(alloc: Global, game: &Game, items: &[u16]) -> Result<(bool, u16), AllocError> {
    let mut reach = Reach::start(alloc, game)?;
    for s in items {
        if 1 <= *s && *s <= game.g() {
            let next = reach.add(*s)?;
            reach = next;
        }
    }
    Ok((reach.packable(), reach.room()))
}

#[test]
fn room_and_packability_of_two_bins(rt: HostRuntime) -> Result<(), Fail> {
    let game = Game::new(2, 3, 4)?;
    assert_eq!(rt; told(rt.alloc(), &game, &[])?, (true, 3));
    assert_eq!(rt; told(rt.alloc(), &game, &[1, 1])?, (true, 3));
    assert_eq!(rt; told(rt.alloc(), &game, &[1, 1, 2])?, (true, 2));
    assert_eq!(rt; told(rt.alloc(), &game, &[1, 1, 2, 2])?, (true, 0));
    assert_eq!(rt; told(rt.alloc(), &game, &[1, 1, 2, 2, 1])?, (false, 0));
    Ok(())
}

#[test]
fn room_and_packability_of_three_bins(rt: HostRuntime) -> Result<(), Fail> {
    let game = Game::new(3, 3, 4)?;
    assert_eq!(rt; told(rt.alloc(), &game, &[2, 2, 2])?, (true, 1));
    assert_eq!(rt; told(rt.alloc(), &game, &[2, 2, 2, 1, 1, 1])?, (true, 0));
    assert_eq!(rt; told(rt.alloc(), &game, &[2, 2, 2, 2])?, (false, 0));
    Ok(())
}

// Whether the answer is a packing that holds, or none where none is wanted.
fn packs_rightly(
    alloc: Global,
    game: &Game,
    list: &[u16],
    wanted: bool,
) -> Result<bool, AllocError> {
    match Items::from_slice(game, list) {
        Some(items) => match pack(alloc, game, &items)? {
            Some(packing) => Ok(wanted && packing.holds(game, &items)),
            None => Ok(!wanted),
        },
        None => Ok(true),
    }
}

#[test]
fn a_packing_that_is_answered_holds(rt: HostRuntime) -> Result<(), Fail> {
    let game = Game::new(2, 3, 4)?;
    assert!(rt; packs_rightly(rt.alloc(), &game, &[2, 2, 2], false)?);
    assert!(rt; packs_rightly(rt.alloc(), &game, &[1, 1, 2, 2], true)?);
    assert!(rt; packs_rightly(rt.alloc(), &game, &[], true)?);
    let large = Items::empty().add(4);
    assert!(rt; pack(rt.alloc(), &game, &large)?.is_none());
    Ok(())
}

// Whether this is the room, and whether they fit, that is told of a list as a multiset.
fn tells_rightly(
    alloc: Global,
    game: &Game,
    list: &[u16],
    fit: bool,
    room: u16,
) -> Result<bool, AllocError> {
    match Items::from_slice(game, list) {
        Some(items) => {
            Ok(room_of(alloc, game, &items)? == room && packable(alloc, game, &items)? == fit)
        }
        None => Ok(true),
    }
}

// The definition's plain program: whether some bin for each item keeps each total within the capacity.
fn fits(items: &[u16], totals: [u16; 3], capacity: u16) -> bool {
    match items {
        [] => true,
        [item, rest @ ..] => {
            for bin in 0..3 {
                let mut more = totals;
                more[bin] = more[bin].saturating_add(*item);
                if more[bin] <= capacity && fits(rest, more, capacity) {
                    return true;
                }
            }
            false
        }
    }
}

// The greatest size with which the items still fit, by that program.
fn plain_room(items: &Nums, totals: [u16; 3], capacity: u16) -> Result<u16, AllocError> {
    for s in (1..=capacity).rev() {
        let mut more = items.copy()?;
        more.push(s)?;
        if fits(more.as_slice(), totals, capacity) {
            return Ok(s);
        }
    }
    Ok(0)
}

// Whether all that is told of these items, and of all lists that go on from them, is what the plain program says.
fn agrees(
    alloc: Global,
    game: &Game,
    reach: &Reach,
    items: &Nums,
    totals: [u16; 3],
    depth: u16,
) -> Result<bool, AllocError>
    requires { reach.now.game ≡ game.now }
{
    let fit = fits(items.as_slice(), totals, game.g());
    let room = plain_room(items, totals, game.g())?;
    if reach.packable() != fit
        || reach.room() != room
        || !tells_rightly(alloc, game, items.as_slice(), fit, room)?
        || !packs_rightly(alloc, game, items.as_slice(), fit)?
    {
        return Ok(false);
    }
    if depth == 0 || !fit {
        return Ok(true);
    }
    for s in 1..=game.g() {
        let mut more = items.copy()?;
        more.push(s)?;
        if !agrees(alloc, game, &reach.add(s)?, &more, totals, depth - 1)? {
            return Ok(false);
        }
    }
    Ok(true)
}

// Whether all agrees from no items on; of three bins the last counts as full where the game has two.
fn agrees_throughout(alloc: Global, m: u16, g: u16) -> Result<bool, Fail>
    requires { g < 120 }
{
    let game = Game::new(m, g, g + 1)?;
    let last = if m == 2 { g } else { 0 };
    let reach = Reach::start(alloc, &game)?;
    Ok(agrees(
        alloc,
        &game,
        &reach,
        &Nums::new(alloc),
        [0, 0, last],
        game.m() * game.g() + 1,
    )?)
}

#[test]
fn every_item_list_of_small_games_agrees_with_all_assignments(rt: HostRuntime) -> Result<(), Fail> {
    for g in 1..=5 {
        assert!(rt; agrees_throughout(rt.alloc(), 2, g)?);
    }
    for g in 1..=3 {
        assert!(rt; agrees_throughout(rt.alloc(), 3, g)?);
    }
    Ok(())
}

// Whether bits and lists tell the same of the items, and of all lists that go on from them.
fn bits_agree(game: &Game, bits: &Planes, lists: &Sets, depth: u16) -> Result<bool, AllocError>
    requires bits { bits.now.game ≡ game.now }
    requires lists { lists.now.game ≡ game.now }
{
    let room = bits
        .least_load()
        .map_or(0, |load| game.g().saturating_sub(load));
    if room != lists.room() || bits.least_load().is_some() != lists.packable() {
        return Ok(false);
    }
    if depth == 0 || !lists.packable() {
        return Ok(true);
    }
    for s in 1..=game.g() {
        if !bits_agree(game, &bits.add(s)?, &lists.add(s)?, depth - 1)? {
            return Ok(false);
        }
    }
    Ok(true)
}

// Whether both agree from no items on.
fn bits_agree_throughout(alloc: Global, m: u16, g: u16) -> Result<bool, Fail>
    requires { g < 120 }
{
    let game = Game::new(m, g, g + 1)?;
    if !Planes::fits(&game) {
        return Ok(false);
    }
    let bits = Planes::start(alloc, &game)?;
    let lists = Sets::start(alloc, &game)?;
    Ok(bits_agree(&game, &bits, &lists, m * g + 1)?)
}

#[test]
fn bits_and_lists_agree_in_small_games(rt: HostRuntime) -> Result<(), Fail> {
    for (m, most) in [(2u16, 6u16), (3, 4), (4, 3)] {
        for g in 1..=most {
            assert!(rt; bits_agree_throughout(rt.alloc(), m, g)?, "{m} {g}");
        }
    }
    Ok(())
}

// Whether the room, the packability and the packing of the items, and of all ascending lists that go on
// from them, are those that the bits tell.
fn multisets_agree(
    alloc: Global,
    game: &Game,
    reach: &Reach,
    items: &Items,
    depth: u16,
) -> Result<bool, AllocError>
    requires { reach.now.game ≡ game.now }
{
    let fit = reach.packable();
    let list = items.list(alloc)?;
    if !tells_rightly(alloc, game, list.as_slice(), fit, reach.room())?
        || !packs_rightly(alloc, game, list.as_slice(), fit)?
    {
        return Ok(false);
    }
    if depth == 0 {
        return Ok(true);
    }
    for s in 1..=game.g() {
        if items.largest() <= s && items.volume() + s <= 1912 {
            let more = reach.add(s)?;
            if !multisets_agree(alloc, game, &more, &items.add(s), depth - 1)? {
                return Ok(false);
            }
        }
    }
    Ok(true)
}

#[test]
fn every_multiset_of_five_bins_agrees_with_the_bits(rt: HostRuntime) -> Result<(), Fail> {
    for g in 2..=4 {
        let game = Game::new(5, g, g + 1)?;
        let reach = Reach::start(rt.alloc(), &game)?;
        assert!(rt;
            multisets_agree(rt.alloc(), &game, &reach, &Items::empty(), 7)?,
            "{g}"
        );
    }
    Ok(())
}

// Whether this is the room, whether they fit, and a packing where they do, of a list in the game of m bins of
// capacity g.
fn answers_rightly(
    alloc: Global,
    m: u16,
    g: u16,
    list: &[u16],
    fit: bool,
    room: u16,
) -> Result<bool, Fail>
    requires { g < 120 }
{
    let game = Game::new(m, g, g + 1)?;
    Ok(tells_rightly(alloc, &game, list, fit, room)? && packs_rightly(alloc, &game, list, fit)?)
}

#[test]
fn rooms_that_best_fit_does_not_tell(rt: HostRuntime) -> Result<(), Fail> {
    let three = [4u16, 4, 4, 6, 6, 6, 8, 8, 8, 8, 10, 10, 13];
    assert!(rt; answers_rightly(rt.alloc(), 3, 40, &three, true, 24)?);
    let full = [4u16, 5, 6, 6, 6, 7, 10, 12, 12, 13, 13, 13, 13];
    assert!(rt; answers_rightly(rt.alloc(), 3, 40, &full, false, 0)?);
    let four = [3u16, 3, 4, 4, 4, 5, 7, 8, 8, 10, 12, 12];
    assert!(rt; answers_rightly(rt.alloc(), 4, 22, &four, true, 7)?);
    let six = [3u16, 3, 3, 3, 4, 5, 6, 6, 6, 6, 7, 7, 8, 8];
    assert!(rt; answers_rightly(rt.alloc(), 6, 14, &six, true, 8)?);
    let tight = [3u16, 4, 4, 5, 5, 5, 6, 6, 7, 7, 7, 8, 8, 8];
    assert!(rt; answers_rightly(rt.alloc(), 6, 14, &tight, true, 1)?);
    let over = [3u16, 4, 4, 4, 5, 5, 5, 6, 7, 7, 8, 8, 9, 9];
    assert!(rt; answers_rightly(rt.alloc(), 6, 14, &over, false, 0)?);
    Ok(())
}

// What best fit tells of a list: the room that it leaves, and whether it places the items.
fn best_fit_tells(game: &Game, list: &[u16]) -> Option<(u16, bool)> {
    match Items::from_slice(game, list) {
        Some(items) => Some((
            room_by_best_fit(game, &items),
            fits_by_best_fit(game, &items),
        )),
        None => None,
    }
}

// Whether best fit gives each of the items, in descending order, this bin.
fn best_fit_gives(
    alloc: Global,
    game: &Game,
    items: &Items,
    wanted: &[usize],
) -> Result<bool, AllocError> {
    if items.largest() > game.g() {
        return Ok(false);
    }
    let list = descending(alloc, items)?;
    match best_fit(alloc, game, list.as_slice())? {
        Some(bins) => Ok(bins.as_slice() == wanted),
        None => Ok(false),
    }
}

#[test]
fn best_fit_fills_the_fullest_bin_first(rt: HostRuntime) -> Result<(), Fail> {
    let wide = Game::new(3, 20, 25)?;
    let items = Items::empty().add(1).add(9).add(10).add(12);
    assert!(rt; best_fit_gives(rt.alloc(), &wide, &items, &[0, 1, 1, 1])?);
    let game = Game::new(3, 14, 19)?;
    assert_eq!(rt; best_fit_tells(&game, &[4, 5, 5]), Some((14, true)));
    assert_eq!(rt; best_fit_tells(&game, &[2, 3, 8, 9, 10]), Some((6, true)));
    let small = Game::new(2, 3, 4)?;
    assert_eq!(rt; best_fit_tells(&small, &[1, 1, 2, 2]), Some((0, true)));
    assert_eq!(rt; best_fit_tells(&small, &[2, 2, 2]), Some((0, false)));
    Ok(())
}
