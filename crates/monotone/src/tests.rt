ghost use Rattle.std.specs.Prelude.{◌≡◌, None};

use crate::meter::{Meter, VisitFault};
use crate::pass::allows;
use crate::path::{Path, PathMove};
use items::{Game, Items};
use std::alloc::{AllocError, Global};

#[test]
fn a_pass_looks_at_the_largest_item(rt: HostRuntime) {
    let items = Items::empty().add(1).add(2);
    let cases = [(0, 1, false), (1, 1, true), (0, 2, true), (0, 120, true)];
    for (pass, size, allowed) in cases {
        assert!(rt; allows(pass, &items, size) == allowed);
    }
    assert!(rt; allows(0, &Items::empty(), 1));
}

// The path of these items and loads.
fn path_of(alloc: Global, moves: &[(u16, u16)]) -> Result<Path, AllocError> {
    let mut path = Path::new(alloc);
    for (item, load) in moves {
        path.push(PathMove {
            item: *item,
            load: *load,
        })?;
    }
    Ok(path)
}

// Whether the first path comes before the second.
fn compared(
    alloc: Global,
    first: &[(u16, u16)],
    second: &[(u16, u16)],
) -> Result<bool, AllocError> {
    Ok(path_of(alloc, first)?.before(&path_of(alloc, second)?))
}

#[test]
fn paths_compare_by_their_first_difference(rt: HostRuntime) {
    let cases: [(&[(u16, u16)], &[(u16, u16)], bool); 8] = [
        (&[], &[(2, 0)], true),
        (&[(2, 0)], &[(1, 0)], true),
        (&[(1, 0), (1, 1)], &[(1, 0), (1, 0)], true),
        (&[(1, 0)], &[(1, 0)], false),
        (&[], &[], false),
        (&[(2, 0), (1, 0)], &[(1, 1)], true),
        (&[(1, 0), (1, 1)], &[(1, 0)], false),
        (&[(1, 0), (1, 0)], &[(1, 0), (1, 1)], false),
    ];
    for (first, second, wanted) in cases {
        assert!(rt; compared(rt.alloc(), first, second) == Ok(wanted));
    }
}

// Whether a path of two moves gives them back, and a copy keeps them and comes later then.
fn holds(alloc: Global, first: (u16, u16), second: (u16, u16)) -> Result<bool, AllocError> {
    let mut path = path_of(alloc, &[first, second])?;
    let copy = path.copy()?;
    let is_whole = path.len() == 2 && !path.is_empty();
    let is_taken = is_move(path.pop(), second) && is_move(path.pop(), first);
    let is_empty = path.pop().is_none() && copy.len() == 2;
    Ok(is_whole && is_taken && is_empty && path.before(&copy) && !copy.before(&path))
}

fn is_move(taken: Option<PathMove>, wanted: (u16, u16)) -> bool {
    match taken {
        Some(taken) => (taken.item, taken.load) == wanted,
        None => false,
    }
}

#[test]
fn a_path_holds_what_was_pushed(rt: HostRuntime) {
    assert!(rt; holds(rt.alloc(), (3, 0), (2, 3)) == Ok(true));
}

// Whether a meter counts the first two of three paths that rise, and refuses the third.
fn counts_two(meter: &mut Meter, first: &Path, second: &Path, third: &Path) -> bool
    requires { meter.old.last ≡ None }
{
    if meter.count() != 0 || meter.visit(0, first).is_err() {
        return false;
    }
    if !first.before(second) || meter.visit(0, second).is_err() {
        return false;
    }
    if !second.before(third) || !matches!(meter.visit(0, third), Err(VisitFault::Spent)) {
        return false;
    }
    meter.count() == 2
}

fn a_meter_of_two_is_spent(alloc: Global, game: &Game) -> Result<bool, AllocError> {
    let first = path_of(alloc, &[])?;
    let second = path_of(alloc, &[(2, 0)])?;
    let third = path_of(alloc, &[(1, 0)])?;
    let mut meter = Meter::new(alloc, game, 2);
    Ok(counts_two(&mut meter, &first, &second, &third))
}

#[test]
fn a_meter_counts_up_to_its_budget(rt: HostRuntime) {
    let is_spent = match Game::new(2, 2, 3) {
        Ok(game) => a_meter_of_two_is_spent(rt.alloc(), &game),
        Err(_) => Ok(false),
    };
    assert!(rt; is_spent == Ok(true));
}
