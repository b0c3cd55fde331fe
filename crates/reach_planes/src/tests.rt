ghost use Rattle.std.specs.Prelude.{◌≡◌};

use super::*;
use items::Game;
use std::alloc::{AllocError, Global};
use std::test::Fail;

#[test]
fn a_plane_fits_up_to_the_bound(rt: HostRuntime) -> Result<(), Fail> {
    let table = [
        (4u16, 100u16, 101u16, true),
        (4, 101, 102, false),
        (5, 31, 32, true),
        (5, 32, 33, false),
        (8, 6, 7, true),
        (8, 7, 8, false),
        (3, 120, 121, true),
    ];
    for (m, g, t, fits) in table {
        assert_eq!(rt; Planes::fits(&Game::new(m, g, t)?), fits, "{m} {g} {t}");
    }
    Ok(())
}

// What is told after these items, one after the other: the least load, and whether these loads are reached.
fn told(
    alloc: Global,
    game: &Game,
    items: &[u16],
    loads: &[u16],
) -> Result<(Option<u16>, bool), AllocError> {
    if !Planes::fits(game) {
        return Ok((None, false));
    }
    let mut planes = Planes::start(alloc, game)?;
    for s in items {
        if 1 <= *s && *s <= game.g() {
            let next = planes.add(*s)?;
            planes = next;
        }
    }
    let of_game = loads.len() == usize::from(game.m())
        && loads.iter().all(|load| *load <= game.g());
    Ok((planes.least_load(), of_game && planes.contains(loads)))
}

#[test]
fn loads_of_two_bins(rt: HostRuntime) -> Result<(), Fail> {
    let game = Game::new(2, 3, 4)?;
    assert_eq!(rt;
        told(rt.alloc(), &game, &[1, 1, 2], &[3, 1])?,
        (Some(1), true)
    );
    assert_eq!(rt;
        told(rt.alloc(), &game, &[1, 1, 2], &[2, 2])?,
        (Some(1), true)
    );
    assert_eq!(rt;
        told(rt.alloc(), &game, &[1, 1, 2], &[3, 0])?,
        (Some(1), false)
    );
    assert_eq!(rt;
        told(rt.alloc(), &game, &[1, 1, 2, 2, 1], &[3, 3])?,
        (None, false)
    );
    Ok(())
}

#[test]
fn loads_above_sixty_four(rt: HostRuntime) -> Result<(), Fail> {
    let game = Game::new(3, 120, 121)?;
    let items = [70u16, 60, 60, 50, 90];
    assert_eq!(rt;
        told(rt.alloc(), &game, &items, &[120, 120, 90])?,
        (Some(90), true)
    );
    assert_eq!(rt;
        told(rt.alloc(), &game, &items, &[90, 120, 120])?,
        (Some(90), true)
    );
    assert_eq!(rt;
        told(rt.alloc(), &game, &items, &[110, 110, 110])?,
        (Some(90), false)
    );
    Ok(())
}
