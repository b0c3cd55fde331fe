use crate::{PackedLoads, PassTable};
use items::Game;
use std::alloc::{AllocError, Global};

// The relaxed game as it is defined, over loads in any order. No game has more items than `steps`.
fn wins(
    game: &Game,
    loads: &[u16; 3],
    pass: u16,
    big: u16,
    room: u16,
    largest: u16,
    steps: u16,
) -> bool {
    if steps == 0 {
        return true;
    }
    for size in 1..room.saturating_add(1) {
        let is_large = size > game.g() / 2;
        let is_sent = size.saturating_add(pass) >= largest
            && volume(loads).saturating_add(size) <= game.m().saturating_mul(game.g())
            && !(is_large && big == 0);
        if is_sent {
            let left = if is_large { big.saturating_sub(1) } else { big };
            let mut is_met = false;
            for bin in 0..3 {
                let load = loads[bin].saturating_add(size);
                if bin < usize::from(game.m()) && load < game.t() {
                    let mut next = *loads;
                    next[bin] = load;
                    if wins(game, &next, pass, left, room, largest.max(size), steps - 1) {
                        is_met = true;
                    }
                }
            }
            if !is_met {
                return false;
            }
        }
    }
    true
}

fn volume(loads: &[u16; 3]) -> u16 {
    loads[0].saturating_add(loads[1]).saturating_add(loads[2])
}

fn packed(game: &Game, loads: &[u16; 3]) -> PackedLoads {
    let bins = usize::from(game.m());
    let mut packed = PackedLoads::zero();
    for bin in 0..bins.min(3) {
        packed = packed.grown(bins, 0, loads[bin]);
    }
    packed
}

// How many states of these loads differ from the definition.
fn differing(table: &PassTable, game: &Game, loads: &[u16; 3], pass: u16) -> u32 {
    let mut count = 0u32;
    for big in 0..game.m() {
        for room in 0..game.g() {
            for largest in 0..game.g() {
                let is_won = table.holds(packed(game, loads), big, room + 1, largest);
                if is_won != wins(game, loads, pass, big, room + 1, largest, 9) {
                    count = count.wrapping_add(1);
                }
            }
        }
    }
    count
}

// How many states of a game differ from the definition; None where there is no such game.
fn all_differing(alloc: Global, bins: u16, pass: u16) -> Result<Option<u32>, AllocError> {
    let mut count = 0u32;
    let Ok(game) = Game::new(bins, 3, 4) else {
        return Ok(None);
    };
    let Some(mut table) = PassTable::new(alloc, &game)? else {
        return Ok(None);
    };
    table.fill(pass);
    for first in 0..4 {
        for second in 0..4 {
            let third = if bins == 3 { first } else { 0 };
            count = count.wrapping_add(differing(&table, &game, &[first, second, third], pass));
        }
    }
    Ok(Some(count))
}

#[test]
fn the_table_is_the_game(rt: HostRuntime) {
    for bins in 2..4 {
        for pass in 0..3 {
            assert!(rt; all_differing(rt.alloc(), bins, pass) == Ok(Some(0)));
        }
    }
}

#[test]
fn loads_stay_sorted(rt: HostRuntime) {
    let loads = PackedLoads::zero()
        .grown(3, 0, 5)
        .grown(3, 0, 7)
        .grown(3, 1, 9);
    assert!(rt; loads.word() == 0x09_07_00 && loads.volume() == 16 && loads.at(2) == 9);
}
