use crate::{Valued, value};
use items::{Game, Nums};
use monotone::{Path, PathMove};
use std::alloc::{AllocError, Global};
use std::test::Fail;
use strategy_text::Strategy;

// The side and the game of a strategy, and how many nodes it has.
fn named(alloc: Global, strategy: &Strategy) -> Result<String, AllocError> {
    let side = strategy.nodes.side().word();
    let game = strategy.game;
    let (m, g, t) = (game.m(), game.g(), game.t());
    format!(in alloc; "{side} {m} {g} {t} nodes {}", strategy.nodes.len())
}

// The moves of a path, each after a space.
fn moves_of(alloc: Global, path: &Path) -> Result<String, AllocError> {
    let mut text = String::new(alloc);
    for step in path.as_slice() {
        let PathMove { item, load } = *step;
        let word = format!(in alloc; " {item}@{load}")?;
        text.push_str(&word)?;
    }
    Ok(text)
}

// What a search for a value tells.
fn told(alloc: Global, valued: &Valued) -> Result<String, AllocError> {
    match valued {
        Valued::At {
            target,
            adversary,
            algorithm,
        } => {
            let wins = named(alloc, adversary)?;
            let keeps = named(alloc, algorithm)?;
            format!(in alloc; "target {target}, {wins}, {keeps}")
        }
        Valued::Nowhere { algorithm } => {
            let keeps = named(alloc, algorithm)?;
            format!(in alloc; "none, {keeps}")
        }
        Valued::Undecided {
            target,
            visits,
            pass,
            path,
        } => {
            let moves = moves_of(alloc, path)?;
            format!(in alloc; "undecided {target} visits {visits} pass {pass} path{moves}")
        }
    }
}

// What a search for the value of these numbers tells; nothing for numbers out of range.
fn searched(
    alloc: Global,
    m: u16,
    g: u16,
    budget: u32,
    table: usize,
) -> Result<String, AllocError> {
    if m < 2 || m > 8 || g < 1 || g > 120 || budget < 1 || budget > 4000000000 || table < 1 {
        return Ok(String::new(alloc));
    }
    let valued = value(alloc, m, g, budget, table)?;
    told(alloc, &valued)
}

#[test]
fn values_come_with_a_strategy_of_each_side(rt: HostRuntime) -> Result<(), Fail> {
    let alloc = rt.alloc();
    let rows = [
        (
            (3, 12, 1),
            "target 4, adversary 2 3 4 nodes 5, algorithm 2 3 5 nodes 1",
        ),
        ((2, 5, 1), "none, algorithm 2 2 3 nodes 5"),
        ((1, 1, 1), "none, algorithm 2 1 2 nodes 1"),
        ((3, 11, 1), "undecided 4 visits 11 pass 0 path 1@0 1@0"),
    ];
    for ((g, budget, table), due) in rows {
        assert_eq!(rt; searched(alloc, 2, g, budget, table)?.as_str(), due);
    }
    Ok(())
}

// Whether some bin for each item keeps each total within the capacity, by trying every bin.
fn fits(items: &[u16], totals: [u16; 3], bins: usize, capacity: u16) -> bool {
    match items {
        [] => true,
        [item, rest @ ..] => {
            for bin in 0..3 {
                let mut more = totals;
                more[bin] = more[bin].saturating_add(*item);
                if bin < bins && more[bin] <= capacity && fits(rest, more, bins, capacity) {
                    return true;
                }
            }
            false
        }
    }
}

// Whether the adversary wins with at most so many items more, by trying every size that may come and every bin.
fn is_won(game: &Game, items: &Nums, loads: [u16; 3], left: u16) -> Result<bool, AllocError> {
    if left == 0 {
        return Ok(false);
    }
    let bins = usize::from(game.m());
    for size in 1..=game.g() {
        let mut more = items.copy()?;
        more.push(size)?;
        let mut wins = fits(more.as_slice(), [0; 3], bins, game.g());
        for bin in 0..3 {
            let mut next = loads;
            next[bin] = next[bin].saturating_add(size);
            if wins && bin < bins && next[bin] < game.t() {
                wins = is_won(game, &more, next, left - 1)?;
            }
        }
        if wins {
            return Ok(true);
        }
    }
    Ok(false)
}

// The greatest target at which the adversary wins, by that search; 0 where there is none.
fn plain_value(alloc: Global, m: u16, g: u16) -> Result<u16, Fail> {
    let mut greatest = 0;
    for target in 1..=240 {
        if let Ok(game) = Game::new(m, g, target) {
            let none = Nums::new(alloc);
            if is_won(&game, &none, [0; 3], game.m() * game.g())? {
                greatest = target;
            }
        }
    }
    Ok(greatest)
}

// The target that is named as the value; 0 where there is none.
fn named_value(alloc: Global, m: u16, g: u16) -> Result<u16, Fail> {
    if m < 2 || m > 8 || g < 1 || g > 120 {
        return Ok(240);
    }
    match value(alloc, m, g, 4000000000, 1000)? {
        Valued::At { target, .. } => Ok(target),
        Valued::Nowhere { .. } => Ok(0),
        Valued::Undecided { .. } => Ok(240),
    }
}

#[test]
fn values_are_those_of_a_plain_search(rt: HostRuntime) -> Result<(), Fail> {
    let alloc = rt.alloc();
    for (m, g) in [(2, 1), (2, 2), (2, 3), (2, 4), (3, 1), (3, 2)] {
        assert_eq!(rt;
            named_value(alloc, m, g)?,
            plain_value(alloc, m, g)?,
            "{m} {g}"
        );
    }
    Ok(())
}
