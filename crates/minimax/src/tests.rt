ghost use Rattle.std.specs.Prelude.{◌≡◌, []};

use crate::answer::Answer;
use crate::game_search::{solve, solve_listed};
use items::{Game, Nums, Sizes};
use monotone::PathMove;
use std::alloc::{AllocError, Global};
use std::test::Fail;
use transposition::{ClockMemo, LruMemo, Memo};

// The side that wins, or the visits, the pass and the moves of the path.
fn told(alloc: Global, answer: &Answer) -> Result<String, AllocError> {
    match answer {
        Answer::Adversary(_) => format!(in alloc; "adversary"),
        Answer::Algorithm(_) => format!(in alloc; "algorithm"),
        Answer::Undecided { visits, pass, path } => {
            let mut text = format!(in alloc; "visits {visits} pass {pass} path")?;
            for step in path.as_slice() {
                let PathMove { item, load } = *step;
                let word = format!(in alloc; " {item}@{load}")?;
                text.push_str(&word)?;
            }
            Ok(text)
        }
    }
}

// What a search of the game of these numbers tells; nothing for a budget out of range.
fn searched<M: Memo>(
    alloc: Global,
    numbers: (u16, u16, u16),
    budget: u32,
    memo: &mut M,
) -> Result<String, Fail>
    requires { M.entries memo.old ≡ [] }
{
    let game = Game::new(numbers.0, numbers.1, numbers.2)?;
    if budget == 0 || budget > 4000000000 {
        return Ok(String::new(alloc));
    }
    Ok(told(alloc, &solve(alloc, &game, budget, memo)?)?)
}

#[test]
fn a_search_ends_where_it_was_worked_out_to(rt: HostRuntime) -> Result<(), Fail> {
    let alloc = rt.alloc();
    let rows = [
        ((2, 2, 3), 1, "visits 1 pass 0 path 2@0"),
        ((2, 2, 3), 2, "visits 2 pass 0 path 1@0"),
        ((2, 2, 3), 4, "visits 4 pass 0 path 1@0 1@1"),
        ((2, 2, 3), 5, "algorithm"),
        ((2, 3, 4), 11, "visits 11 pass 0 path 1@0 1@0"),
        ((2, 3, 4), 12, "adversary"),
        ((2, 3, 5), 1, "algorithm"),
        ((3, 3, 4), 786432, "adversary"),
    ];
    for (numbers, budget, due) in rows {
        let mut memo = LruMemo::new(alloc, 1)?;
        assert_eq!(rt; searched(alloc, numbers, budget, &mut memo)?.as_str(), due);
    }
    Ok(())
}

#[test]
fn either_table_serves(rt: HostRuntime) -> Result<(), Fail> {
    let alloc = rt.alloc();
    let mut lru = LruMemo::new(alloc, 10)?;
    assert_eq!(rt;
        searched(alloc, (2, 2, 3), 20, &mut lru)?.as_str(),
        "algorithm"
    );
    let mut clock = ClockMemo::new(alloc, 10)?;
    assert_eq!(rt;
        searched(alloc, (2, 2, 3), 20, &mut clock)?.as_str(),
        "algorithm"
    );
    let mut clock = ClockMemo::new(alloc, 1000)?;
    assert_eq!(rt;
        searched(alloc, (2, 4, 6), 16, &mut clock)?.as_str(),
        "visits 16 pass 1 path"
    );
    Ok(())
}

// Whether some bin for each item keeps each total within the capacity, by trying every bin.
fn fits(items: &[u16], totals: [u16; 3], bins: usize, capacity: u16) -> bool {
    match items {
        [] => true,
        [item, rest @ ..] => {
            for bin in 0..3 {
                let mut more = totals;
                more[bin] = more[bin].saturating_add(*item);
                if bin < bins && more[bin] <= capacity && fits(rest, more, bins, capacity) {
                    return true;
                }
            }
            false
        }
    }
}

// Whether the adversary wins with at most so many items more, by trying every size of the list that may come and every
// bin.
fn is_won(
    game: &Game,
    sizes: &[u16],
    items: &Nums,
    loads: [u16; 3],
    left: u16,
) -> Result<bool, AllocError> {
    if left == 0 {
        return Ok(false);
    }
    let bins = usize::from(game.m());
    for size in sizes {
        let mut more = items.copy()?;
        more.push(*size)?;
        let mut wins = fits(more.as_slice(), [0; 3], bins, game.g());
        for bin in 0..3 {
            let mut next = loads;
            next[bin] = next[bin].saturating_add(*size);
            if wins && bin < bins && next[bin] < game.t() {
                wins = is_won(game, sizes, &more, next, left - 1)?;
            }
        }
        if wins {
            return Ok(true);
        }
    }
    Ok(false)
}

// The side that a search over a list finds, and the one that a plain search finds; nothing where the list has other
// numbers than sizes of the game.
fn sides(alloc: Global, game: &Game, list: &[u16]) -> Result<(String, String), Fail> {
    let Some(sizes) = Sizes::from_slice(game, list) else {
        return Ok((String::new(alloc), String::new(alloc)));
    };
    let mut memo = LruMemo::new(alloc, 100)?;
    let found = told(
        alloc,
        &solve_listed(alloc, game, &sizes, 300000, &mut memo)?,
    )?;
    let due = if is_won(game, list, &Nums::new(alloc), [0; 3], game.m() * game.g())? {
        format!(in alloc; "adversary")?
    } else {
        format!(in alloc; "algorithm")?
    };
    Ok((found, due))
}

#[test]
fn a_listed_search_finds_the_side_of_a_plain_one(rt: HostRuntime) -> Result<(), Fail> {
    let alloc = rt.alloc();
    let lists: [&[u16]; 15] = [
        &[1],
        &[2],
        &[3],
        &[4],
        &[1, 2],
        &[1, 3],
        &[1, 4],
        &[2, 3],
        &[2, 4],
        &[3, 4],
        &[1, 2, 3],
        &[1, 2, 4],
        &[1, 3, 4],
        &[2, 3, 4],
        &[1, 2, 3, 4],
    ];
    for (m, g, t) in [(2, 3, 4), (2, 4, 5), (3, 3, 4)] {
        let game = Game::new(m, g, t)?;
        for list in lists {
            let (found, due) = sides(alloc, &game, list)?;
            assert_eq!(rt; found.as_str(), due.as_str());
        }
    }
    Ok(())
}
