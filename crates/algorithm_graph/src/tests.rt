ghost use Rattle.std.specs.Prelude.{◌≡◌, IfOk};
ghost use Rattle.items.specs.Multiset.{sizes_of};
ghost use Rattle.node_pool.specs.Pools.{terms_in};
ghost use Rattle.strategy_text.specs.declared.node.Format.TheVariants.{Two};

use super::*;
use items::Game;
use loads::Actual;
use online_play::loads_after;
use reachable_loads::Reach;
use std::alloc::{AllocError, Global};
use strategy_text::{AlgNode, Format, Rule, parse_algorithm};

// The nodes of a strategy for two bins of capacity 2 and target 3, one of which keeps no bin for big items. Here and
// below each is spelled as node 0, as a node does not know its number.
const NODES: [&str; 6] = [
    "0 loads 2 0 items 1 1 finish",
    "0 loads 2 1 items 1 2 finish",
    "0 loads 1 0 items 1 reply 1 on 1 to 0 2 on 0 to 1",
    "0 loads 2 2 items 2 2 big 0",
    "0 loads 2 0 items 2 reply 1 on 0 to 1 2 on 0 to 3",
    "0 loads 0 0 items - reply 1 on 0 to 2 2 on 0 to 4",
];

// The node that a line spells, and one that meets no rule where it spells none.
fn node_of(alloc: Global, line: &str) -> Result<AlgNode, AllocError> {
    match parse_algorithm(alloc, Format::Two, line.as_bytes(), 0)? {
        Some(node) => Ok(node),
        None => Ok(AlgNode::empty(alloc)),
    }
}

// Puts a node at the end of a pool of format 2; whether it meets its rules there.
fn put(alloc: Global, pool: &mut AlgPool, line: &str) -> Result<bool, AllocError>
    requires { pool.old.format ≡ Two }
    ensures { terms_in pool.new ≡ terms_in pool.old }
{
    let node = node_of(alloc, line)?;
    if pool.len() >= 4_000_000_000 {
        return Ok(false);
    }
    let fault = judge(alloc, pool.terms(), pool.positions(), false, &node)?;
    match fault {
        Some(_) => Ok(false),
        None => {
            pool.push(node)?;
            Ok(true)
        }
    }
}

// Puts a node at the end where the pool is of format 2 and the node meets its rules.
fn grow(alloc: Global, pool: &mut AlgPool, line: &str) -> Result<(), AllocError>
    ensures { terms_in pool.new ≡ terms_in pool.old }
{
    match pool.format() {
        Format::One => Ok(()),
        Format::Two => {
            let _met = put(alloc, pool, line)?;
            Ok(())
        }
    }
}

// The first nodes that stand above, as many as these, where they meet their rules.
fn pool_of(alloc: Global, game: &Game, count: usize) -> Result<AlgPool, AllocError>
    ensures { IfOk result (λ pool. pool.sizes ≡ sizes_of pool.game) }
{
    let mut pool = AlgPool::new(alloc, game, Format::Two);
    for line in NODES.iter().take(count) {
        grow(alloc, &mut pool, line)?;
    }
    Ok(pool)
}

// The numbers of a game, how many of the nodes above come first, a node, whether it is the last one, and the first rule
// that it breaks.
type Row = ((u16, u16, u16), usize, &'static str, bool, Option<Rule>);

const JUDGED: [Row; 22] = [
    (
        (2, 2, 3),
        5,
        "0 loads 0 0 items - reply 1 on 0 to 2 2 on 0 to 4",
        false,
        None,
    ),
    (
        (2, 2, 3),
        5,
        "0 loads 0 0 items - reply 1 on 0 to 3 2 on 0 to 4",
        false,
        Some(Rule::Child),
    ),
    (
        (2, 2, 3),
        2,
        "0 loads 1 0 items 1 reply 1 on 1 to 0",
        false,
        Some(Rule::Replies),
    ),
    (
        (2, 2, 3),
        2,
        "0 loads 1 0 items 1 reply 2 on 0 to 1 1 on 1 to 0",
        false,
        Some(Rule::Replies),
    ),
    (
        (2, 2, 3),
        2,
        "0 loads 1 0 items 1 reply 1 on 1 to 0 2 on 1 to 1",
        false,
        Some(Rule::Reply),
    ),
    (
        (2, 2, 3),
        2,
        "0 loads 1 0 items 1 reply 1 on 1 to 2 2 on 0 to 1",
        false,
        Some(Rule::Child),
    ),
    (
        (2, 2, 3),
        2,
        "0 loads 1 0 items 1 reply 1 on 0 to 0 2 on 0 to 1",
        false,
        Some(Rule::Child),
    ),
    ((2, 2, 3), 0, "0 loads 2 2 items 2 2 reply -", false, None),
    (
        (2, 2, 3),
        0,
        "0 loads 2 0 items 2 reply -",
        false,
        Some(Rule::Replies),
    ),
    (
        (2, 2, 3),
        0,
        "0 loads 0 1 items 1 reply -",
        false,
        Some(Rule::Loads),
    ),
    (
        (2, 2, 3),
        0,
        "0 loads 1 0 items 2 reply -",
        false,
        Some(Rule::Items),
    ),
    (
        (2, 2, 3),
        0,
        "0 loads 0 0 items - finish",
        false,
        Some(Rule::Finish),
    ),
    ((2, 2, 3), 0, "0 loads 2 2 items 2 2 big 0", false, None),
    (
        (2, 2, 3),
        0,
        "0 loads 2 2 items 2 2 big 1",
        false,
        Some(Rule::Big),
    ),
    (
        (2, 2, 3),
        0,
        "0 loads 2 2 items 2 2 big 2",
        false,
        Some(Rule::Big),
    ),
    ((3, 6, 9), 0, "0 loads 4 4 4 items 4 4 4 big 0", false, None),
    (
        (3, 6, 9),
        0,
        "0 loads 4 4 4 items 4 4 4 finish",
        false,
        Some(Rule::Finish),
    ),
    (
        (3, 6, 9),
        0,
        "0 loads 4 4 0 items 4 4 big 1",
        false,
        Some(Rule::Big),
    ),
    ((2, 6, 10), 0, "0 loads 4 3 items 3 4 big 1", false, None),
    (
        (2, 6, 9),
        0,
        "0 loads 4 3 items 3 4 big 1",
        false,
        Some(Rule::Big),
    ),
    ((2, 3, 5), 0, "0 loads 0 0 items - finish", true, None),
    (
        (2, 3, 5),
        0,
        "0 loads 2 0 items 2 finish",
        true,
        Some(Rule::Root),
    ),
];

// The first rule that a node breaks after those of a pool.
fn fault(
    alloc: Global,
    game: &Game,
    pool: &AlgPool,
    line: &str,
    last: bool,
) -> Result<Option<Rule>, AllocError> {
    let node = node_of(alloc, line)?;
    node_fault(alloc, game, pool.positions(), last, &node)
}

fn is_judged_in(alloc: Global, game: &Game, row: &Row) -> Result<bool, AllocError> {
    let pool = pool_of(alloc, game, row.1)?;
    Ok(fault(alloc, game, &pool, row.2, row.3)? == row.4)
}

fn is_judged_so(alloc: Global, row: &Row) -> Result<bool, AllocError> {
    match Game::new(row.0.0, row.0.1, row.0.2) {
        Ok(game) => is_judged_in(alloc, &game, row),
        Err(_) => Ok(false),
    }
}

#[test]
fn names_the_first_rule_that_a_node_breaks(rt: HostRuntime) {
    for row in &JUDGED {
        assert!(rt; is_judged_so(rt.alloc(), row).unwrap_or(false), "{}", row.2);
    }
}

// The loads by bin number after a player placed each item of a list; None where the list is not packable.
fn loads_of(
    alloc: Global,
    game: &Game,
    player: &FileAlgorithm,
    history: &[u16],
) -> Result<Option<Actual>, AllocError> {
    let mut reach = Reach::start(alloc, game)?;
    for size in history {
        if *size < 1 || *size > game.g() {
            return Ok(None);
        }
        let more = reach.add(*size)?;
        reach = more;
    }
    if !reach.packable() {
        return Ok(None);
    }
    Ok(Some(loads_after(game, player, history)))
}

// The numbers of a game, items, and the loads after the player of the nodes above placed them; none where they are not
// packable.
type Placed = ((u16, u16, u16), &'static [u16], &'static [u16]);

const PLACED: [Placed; 6] = [
    ((2, 2, 3), &[1, 2, 1], &[2, 2]),
    ((2, 2, 3), &[2, 2], &[2, 2]),
    ((2, 2, 3), &[1, 1, 1], &[2, 1]),
    ((2, 2, 3), &[], &[0, 0]),
    ((2, 2, 3), &[1, 1, 2, 1], &[]),
    // To another game it answers bin 0.
    ((2, 3, 4), &[1, 1], &[2, 0]),
];

// The player of the nodes above.
fn player_of(alloc: Global) -> Result<Option<FileAlgorithm>, AllocError> {
    let Ok(game) = Game::new(2, 2, 3) else {
        return Ok(None);
    };
    let pool = pool_of(alloc, &game, NODES.len())?;
    if !pool.is_root(5) {
        return Ok(None);
    }
    Ok(Some(FileAlgorithm::new(pool, 5)))
}

fn is_placed_so(alloc: Global, player: &FileAlgorithm, row: &Placed) -> Result<bool, AllocError> {
    let Ok(game) = Game::new(row.0.0, row.0.1, row.0.2) else {
        return Ok(false);
    };
    match loads_of(alloc, &game, player, row.1)? {
        Some(actual) => Ok(actual.as_slice() == row.2),
        None => Ok(row.2.is_empty()),
    }
}

fn is_placed(alloc: Global, row: &Placed) -> Result<bool, AllocError> {
    match player_of(alloc)? {
        Some(player) => is_placed_so(alloc, &player, row),
        None => Ok(false),
    }
}

#[test]
fn a_file_answers_its_replies(rt: HostRuntime) {
    for row in &PLACED {
        assert!(rt; is_placed(rt.alloc(), row).unwrap_or(false), "{:?}", row.1);
    }
}
