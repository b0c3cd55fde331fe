//! Worked strategies and their canonical forms.

ghost use Rattle.std.specs.Prelude.{◌≡◌};
ghost use Rattle.items.specs.Multiset.{sizes_of};
ghost use Rattle.strategy_text.specs.declared.node.Format.TheVariants.{Two};
ghost use Rattle.node_pool.specs.Pools.{terms_in};
ghost use Rattle.adversary_graph.specs.Pools as adversary;
ghost use Rattle.algorithm_graph.specs.Pools as algorithm;
ghost use Rattle.strategies.specs.AnyNode.{IsLegal};

use crate::minimise;
use adversary_graph::AdvPool;
use algorithm_graph::AlgPool;
use items::Game;
use std::alloc::{AllocError, Global};
use std::test::Fail;
use strategy_text::{
    Act, AdvNode, AlgNode, Entry, Format, Nodes, Placement, Step, Strategy, parse_adversary,
    parse_algorithm,
};

const X: &[&str] = &[
    "0 loads 2 2 items 1 1 2 send 2 pack 1 2 / 1 2 on 2 over",
    "1 loads 2 0 items 1 1 send 2 pack 1 2 / 1 on 2 over on 0 to 0",
    "2 loads 1 1 items 1 1 send 3 pack 3 / 1 1 on 1 over",
    "3 loads 1 0 items 1 send 1 pack 1 1 / - on 1 to 1 on 0 to 2",
    "4 loads 0 0 items - send 1 pack 1 / - on 0 to 3",
];

// X with a copy of node 0 and a copy of node 2.
const WITH_COPIES: &[&str] = &[
    "0 loads 2 2 items 1 1 2 send 2 pack 1 2 / 1 2 on 2 over",
    "1 loads 2 2 items 1 1 2 send 2 pack 1 2 / 1 2 on 2 over",
    "2 loads 2 0 items 1 1 send 2 pack 1 2 / 1 on 2 over on 0 to 1",
    "3 loads 1 1 items 1 1 send 3 pack 3 / 1 1 on 1 over",
    "4 loads 1 1 items 1 1 send 3 pack 3 / 1 1 on 1 over",
    "5 loads 1 0 items 1 send 1 pack 1 1 / - on 1 to 2 on 0 to 4",
    "6 loads 0 0 items - send 1 pack 1 / - on 0 to 5",
];

// The nodes of X in another order, with one more that nothing reaches and whose loads are those of another.
const IN_ANOTHER_ORDER: &[&str] = &[
    "0 loads 1 1 items 1 1 send 3 pack 3 / 1 1 on 1 over",
    "1 loads 2 2 items 1 1 1 1 send 2 pack 1 2 / 1 1 1 on 2 over",
    "2 loads 2 2 items 1 1 2 send 2 pack 1 2 / 1 2 on 2 over",
    "3 loads 2 0 items 1 1 send 2 pack 1 2 / 1 on 2 over on 0 to 2",
    "4 loads 1 0 items 1 send 1 pack 1 1 / - on 1 to 3 on 0 to 0",
    "5 loads 0 0 items - send 1 pack 1 / - on 0 to 4",
];

const BURSTS: &[&str] = &[
    "0 loads 2 0 items 1 1 burst 2 2 pack 1 2 / 1 2",
    "1 loads 1 1 items 1 1 burst 1 3 pack 3 / 1 1",
    "2 loads 1 0 items 1 send 1 on 1 to 0 on 0 to 1",
    "3 loads 0 0 items - send 1 on 0 to 2",
];

const Y: &[&str] = &[
    "0 loads 2 0 items 1 1 finish",
    "1 loads 2 1 items 1 2 finish",
    "2 loads 1 0 items 1 reply 1 on 1 to 0 2 on 0 to 1",
    "3 loads 2 0 items 2 finish",
    "4 loads 0 0 items - reply 1 on 0 to 2 2 on 0 to 3",
];

// Y with its root twice.
const WITH_TWO_ROOTS: &[&str] = &[
    "0 loads 2 0 items 1 1 finish",
    "1 loads 2 1 items 1 2 finish",
    "2 loads 1 0 items 1 reply 1 on 1 to 0 2 on 0 to 1",
    "3 loads 2 0 items 2 finish",
    "4 loads 0 0 items - reply 1 on 0 to 2 2 on 0 to 3",
    "5 loads 0 0 items - reply 1 on 0 to 2 2 on 0 to 3",
];

#[test]
fn an_adversary_s_nodes_are_distinct_and_in_post_order(rt: HostRuntime) -> Result<(), Fail> {
    for (format, lines, due) in [
        (Format::One, X, X),
        (Format::One, WITH_COPIES, X),
        (Format::One, IN_ANOTHER_ORDER, X),
        (Format::Two, BURSTS, BURSTS),
    ] {
        assert!(rt; of_adversary(&rt, format, lines, due)?);
    }
    Ok(())
}

#[test]
fn an_algorithm_s_nodes_are_distinct_and_in_post_order(rt: HostRuntime) -> Result<(), Fail> {
    for lines in [Y, WITH_TWO_ROOTS] {
        assert!(rt; of_algorithm(&rt, lines, Y)?);
    }
    Ok(())
}

// Whether the canonical form of the strategy of these nodes for the game 2 3 4 has the nodes that are due.
fn of_adversary(
    rt: &(impl AllocGlobal + std::process::Abort),
    format: Format,
    lines: &[&str],
    due: &[&str],
) -> Result<bool, Fail> {
    let mut pool = AdvPool::new(rt.alloc(), &Game::new(2, 3, 4)?, format);
    for line in lines {
        assert!(rt; put_adversary(rt.alloc(), &mut pool, line)?);
    }
    let root = pool.len().saturating_sub(1);
    assert!(rt; pool.is_root(root));
    let made = minimise(rt.alloc(), &adversary_strategy(pool, root))?;
    Ok(are_adversary(rt.alloc(), format, &made.nodes, due)?)
}

// Puts the node of a line at the end of a pool; whether it meets its rules there.
fn put_adversary(alloc: Global, pool: &mut AdvPool, line: &str) -> Result<bool, AllocError>
    ensures { terms_in pool.new ≡ terms_in pool.old }
{
    let format = pool.format();
    let Some(node) = parse_adversary(alloc, format, line.as_bytes(), pool.len())? else {
        return Ok(false);
    };
    if pool.len() >= 4_000_000_000 {
        return Ok(false);
    }
    match adversary_graph::judge(pool.terms(), pool.positions(), false, &node) {
        Some(_) => Ok(false),
        None => {
            pool.push(node)?;
            Ok(true)
        }
    }
}

// The strategy of a pool of the whole game.
fn adversary_strategy(pool: AdvPool, root: u32) -> Strategy
    requires root { adversary.IsRoot pool.nodes root }
    requires whole { pool.sizes ≡ sizes_of pool.game }
    ensures { IsLegal result }
{
    pool.into_strategy(root)
}

// Whether the canonical form of the strategy of these nodes for the game 2 2 3 has the nodes that are due.
fn of_algorithm(
    rt: &(impl AllocGlobal + std::process::Abort),
    lines: &[&str],
    due: &[&str],
) -> Result<bool, Fail> {
    let mut pool = AlgPool::new(rt.alloc(), &Game::new(2, 2, 3)?, Format::Two);
    for line in lines {
        assert!(rt; put_algorithm(rt.alloc(), &mut pool, line)?);
    }
    let root = pool.len().saturating_sub(1);
    assert!(rt; pool.is_root(root));
    let made = minimise(rt.alloc(), &algorithm_strategy(pool, root))?;
    Ok(are_algorithm(rt.alloc(), &made.nodes, due)?)
}

// Puts the node of a line at the end of a pool of format 2; whether it meets its rules there.
fn put_algorithm(alloc: Global, pool: &mut AlgPool, line: &str) -> Result<bool, AllocError>
    ensures { terms_in pool.new ≡ terms_in pool.old }
{
    match pool.format() {
        Format::One => Ok(false),
        Format::Two => match parse_algorithm(alloc, Format::Two, line.as_bytes(), pool.len())? {
            Some(node) => push_algorithm(alloc, pool, node),
            None => Ok(false),
        },
    }
}

fn push_algorithm(alloc: Global, pool: &mut AlgPool, node: AlgNode) -> Result<bool, AllocError>
    requires { pool.old.format ≡ Two }
    ensures { terms_in pool.new ≡ terms_in pool.old }
{
    if pool.len() >= 4_000_000_000 {
        return Ok(false);
    }
    match algorithm_graph::judge(alloc, pool.terms(), pool.positions(), false, &node)? {
        Some(_rule) => Ok(false),
        None => {
            let _number = pool.push(node)?;
            Ok(true)
        }
    }
}

// The strategy of a pool of the whole game.
fn algorithm_strategy(pool: AlgPool, root: u32) -> Strategy
    requires root { algorithm.IsRoot pool.nodes root }
    requires whole { pool.sizes ≡ sizes_of pool.game }
    ensures { IsLegal result }
{
    pool.into_strategy(root)
}

// Whether these are the nodes of these lines, but for their packings and the items that they send.
fn are_adversary(
    alloc: Global,
    format: Format,
    nodes: &Nodes,
    lines: &[&str],
) -> Result<bool, AllocError> {
    let Nodes::Adversary(nodes) = nodes else {
        return Ok(false);
    };
    let mut number = 0u32;
    for (node, line) in nodes.as_slice().iter().zip(lines) {
        match parse_adversary(alloc, format, line.as_bytes(), number)? {
            Some(due) if is_same_adversary(node, &due) => number = number.wrapping_add(1),
            _ => return Ok(false),
        }
    }
    Ok(nodes.len() == lines.len())
}

fn is_same_adversary(one: &AdvNode, other: &AdvNode) -> bool {
    one.loads.as_slice() == other.loads.as_slice()
        && one.items.as_slice() == other.items.as_slice()
        && placements(&one.step) == placements(&other.step)
}

fn placements(step: &Step) -> &[Placement] {
    match step {
        Step::Send { placements, .. } => placements.as_slice(),
        Step::Burst { .. } => &[],
    }
}

fn are_algorithm(alloc: Global, nodes: &Nodes, lines: &[&str]) -> Result<bool, AllocError> {
    let Nodes::Algorithm(nodes) = nodes else {
        return Ok(false);
    };
    let mut number = 0u32;
    for (node, line) in nodes.as_slice().iter().zip(lines) {
        match parse_algorithm(alloc, Format::Two, line.as_bytes(), number)? {
            Some(due) if is_same_algorithm(node, &due) => number = number.wrapping_add(1),
            _ => return Ok(false),
        }
    }
    Ok(nodes.len() == lines.len())
}

fn is_same_algorithm(one: &AlgNode, other: &AlgNode) -> bool {
    one.loads.as_slice() == other.loads.as_slice()
        && one.items.as_slice() == other.items.as_slice()
        && entries(&one.act) == entries(&other.act)
}

fn entries(act: &Act) -> &[Entry] {
    match act {
        Act::Reply(entries) => entries.as_slice(),
        Act::Finish => &[],
        Act::Big(_) => &[],
    }
}
