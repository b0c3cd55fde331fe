//! Worked strategies at other games.

ghost use Rattle.std.specs.Prelude.{◌≡◌};
ghost use Rattle.items.specs.Multiset.{sizes_of};
ghost use Rattle.strategy_text.specs.declared.node.Format.TheVariants.{Two};
ghost use Rattle.node_pool.specs.Pools.{terms_in};
ghost use Rattle.adversary_graph.specs.Pools as adversary;
ghost use Rattle.algorithm_graph.specs.Pools as algorithm;
ghost use Rattle.strategies.specs.AnyNode.{IsLegal};

use crate::{TransferFault, scale, weaken};
use adversary_graph::{AdvPool, packing_of};
use algorithm_graph::AlgPool;
use items::{Game, Nums};
use packing_witness::Packing;
use std::alloc::{AllocError, Global};
use strategy_text::{
    Act, AdvNode, AlgNode, Entry, Format, Nodes, Placement, Step, Strategy, parse_adversary,
    parse_algorithm,
};

// For the game 2 3 4.
const X: &[&str] = &[
    "0 loads 2 2 items 1 1 2 send 2 pack 1 2 / 1 2 on 2 over",
    "1 loads 2 0 items 1 1 send 2 pack 1 2 / 1 on 2 over on 0 to 0",
    "2 loads 1 1 items 1 1 send 3 pack 3 / 1 1 on 1 over",
    "3 loads 1 0 items 1 send 1 pack 1 1 / - on 1 to 1 on 0 to 2",
    "4 loads 0 0 items - send 1 pack 1 / - on 0 to 3",
];

// The strategy `X` on twice the scale.
const X_TWICE: &[&str] = &[
    "0 loads 4 4 items 2 2 4 send 4 pack 2 4 / 2 4 on 4 over",
    "1 loads 4 0 items 2 2 send 4 pack 2 4 / 2 on 4 over on 0 to 0",
    "2 loads 2 2 items 2 2 send 6 pack 6 / 2 2 on 2 over",
    "3 loads 2 0 items 2 send 2 pack 2 2 / - on 2 to 1 on 0 to 2",
    "4 loads 0 0 items - send 2 pack 2 / - on 0 to 3",
];

// In format 2 for the game 3 6 8. Nothing reaches the first three nodes, of which two have a load of 7.
const BURSTS: &[&str] = &[
    "0 loads 7 3 2 items 1 1 2 2 6 send 6 pack 6 / 6 / 1 1 2 2 on 7 over on 3 over on 2 over",
    "1 loads 7 2 2 items 1 2 2 6 send 1 on 7 over on 2 to 0",
    "2 loads 2 2 1 items 1 2 2 send 6 on 2 over on 1 to 1",
    "3 loads 4 0 0 items 2 2 burst 3 4 pack 2 4 / 2 4 / 4",
    "4 loads 2 2 0 items 2 2 burst 2 6 pack 6 / 6 / 2 2",
    "5 loads 2 0 0 items 2 send 2 on 2 to 3 on 0 to 4",
    "6 loads 0 0 0 items - send 2 on 0 to 5",
];

const BURSTS_TWICE: &[&str] = &[
    "0 loads 14 6 4 items 2 2 4 4 12 send 12 pack 12 / 12 / 2 2 4 4 on 14 over on 6 over on 4 over",
    "1 loads 14 4 4 items 2 4 4 12 send 2 on 14 over on 4 to 0",
    "2 loads 4 4 2 items 2 4 4 send 12 on 4 over on 2 to 1",
    "3 loads 8 0 0 items 4 4 burst 3 8 pack 4 8 / 4 8 / 8",
    "4 loads 4 4 0 items 4 4 burst 2 12 pack 12 / 12 / 4 4",
    "5 loads 4 0 0 items 4 send 4 on 4 to 3 on 0 to 4",
    "6 loads 0 0 0 items - send 4 on 0 to 5",
];

// For the game 3 6 7. The end packing of the first node was 6 / 6 / 1 1 2 2, of which its items with the sent one need
// no second 1 and no second 6.
const BURSTS_AT_7: &[&str] = &[
    "0 loads 2 2 1 items 1 2 2 send 6 pack - / 6 / 1 2 2 on 2 over on 1 over",
    "1 loads 4 0 0 items 2 2 burst 3 4 pack 2 4 / 2 4 / 4",
    "2 loads 2 2 0 items 2 2 burst 2 6 pack 6 / 6 / 2 2",
    "3 loads 2 0 0 items 2 send 2 on 2 to 1 on 0 to 2",
    "4 loads 0 0 0 items - send 2 on 0 to 3",
];

// For the game 2 2 3.
const Y: &[&str] = &[
    "0 loads 2 0 items 1 1 finish",
    "1 loads 2 1 items 1 2 finish",
    "2 loads 1 0 items 1 reply 1 on 1 to 0 2 on 0 to 1",
    "3 loads 2 0 items 2 finish",
    "4 loads 0 0 items - reply 1 on 0 to 2 2 on 0 to 3",
];

// A strategy, the factor or the target, and what is due: no nodes where there is no such game.
#[derive(Clone, Copy)]
struct Row {
    format: Format,
    game: [u16; 3],
    lines: &'static [&'static str],
    asked: u16,
    due_game: [u16; 3],
    due: &'static [&'static str],
}

fn asking(
    format: Format,
    game: [u16; 3],
    lines: &'static [&'static str],
    asked: u16,
    due_game: [u16; 3],
    due: &'static [&'static str],
) -> Row {
    Row {
        format,
        game,
        lines,
        asked,
        due_game,
        due,
    }
}

#[test]
fn a_scaled_strategy_is_multiplied(rt: HostRuntime) {
    for row in [
        asking(Format::One, [2, 3, 4], X, 2, [2, 6, 8], X_TWICE),
        asking(Format::One, [2, 3, 4], X, 1, [2, 3, 4], X),
        asking(Format::One, [2, 3, 4], X, 41, [0, 0, 0], &[]),
        asking(Format::Two, [3, 6, 8], BURSTS, 2, [3, 12, 16], BURSTS_TWICE),
        asking(Format::Two, [3, 6, 8], BURSTS, 21, [0, 0, 0], &[]),
    ] {
        assert!(rt; of_adversary(rt.alloc(), true, &row) == Ok(true));
    }
}

#[test]
fn an_adversary_s_strategy_serves_lower_targets(rt: HostRuntime) {
    for row in [
        asking(Format::One, [2, 6, 8], X_TWICE, 7, [2, 6, 7], X_TWICE),
        asking(Format::One, [2, 3, 4], X, 4, [2, 3, 4], X),
        asking(Format::One, [2, 3, 4], X, 5, [0, 0, 0], &[]),
        asking(Format::One, [2, 3, 4], X, 3, [0, 0, 0], &[]),
        asking(Format::Two, [3, 6, 8], BURSTS, 7, [3, 6, 7], BURSTS_AT_7),
        asking(Format::Two, [3, 6, 8], BURSTS, 8, [3, 6, 8], BURSTS),
    ] {
        assert!(rt; of_adversary(rt.alloc(), false, &row) == Ok(true));
    }
}

#[test]
fn an_algorithm_s_strategy_serves_higher_targets(rt: HostRuntime) {
    for row in [
        asking(Format::Two, [2, 2, 3], Y, 4, [2, 2, 4], Y),
        asking(Format::Two, [2, 2, 3], Y, 3, [2, 2, 3], Y),
        asking(Format::Two, [2, 2, 3], Y, 2, [0, 0, 0], &[]),
        asking(Format::Two, [2, 2, 3], Y, 5, [0, 0, 0], &[]),
    ] {
        assert!(rt; of_algorithm(rt.alloc(), &row) == Ok(true));
    }
}

// Whether a strategy of the adversary, scaled or weakened, is what is due.
fn of_adversary(alloc: Global, scaled: bool, row: &Row) -> Result<bool, AllocError> {
    match Game::new(row.game[0], row.game[1], row.game[2]) {
        Ok(game) => {
            let mut pool = AdvPool::new(alloc, &game, row.format);
            if !fill_adversary(alloc, &mut pool, row.lines)? {
                return Ok(false);
            }
            moves_adversary(alloc, pool, scaled, row)
        }
        Err(_) => Ok(false),
    }
}

// Puts the nodes of these lines into a pool; whether each meets its rules there.
fn fill_adversary(alloc: Global, pool: &mut AdvPool, lines: &[&str]) -> Result<bool, AllocError>
    ensures { terms_in pool.new ≡ terms_in pool.old }
{
    for line in lines {
        if !put_adversary(alloc, pool, line)? {
            return Ok(false);
        }
    }
    Ok(true)
}

fn put_adversary(alloc: Global, pool: &mut AdvPool, line: &str) -> Result<bool, AllocError>
    ensures { terms_in pool.new ≡ terms_in pool.old }
{
    let format = pool.format();
    let Some(node) = parse_adversary(alloc, format, line.as_bytes(), pool.len())? else {
        return Ok(false);
    };
    if pool.len() >= 4_000_000_000 {
        return Ok(false);
    }
    match adversary_graph::judge(pool.terms(), pool.positions(), false, &node) {
        Some(_) => Ok(false),
        None => {
            pool.push(node)?;
            Ok(true)
        }
    }
}

fn moves_adversary(
    alloc: Global,
    pool: AdvPool,
    scaled: bool,
    row: &Row,
) -> Result<bool, AllocError>
    requires whole { pool.sizes ≡ sizes_of pool.game }
{
    let root = pool.len().saturating_sub(1);
    if !pool.is_root(root) {
        return Ok(false);
    }
    let strategy = adversary_strategy(pool, root);
    if scaled {
        scales(alloc, &strategy, row)
    } else {
        weakens(alloc, &strategy, row)
    }
}

// The strategy of a pool of the whole game.
fn adversary_strategy(pool: AdvPool, root: u32) -> Strategy
    requires root { adversary.IsRoot pool.nodes root }
    requires whole { pool.sizes ≡ sizes_of pool.game }
    ensures legal { IsLegal result }
    ensures side { adversary.IsLegalOfAdversary result }
{
    pool.into_strategy(root)
}

fn scales(alloc: Global, strategy: &Strategy, row: &Row) -> Result<bool, AllocError>
    requires legal { adversary.IsLegalOfAdversary strategy.now }
{
    is_due(alloc, &scale(alloc, strategy, row.asked.clamp(1, 120)), row)
}

fn weakens(alloc: Global, strategy: &Strategy, row: &Row) -> Result<bool, AllocError>
    requires legal { IsLegal strategy.now }
{
    is_due(alloc, &weaken(alloc, strategy, row.asked), row)
}

// Whether a weakened strategy of the algorithm is what is due.
fn of_algorithm(alloc: Global, row: &Row) -> Result<bool, AllocError> {
    match Game::new(row.game[0], row.game[1], row.game[2]) {
        Ok(game) => {
            let mut pool = AlgPool::new(alloc, &game, Format::Two);
            if !fill_algorithm(alloc, &mut pool, row.lines)? {
                return Ok(false);
            }
            moves_algorithm(alloc, pool, row)
        }
        Err(_) => Ok(false),
    }
}

// Puts the nodes of these lines into a pool of format 2; whether each meets its rules there.
fn fill_algorithm(alloc: Global, pool: &mut AlgPool, lines: &[&str]) -> Result<bool, AllocError>
    requires { pool.old.format ≡ Two }
    ensures { terms_in pool.new ≡ terms_in pool.old }
{
    for line in lines {
        if !put_algorithm(alloc, pool, line)? {
            return Ok(false);
        }
    }
    Ok(true)
}

fn put_algorithm(alloc: Global, pool: &mut AlgPool, line: &str) -> Result<bool, AllocError>
    requires { pool.old.format ≡ Two }
    ensures { terms_in pool.new ≡ terms_in pool.old }
{
    match parse_algorithm(alloc, Format::Two, line.as_bytes(), pool.len())? {
        Some(node) => push_algorithm(alloc, pool, node),
        None => Ok(false),
    }
}

fn push_algorithm(alloc: Global, pool: &mut AlgPool, node: AlgNode) -> Result<bool, AllocError>
    requires { pool.old.format ≡ Two }
    ensures { terms_in pool.new ≡ terms_in pool.old }
{
    if pool.len() >= 4_000_000_000 {
        return Ok(false);
    }
    match algorithm_graph::judge(alloc, pool.terms(), pool.positions(), false, &node)? {
        Some(_rule) => Ok(false),
        None => {
            let _number = pool.push(node)?;
            Ok(true)
        }
    }
}

fn moves_algorithm(alloc: Global, pool: AlgPool, row: &Row) -> Result<bool, AllocError>
    requires whole { pool.sizes ≡ sizes_of pool.game }
{
    let root = pool.len().saturating_sub(1);
    if !pool.is_root(root) {
        return Ok(false);
    }
    weakens(alloc, &algorithm_strategy(pool, root), row)
}

// The strategy of a pool of the whole game.
fn algorithm_strategy(pool: AlgPool, root: u32) -> Strategy
    requires root { algorithm.IsRoot pool.nodes root }
    requires whole { pool.sizes ≡ sizes_of pool.game }
    ensures { IsLegal result }
{
    pool.into_strategy(root)
}

// Whether the answer is what is due.
fn is_due(
    alloc: Global,
    made: &Result<Strategy, TransferFault>,
    row: &Row,
) -> Result<bool, AllocError> {
    match made {
        Ok(made) => Ok(
            is_game(&made.game, &row.due_game)
                && made.format == row.format
                && are_nodes(alloc, row.format, &made.nodes, row.due)?,
        ),
        Err(TransferFault::Game) => Ok(row.due.is_empty()),
        Err(TransferFault::Memory) => Ok(false),
    }
}

fn is_game(game: &Game, due: &[u16; 3]) -> bool {
    game.m() == due[0] && game.g() == due[1] && game.t() == due[2]
}

// Whether these are the nodes of these lines.
fn are_nodes(
    alloc: Global,
    format: Format,
    nodes: &Nodes,
    lines: &[&str],
) -> Result<bool, AllocError> {
    match nodes {
        Nodes::Adversary(nodes) => are_adversary(alloc, format, nodes.as_slice(), lines),
        Nodes::Algorithm(nodes) => are_algorithm(alloc, nodes.as_slice(), lines),
    }
}

fn are_adversary(
    alloc: Global,
    format: Format,
    nodes: &[AdvNode],
    lines: &[&str],
) -> Result<bool, AllocError> {
    let mut number = 0u32;
    for (node, line) in nodes.iter().zip(lines) {
        match parse_adversary(alloc, format, line.as_bytes(), number)? {
            Some(due) if is_same_adversary(node, &due) => number = number.wrapping_add(1),
            _ => return Ok(false),
        }
    }
    Ok(nodes.len() == lines.len())
}

fn is_same_adversary(one: &AdvNode, other: &AdvNode) -> bool {
    one.loads.as_slice() == other.loads.as_slice()
        && one.items.as_slice() == other.items.as_slice()
        && sent(&one.step) == sent(&other.step)
        && placements(&one.step) == placements(&other.step)
        && is_same_packing(packing_of(&one.step), packing_of(&other.step))
}

// How many items are sent, and their size.
fn sent(step: &Step) -> (u16, u16) {
    match step {
        Step::Send { size, .. } => (1, *size),
        Step::Burst { count, size, .. } => (*count, *size),
    }
}

fn placements(step: &Step) -> &[Placement] {
    match step {
        Step::Send { placements, .. } => placements.as_slice(),
        Step::Burst { .. } => &[],
    }
}

fn is_same_packing(one: Option<&Packing>, other: Option<&Packing>) -> bool {
    match (one, other) {
        (Some(one), Some(other)) => are_same_bins(one.bins(), other.bins()),
        (None, None) => true,
        _ => false,
    }
}

fn are_same_bins(one: &[Nums], other: &[Nums]) -> bool {
    one.len() == other.len()
        && one
            .iter()
            .zip(other)
            .all(|(bin, due)| bin.as_slice() == due.as_slice())
}

fn are_algorithm(alloc: Global, nodes: &[AlgNode], lines: &[&str]) -> Result<bool, AllocError> {
    let mut number = 0u32;
    for (node, line) in nodes.iter().zip(lines) {
        match parse_algorithm(alloc, Format::Two, line.as_bytes(), number)? {
            Some(due) if is_same_algorithm(node, &due) => number = number.wrapping_add(1),
            _ => return Ok(false),
        }
    }
    Ok(nodes.len() == lines.len())
}

fn is_same_algorithm(one: &AlgNode, other: &AlgNode) -> bool {
    one.loads.as_slice() == other.loads.as_slice()
        && one.items.as_slice() == other.items.as_slice()
        && finishes(&one.act) == finishes(&other.act)
        && entries(&one.act) == entries(&other.act)
}

fn finishes(act: &Act) -> bool {
    matches!(act, Act::Finish)
}

fn entries(act: &Act) -> &[Entry] {
    match act {
        Act::Reply(entries) => entries.as_slice(),
        Act::Finish => &[],
        Act::Big(_) => &[],
    }
}
