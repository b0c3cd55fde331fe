ghost use Rattle.std.specs.Prelude.{◌≡◌, IfOk};
ghost use Rattle.items.specs.Multiset.{sizes_of};
ghost use Rattle.node_pool.specs.Pools.{terms_in};
ghost use Rattle.adversary_graph.specs.Nodes.{IsOfFormat};

use crate::{AdvPool, judge, refute};
use items::{Game, Nums};
use online_play::{FirstFit, LeastLoaded, Online, Transcript};
use std::alloc::{AllocError, Global};
use strategy_text::{AdvNode, Format, Rule, parse_adversary};

// The nodes of a legal strategy of the game of two bins of capacity 3 at target 4.
const NODES: [&str; 5] = [
    "0 loads 2 2 items 1 1 2 send 2 pack 1 2 / 1 2 on 2 over",
    "1 loads 2 0 items 1 1 send 2 pack 1 2 / 1 on 2 over on 0 to 0",
    "2 loads 1 1 items 1 1 send 3 pack 3 / 1 1 on 1 over",
    "3 loads 1 0 items 1 send 1 pack 1 1 / - on 1 to 1 on 0 to 2",
    "4 loads 0 0 items - send 1 pack 1 / - on 0 to 3",
];

// The same nodes with packings only where the play ends.
const NODES_OF_FORMAT_2: [&str; 5] = [
    "0 loads 2 2 items 1 1 2 send 2 pack 1 2 / 1 2 on 2 over",
    "1 loads 2 0 items 1 1 send 2 on 2 over on 0 to 0",
    "2 loads 1 1 items 1 1 send 3 pack 3 / 1 1 on 1 over",
    "3 loads 1 0 items 1 send 1 on 1 to 1 on 0 to 2",
    "4 loads 0 0 items - send 1 on 0 to 3",
];

const BURSTS: [&str; 4] = [
    "0 loads 2 0 items 1 1 burst 2 2 pack 1 2 / 1 2",
    "1 loads 1 1 items 1 1 burst 1 3 pack 3 / 1 1",
    "2 loads 1 0 items 1 send 1 on 1 to 0 on 0 to 1",
    "3 loads 0 0 items - send 1 on 0 to 2",
];

// Judges a node after those of a pool, and puts it into the pool where it breaks no rule.
fn put(pool: &mut AdvPool, node: AdvNode, last: bool) -> Result<Option<Rule>, AllocError>
    requires { IsOfFormat pool.old.format node.step }
    ensures { terms_in pool.new ≡ terms_in pool.old }
{
    let fault = judge(pool.terms(), pool.positions(), last, &node);
    if fault.is_none() && pool.len() < 4_000_000_000 {
        let _number = pool.push(node)?;
    }
    Ok(fault)
}

// Judges the node that a line spells, and puts it into the pool where it breaks no rule; the rule is `game` where the
// line spells none.
fn judged(
    alloc: Global,
    pool: &mut AdvPool,
    line: &str,
    last: bool,
) -> Result<Option<Rule>, AllocError>
    ensures { terms_in pool.new ≡ terms_in pool.old }
{
    match parse_adversary(alloc, pool.format(), line.as_bytes(), pool.len())? {
        Some(node) => put(pool, node, last),
        None => Ok(Some(Rule::Game)),
    }
}

// The pool of the nodes of these lines that break no rule, for two bins of capacity 3 and target 4.
fn pool_of(alloc: Global, format: Format, lines: &[&str]) -> Result<AdvPool, AllocError>
    ensures { IfOk result (λ pool. pool.sizes ≡ sizes_of pool.game) }
{
    let game = Game::new(2, 3, 4).unwrap();
    let mut pool = AdvPool::new(alloc, &game, format);
    for line in lines {
        let _fault = judged(alloc, &mut pool, line, false)?;
    }
    Ok(pool)
}

// A format, the nodes before, a node, whether it is the last one, and the rule that it breaks.
type Row = (
    Format,
    &'static [&'static str],
    &'static str,
    bool,
    Option<Rule>,
);

const JUDGED: [Row; 26] = [
    (
        Format::One,
        &[],
        "0 loads 2 2 items 1 1 2 send 2 pack 2 1 / 2 1 on 2 over",
        false,
        None,
    ),
    (
        Format::One,
        &[],
        "0 loads 2 2 0 items 1 1 2 send 2 pack 1 2 / 1 2 on 2 over",
        false,
        Some(Rule::Loads),
    ),
    (
        Format::One,
        &[],
        "0 loads 0 2 items 1 1 send 2 pack 1 2 / 1 on 2 over",
        false,
        Some(Rule::Loads),
    ),
    (
        Format::One,
        &[],
        "0 loads 4 0 items 1 1 2 send 2 pack 1 2 / 1 2 on 4 over",
        false,
        Some(Rule::Loads),
    ),
    (
        Format::One,
        &[],
        "0 loads 2 2 items 2 1 1 send 2 pack 1 2 / 1 2 on 2 over",
        false,
        Some(Rule::Items),
    ),
    (
        Format::One,
        &[],
        "0 loads 2 2 items 1 2 send 2 pack 1 2 / 2 on 2 over",
        false,
        Some(Rule::Items),
    ),
    (
        Format::One,
        &[],
        "0 loads 3 1 items 4 send 2 pack 2 / 2 on 3 over",
        false,
        Some(Rule::Items),
    ),
    (
        Format::One,
        &[],
        "0 loads 0 0 items - send 0 pack 0 / - on 0 over",
        false,
        Some(Rule::Send),
    ),
    (
        Format::One,
        &[],
        "0 loads 0 0 items - send 4 pack 4 / - on 0 over",
        false,
        Some(Rule::Send),
    ),
    (
        Format::One,
        &[],
        "0 loads 2 2 items 1 1 2 send 2 pack 1 1 / 2 on 2 over",
        false,
        Some(Rule::Pack),
    ),
    (
        Format::One,
        &[],
        "0 loads 2 2 items 1 1 2 send 2 pack 1 1 2 / 2 on 2 over",
        false,
        Some(Rule::Pack),
    ),
    (
        Format::One,
        &[],
        "0 loads 2 2 items 1 1 2 send 2 pack 1 2 / 1 2 / - on 2 over",
        false,
        Some(Rule::Pack),
    ),
    (
        Format::One,
        &[],
        "0 loads 2 2 items 1 1 2 send 2 pack 1 65535 / 1 2 on 2 over",
        false,
        Some(Rule::Pack),
    ),
    (
        Format::One,
        &[],
        "0 loads 2 2 items 1 1 2 send 2 pack 1 2 / 1 2 on 2 over on 2 over",
        false,
        Some(Rule::Placements),
    ),
    (
        Format::One,
        &[],
        "0 loads 2 2 items 1 1 2 send 2 pack 1 2 / 1 2 on 2 to 0",
        false,
        Some(Rule::Over),
    ),
    (
        Format::One,
        &[],
        "0 loads 2 1 items 1 2 send 1 pack 1 2 / 1 on 2 over on 1 over",
        false,
        Some(Rule::Over),
    ),
    (
        Format::One,
        &[],
        "0 loads 1 0 items 1 send 1 pack 1 1 / - on 1 to 0 on 0 to 0",
        false,
        Some(Rule::Child),
    ),
    (
        Format::One,
        &[],
        "0 loads 2 2 items 1 1 2 send 2 pack 1 2 / 1 2 on 2 over",
        true,
        Some(Rule::Root),
    ),
    (
        Format::Two,
        &[],
        "0 loads 2 0 items 1 1 burst 2 2 pack 1 2 / 1 2",
        false,
        None,
    ),
    (
        Format::Two,
        &[],
        "0 loads 2 0 items 1 1 burst 1 2 pack 1 2 / 1",
        false,
        Some(Rule::Burst),
    ),
    (
        Format::Two,
        &[],
        "0 loads 2 0 items 1 1 burst 2 0 pack 1 2 / 1 2",
        false,
        Some(Rule::Send),
    ),
    (
        Format::Two,
        &[],
        "0 loads 2 0 items 1 1 burst 3 2 pack 1 2 / 1 2",
        false,
        Some(Rule::Pack),
    ),
    (
        Format::Two,
        &[],
        "0 loads 0 0 items - burst 65535 3 pack 3 / 3",
        false,
        Some(Rule::Pack),
    ),
    (
        Format::Two,
        &[],
        "0 loads 2 0 items 1 1 burst 2 2 pack 1 2 / 1 2",
        true,
        Some(Rule::Root),
    ),
    (
        Format::Two,
        &[],
        "0 loads 1 0 items 1 send 1 pack 1 1 / - on 1 to 0 on 0 to 1",
        false,
        Some(Rule::Pack),
    ),
    (
        Format::Two,
        &[],
        "0 loads 2 2 items 1 1 2 send 2 on 2 over",
        false,
        Some(Rule::Pack),
    ),
];

fn is_judged_so(alloc: Global, row: &Row) -> Result<bool, AllocError> {
    let mut pool = pool_of(alloc, row.0, row.1)?;
    Ok(judged(alloc, &mut pool, row.2, row.3)? == row.4)
}

#[test]
fn names_the_first_rule_that_a_node_breaks(rt: HostRuntime) {
    for row in &JUDGED {
        assert!(rt; is_judged_so(rt.alloc(), row).unwrap_or(false), "{}", row.2);
    }
}

const CHILDREN: [Row; 3] = [
    (
        Format::One,
        &["0 loads 2 2 items 1 1 2 send 2 pack 1 2 / 1 2 on 2 over"],
        "1 loads 2 0 items 1 1 send 2 pack 1 2 / 1 on 2 over on 0 to 0",
        false,
        None,
    ),
    (
        Format::One,
        &["0 loads 2 2 items 1 1 2 send 2 pack 1 2 / 1 2 on 2 over"],
        "1 loads 2 0 items 1 1 send 2 pack 1 2 / 1 on 2 over on 0 to 1",
        false,
        Some(Rule::Child),
    ),
    (
        Format::One,
        &["0 loads 2 2 items 1 1 1 1 send 2 pack 1 1 1 / 1 2 on 2 over"],
        "1 loads 2 0 items 1 1 send 2 pack 1 2 / 1 on 2 over on 0 to 0",
        false,
        Some(Rule::Child),
    ),
];

#[test]
fn a_child_has_the_position_after_the_placement(rt: HostRuntime) {
    for row in &CHILDREN {
        assert!(rt; is_judged_so(rt.alloc(), row).unwrap_or(false), "{}", row.2);
    }
}

// Always answers the bin of the greatest number.
#[derive(Drop)]
struct HighestBin;

impl Online for HighestBin {
    ghost use Rattle.std.specs.Prelude.{◌-◌};
    ghost use Rattle.std.proofs.Common.{arith};

    ghost answer = { λ player game items. game.bins - 1 };

    ghost is_algorithm = { λ player game legal items some packable. Prim.omega (arith, legal.bins.low) };

    fn place(&self, game: &Game, _history: &[u16]) -> u8 {
        (game.m() - 1) as u8
    }
}

// Answers by whether the number of items before the last one is even.
#[derive(Drop)]
struct ByParity;

impl Online for ByParity {
    ghost use Rattle.std.specs.Prelude.{◌-◌, ◌%◌, length};
    ghost use Rattle.std.proofs.Math.Nat.{le_trans, mod-lt};
    ghost use Rattle.std.proofs.Math.Dec.{lit≤};

    ghost answer = { λ player game items. (length items - 1) % 2 };

    ghost is_algorithm = { λ player game legal items some packable.
        le_trans (mod-lt (length items - 1) (lit≤ tt)) legal.bins.low };

    fn place(&self, _game: &Game, history: &[u16]) -> u8 {
        ((history.len() - 1) % 2) as u8
    }
}

// The nodes of a game, and a play of theirs.
struct Play {
    format: Format,
    nodes: &'static [&'static str],
    items: &'static [u16],
    bins: &'static [u8],
    loads: &'static [u16],
    packing: [&'static [u16]; 2],
}

const OF_HIGHEST_BIN: [Play; 3] = [
    Play {
        format: Format::One,
        nodes: &NODES,
        items: &[1, 1, 2],
        bins: &[1, 1, 1],
        loads: &[0, 4],
        packing: [&[1, 2], &[1]],
    },
    Play {
        format: Format::Two,
        nodes: &NODES_OF_FORMAT_2,
        items: &[1, 1, 2],
        bins: &[1, 1, 1],
        loads: &[0, 4],
        packing: [&[1], &[1, 2]],
    },
    // A burst is played to its end, past the target.
    Play {
        format: Format::Two,
        nodes: &BURSTS,
        items: &[1, 1, 2, 2],
        bins: &[1, 1, 1, 1],
        loads: &[0, 6],
        packing: [&[1, 2], &[1, 2]],
    },
];

const OF_PARITY: [Play; 1] = [Play {
    format: Format::One,
    nodes: &NODES,
    items: &[1, 1, 3],
    bins: &[0, 1, 0],
    loads: &[4, 1],
    packing: [&[3], &[1, 1]],
}];

const OF_FIRST_FIT: Play = Play {
    format: Format::One,
    nodes: &NODES,
    items: &[1, 1, 2, 2],
    bins: &[0, 0, 1, 0],
    loads: &[4, 2],
    packing: [&[1, 2], &[1, 2]],
};

const OF_LEAST_LOADED: [Play; 1] = [Play {
    format: Format::Two,
    nodes: &BURSTS,
    items: &[1, 1, 3],
    bins: &[0, 1, 0],
    loads: &[4, 1],
    packing: [&[3], &[1, 1]],
}];

fn is_play(play: &Transcript, want: &Play) -> bool {
    if play.items.as_slice() != want.items {
        return false;
    }
    if play.bins.as_slice() != want.bins {
        return false;
    }
    if play.loads.as_slice() != want.loads {
        return false;
    }
    are_bins(play.packing.bins(), want.packing)
}

fn are_bins(bins: &[Nums], want: [&[u16]; 2]) -> bool {
    if bins.len() != 2 {
        return false;
    }
    if bins[0].as_slice() != want[0] {
        return false;
    }
    bins[1].as_slice() == want[1]
}

// Whether a player comes to a play of its nodes from the last one on.
fn comes_to<O: Online>(alloc: Global, player: &O, play: &Play) -> Result<bool, AllocError> {
    let pool = pool_of(alloc, play.format, play.nodes)?;
    is_played(alloc, &pool, player, play)
}

fn is_played<O: Online>(
    alloc: Global,
    pool: &AdvPool,
    player: &O,
    play: &Play,
) -> Result<bool, AllocError> {
    let root = pool.len().saturating_sub(1);
    if !pool.is_root(root) {
        return Ok(false);
    }
    let made = refute(alloc, pool, root, player)?;
    Ok(is_play(&made, play))
}

fn come_to<O: Online>(alloc: Global, player: &O, plays: &[Play]) -> Result<bool, AllocError> {
    for play in plays {
        if !comes_to(alloc, player, play)? {
            return Ok(false);
        }
    }
    Ok(true)
}

fn each_comes_to(alloc: Global) -> Result<bool, AllocError> {
    if !come_to(alloc, &HighestBin, &OF_HIGHEST_BIN)? {
        return Ok(false);
    }
    if !come_to(alloc, &ByParity, &OF_PARITY)? {
        return Ok(false);
    }
    come_to(alloc, &LeastLoaded, &OF_LEAST_LOADED)
}

#[test]
fn each_player_loses_its_play(rt: HostRuntime) {
    assert!(rt; each_comes_to(rt.alloc()).unwrap_or(false));
}

// Whether the play against first fit is as told where the pool was a strategy in between.
fn comes_to_again(alloc: Global, play: &Play) -> Result<bool, AllocError> {
    let pool = pool_of(alloc, play.format, play.nodes)?;
    if !pool.is_root(4) {
        return Ok(false);
    }
    let again = AdvPool::from_strategy(alloc, pool.into_strategy(4))?;
    is_played(alloc, &again, &FirstFit, play)
}

#[test]
fn a_pool_is_a_strategy_and_back(rt: HostRuntime) {
    assert!(rt; comes_to_again(rt.alloc(), &OF_FIRST_FIT).unwrap_or(false));
}
