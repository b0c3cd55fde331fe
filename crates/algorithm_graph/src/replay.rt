//! The replay of a list of items over the nodes of a strategy of the algorithm.

ghost use Rattle.std.specs.Prelude.{◌≡◌, ◌≢◌, ◌==◌, ◌<◌, ◌≤◌, [], IfSome, MatchOption, None, Some, find, length};
ghost use Rattle.std.specs.Prelude.{position, slice_get};
ghost use Rattle.items.specs.Packable.{Packable};
ghost use Rattle.good_situations.specs.KeptOrder.{CanAdd, IsOrderOf};
ghost use Rattle.algorithm_graph.specs.Pools.{IsRoot};
ghost use Rattle.node_pool.specs.Pools.{nodes_up_to};
ghost use Rattle.algorithm_graph.specs.Replies.{at_node, stay, finish_move, big_move, bin_move, entry_move, act_move};
ghost use Rattle.algorithm_graph.specs.Replies.{move_at, replies};
ghost use Rattle.algorithm_graph.specs.Replaying.{stand_of, IsStandIn, IsStep, LeavesABin};

use crate::pool::AlgJudged;
use good_situations::{BigFinish, Finish};
use items::Game;
use loads::Actual;
use strategy_text::{Act, AlgNode, Entry};

/// Where a replay stands: at a node, or under an order of the bins that is kept.
#[derive(Drop)]
pub enum ReplayStand {
    AtNode(u32),
    UnderFinish(Finish),
    UnderBig(BigFinish),
}

/// The bin that an item goes to, and where the replay stands after it.
#[derive(Drop)]
pub struct Step {
    pub bin: u8,
    pub next: ReplayStand,
}

// The bin of the last item of a list in the replay from a root.
pub fn replay(pool: &AlgJudged, root: u32, game: &Game, history: &[u16]) -> u8
    requires root { IsRoot pool.now.nodes root }
    requires game { pool.now.game ≡ game.now }
    requires some { history.now ≢ [] }
    requires packable { Packable game.now history.now }
    ensures { result ≡ replies game.now (nodes_up_to root pool.now.nodes) history.now }
{
    let mut actual = Actual::zero(game);
    let mut stand = ReplayStand::AtNode(root);
    let mut bin = 0;
    for size in history {
        let step = step_at(pool, root, game, actual.as_slice(), stand, *size);
        bin = step.bin;
        stand = step.next;
        actual.put(bin, *size);
    }
    bin
}

fn step_at(
    pool: &AlgJudged,
    root: u32,
    game: &Game,
    actual: &[u16],
    stand: ReplayStand,
    size: u16,
) -> Step
    requires root { IsRoot pool.now.nodes root }
    requires game { pool.now.game ≡ game.now }
    requires one_each { length actual.now ≡ game.now.bins }
    requires fits { CanAdd actual.now size }
    requires stand { IsStandIn game.now stand }
    ensures { IsStep game.now result
        (move_at game.now (nodes_up_to root pool.now.nodes) actual.now size (stand_of stand)) }
{
    match stand {
        ReplayStand::AtNode(number) => match node_of(pool, root, number) {
            Some(node) => act_step(game, number, actual, &node.act, size),
            None => step_nowhere(game, number),
        },
        ReplayStand::UnderFinish(kept) => finish_step(actual, kept, size),
        ReplayStand::UnderBig(kept) => big_step(game, actual, kept, size),
    }
}

// The node of this number among those up to the root.
fn node_of(pool: &AlgJudged, root: u32, number: u32) -> Option<&AlgNode>
    requires { IsRoot pool.now.nodes root }
    ensures exact { let found = slice_get (nodes_up_to root pool.now.nodes) number in
        MatchOption result (found ≡ None) (λ node. found ≡ Some node.now) }
    ensures left { IfSome result (λ node. LeavesABin pool.now.game node.now.act) }
{
    let _count = pool.len();
    if number > root {
        return None;
    }
    Some(pool.node(number))
}

// Where no step is defined, an item goes to bin 0.
fn step_nowhere(game: &Game, number: u32) -> Step
    ensures { IsStep game.now result (stay (at_node number)) }
{
    let _bins = game.m();
    Step {
        bin: 0,
        next: ReplayStand::AtNode(number),
    }
}

fn finish_step(actual: &[u16], kept: Finish, size: u16) -> Step
    requires one_each { length actual.now ≡ kept.game.bins }
    requires fits { CanAdd actual.now size }
    ensures { IsStep kept.game result (finish_move kept.game actual.now size kept.order) }
{
    let bin = kept.bin(actual, size);
    Step {
        bin,
        next: ReplayStand::UnderFinish(kept),
    }
}

fn big_step(game: &Game, actual: &[u16], kept: BigFinish, size: u16) -> Step
    requires of_game { IsOrderOf game.now.bins kept }
    requires one_each { length actual.now ≡ game.now.bins }
    requires fits { CanAdd actual.now size }
    ensures { IsStep game.now result (big_move game.now actual.now size kept) }
{
    let mut kept = kept;
    let bin = kept.place(game, actual, size);
    Step {
        bin,
        next: ReplayStand::UnderBig(kept),
    }
}

// At a node that does this.
fn act_step(game: &Game, number: u32, actual: &[u16], act: &Act, size: u16) -> Step
    requires left { LeavesABin game.now act.now }
    requires one_each { length actual.now ≡ game.now.bins }
    requires fits { CanAdd actual.now size }
    ensures { IsStep game.now result (act_move game.now number actual.now size act.now) }
{
    match act {
        Act::Finish => finish_step(actual, Finish::begin(game, actual), size),
        Act::Big(b) => big_step(game, actual, BigFinish::begin(game, actual, *b), size),
        Act::Reply(entries) => {
            let entry = entry_for(entries.as_slice(), size);
            entry_step(game, number, actual, entry)
        }
    }
}

// The first entry of a size.
fn entry_for(entries: &[Entry], size: u16) -> Option<Entry>
    ensures { result ≡ find (λ entry. entry.size == size) entries.now }
{
    entries.iter().copied().find(|entry| entry.size == size)
}

fn entry_step(game: &Game, number: u32, actual: &[u16], entry: Option<Entry>) -> Step
    requires { length actual.now ≡ game.now.bins }
    ensures { IsStep game.now result (entry_move number actual.now entry) }
{
    let Some(entry) = entry else {
        return step_nowhere(game, number);
    };
    let Some(bin) = first_with(actual, entry.load) else {
        return step_nowhere(game, number);
    };
    let _bins = game.m();
    Step {
        bin: bin as u8,
        next: ReplayStand::AtNode(entry.to),
    }
}

fn first_with(actual: &[u16], wanted: u16) -> Option<usize>
    ensures { result ≡ position (λ load. load == wanted) actual.now }
{
    actual.iter().position(|load| *load == wanted)
}
