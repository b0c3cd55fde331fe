//! The nodes that are put into the pools of both sides where a strategy is written.

ghost use Rattle.std.specs.Prelude.{◌≡◌, ◌+◌, ◌<◌, ◌++◌, ◌∷◌, [], Contains, IfOk, length, map};
ghost use Rattle.items.specs.Packable.{Packable};
ghost use Rattle.items.specs.Multiset.{put_ascending};
ghost use Rattle.loads.specs.After.{after};
ghost use Rattle.loads.specs.Loads.{loads_after};
ghost use Rattle.loads.specs.Position.{position};
ghost use Rattle.strategy_text.specs.Spelling.{most_nodes};
ghost use Rattle.adversary_graph.specs.Nodes.{position_of};
ghost use Rattle.good_situations.specs.Finish.{Finishes};
ghost use Rattle.minimax.specs.State.{IsPlain, IsPlayable, PutsWin, PutsReply, PlacesAll, ReplyToAll, MayAct};

use crate::space::Space;
use adversary_graph::AdvJudged;
use algorithm_graph::AlgJudged;
use items::Nums;
use items::laws::game_is_legal;
use loads::{Loads, Position};
use reachable_loads::pack;
use std::alloc::{AllocError, Global};
use strategy_text::{Act, AdvNode, AlgNode, Entries, Entry, Placements, Step};
use transposition::Key;

/// Puts the node of the adversary that sends an item of this size at the position, with a packing of its items and
/// the sent one, and gives its number.
pub(crate) fn push_win(
    alloc: Global,
    space: &Space,
    wins: &mut AdvJudged,
    position: &Position,
    size: u16,
    placements: Placements,
) -> Result<u32, AllocError>
    requires playable { IsPlayable space.now position.now }
    requires listed { Contains space.now.sizes size }
    requires may_come { Packable space.now.game (position.now.items ++ size ∷ []) }
    requires format { IsPlain space.now wins.old }
    requires room { length wins.old.nodes < most_nodes }
    requires places { PlacesAll space.now.game (map position_of wins.old.nodes) position.now size placements }
    ensures { IfOk result (PutsWin wins.old wins.new position.now) }
{
    game_is_legal(&space.game);
    let pack = pack(alloc, &space.game, &position.items.add(size))?;
    let step = Step::Send {
        size,
        pack,
        placements,
    };
    let node = AdvNode {
        loads: Nums::from_slice(alloc, position.loads.as_slice())?,
        items: position.items.list(alloc)?,
        step,
    };
    wins.push(node)
}

/// Puts the node of the algorithm that finishes at the position, and gives its number.
pub(crate) fn push_finish(
    alloc: Global,
    space: &Space,
    replies: &mut AlgJudged,
    position: &Position,
) -> Result<u32, AllocError>
    requires playable { IsPlayable space.now position.now }
    requires format { IsPlain space.now replies.old }
    requires room { length replies.old.nodes < most_nodes }
    requires finishes { Finishes space.now.game position.now.loads }
    ensures { IfOk result (PutsReply replies.old replies.new position.now) }
{
    push_act(alloc, space, replies, position, Act::Finish)
}

/// Puts the node of the algorithm that replies at the position by these entries, which are given from the last to the
/// first, and gives its number.
pub(crate) fn push_reply(
    alloc: Global,
    space: &Space,
    replies: &mut AlgJudged,
    position: &Position,
    mut entries: Vec<Entry>,
) -> Result<u32, AllocError>
    requires playable { IsPlayable space.now position.now }
    requires format { IsPlain space.now replies.old }
    requires room { length replies.old.nodes < most_nodes }
    requires replies { ReplyToAll space.now replies.old.nodes position.now entries.items }
    ensures { IfOk result (PutsReply replies.old replies.new position.now) }
{
    entries.reverse();
    let entries = Entries::from_slice(alloc, entries.as_slice())?;
    push_act(alloc, space, replies, position, Act::Reply(entries))
}

// Puts a node of the algorithm, and gives its number.
fn push_act(
    alloc: Global,
    space: &Space,
    replies: &mut AlgJudged,
    position: &Position,
    act: Act,
) -> Result<u32, AllocError>
    requires { MayAct space.now replies.old position.now act }
    ensures { IfOk result (PutsReply replies.old replies.new position.now) }
{
    let node = AlgNode {
        loads: Nums::from_slice(alloc, position.loads.as_slice())?,
        items: position.items.list(alloc)?,
        act,
    };
    replies.push(node)
}

/// The position after an item of this size went to a bin of this load. Takes no memory.
pub(crate) fn after(space: &Space, position: &Position, size: u16, load: u16) -> Position
    requires playable { IsPlayable space.now position.now }
    requires has_load { Contains position.now.loads load }
    requires below_target { load + size < space.now.game.target }
    requires may_come { Packable space.now.game (position.now.items ++ size ∷ []) }
    ensures { result ≡ after position.now load size }
{
    game_is_legal(&space.game);
    Position {
        loads: position.loads.place(&space.game, load, size).unwrap(),
        items: position.items.add(size),
    }
}

/// The loads after an item of this size went to a bin of this load. Takes no memory.
pub(crate) fn loads_after(space: &Space, position: &Position, size: u16, load: u16) -> Loads
    requires playable { IsPlayable space.now position.now }
    requires has_load { Contains position.now.loads load }
    requires below_target { load + size < space.now.game.target }
    ensures { result ≡ loads_after position.now.loads load size }
{
    position.loads.place(&space.game, load, size).unwrap()
}

/// The key of the position of these loads after an item of this size.
pub(crate) fn key_after(
    alloc: Global,
    space: &Space,
    key: &Key,
    loads: &Loads,
    size: u16,
) -> Result<Key, AllocError>
    requires playable { IsPlayable space.now key.now }
    requires may_come { Packable space.now.game (key.now.items ++ size ∷ []) }
    ensures { IfOk result (λ made. made ≡ position loads.now (put_ascending size key.now.items)) }
{
    game_is_legal(&space.game);
    key.after(alloc, loads, size)
}
