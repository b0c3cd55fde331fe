//! The strategy of the replies that a search kept.

ghost use Rattle.std.specs.Prelude.{All, IfOk, OnOk};
ghost use Rattle.items.specs.Multiset.{IsSize};
ghost use Rattle.minimax.specs.Answers.{IsFor, IsLegalOfAlgorithmOver};
ghost use Rattle.minimax.specs.Writing.{MayPut, MayWrite, Puts};

use crate::finish_nodes::FinishNodes;
use crate::naming::{node_number, put_reply};
use crate::replies::{Replies, Reply};
use crate::space::Space;
use algorithm_graph::AlgJudged;
use loads::Position;
use node_pool::Terms;
use std::alloc::{AllocError, Global};
use strategy_text::{Format, Strategy};

/// The nodes that were written so far.
#[derive(Drop)]
pub(crate) struct Written {
    pub(crate) alloc: Global,
    pub(crate) pool: AlgJudged,
    /// The numbers of the nodes that finish, by their positions.
    pub(crate) finishes: FinishNodes,
    /// The numbers of the nodes that reply, by those of the replies.
    pub(crate) numbers: Vec<u32>,
}

/// The strategy of the algorithm whose root is the position of these replies, or a position that finishes. Positions
/// that finish and to which replies lead get one node each.
pub(crate) fn write_replies(
    alloc: Global,
    space: &Space,
    replies: &Replies,
    root: &Position,
    told: u32,
    budget: u32,
) -> Result<Strategy, AllocError>
    requires sizes { All (IsSize space.now.game.capacity) space.now.sizes }
    requires may { MayWrite space.now replies.now root.now told budget }
    ensures legal { IfOk result (IsLegalOfAlgorithmOver space.now.sizes) }
    ensures for_game { IfOk result (IsFor space.now.game budget) }
{
    let mut written = Written {
        alloc,
        pool: AlgJudged::new(
            alloc,
            Terms::of_sizes(Format::One, &space.game, &space.sizes),
        ),
        finishes: FinishNodes::new(alloc),
        numbers: Vec::new(alloc),
    };
    for reply in replies.as_slice() {
        write(space, &mut written, reply)?;
    }
    let number = node_number(space, &mut written, root, told)?;
    Ok(written.pool.into_strategy(number))
}

// Writes the replies at a position.
fn write(space: &Space, written: &mut Written, reply: &Reply) -> Result<(), AllocError>
    requires { MayPut space.now written.old reply.now }
    ensures { OnOk result (Puts space.now written.old written.new reply.now) }
{
    let position = reply.position.position();
    let number = put_reply(space, written, &position, reply.entries.as_slice())?;
    written.numbers.push(number)?;
    Ok(())
}
