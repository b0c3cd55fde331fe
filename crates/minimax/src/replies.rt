//! The replies of the algorithm that a search found, as it keeps them until they are written.

ghost use Rattle.std.specs.Prelude.{◌≡◌, ◌<◌, ◌++◌, ◌∷◌, [], IfOk, OnOk, length};
ghost use Rattle.strategy_text.specs.Spelling.{most_nodes};
ghost use Rattle.minimax.specs.State.{KeepsReply};

use items::Sequence;
use loads::Position;
use std::alloc::{AllocError, Global};
use strategy_text::Entry;
use transposition::Key;

/// The replies at a position, from the largest size on: each names a load, and the number of an earlier such reply or
/// that the position it leads to finishes.
#[derive(Drop)]
pub(crate) struct Reply {
    pub(crate) position: Key,
    pub(crate) entries: Vec<Entry>,
}

/// Replies in the order of their numbers.
pub(crate) type Replies = Sequence<Reply>;

/// Puts the replies at a position at the end, and gives their number.
pub(crate) fn keep(
    alloc: Global,
    replies: &mut Replies,
    position: &Position,
    entries: Vec<Entry>,
) -> Result<u32, AllocError>
    requires room { length replies.old < most_nodes }
    ensures { IfOk result (KeepsReply replies.old replies.new position.now entries.items) }
{
    let number = replies.len() as u32;
    let position = Key::of(alloc, &position.loads, &position.items)?;
    replies.push(Reply { position, entries })?;
    Ok(number)
}

/// Puts an entry at the end.
pub(crate) fn put(entries: &mut Vec<Entry>, entry: Entry) -> Result<(), AllocError>
    ensures { OnOk result (entries.new.items ≡ entries.old.items ++ entry ∷ []) }
{
    entries.push(entry)?;
    Ok(())
}
