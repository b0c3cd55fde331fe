//! The nodes to which replies lead. A position that finishes gets its node where a reply leads to it.

ghost use Rattle.std.specs.Prelude.{List, IfOk};
ghost use Rattle.minimax.specs.declared.replies.Reply.{Reply};
ghost use Rattle.minimax.specs.Naming.{AreNamed, IsNamed, MayFinish, MayName, MayNameAll, MayNumber, Names};
ghost use Rattle.minimax.specs.Naming.{NamesAll, Numbers};
ghost use Rattle.minimax.specs.Naming.{PutsNamed};
ghost use Rattle.minimax.specs.State.{AreOfAll};

use crate::finish_nodes::FINISHES;
use crate::nodes::{after, push_finish, push_reply};
use crate::replies::put;
use crate::space::Space;
use crate::writing::Written;
use loads::Position;
use std::alloc::AllocError;
use strategy_text::Entry;
use transposition::Key;

/// Puts the node of the algorithm that replies at the position by these entries, which are given from the last to the
/// first, and gives its number. Where entries lead to positions that finish and have no node, these are put before it.
pub(crate) fn put_reply(
    space: &Space,
    written: &mut Written,
    position: &Position,
    entries: &[Entry],
) -> Result<u32, AllocError>
    requires may { (earlier : List Reply) × MayNameAll space.now earlier written.old position.now entries.now }
    requires of_all { AreOfAll space.now position.now entries.now }
    ensures { IfOk result (PutsNamed space.now written.old written.new position.now entries.now) }
{
    let named = name_all(space, written, position, entries)?;
    push_reply(written.alloc, space, &mut written.pool, position, named)
}

/// The number of the algorithm's node at the position: that of the replies that were told, or one that finishes.
pub(crate) fn node_number(
    space: &Space,
    written: &mut Written,
    position: &Position,
    told: u32,
) -> Result<u32, AllocError>
    requires { (earlier : List Reply) × MayNumber space.now earlier written.old position.now told }
    ensures { IfOk result (Numbers written.old written.new position.now told) }
{
    if told != FINISHES {
        return Ok(written.numbers[told as usize]);
    }
    finish_number(space, written, position)
}

// The number of the node that finishes at the position, which is put where there is none.
fn finish_number(
    space: &Space,
    written: &mut Written,
    position: &Position,
) -> Result<u32, AllocError>
    requires { MayFinish space.now written.old position.now }
    ensures { IfOk result (Names written.old written.new position.now) }
{
    let key = Key::of(written.alloc, &position.loads, &position.items)?;
    if let Some(number) = written.finishes.number(&key) {
        return Ok(number);
    }
    let number = push_finish(written.alloc, space, &mut written.pool, position)?;
    written.finishes.put(key, number)?;
    Ok(number)
}

// The entries at a position, with the numbers of nodes alone.
fn name_all(
    space: &Space,
    written: &mut Written,
    position: &Position,
    entries: &[Entry],
) -> Result<Vec<Entry>, AllocError>
    requires { (earlier : List Reply) × MayNameAll space.now earlier written.old position.now entries.now }
    ensures all { IfOk result (λ _. NamesAll space.now position.now entries.now written.old written.new) }
    ensures named { IfOk result (λ named. AreNamed space.now written.new position.now entries.now named.items) }
{
    let mut all = Vec::new(written.alloc);
    for entry in entries {
        let named = name(space, written, position, *entry)?;
        put(&mut all, named)?;
    }
    Ok(all)
}

// The entry at a position, with the number of a node.
fn name(
    space: &Space,
    written: &mut Written,
    position: &Position,
    entry: Entry,
) -> Result<Entry, AllocError>
    requires { (earlier : List Reply) × MayName space.now earlier written.old position.now entry }
    ensures { IfOk result (IsNamed written.old written.new position.now entry) }
{
    let Entry { size, load, to } = entry;
    let next = after(space, position, size, load);
    let to = node_number(space, written, &next, to)?;
    Ok(Entry { size, load, to })
}
