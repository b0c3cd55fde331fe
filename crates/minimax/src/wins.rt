//! The wins of the adversary that a search found, as it keeps them until they are written.

ghost use Rattle.std.specs.Prelude.{◌≡◌, ◌<◌, IfOk, length};
ghost use Rattle.strategy_text.specs.Spelling.{most_nodes};
ghost use Rattle.minimax.specs.State.{KeepsWin};

use items::Sequence;
use loads::Position;
use std::alloc::{AllocError, Global};
use strategy_text::Placements;
use transposition::Key;

/// A win of the adversary at a position: the size that it sends, and what follows at each load, from the greatest on.
/// That is the target, or an earlier win by its number.
#[derive(Drop)]
pub(crate) struct Win {
    pub(crate) position: Key,
    pub(crate) size: u16,
    pub(crate) placements: Placements,
}

/// Wins in the order of their numbers.
pub(crate) type Wins = Sequence<Win>;

/// Puts the win at a position at the end, and gives its number.
pub(crate) fn keep_win(
    alloc: Global,
    wins: &mut Wins,
    position: &Position,
    size: u16,
    placements: Placements,
) -> Result<u32, AllocError>
    requires room { length wins.old < most_nodes }
    ensures { IfOk result (KeepsWin wins.old wins.new position.now size placements) }
{
    let number = wins.len() as u32;
    let position = Key::of(alloc, &position.loads, &position.items)?;
    wins.push(Win {
        position,
        size,
        placements,
    })?;
    Ok(number)
}
