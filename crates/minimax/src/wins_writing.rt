//! The strategy of the wins that a search kept.

ghost use Rattle.std.specs.Prelude.{◌≡◌, All, IfOk, IsTrue, length, map};
ghost use Rattle.items.specs.Multiset.{IsSize};
ghost use Rattle.minimax.specs.Answers.{IsFor, IsLegalOfAdversaryOver};
ghost use Rattle.minimax.specs.Reached.{LeadsBelow};
ghost use Rattle.minimax.specs.WinsWriting.{MayPutWin, MayWriteWins, WritesWin, renumbered, renumbered_next};

use crate::nodes::push_win;
use crate::reached::reached_from;
use crate::space::Space;
use crate::wins::{Win, Wins};
use adversary_graph::AdvJudged;
use node_pool::Terms;
use std::alloc::{AllocError, Global};
use strategy_text::{Format, Placement, Placements, Strategy, Then};

/// The strategy of the adversary whose root is the win of this number. Only the wins that are reached from it get a
/// node, with a packing of its items and the sent one.
pub(crate) fn write_wins(
    alloc: Global,
    space: &Space,
    wins: &Wins,
    root: u32,
) -> Result<Strategy, AllocError>
    requires sizes { All (IsSize space.now.game.capacity) space.now.sizes }
    requires may { MayWriteWins space.now wins.now root }
    ensures legal { IfOk result (IsLegalOfAdversaryOver space.now.sizes) }
    ensures for_game { IfOk result (IsFor space.now.game (length wins.now)) }
{
    let marks = reached_from(alloc, wins, root)?;
    let mut pool = AdvJudged::new(
        alloc,
        Terms::of_sizes(Format::One, &space.game, &space.sizes),
    );
    let mut numbers = Vec::new(alloc);
    for k in 0..marks.len() {
        let win = &wins.as_slice()[k];
        let number = write_win(alloc, space, &mut pool, numbers.as_slice(), win, marks[k])?;
        numbers.push(number)?;
    }
    Ok(pool.into_strategy(numbers[root as usize]))
}

// Puts the node of a win where that is reached, and gives its number; else 0.
fn write_win(
    alloc: Global,
    space: &Space,
    pool: &mut AdvJudged,
    numbers: &[u32],
    win: &Win,
    reached: bool,
) -> Result<u32, AllocError>
    requires may { IsTrue reached → MayPutWin space.now pool.old numbers.now win.now }
    ensures { IfOk result (WritesWin pool.old pool.new win.now reached) }
{
    if !reached {
        return Ok(0);
    }
    let placements = renumber(alloc, numbers, win.placements.as_slice())?;
    push_win(
        alloc,
        space,
        pool,
        &win.position.position(),
        win.size,
        placements,
    )
}

// The placements of a win, with the numbers of the nodes in place of those of the wins.
fn renumber(
    alloc: Global,
    numbers: &[u32],
    placements: &[Placement],
) -> Result<Placements, AllocError>
    requires { All (λ placement. LeadsBelow (length numbers.now) placement.next) placements.now }
    ensures { IfOk result (λ made. made ≡ map (renumbered numbers.now) placements.now) }
{
    let mut made = Placements::new(alloc);
    for placement in placements {
        let Placement { load, next } = *placement;
        made.push(Placement {
            load,
            next: renumber_next(numbers, next),
        })?;
    }
    Ok(made)
}

// What follows, with the number of the node in place of that of the win.
fn renumber_next(numbers: &[u32], next: Then) -> Then
    requires { LeadsBelow (length numbers.now) next }
    ensures { result ≡ renumbered_next numbers.now next }
{
    match next {
        Then::Over => Then::Over,
        Then::To(child) => Then::To(numbers[child as usize]),
    }
}
