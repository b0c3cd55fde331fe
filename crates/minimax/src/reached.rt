//! Which of the wins that a search kept are reached from one of them.

ghost use Rattle.std.specs.Prelude.{◌≡◌, ◌<◌, ℕ, All, IfOk, length, slice_set, true};
ghost use Rattle.minimax.specs.Reached.{AreReached, LeadsBelow, LeadsToMarked, LooksAt, MarksBelow};
ghost use Rattle.minimax.specs.State.{AreReadyWins};

use crate::wins::Wins;
use std::alloc::{AllocError, Global};
use strategy_text::{Placement, Then};

/// The marks of the wins that are reached from the win of this number, up to that one.
pub(crate) fn reached_from(alloc: Global, wins: &Wins, root: u32) -> Result<Vec<bool>, AllocError>
    requires ready { (space : _) × AreReadyWins space wins.now }
    requires within { root < length wins.now }
    ensures { IfOk result (λ marks. AreReached wins.now root 0 marks.items) }
{
    let root = root as usize;
    let mut marks = vec![in alloc; false; root + 1]?;
    marks[root] = true;
    for number in (0..root + 1).rev() {
        look_at(wins, &mut marks, number);
    }
    Ok(marks)
}

// Marks what a win leads to, where that is marked.
fn look_at(wins: &Wins, marks: &mut Vec<bool>, number: usize)
    requires ready { (space : _) × AreReadyWins space wins.now }
    requires within { number < length wins.now }
    requires has_mark { number < length marks.old.items }
    ensures { LooksAt wins.now number marks.old.items marks.new.items }
{
    if marks[number] {
        mark_all(marks, wins.as_slice()[number].placements.as_slice());
    }
}

// Marks what the placements lead to.
fn mark_all(marks: &mut Vec<bool>, placements: &[Placement])
    requires { All (λ placement. LeadsBelow (length marks.old.items) placement.next) placements.now }
    ensures marked { All (λ placement. LeadsToMarked marks.new.items placement.next) placements.now }
    ensures below { (high : ℕ) → All (λ placement. LeadsBelow high placement.next) placements.now
        → MarksBelow high marks.old.items marks.new.items }
{
    for placement in placements {
        mark(marks, placement.next);
    }
}

// Marks what follows.
fn mark(marks: &mut Vec<bool>, next: Then)
    requires { LeadsBelow (length marks.old.items) next }
    ensures marked { LeadsToMarked marks.new.items next }
    ensures below { (high : ℕ) → LeadsBelow high next → MarksBelow high marks.old.items marks.new.items }
{
    if let Then::To(child) = next {
        marks[child as usize] = true;
    }
}
