//! The search of a game with listed sizes.

ghost use Rattle.std.specs.Prelude.{◌≡◌, ◌≤◌, ◌-◌, ◌+◌, ◌*◌, ◌^◌, ℕ, [], IfOk};
ghost use Rattle.listed_sizes.specs.Answers.{IsFoundFor, IsFoundSome, IsListedAnswer};
ghost use Rattle.minimax.specs.Answers.{IsFor};
ghost use Rattle.checker.specs.Listed.{IsLegalOver};
ghost use Rattle.monotone.specs.Passes.{allowed_in};
ghost use Rattle.monotone.specs.Positions.{CountsReachable};
ghost use Rattle.strategy_text.specs.Spelling.{most_nodes};

use crate::game::ListedGame;
use crate::strategy::ListedStrategy;
use items::Nums;
use minimax::Answer;
use monotone::Path;
use std::alloc::{AllocError, Global};
use strategy_text::Strategy;
use transposition::Memo;

/// What a search of a game with listed sizes answers.
#[derive(Drop)]
pub enum ListedAnswer {
    /// One of the sides wins, by this strategy.
    Found(ListedStrategy),
    /// The budget ended before either side was found to win.
    Undecided {
        /// How many visits were made: the budget.
        visits: u32,
        /// The path of the visit that was due, in the pass of the capacity less 1.
        path: Path,
    },
}

/// Who wins a game with listed sizes, searched in its one pass under a budget of visits; the memo is empty at the
/// start. It is the search [`minimax::solve_listed`], with its cost.
///
/// A strategy is legal over the sizes, of this game, and has at most as many nodes as the budget allows visits.
/// `Undecided` is answered where the budget is spent and a further visit is due, before which all is decided. With a
/// budget of `(m + 1) ^ (m * g)` visits it never is, and neither where the memo has room for all positions that are
/// reachable with these sizes and the budget is as much. Fails only for want of memory; what the memo then holds is
/// open.
pub fn solve_listed<M: Memo>(
    alloc: Global,
    listed: &ListedGame,
    budget: u32,
    memo: &mut M,
) -> Result<ListedAnswer, AllocError>
    requires some { 1 ≤ budget }
    requires most { budget ≤ most_nodes }
    requires empty { M.entries memo.old ≡ [] }
    ensures answer { IfOk result (IsListedAnswer listed.now budget) }
    ensures many_visits { (listed.now.game.bins + 1) ^ (listed.now.game.bins * listed.now.game.capacity) ≤ budget
        → IfOk result IsFoundSome }
    ensures all_positions { (all : ℕ)
        → CountsReachable listed.now.game (allowed_in listed.now.sizes (listed.now.game.capacity - 1)) all
        → all ≤ M.room memo.old → all ≤ budget → IfOk result IsFoundSome }
{
    let game = listed.game();
    match minimax::solve_listed(alloc, &game, listed.set(), budget, memo)? {
        Answer::Adversary(strategy) => found(alloc, listed, strategy),
        Answer::Algorithm(strategy) => found(alloc, listed, strategy),
        Answer::Undecided { visits, path, .. } => Ok(ListedAnswer::Undecided { visits, path }),
    }
}

// The answer of a strategy that was found.
fn found(alloc: Global, listed: &ListedGame, strategy: Strategy) -> Result<ListedAnswer, AllocError>
    ensures legal { (budget : ℕ) → IsLegalOver listed.now.sizes strategy → IsFor listed.now.game budget strategy
        → IfOk result (IsListedAnswer listed.now budget) }
    ensures some { IfOk result IsFoundSome }
{
    Ok(ListedAnswer::Found(ListedStrategy {
        sizes: Nums::from_slice(alloc, listed.sizes())?,
        strategy,
    }))
}
