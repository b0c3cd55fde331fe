//! The search for a value, target by target.

ghost use Rattle.std.specs.Prelude.{◌≤◌, ◌<◌, ◌*◌, ◌+◌, ◌^◌, ◌≡◌, ℕ, IfOk};
ghost use Rattle.items.specs.Game.{numbers, HasBins, HasCapacity};
ghost use Rattle.monotone.specs.Positions.{CountsAllReachable};
ghost use Rattle.strategy_text.specs.Spelling.{most_nodes};
ghost use Rattle.minimax.specs.Answers.{IsAnswer};
ghost use Rattle.bound_value.specs.Answers.{FallsShort, IfUndecided, IsDecided, IsValued};
ghost use Rattle.bound_value.specs.Answers.{ShowsKept};
ghost use Rattle.bound_value.specs.Targets.{FallsShortIfUndecided, IsFoundBelow};

use crate::valued::Valued;
use items::Game;
use minimax::{Answer, solve};
use std::alloc::{AllocError, Global};
use strategy_text::Strategy;
use transposition::ClockMemo;

/// The value of `m` bins of capacity `g`, the greatest target at which every algorithm is forced, with a strategy of
/// each side that shows it.
///
/// The targets are searched from `g + 1` upwards, each with the whole budget of visits and a fresh table of so many
/// entries, to the first that the algorithm wins or that isn't decided. From `2g` on the algorithm always wins. A
/// strategy has format 1, is legal, and has at most as many nodes as the budget allows visits.
///
/// `Undecided` is answered where the budget of a search is spent and a further visit of its game is due, before which
/// all is decided. With a budget of `g * (m + 1) ^ (m * g)` visits it never is, and neither where the table has room
/// for all positions at which legal paths end at the target `2g`, and the budget is `g` times as much. Fails only for
/// want of memory.
///
/// The time is that of the searches. The memory is that of the largest of them, and of a strategy of the adversary.
pub fn value(alloc: Global, m: u16, g: u16, budget: u32, table: usize) -> Result<Valued, AllocError>
    requires bins { HasBins m }
    requires capacity { HasCapacity g }
    requires some_visits { 1 ≤ budget }
    requires most_visits { budget ≤ most_nodes }
    requires some_entries { 1 ≤ table }
    ensures answer { IfOk result (IsValued m g budget) }
    ensures undecided { IfOk result (λ valued. IfUndecided valued (λ target.
        FallsShort (numbers m g target) budget table)) }
    ensures many_visits { g * (m + 1) ^ (m * g) ≤ budget → IfOk result IsDecided }
    ensures all_positions { (all : ℕ) → CountsAllReachable (numbers m g (2 * g)) all → all ≤ table → g * all ≤ budget
        → IfOk result IsDecided }
{
    let mut below = None;
    for target in g + 1..2 * g + 1 {
        let game = Game::new(m, g, target).unwrap();
        match search(alloc, &game, budget, table)? {
            Answer::Adversary(strategy) => below = Some(strategy),
            Answer::Algorithm(strategy) => return Ok(valued(target, below, strategy)),
            Answer::Undecided { visits, pass, path } => {
                return Ok(Valued::Undecided {
                    target,
                    visits,
                    pass,
                    path,
                });
            }
        }
    }
    unreachable!()
}

// The search of a game with a fresh table, which goes with it.
fn search(alloc: Global, game: &Game, budget: u32, table: usize) -> Result<Answer, AllocError>
    requires some_visits { 1 ≤ budget }
    requires most_visits { budget ≤ most_nodes }
    requires some_entries { 1 ≤ table }
    ensures answer { IfOk result (IsAnswer game.now budget) }
    ensures short { IfOk result (FallsShortIfUndecided game.now budget table) }
{
    let mut memo = ClockMemo::new(alloc, table)?;
    solve(alloc, game, budget, &mut memo)
}

// What a strategy of the algorithm for a target shows, after what was found below it.
fn valued(target: u16, below: Option<Strategy>, algorithm: Strategy) -> Valued
    requires { 1 ≤ target }
    ensures shown { (bins capacity budget : ℕ) → IsFoundBelow bins capacity budget target below
        → ShowsKept (numbers bins capacity target) budget algorithm → IsValued bins capacity budget result }
    ensures decided { IsDecided result }
{
    match below {
        Some(adversary) => Valued::At {
            target: target - 1,
            adversary,
            algorithm,
        },
        None => Valued::Nowhere { algorithm },
    }
}
