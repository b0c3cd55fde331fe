//! The search of a game, pass by pass.

ghost use Rattle.std.specs.Prelude.{◌≡◌, ◌≤◌, ◌<◌, ◌+◌, ◌-◌, ◌*◌, ◌^◌, ℕ, [], All, IfOk};
ghost use Rattle.items.specs.Multiset.{IsSize, sizes_of};
ghost use Rattle.loads.specs.Wins.{IsWon, empty_position};
ghost use Rattle.monotone.specs.Positions.{CountsAllReachable, CountsReachable};
ghost use Rattle.monotone.specs.Passes.{allowed_in, listed_sizes, whole_game};
ghost use Rattle.monotone.specs.Visits.{most_visits};
ghost use Rattle.strategy_text.specs.Spelling.{most_nodes};
ghost use Rattle.minimax.specs.Answers.{IsAnswer, IsAnswerOver, IsDecided};
ghost use Rattle.minimax.specs.Budgets.{AreNumbersOfReachable, HasRoom, IsOfAdversary, reachable_before};
ghost use Rattle.minimax.specs.Fresh.{IsWithin};
ghost use Rattle.minimax.specs.State.{space_of};

use crate::answer::Answer;
use crate::expanding::{Search, expand};
use crate::replies::Replies;
use crate::rooms::Rooms;
use crate::space::Space;
use crate::wins::Wins;
use crate::wins_writing::write_wins;
use crate::writing::write_replies;
use items::laws::game_is_legal;
use items::{Game, Items, Sizes};
use loads::{Loads, Position};
use monotone::{Meter, Path, VisitFault};
use std::alloc::{AllocError, Global};
use transposition::{Key, Memo, Verdict};

/// Who wins a game, searched pass by pass under a budget of visits; the memo is empty at the start.
///
/// A visit is a pass and a path of moves, and each position that is expanded is one. Pass k allows the sizes that, with
/// k, are at least the largest item so far; the last pass allows all. Within a pass the larger sizes come first, and
/// for a size the larger loads. The memo keeps the verdicts of positions, so that a position need not be expanded
/// twice; how many it may keep does not change who wins. The passes and the rule at which a position finishes are this
/// project's; the game is that of Böhm and Simon, "Discovering and certifying lower bounds for the online bin
/// stretching problem".
///
/// A strategy has format 1, is legal, and has at most as many nodes as the budget allows visits. `Undecided` is
/// answered where the budget is spent and a further visit is due, before which all is decided. With a budget of
/// `g * (m + 1) ^ (m * g)` visits it never is. Where the memo has room for all reachable positions, none is expanded
/// twice in a pass: then as many visits as there are such positions serve for each pass, and where the adversary wins
/// a pass, those of the passes up to it. Fails only for want of memory; what the memo then holds is open.
///
/// The recursion is as deep as items are sent: at most `m * g`, and the first position. Beside the memo, memory grows
/// with what is found: some 80 bytes and 12 for each load at a position that the adversary wins, and some 70 bytes and
/// 8 for each size at one that the algorithm wins. At the end come the nodes of the strategy; where it is the
/// adversary's, these are the ones that the root leads to.
pub fn solve<M: Memo>(
    alloc: Global,
    game: &Game,
    budget: u32,
    memo: &mut M,
) -> Result<Answer, AllocError>
    requires some { 1 ≤ budget }
    requires most { budget ≤ most_nodes }
    requires empty { M.entries memo.old ≡ [] }
    ensures answer { IfOk result (IsAnswer game.now budget) }
    ensures many_visits { most_visits (whole_game game.now) ≤ budget → IfOk result IsDecided }
    ensures all_positions { (all : ℕ) → CountsAllReachable game.now all → all ≤ M.room memo.old
        → game.now.capacity * all ≤ budget → IfOk result IsDecided }
    ensures each_pass { (numbers : ℕ → ℕ) → AreNumbersOfReachable game.now numbers → HasRoom game.now (M.room memo.old)
        → reachable_before numbers game.now.capacity ≤ budget → IfOk result IsDecided }
    ensures won_pass { (numbers : ℕ → ℕ) (pass : ℕ) → AreNumbersOfReachable game.now numbers
        → HasRoom game.now (M.room memo.old)
        → IsWon game.now (allowed_in (sizes_of game.now) pass) (empty_position game.now)
        → reachable_before numbers (pass + 1) ≤ budget → IfOk result IsOfAdversary }
{
    game_is_legal(game);
    let space = Space {
        game: *game,
        sizes: Sizes::of_game(game),
        first_pass: 0,
    };
    search_passes(alloc, &space, budget, memo)
}

/// Who wins a game whose items may have these of its sizes alone, searched in the last pass, under a budget of visits;
/// the memo is empty at the start.
///
/// The visits, their order and the memo are those of [`solve`], with these sizes in place of all. A strategy has format
/// 1, is legal over these sizes, and has at most as many nodes as the budget allows visits. `Undecided` is answered
/// where the budget is spent and a further visit is due, before which all is decided. With a budget of
/// `(m + 1) ^ (m * g)` visits it never is, and neither where the memo has room for all positions that are reachable with
/// these sizes and the budget is as much. Fails only for want of memory; what the memo then holds is open.
///
/// Time and memory are as for [`solve`].
pub fn solve_listed<M: Memo>(
    alloc: Global,
    game: &Game,
    sizes: &Sizes,
    budget: u32,
    memo: &mut M,
) -> Result<Answer, AllocError>
    requires sizes { All (IsSize game.now.capacity) sizes.now }
    requires some { 1 ≤ budget }
    requires most { budget ≤ most_nodes }
    requires empty { M.entries memo.old ≡ [] }
    ensures answer { IfOk result (IsAnswerOver (listed_sizes game.now sizes.now) budget) }
    ensures many_visits { (game.now.bins + 1) ^ (game.now.bins * game.now.capacity) ≤ budget
        → IfOk result IsDecided }
    ensures all_positions { (all : ℕ) → CountsReachable game.now (allowed_in sizes.now (game.now.capacity - 1)) all
        → all ≤ M.room memo.old → all ≤ budget → IfOk result IsDecided }
{
    game_is_legal(game);
    let space = Space {
        game: *game,
        sizes: sizes.copy(),
        first_pass: game.g() - 1,
    };
    search_passes(alloc, &space, budget, memo)
}

// The answer of a search, pass by pass.
fn search_passes<M: Memo>(
    alloc: Global,
    space: &Space,
    budget: u32,
    memo: &mut M,
) -> Result<Answer, AllocError>
    requires sizes { All (IsSize space.now.game.capacity) space.now.sizes }
    requires first { space.now.first_pass < space.now.game.capacity }
    requires some { 1 ≤ budget }
    requires most { budget ≤ most_nodes }
    requires empty { M.entries memo.old ≡ [] }
    ensures answer { IfOk result (IsAnswerOver (space_of space.now) budget) }
    ensures within { IfOk result (IsWithin space.now (M.room memo.old) budget) }
{
    let game = &space.game;
    let mut search = Search {
        alloc,
        meter: Meter::new(alloc, game, budget),
        wins: Wins::new(alloc),
        replies: Replies::new(alloc),
        rooms: Rooms::new(alloc, game)?,
        path: Path::new(alloc),
        most: game.g(),
    };
    let root = Position {
        loads: Loads::zero(alloc, game),
        items: Items::empty(),
    };
    for pass in space.first_pass..game.g() {
        let key = Key::of(alloc, &root.loads, &root.items)?;
        match expand(space, pass, &mut search, memo, root.loads.copy(), key) {
            Ok(Verdict::Held(_)) => {}
            Ok(Verdict::Adversary(number)) => {
                let strategy = write_wins(alloc, space, &search.wins, number)?;
                return Ok(Answer::Adversary(strategy));
            }
            Ok(Verdict::Algorithm(told)) => {
                let strategy = write_replies(alloc, space, &search.replies, &root, told, budget)?;
                return Ok(Answer::Algorithm(strategy));
            }
            Err(VisitFault::Spent) => {
                return Ok(Answer::Undecided {
                    visits: search.meter.count(),
                    pass,
                    path: search.path,
                });
            }
            Err(VisitFault::Memory) => return Err(AllocError),
        }
    }
    unreachable!()
}
