//! The command `search`.

ghost use Rattle.std.specs.Prelude.{◌≡◌, ◌≤◌, ◌+◌, ◌*◌, ◌++◌, ◌∷◌, [], ℕ, IfOk, MatchOption, OnOk};
ghost use Rattle.items.specs.Game.{GameNumbers};
ghost use Rattle.items.specs.Multiset.{sizes_of};
ghost use Rattle.loads.specs.Wins.{IsWon, empty_position};
ghost use Rattle.minimax.specs.Answers.{IsAnswer, IsDecided, IsFor};
ghost use Rattle.minimax.specs.Budgets.{AreNumbersOfReachable, HasRoom, IsOfAdversary, reachable_before};
ghost use Rattle.monotone.specs.Passes.{allowed_in, whole_game};
ghost use Rattle.monotone.specs.Positions.{CountsAllReachable};
ghost use Rattle.monotone.specs.Visits.{most_visits};
ghost use Rattle.strategies.specs.AnyNode.{IsLegal};
ghost use Rattle.strategy_text.specs.Writing.{spaced};
ghost use Rattle.stretch_bench.specs.Call.{Players};
ghost use Rattle.stretch_bench.specs.Commands.{Spells, spelling_of};
ghost use Rattle.stretch_bench.specs.Pieces.{IsDueWith, IsEither};
ghost use Rattle.stretch_bench.specs.Search.{IsFound, IsSearch, IsUndecided, move_word, move_words, undecided_line};
ghost use Rattle.stretch_bench.specs.declared.command.Command.TheVariants.{Search};
ghost use Rattle.stretch_bench.specs.declared.status.Status.TheVariants.{Done, Undecided};

use crate::due::Due;
use crate::lines::text_of_line;
use crate::settings::{MOST_ENTRIES, MOST_VISITS, game_of, setting_of};
use crate::status::Status;
use items::Game;
use minimax::{Answer, solve};
use minimise::minimise;
use monotone::{Path, PathMove};
use std::alloc::{AllocError, Global};
use strategy_text::{Strategy, Text};
use transposition::ClockMemo;

/// The game, the budget and the size of the table of the words `search M G T budget=B table=N`.
pub(crate) fn search_of(words: &[String]) -> Option<(Game, u32, u32)>
    ensures { (players : Players) → MatchOption result
        ((game : GameNumbers) (budget table : ℕ)
        → Spells players (spelling_of words.now) (Search game budget table) → ⊥)
        (λ three. Spells players (spelling_of words.now) (Search three.0 three.1 three.2)) }
{
    let [first, bins, capacity, target, budget, table] = words else {
        return None;
    };
    if first.as_str() != "search" {
        return None;
    }
    let Some(game) = game_of(bins.as_str(), capacity.as_str(), target.as_str()) else {
        return None;
    };
    let Some(budget) = setting_of(budget.as_str(), "budget=", MOST_VISITS) else {
        return None;
    };
    let Some(table) = setting_of(table.as_str(), "table=", MOST_ENTRIES) else {
        return None;
    };
    Some((game, budget as u32, table as u32))
}

/// The canonical form of the strategy that a search of a game finds, or the line of the visit at which its budget was
/// spent.
pub(crate) fn searched(
    alloc: Global,
    game: &Game,
    budget: u32,
    table: u32,
) -> Result<Due, AllocError>
    requires search { IsSearch game.now budget table }
    ensures found { IfOk result (IsEither Done (IsFound game.now budget)
        Undecided (IsUndecided game.now budget table)) }
{
    match answer_of(alloc, game, budget, table)? {
        Answer::Adversary(strategy) => found(alloc, game, budget, &strategy),
        Answer::Algorithm(strategy) => found(alloc, game, budget, &strategy),
        Answer::Undecided { visits, pass, path } => {
            let line = line_of_undecided(alloc, game, visits, pass, &path)?;
            Ok(Due::of_lines(Status::Undecided, line))
        }
    }
}

// What the search of a game answers. Its table is not needed for the canonical form of a strategy, so it goes before that
// is made.
fn answer_of(alloc: Global, game: &Game, budget: u32, table: u32) -> Result<Answer, AllocError>
    requires search { IsSearch game.now budget table }
    ensures answer { IfOk result (IsAnswer game.now budget) }
    ensures many_visits { most_visits (whole_game game.now) ≤ budget → IfOk result IsDecided }
    ensures all_positions { (all : ℕ) → CountsAllReachable game.now all → all ≤ table
        → game.now.capacity * all ≤ budget → IfOk result IsDecided }
    ensures each_pass { (numbers : ℕ → ℕ) → AreNumbersOfReachable game.now numbers → HasRoom game.now table
        → reachable_before numbers game.now.capacity ≤ budget → IfOk result IsDecided }
    ensures won_pass { (numbers : ℕ → ℕ) (pass : ℕ) → AreNumbersOfReachable game.now numbers → HasRoom game.now table
        → IsWon game.now (allowed_in (sizes_of game.now) pass) (empty_position game.now)
        → reachable_before numbers (pass + 1) ≤ budget → IfOk result IsOfAdversary }
{
    let mut memo = ClockMemo::new(alloc, table as usize)?;
    solve(alloc, game, budget, &mut memo)
}

// The canonical form of a legal strategy that was found.
fn found(alloc: Global, game: &Game, budget: u32, strategy: &Strategy) -> Result<Due, AllocError>
    requires legal { IsLegal strategy.now }
    requires found { IsFor game.now budget strategy.now }
    ensures found { IfOk result (IsDueWith Done (IsFound game.now budget)) }
{
    let made = minimise(alloc, strategy)?;
    Ok(Due::of_strategy(alloc, made))
}

/// The line of a search that ended at its budget: its game, how many visits it made, and the visit that was due.
pub(crate) fn line_of_undecided(
    alloc: Global,
    game: &Game,
    visits: u32,
    pass: u16,
    path: &Path,
) -> Result<Text, AllocError>
    ensures { IfOk result (λ text. text ≡ undecided_line game.now visits pass path.now) }
{
    let bins = game.m();
    let capacity = game.g();
    let target = game.t();
    let line = format!(in alloc;
        "undecided {bins} {capacity} {target} visits {visits} pass {pass} path"
    )?;
    let mut text = text_of_line(alloc, line.as_str())?;
    put_moves(&mut text, path.as_slice())?;
    text.push(b'\n')?;
    Ok(text)
}

// Puts the moves of a path, each after a space, or a dash where there are none.
fn put_moves(text: &mut Text, path: &[PathMove]) -> Result<(), AllocError>
    ensures { OnOk result (text.new ≡ text.old ++ spaced (move_words path.now)) }
{
    if path.is_empty() {
        return text.push_all(b" -");
    }
    for step in path {
        put_move(text, *step)?;
    }
    Ok(())
}

// Puts one move after a space.
fn put_move(text: &mut Text, step: PathMove) -> Result<(), AllocError>
    ensures { OnOk result (text.new ≡ text.old ++ spaced (move_word step ∷ [])) }
{
    text.push(b' ')?;
    text.push_all(itoa::Buffer::new().format(step.item).as_bytes())?;
    text.push(b'@')?;
    text.push_all(itoa::Buffer::new().format(step.load).as_bytes())
}

#[cfg(test)]
mod tests {
    use crate::tests::{
        ACCEPTED, FINISHING, FINISHING_LARGEST, Found, LEGAL, OF_ALGORITHM, Unread, is_due_unread,
        is_found,
    };

    const SEARCHES: [Unread; 9] = [
        (
            "search 2 2 3 budget=1 table=1",
            3,
            "undecided 2 2 3 visits 1 pass 0 path 2@0\n",
        ),
        (
            "search 2 2 3 budget=4 table=1",
            3,
            "undecided 2 2 3 visits 4 pass 0 path 1@0 1@1\n",
        ),
        (
            "search 2 2 3 budget=2 table=1",
            3,
            "undecided 2 2 3 visits 2 pass 0 path 1@0\n",
        ),
        ("search 2 2 3 budget=5 table=1", 0, OF_ALGORITHM),
        ("search 2 2 3 budget=20 table=10", 0, OF_ALGORITHM),
        ("search 2 2 3 budget=162 table=1", 0, OF_ALGORITHM),
        ("search 8 120 240 budget=1 table=1", 0, FINISHING_LARGEST),
        (
            "search 2 3 4 budget=11 table=1",
            3,
            "undecided 2 3 4 visits 11 pass 0 path 1@0 1@0\n",
        ),
        ("search 2 3 5 budget=1 table=1", 0, FINISHING),
    ];

    #[test]
    fn games_are_searched_without_input(rt: HostRuntime) {
        for row in &SEARCHES {
            assert!(rt;
                is_due_unread(rt.alloc(), row).unwrap_or(false),
                "{}",
                row.0
            );
        }
    }

    const FOUND: [Found; 4] = [
        ("search 2 3 4 budget=12 table=1", "", LEGAL, ACCEPTED),
        (
            "search 3 3 4 budget=786432 table=1",
            "",
            "stretch 1\ngame 3 3 4\nside adversary\n",
            "accepted adversary 3 3 4 ",
        ),
        (
            "search 2 6 8 budget=3188646 table=100000",
            "",
            "stretch 1\ngame 2 6 8\nside adversary\n",
            "accepted adversary 2 6 8 ",
        ),
        (
            "search 2 6 9 budget=3188646 table=100000",
            "",
            "stretch 1\ngame 2 6 9\nside algorithm\n",
            "accepted algorithm 2 6 9 ",
        ),
    ];

    #[test]
    fn strategies_are_found_whatever_their_packings(rt: HostRuntime) {
        for row in &FOUND {
            assert!(rt; is_found(rt.alloc(), row).unwrap_or(false), "{}", row.0);
        }
    }
}
