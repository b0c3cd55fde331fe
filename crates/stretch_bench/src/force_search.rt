//! The command `force`.

ghost use Rattle.std.specs.Prelude.{◌≡◌, ◌≢◌, ◌≤◌, ◌++◌, ℕ, IfOk, MatchOption, codes, decimal, string_bytes};
ghost use Rattle.adversary_graph.specs.Pools.{IsLegalOfAdversary};
ghost use Rattle.items.specs.Game.{GameNumbers};
ghost use Rattle.forcing.specs.Forced.{IsSought};
ghost use Rattle.stretch_bench.specs.Call.{Players};
ghost use Rattle.stretch_bench.specs.Commands.{Spells, spelling_of};
ghost use Rattle.stretch_bench.specs.Force.{IsForce, IsForcing, IsNotFound, not_found_line};
ghost use Rattle.stretch_bench.specs.Pieces.{IsDueWith, IsEither};
ghost use Rattle.stretch_bench.specs.declared.command.Command.TheVariants.{Force};
ghost use Rattle.stretch_bench.specs.declared.status.Status.TheVariants.{Done, NotFound};

use crate::due::Due;
use crate::lines::text_of_line;
use crate::number::number_of;
use crate::settings::{MOST_FORCE_ENTRIES, MOST_VISITS, game_of, setting_of};
use crate::status::Status;
use forcing::{Forced, force};
use items::Game;
use minimise::minimise;
use std::alloc::{AllocError, Global};
use strategy_text::{Strategy, Text};

/// The game, the first pass, the budget and the size of the table of the words
/// `force M G T pass=K budget=B table=N`.
pub(crate) fn force_of(words: &[String]) -> Option<(Game, u16, u32, u32)>
    ensures { (players : Players) → MatchOption result
        ((game : GameNumbers) (pass budget table : ℕ)
        → Spells players (spelling_of words.now) (Force game pass budget table) → ⊥)
        (λ four. Spells players (spelling_of words.now) (Force four.0 four.1 four.2 four.3)) }
{
    let [first, bins, capacity, target, pass, budget, table] = words else {
        return None;
    };
    if first.as_str() != "force" {
        return None;
    }
    let Some(game) = game_of(bins.as_str(), capacity.as_str(), target.as_str()) else {
        return None;
    };
    let Some(pass) = pass_of(pass.as_str(), u64::from(game.g()) - 1) else {
        return None;
    };
    let Some(budget) = setting_of(budget.as_str(), "budget=", MOST_VISITS) else {
        return None;
    };
    let Some(table) = setting_of(table.as_str(), "table=", MOST_FORCE_ENTRIES) else {
        return None;
    };
    Some((game, pass as u16, budget as u32, table as u32))
}

// The pass, from 0 on, that a word tells after its label.
fn pass_of(word: &str, high: u64) -> Option<u64>
    ensures { MatchOption result
        ((n : ℕ) → n ≤ high → word.now ≢ codes "pass=" ++ decimal n)
        (λ n. (word.now ≡ codes "pass=" ++ decimal n) × (n ≤ high)) }
{
    match word.strip_prefix("pass=") {
        Some(number) => number_of(number, 0, high),
        None => None,
    }
}

/// The canonical form of the strategy that a search for the adversary's side finds, or the line where it finds none.
pub(crate) fn forced(
    alloc: Global,
    game: &Game,
    pass: u16,
    budget: u32,
    table: u32,
) -> Result<Due, AllocError>
    ensures forced { IfOk result (IsEither Done (IsForcing game.now) NotFound (IsNotFound game.now budget)) }
{
    match force(alloc, game, pass, budget, table)? {
        Forced::Found(strategy) => sought(alloc, game, &strategy),
        Forced::NotFound { visits } => {
            let line = line_of_not_found(alloc, game, visits)?;
            Ok(Due::of_lines(Status::NotFound, line))
        }
    }
}

// The canonical form of a strategy that was sought for a game.
fn sought(alloc: Global, game: &Game, strategy: &Strategy) -> Result<Due, AllocError>
    requires sought { IsSought game.now strategy.now }
    ensures forcing { IfOk result (IsDueWith Done (IsForcing game.now)) }
{
    let made = minimise(alloc, strategy)?;
    Ok(Due::of_strategy(alloc, made))
}

// The line of a search that found no strategy: its game, and how many visits it made.
fn line_of_not_found(alloc: Global, game: &Game, visits: u32) -> Result<Text, AllocError>
    ensures { IfOk result (λ text. text ≡ not_found_line game.now visits) }
{
    let line = not_found_words(alloc, game, visits)?;
    text_of_line(alloc, line.as_str())
}

fn not_found_words(alloc: Global, game: &Game, visits: u32) -> Result<String, AllocError>
    ensures { IfOk result (λ line. string_bytes line ≡ not_found_line game.now visits) }
{
    let bins = game.m();
    let capacity = game.g();
    let target = game.t();
    format!(in alloc; "notfound {bins} {capacity} {target} visits {visits}\n")
}

#[cfg(test)]
mod tests {
    use crate::tests::{Found, Unread, is_begun, is_found};

    // With the front of what is written.
    const BEGUN: [Unread; 16] = [
        (
            "force 2 2 3 pass=0 budget=100 table=8",
            11,
            "notfound 2 2 3 visits ",
        ),
        (
            "force 2 2 4 pass=1 budget=1 table=1",
            11,
            "notfound 2 2 4 visits ",
        ),
        (
            "force 8 120 240 pass=119 budget=1 table=1",
            11,
            "notfound 8 120 240 visits ",
        ),
        ("force 2 3 4 pass=3 budget=100 table=8", 2, "usage\n"),
        ("force 2 3 4 pass=00 budget=100 table=8", 2, "usage\n"),
        ("force 2 3 4 pass= budget=100 table=8", 2, "usage\n"),
        ("force 2 3 4 budget=100 pass=0 table=8", 2, "usage\n"),
        ("force 2 3 4 budget=100 table=8", 2, "usage\n"),
        ("force 2 3 4 pass=0 budget=0 table=8", 2, "usage\n"),
        ("force 2 3 4 pass=0 budget=4000000001 table=8", 2, "usage\n"),
        ("force 2 3 4 pass=0 budget=100 table=0", 2, "usage\n"),
        (
            "force 2 3 4 pass=0 budget=100 table=400000001",
            2,
            "usage\n",
        ),
        ("force 2 3 4 pass=0 budget=100 table=8 now", 2, "usage\n"),
        ("force 2 3 3 pass=0 budget=100 table=8", 2, "usage\n"),
        ("force 2 3 7 pass=0 budget=100 table=8", 2, "usage\n"),
        ("force 9 3 4 pass=0 budget=100 table=8", 2, "usage\n"),
    ];

    #[test]
    fn games_are_searched_for_the_adversary(rt: HostRuntime) {
        for row in &BEGUN {
            assert!(rt; is_begun(rt.alloc(), row).unwrap_or(false), "{}", row.0);
        }
    }

    const FOUND: [Found; 3] = [
        (
            "force 2 3 4 pass=0 budget=10000 table=64",
            "",
            "stretch 2\ngame 2 3 4\nside adversary\n",
            "accepted adversary 2 3 4 ",
        ),
        (
            "force 2 6 8 pass=5 budget=10000 table=64",
            "",
            "stretch 2\ngame 2 6 8\nside adversary\n",
            "accepted adversary 2 6 8 ",
        ),
        (
            "force 3 3 4 pass=0 budget=10000 table=64",
            "",
            "stretch 2\ngame 3 3 4\nside adversary\n",
            "accepted adversary 3 3 4 ",
        ),
    ];

    #[test]
    fn what_is_found_is_accepted(rt: HostRuntime) {
        for row in &FOUND {
            assert!(rt; is_found(rt.alloc(), row).unwrap_or(false), "{}", row.0);
        }
    }
}
