//! The command `value`.

ghost use Rattle.std.specs.Prelude.{◌≡◌, ◌++◌, ℕ, IfOk, MatchOption, string_bytes};
ghost use Rattle.items.specs.Game.{IsGame, numbers};
ghost use Rattle.minimise.specs.Strategies.{canonical_form};
ghost use Rattle.strategies.specs.AnyNode.{IsLegal};
ghost use Rattle.strategy_text.specs.Text.{text_of};
ghost use Rattle.stretch_bench.specs.Call.{Players};
ghost use Rattle.stretch_bench.specs.Commands.{Spells, spelling_of};
ghost use Rattle.stretch_bench.specs.Pieces.{IsDueWith, IsEither};
ghost use Rattle.stretch_bench.specs.Value.{IsUnvalued, IsValueSearch, IsValued, no_value_line, value_line};
ghost use Rattle.stretch_bench.specs.declared.command.Command.TheVariants.{Value};
ghost use Rattle.stretch_bench.specs.declared.status.Status.TheVariants.{Done, Undecided};

use crate::due::Due;
use crate::lines::text_of_line;
use crate::number::number_of;
use crate::searching::line_of_undecided;
use crate::settings::{MOST_ENTRIES, MOST_VISITS, setting_of};
use crate::status::Status;
use bound_value::{Valued, value};
use items::Game;
use minimise::minimise;
use std::alloc::{AllocError, Global};
use strategy_text::{Strategy, Text};

/// The bins, the capacity, the budget and the size of the table of the words `value M G budget=B table=N`.
pub(crate) fn value_of(words: &[String]) -> Option<(u16, u16, u32, u32)>
    ensures { (players : Players) → MatchOption result
        ((bins capacity budget table : ℕ)
        → Spells players (spelling_of words.now) (Value bins capacity budget table) → ⊥)
        (λ four. Spells players (spelling_of words.now) (Value four.0 four.1 four.2 four.3)) }
{
    let [first, bins, capacity, budget, table] = words else {
        return None;
    };
    if first.as_str() != "value" {
        return None;
    }
    let Some(bins) = number_of(bins.as_str(), 2, 8) else {
        return None;
    };
    let Some(capacity) = number_of(capacity.as_str(), 1, 120) else {
        return None;
    };
    let Some(budget) = setting_of(budget.as_str(), "budget=", MOST_VISITS) else {
        return None;
    };
    let Some(table) = setting_of(table.as_str(), "table=", MOST_ENTRIES) else {
        return None;
    };
    Some((bins as u16, capacity as u16, budget as u32, table as u32))
}

/// The line of the value and a strategy of each side that shows it, or the line of the visit at which the budget of a
/// search was spent.
pub(crate) fn valued(
    alloc: Global,
    bins: u16,
    capacity: u16,
    budget: u32,
    table: u32,
) -> Result<Due, AllocError>
    requires value { IsValueSearch bins capacity budget table }
    ensures valued { IfOk result (IsEither Done (IsValued bins capacity budget)
        Undecided (IsUnvalued bins capacity budget table)) }
{
    match value(alloc, bins, capacity, budget, table as usize)? {
        Valued::At {
            target,
            adversary,
            algorithm,
        } => {
            let line = line_of_value(alloc, bins, capacity, target)?;
            due_of_two(alloc, line, &adversary, &algorithm)
        }
        Valued::Nowhere { algorithm } => {
            let line = line_of_no_value(alloc, bins, capacity)?;
            due_of_one(alloc, line, &algorithm)
        }
        Valued::Undecided {
            target,
            visits,
            pass,
            path,
        } => {
            let game = game_at(bins, capacity, target);
            let line = line_of_undecided(alloc, &game, visits, pass, &path)?;
            Ok(Due::of_lines(Status::Undecided, line))
        }
    }
}

// A line, and the canonical forms of two legal strategies.
fn due_of_two(
    alloc: Global,
    line: Text,
    first: &Strategy,
    second: &Strategy,
) -> Result<Due, AllocError>
    requires first { IsLegal first.now }
    requires second { IsLegal second.now }
    ensures { IfOk result (IsDueWith Done (λ text. text
        ≡ line ++ (text_of (canonical_form first.now) ++ text_of (canonical_form second.now)))) }
{
    let first = minimise(alloc, first)?;
    let second = minimise(alloc, second)?;
    Ok(Due {
        status: Status::Done,
        lines: line,
        first: Some(first),
        second: Some(second),
    })
}

// A line, and the canonical form of a legal strategy.
fn due_of_one(alloc: Global, line: Text, only: &Strategy) -> Result<Due, AllocError>
    requires legal { IsLegal only.now }
    ensures { IfOk result (IsDueWith Done (λ text. text ≡ line ++ text_of (canonical_form only.now))) }
{
    let only = minimise(alloc, only)?;
    Ok(Due {
        status: Status::Done,
        lines: line,
        first: Some(only),
        second: None,
    })
}

// The game of these numbers.
fn game_at(bins: u16, capacity: u16, target: u16) -> Game
    requires { IsGame (numbers bins capacity target) }
    ensures { result ≡ numbers bins capacity target }
{
    Game::new(bins, capacity, target).unwrap()
}

// The line of a value.
fn line_of_value(alloc: Global, bins: u16, capacity: u16, target: u16) -> Result<Text, AllocError>
    ensures { IfOk result (λ text. text ≡ value_line bins capacity target) }
{
    let line = value_words(alloc, bins, capacity, target)?;
    text_of_line(alloc, line.as_str())
}

fn value_words(alloc: Global, bins: u16, capacity: u16, target: u16) -> Result<String, AllocError>
    ensures { IfOk result (λ line. string_bytes line ≡ value_line bins capacity target) }
{
    format!(in alloc; "value {bins} {capacity} target {target}\n")
}

// The line where there is no value.
fn line_of_no_value(alloc: Global, bins: u16, capacity: u16) -> Result<Text, AllocError>
    ensures { IfOk result (λ text. text ≡ no_value_line bins capacity) }
{
    let line = no_value_words(alloc, bins, capacity)?;
    text_of_line(alloc, line.as_str())
}

fn no_value_words(alloc: Global, bins: u16, capacity: u16) -> Result<String, AllocError>
    ensures { IfOk result (λ line. string_bytes line ≡ no_value_line bins capacity) }
{
    format!(in alloc; "value {bins} {capacity} none\n")
}

#[cfg(test)]
mod tests {
    use crate::tests::{Unread, is_due_unread};

    // For 2 bins of capacity 2.
    const NO_VALUE: &str = "\
value 2 2 none
stretch 1
game 2 2 3
side algorithm
nodes 5
0 loads 2 0 items 1 1 finish
1 loads 2 1 items 1 2 finish
2 loads 1 0 items 1 reply 1 on 1 to 0 2 on 0 to 1
3 loads 2 0 items 2 finish
4 loads 0 0 items - reply 1 on 0 to 2 2 on 0 to 3
end
";

    // For 2 bins of capacity 1.
    const NO_VALUE_OF_1: &str = "\
value 2 1 none
stretch 1
game 2 1 2
side algorithm
nodes 1
0 loads 0 0 items - finish
end
";

    const VALUES: [Unread; 3] = [
        ("value 2 2 budget=5 table=1", 0, NO_VALUE),
        ("value 2 1 budget=1 table=1", 0, NO_VALUE_OF_1),
        (
            "value 2 3 budget=11 table=1",
            3,
            "undecided 2 3 4 visits 11 pass 0 path 1@0 1@0\n",
        ),
    ];

    #[test]
    fn values_are_found_without_input(rt: HostRuntime) {
        for row in &VALUES {
            assert!(rt;
                is_due_unread(rt.alloc(), row).unwrap_or(false),
                "{}",
                row.0
            );
        }
    }
}
