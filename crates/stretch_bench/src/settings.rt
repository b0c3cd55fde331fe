//! The settings that words tell: a game, and what a search may use.

ghost use Rattle.std.specs.Prelude.{◌≡◌, ◌≢◌, ◌≤◌, ◌++◌, ℕ, MatchOption, decimal};
ghost use Rattle.items.specs.Game.{GameNumbers};
ghost use Rattle.stretch_bench.specs.Spelled.{IsGameOf};

use crate::number::number_of;
use items::Game;

/// The most visits that a search may make.
pub const MOST_VISITS: u64 = 4_000_000_000;

/// The most entries that the table of a search may have.
pub const MOST_ENTRIES: u64 = 4_000_000;

/// The most entries that the table of a search for the adversary's side may have. An entry takes 8 bytes.
pub const MOST_FORCE_ENTRIES: u64 = 400_000_000;

/// The game whose numbers these words tell.
pub(crate) fn game_of(bins: &str, capacity: &str, target: &str) -> Option<Game>
    ensures { MatchOption result
        ((game : GameNumbers) → IsGameOf bins.now capacity.now target.now game → ⊥)
        (IsGameOf bins.now capacity.now target.now) }
{
    let high = u64::from(u16::MAX);
    let Some(bins) = number_of(bins, 0, high) else {
        return None;
    };
    let Some(capacity) = number_of(capacity, 0, high) else {
        return None;
    };
    let Some(target) = number_of(target, 0, high) else {
        return None;
    };
    match Game::new(bins as u16, capacity as u16, target as u16) {
        Ok(game) => Some(game),
        Err(_) => None,
    }
}

/// The number from 1 on that a word tells after its label.
pub(crate) fn setting_of(word: &str, label: &str, high: u64) -> Option<u64>
    ensures { MatchOption result
        ((n : ℕ) → 1 ≤ n → n ≤ high → word.now ≢ label.now ++ decimal n)
        (λ n. (word.now ≡ label.now ++ decimal n) × (1 ≤ n) × (n ≤ high)) }
{
    match word.strip_prefix(label) {
        Some(number) => number_of(number, 1, high),
        None => None,
    }
}
