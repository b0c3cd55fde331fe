//! What a search answers.

use monotone::Path;
use strategy_text::Strategy;

/// What a search of a game answers.
#[derive(Drop)]
pub enum Answer {
    /// The adversary wins, by this strategy.
    Adversary(Strategy),
    /// The algorithm wins, by this strategy.
    Algorithm(Strategy),
    /// The budget ended before either side was found to win.
    Undecided {
        /// How many visits were made: the budget.
        visits: u32,
        /// The pass of the visit that was due.
        pass: u16,
        /// The path of the visit that was due.
        path: Path,
    },
}
