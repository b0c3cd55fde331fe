//! What a search for the adversary's side comes to.

use strategy_text::Strategy;

/// What a search for the adversary's side comes to.
#[derive(Drop)]
pub enum Forced {
    /// The adversary wins, by this strategy.
    Found(Strategy),
    /// No strategy was found in so many visits, which claims nothing about the game.
    NotFound {
        /// How many visits were made.
        visits: u32,
    },
}
