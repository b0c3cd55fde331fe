//! What is searched.

use items::{Game, Sizes};

/// A game, the sizes that its items may have, and the first pass of the search. The last pass allows all of them.
#[derive(Drop)]
pub(crate) struct Space {
    pub(crate) game: Game,
    pub(crate) sizes: Sizes,
    pub(crate) first_pass: u16,
}
