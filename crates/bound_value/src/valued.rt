//! What a search for a value answers.

use monotone::Path;
use strategy_text::Strategy;

/// What a search for the value of a number of bins and a capacity answers.
#[derive(Drop)]
pub enum Valued {
    /// This target is the value: the greatest at which every algorithm is forced.
    At {
        /// The value.
        target: u16,
        /// A strategy of the adversary at this target.
        adversary: Strategy,
        /// A strategy of the algorithm at the next target.
        algorithm: Strategy,
    },
    /// There is no value: the algorithm wins at the least target already.
    Nowhere {
        /// A strategy of the algorithm at the least target.
        algorithm: Strategy,
    },
    /// The budget ended in the search of this target, and the adversary wins at each lower one.
    Undecided {
        /// The target.
        target: u16,
        /// How many visits of its game were made: the budget.
        visits: u32,
        /// The pass of the visit that was due.
        pass: u16,
        /// The path of the visit that was due.
        path: Path,
    },
}
