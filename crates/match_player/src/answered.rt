//! What an algorithm did with a list of items.

ghost use Rattle.std.specs.Prelude.{◌≡◌};
ghost use Rattle.match_player.specs.declared.answered.AnswerFault.TheVariants.{Memory};

use items::Nums;
use online_play::Bins;
use std::alloc::AllocError;
use thiserror::Error;

/// A list of items, and where an algorithm put them.
#[derive(Drop)]
pub struct Answered {
    /// The sizes of the items, in the order in which they came.
    pub items: Nums,
    /// The bin of each item, the bins being numbered from 0.
    pub bins: Bins,
    /// The loads by bin number after the last item.
    pub loads: Nums,
}

/// Why an algorithm gave no answer.
#[derive(Debug, Drop, Error)]
pub enum AnswerFault {
    /// Some prefix of the items is not packable.
    #[error("the first {place} items are not packable")]
    Unpackable {
        /// The length of the least such prefix.
        place: usize,
    },
    /// Memory was refused.
    #[error("memory was refused")]
    Memory,
}

impl From<AllocError> for AnswerFault {
    ghost from_gives = { λ _ fault. fault ≡ Memory };

    fn from(_error: AllocError) -> AnswerFault {
        AnswerFault::Memory
    }
}
