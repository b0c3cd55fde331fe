//! Why a strategy was not moved to another game.

ghost use Rattle.std.specs.Prelude.{◌≡◌};
ghost use Rattle.strategy_transfer.specs.declared.fault.TransferFault.TheVariants.{Memory};

use std::alloc::AllocError;
use thiserror::Error;

/// Why a strategy was not moved to another game.
#[derive(Clone, Copy, Debug, PartialEq, Eq, Error)]
pub enum TransferFault {
    /// The asked numbers are no game to which the strategy can be moved.
    #[error("the strategy cannot be moved to this game")]
    Game,
    /// Memory was refused.
    #[error("memory was refused")]
    Memory,
}

impl From<AllocError> for TransferFault {
    ghost from_gives = { λ _ fault. fault ≡ Memory };

    fn from(_error: AllocError) -> TransferFault {
        TransferFault::Memory
    }
}
