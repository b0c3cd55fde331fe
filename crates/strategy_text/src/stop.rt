//! Why the reading of a line stops.

ghost use Rattle.std.specs.Prelude.{◌≡◌};
ghost use Rattle.strategy_text.specs.declared.stop.LineStop.TheVariants.{Memory};

use std::alloc::AllocError;

/// Why the reading of a line stops.
#[derive(Drop)]
pub(crate) enum LineStop {
    /// Memory was refused.
    Memory,
    /// The line is not of the form.
    Form,
}

impl From<AllocError> for LineStop {
    ghost from_gives = { λ _ e. e ≡ Memory };

    fn from(_e: AllocError) -> LineStop {
        LineStop::Memory
    }
}
