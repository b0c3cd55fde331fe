//! The command `minimise`.

ghost use Rattle.std.specs.Prelude.{IfOk};
ghost use Rattle.strategies.specs.AnyNode.{IsLegal};
ghost use Rattle.stretch_bench.specs.Minimise.{IsMinimised};
ghost use Rattle.stretch_bench.specs.Pieces.{IsDueWith};
ghost use Rattle.stretch_bench.specs.declared.status.Status.TheVariants.{Done};

use crate::due::Due;
use minimise::minimise;
use std::alloc::{AllocError, Global};
use strategy_text::Strategy;

/// The canonical form of a legal strategy.
pub(crate) fn minimised(alloc: Global, strategy: Strategy) -> Result<Due, AllocError>
    requires legal { IsLegal strategy }
    ensures made { IfOk result (IsDueWith Done (IsMinimised strategy)) }
{
    let made = minimise(alloc, &strategy)?;
    Ok(Due::of_strategy(alloc, made))
}

#[cfg(test)]
mod tests {
    use crate::tests::{LEGAL, OF_ALGORITHM, Run, WITH_BURSTS, WITH_COPIES, is_due};

    const MINIMISED: [Run; 4] = [
        ("minimise", WITH_COPIES, 0, LEGAL),
        ("minimise", LEGAL, 0, LEGAL),
        ("minimise", OF_ALGORITHM, 0, OF_ALGORITHM),
        ("minimise", WITH_BURSTS, 0, WITH_BURSTS),
    ];

    #[test]
    fn strategies_are_made_shorter(rt: HostRuntime) {
        for row in &MINIMISED {
            assert!(rt; is_due(rt.alloc(), row).unwrap_or(false), "{}", row.1);
        }
    }
}
