//! The command `upgrade`.

ghost use Rattle.std.specs.Prelude.{IfOk};
ghost use Rattle.strategies.specs.AnyNode.{IsLegal};
ghost use Rattle.stretch_bench.specs.Pieces.{IsDueWith};
ghost use Rattle.stretch_bench.specs.Upgrade.{IsUpgraded};
ghost use Rattle.stretch_bench.specs.declared.status.Status.TheVariants.{Done};

use crate::due::Due;
use minimise::upgrade;
use std::alloc::{AllocError, Global};
use strategy_text::Strategy;

/// The canonical form of an upgrade of a legal strategy.
pub(crate) fn upgraded(alloc: Global, strategy: Strategy) -> Result<Due, AllocError>
    requires legal { IsLegal strategy }
    ensures made { IfOk result (IsDueWith Done (IsUpgraded strategy)) }
{
    let made = upgrade(alloc, &strategy)?;
    Ok(Due::of_strategy(alloc, made))
}

#[cfg(test)]
mod tests {
    use crate::tests::{
        Found, LEGAL, OF_ALGORITHM, OF_ALGORITHM_IN_FORMAT_2, Run, WITH_BIG, WITH_BURSTS,
        WITHOUT_BIG, is_due, is_found,
    };

    const UPGRADED: [Run; 3] = [
        ("upgrade", WITH_BURSTS, 0, WITH_BURSTS),
        ("upgrade", OF_ALGORITHM, 0, OF_ALGORITHM_IN_FORMAT_2),
        ("upgrade", WITHOUT_BIG, 0, WITH_BIG),
    ];

    #[test]
    fn strategies_are_upgraded(rt: HostRuntime) {
        for row in &UPGRADED {
            assert!(rt; is_due(rt.alloc(), row).unwrap_or(false), "{}", row.1);
        }
    }

    const WITH_ANY_PACKING: [Found; 1] = [(
        "upgrade",
        LEGAL,
        WITH_BURSTS,
        "accepted adversary 2 3 4 nodes 4\n",
    )];

    #[test]
    fn bursts_are_made_whatever_their_packings(rt: HostRuntime) {
        for row in &WITH_ANY_PACKING {
            assert!(rt; is_found(rt.alloc(), row).unwrap_or(false), "{}", row.0);
        }
    }
}
