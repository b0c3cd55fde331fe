//! The command `weaken`.

ghost use Rattle.std.specs.Prelude.{ℕ, IfOk, MatchOption};
ghost use Rattle.strategies.specs.AnyNode.{IsLegal};
ghost use Rattle.stretch_bench.specs.Call.{Players};
ghost use Rattle.stretch_bench.specs.Commands.{Spells, spelling_of};
ghost use Rattle.stretch_bench.specs.Pieces.{IsEither};
ghost use Rattle.stretch_bench.specs.Weaken.{IsUnweakened, IsWeakened};
ghost use Rattle.stretch_bench.specs.declared.command.Command.TheVariants.{Weaken};
ghost use Rattle.stretch_bench.specs.declared.status.Status.TheVariants.{Done, NoTransfer};

use crate::due::Due;
use crate::number::number_after;
use crate::scaling::line_of_no_transfer;
use crate::status::Status;
use minimise::minimise;
use std::alloc::{AllocError, Global};
use strategy_text::Strategy;
use strategy_transfer::{TransferFault, weaken};

/// The target of the words `weaken T`.
pub(crate) fn weaken_of(words: &[String]) -> Option<u16>
    ensures { (players : Players) → MatchOption result
        ((target : ℕ) → Spells players (spelling_of words.now) (Weaken target) → ⊥)
        (λ target. Spells players (spelling_of words.now) (Weaken target)) }
{
    match number_after(words, "weaken", 240) {
        Some(target) => Some(target as u16),
        None => None,
    }
}

/// The canonical form of a legal strategy at another target, or the line of the game to which it can't be moved.
pub(crate) fn weakened(alloc: Global, target: u16, strategy: Strategy) -> Result<Due, AllocError>
    requires legal { IsLegal strategy }
    ensures made { IfOk result (IsEither Done (IsWeakened target strategy)
        NoTransfer (IsUnweakened target strategy)) }
{
    match weaken(alloc, &strategy, target) {
        Ok(weaker) => {
            let made = minimise(alloc, &weaker)?;
            Ok(Due::of_strategy(alloc, made))
        }
        Err(TransferFault::Game) => {
            let game = &strategy.game;
            let line = line_of_no_transfer(alloc, game.m(), game.g(), target)?;
            Ok(Due::of_lines(Status::NoTransfer, line))
        }
        Err(TransferFault::Memory) => Err(AllocError),
    }
}

#[cfg(test)]
mod tests {
    use crate::tests::{LEGAL, LEGAL_TWICE, OF_ALGORITHM, Run, WITH_BURSTS, WITH_COPIES, is_due};

    // The strategy on twice the scale, whose nodes are the same at a target that is one less.
    const LEGAL_TWICE_AT_7: &str = "\
stretch 1
game 2 6 7
side adversary
nodes 5
0 loads 4 4 items 2 2 4 send 4 pack 2 4 / 2 4 on 4 over
1 loads 4 0 items 2 2 send 4 pack 2 4 / 2 on 4 over on 0 to 0
2 loads 2 2 items 2 2 send 6 pack 6 / 2 2 on 2 over
3 loads 2 0 items 2 send 2 pack 2 2 / - on 2 to 1 on 0 to 2
4 loads 0 0 items - send 2 pack 2 / - on 0 to 3
end
";

    // The strategy of the algorithm at twice its capacity.
    const OF_ALGORITHM_AT_4: &str = "\
stretch 1
game 2 2 4
side algorithm
nodes 5
0 loads 2 0 items 1 1 finish
1 loads 2 1 items 1 2 finish
2 loads 1 0 items 1 reply 1 on 1 to 0 2 on 0 to 1
3 loads 2 0 items 2 finish
4 loads 0 0 items - reply 1 on 0 to 2 2 on 0 to 3
end
";

    const WEAKENED: [Run; 9] = [
        ("weaken 7", LEGAL_TWICE, 0, LEGAL_TWICE_AT_7),
        ("weaken 4", WITH_COPIES, 0, LEGAL),
        ("weaken 4", WITH_BURSTS, 0, WITH_BURSTS),
        ("weaken 5", LEGAL, 8, "notransfer 2 3 5\n"),
        ("weaken 3", LEGAL, 8, "notransfer 2 3 3\n"),
        ("weaken 4", OF_ALGORITHM, 0, OF_ALGORITHM_AT_4),
        ("weaken 2", OF_ALGORITHM, 8, "notransfer 2 2 2\n"),
        ("weaken 240", OF_ALGORITHM, 8, "notransfer 2 2 240\n"),
        ("weaken 1", "", 1, "rejected line 1 syntax\n"),
    ];

    #[test]
    fn strategies_are_weakened(rt: HostRuntime) {
        for row in &WEAKENED {
            assert!(rt; is_due(rt.alloc(), row).unwrap_or(false), "{}", row.0);
        }
    }
}
