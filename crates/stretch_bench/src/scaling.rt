//! The command `scale`.

ghost use Rattle.std.specs.Prelude.{◌≡◌, ◌*◌, ◌≤◌, ℕ, IfOk, MatchOption, string_bytes};
ghost use Rattle.adversary_graph.specs.Pools.{IsLegalOfAdversary};
ghost use Rattle.stretch_bench.specs.Call.{Players};
ghost use Rattle.stretch_bench.specs.Commands.{Spells, spelling_of};
ghost use Rattle.stretch_bench.specs.Pieces.{IsDueWith, IsEither};
ghost use Rattle.stretch_bench.specs.Scale.{IsFactor, IsScaled, IsUnscaled, no_transfer_line};
ghost use Rattle.stretch_bench.specs.declared.command.Command.TheVariants.{Scale};
ghost use Rattle.stretch_bench.specs.declared.status.Status.TheVariants.{Done, NoTransfer};

use crate::due::Due;
use crate::lines::text_of_line;
use crate::number::number_after;
use crate::status::Status;
use std::alloc::{AllocError, Global};
use strategy_text::{Strategy, Text};
use strategy_transfer::{TransferFault, scale};

/// The factor of the words `scale C`.
pub(crate) fn scale_of(words: &[String]) -> Option<u16>
    ensures { (players : Players) → MatchOption result
        ((factor : ℕ) → Spells players (spelling_of words.now) (Scale factor) → ⊥)
        (λ factor. Spells players (spelling_of words.now) (Scale factor)) }
{
    match number_after(words, "scale", 120) {
        Some(factor) => Some(factor as u16),
        None => None,
    }
}

/// A legal strategy of the adversary on another scale, or the line of the game to which it can't be moved.
pub(crate) fn scaled(alloc: Global, factor: u16, strategy: Strategy) -> Result<Due, AllocError>
    requires legal { IsLegalOfAdversary strategy }
    requires factor { IsFactor factor }
    ensures made { IfOk result (IsEither Done (IsScaled factor strategy) NoTransfer (IsUnscaled factor strategy)) }
{
    match scale(alloc, &strategy, factor) {
        Ok(made) => Ok(Due::of_strategy(alloc, made)),
        Err(TransferFault::Game) => {
            let line = line_of_unscaled(alloc, factor, &strategy)?;
            Ok(Due::of_lines(Status::NoTransfer, line))
        }
        Err(TransferFault::Memory) => Err(AllocError),
    }
}

// The line of the greater game to which a strategy can't be moved.
fn line_of_unscaled(alloc: Global, factor: u16, strategy: &Strategy) -> Result<Text, AllocError>
    requires legal { IsLegalOfAdversary strategy.now }
    requires factor { IsFactor factor }
    ensures { IfOk result (λ text. text ≡ no_transfer_line strategy.now.game.bins
        (strategy.now.game.capacity * factor) (strategy.now.game.target * factor)) }
{
    let game = &strategy.game;
    line_of_no_transfer(alloc, game.m(), game.g() * factor, game.t() * factor)
}

/// The line of a game to which a strategy can't be moved.
pub(crate) fn line_of_no_transfer(
    alloc: Global,
    bins: u16,
    capacity: u16,
    target: u16,
) -> Result<Text, AllocError>
    ensures { IfOk result (λ text. text ≡ no_transfer_line bins capacity target) }
{
    let line = no_transfer_words(alloc, bins, capacity, target)?;
    text_of_line(alloc, line.as_str())
}

fn no_transfer_words(
    alloc: Global,
    bins: u16,
    capacity: u16,
    target: u16,
) -> Result<String, AllocError>
    ensures { IfOk result (λ line. string_bytes line ≡ no_transfer_line bins capacity target) }
{
    format!(in alloc; "notransfer {bins} {capacity} {target}\n")
}

#[cfg(test)]
mod tests {
    use crate::tests::{LEGAL, LEGAL_TWICE, OF_ALGORITHM, Run, WITH_BURSTS, is_due};

    // The strategy with bursts on twice the scale.
    const WITH_BURSTS_TWICE: &str = "\
stretch 2
game 2 6 8
side adversary
nodes 4
0 loads 4 0 items 2 2 burst 2 4 pack 2 4 / 2 4
1 loads 2 2 items 2 2 burst 1 6 pack 6 / 2 2
2 loads 2 0 items 2 send 2 on 2 to 0 on 0 to 1
3 loads 0 0 items - send 2 on 0 to 2
end
";

    const SCALED: [Run; 6] = [
        ("scale 2", LEGAL, 0, LEGAL_TWICE),
        ("scale 1", LEGAL, 0, LEGAL),
        ("scale 41", LEGAL, 8, "notransfer 2 123 164\n"),
        ("scale 120", LEGAL, 8, "notransfer 2 360 480\n"),
        ("scale 2", WITH_BURSTS, 0, WITH_BURSTS_TWICE),
        ("scale 2", OF_ALGORITHM, 1, "rejected line 3 rule side\n"),
    ];

    #[test]
    fn strategies_are_scaled(rt: HostRuntime) {
        for row in &SCALED {
            assert!(rt; is_due(rt.alloc(), row).unwrap_or(false), "{}", row.0);
        }
    }
}
