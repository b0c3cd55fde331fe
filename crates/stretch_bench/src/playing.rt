//! The command `play`.

ghost use Rattle.std.specs.Prelude.{◌≡◌, ℕ, List, IfOk, MatchOption, map};
ghost use Rattle.adversary_graph.specs.Pools.{IsLegalOfAdversary};
ghost use Rattle.items.specs.Game.{GameNumbers};
ghost use Rattle.stretch_bench.specs.Call.{Players};
ghost use Rattle.stretch_bench.specs.Commands.{Spells, spelling_of};
ghost use Rattle.stretch_bench.specs.Pieces.{IsDueWith};
ghost use Rattle.stretch_bench.specs.Play.{IsFirstNamed, IsPlayOf};
ghost use Rattle.stretch_bench.specs.declared.command.Command.TheVariants.{Play};
ghost use Rattle.stretch_bench.specs.declared.status.Status.TheVariants.{Done};

use crate::due::Due;
use crate::status::Status;
use adversary_graph::{AdvJudged, refute_by};
use match_player::match_text;
use online_play::{Online, Player};
use std::alloc::{AllocError, Global};
use strategy_text::Strategy;

/// The place of the player that the words `play NAME` mean.
pub(crate) fn player_of(words: &[String], players: &Vec<Player>) -> Option<usize>
    ensures { (answers : List (GameNumbers → List ℕ → ℕ))
        → let players : Players = record { names = map (λ player. player.name) players.now.items; answers = answers } in
        MatchOption result
        ((place : ℕ) → Spells players (spelling_of words.now) (Play place) → ⊥)
        (λ place. Spells players (spelling_of words.now) (Play place)) }
{
    let [first, name] = words else {
        return None;
    };
    if first.as_str() != "play" {
        return None;
    }
    place_of(name.as_str(), players)
}

// The place of the first player with this name.
fn place_of(name: &str, players: &Vec<Player>) -> Option<usize>
    ensures { let names = map (λ player. player.name) players.now.items in MatchOption result
        ((place : ℕ) → IsFirstNamed names name.now place → ⊥)
        (IsFirstNamed names name.now) }
{
    for place in 0..players.len() {
        if players[place].name.as_str() == name {
            return Some(place);
        }
    }
    None
}

/// The lines of the play of a legal strategy against a player.
pub(crate) fn played(alloc: Global, player: &Player, strategy: Strategy) -> Result<Due, AllocError>
    requires legal { IsLegalOfAdversary strategy }
    ensures play { let answer = (⟦<dyn Online as Online>⟧ player.now.player.vtable).answer player.now.player.value in
        IfOk result (IsDueWith Done (IsPlayOf player.now.name answer strategy)) }
{
    let game = strategy.game;
    let nodes = AdvJudged::from_strategy(strategy);
    let transcript = refute_by(alloc, &nodes, nodes.len() - 1, &player.player)?;
    let lines = match_text(alloc, player.name.as_str(), &game, &transcript)?;
    Ok(Due::of_lines(Status::Done, lines))
}

#[cfg(test)]
mod tests {
    use crate::tests::{LEGAL, OF_ALGORITHM, Run, WITH_BURSTS, is_due};

    const PLAYS: [Run; 7] = [
        (
            "play best-fit",
            LEGAL,
            0,
            "play best-fit 2 3 4\nitems 1 1 2 2\nbins 0 0 1 0\nloads 4 2\npack 1 2 / 1 2\n",
        ),
        (
            "play first-fit",
            WITH_BURSTS,
            0,
            "play first-fit 2 3 4\nitems 1 1 2 2\nbins 0 0 1 0\nloads 4 2\npack 1 2 / 1 2\n",
        ),
        (
            "play first-fit",
            LEGAL,
            0,
            "play first-fit 2 3 4\nitems 1 1 2 2\nbins 0 0 1 0\nloads 4 2\npack 1 2 / 1 2\n",
        ),
        (
            "play least-loaded",
            LEGAL,
            0,
            "play least-loaded 2 3 4\nitems 1 1 3\nbins 0 1 0\nloads 4 1\npack 3 / 1 1\n",
        ),
        (
            "play best-fit",
            WITH_BURSTS,
            0,
            "play best-fit 2 3 4\nitems 1 1 2 2\nbins 0 0 1 0\nloads 4 2\npack 1 2 / 1 2\n",
        ),
        (
            "play least-loaded",
            WITH_BURSTS,
            0,
            "play least-loaded 2 3 4\nitems 1 1 3\nbins 0 1 0\nloads 4 1\npack 3 / 1 1\n",
        ),
        (
            "play first-fit",
            OF_ALGORITHM,
            1,
            "rejected line 3 rule side\n",
        ),
    ];

    #[test]
    fn plays_are_written(rt: HostRuntime) {
        for row in &PLAYS {
            assert!(rt; is_due(rt.alloc(), row).unwrap_or(false), "{}", row.0);
        }
    }
}
