//! The three named players. Each replays the history by its own rule; an item fits on a load that stays
//! below the target with it.

use crate::online::Online;
use crate::rule::{PlayerRule, replay};
use items::Game;

/// First fit: an item goes to the lowest bin on which it fits, and to bin 0 where it fits on none.
#[derive(Clone, Copy, Debug)]
pub struct FirstFit;

/// Best fit: an item goes to the bin with the greatest load on which it fits, at a tie to the lowest such
/// bin, and to bin 0 where it fits on none.
#[derive(Clone, Copy, Debug)]
pub struct BestFit;

/// Least loaded: an item goes to the bin with the least load, at a tie to the lowest such bin.
#[derive(Clone, Copy, Debug)]
pub struct LeastLoaded;

impl Online for FirstFit {
    ghost use Rattle.online_play.specs.Rules.{first_fit};
    ghost use Rattle.online_play.specs.Replays.{answer_under};
    ghost use Rattle.online_play.specs.PlayersAnswer.{answers_as_algorithm, first_fit_names};

    ghost answer = { λ player. answer_under first_fit };

    ghost is_algorithm = { λ player. answers_as_algorithm first_fit first_fit_names };

    fn place(&self, game: &Game, history: &[u16]) -> u8 {
        replay(PlayerRule::FirstFit, game, history)
    }
}

impl Online for BestFit {
    ghost use Rattle.online_play.specs.Rules.{best_fit};
    ghost use Rattle.online_play.specs.Replays.{answer_under};
    ghost use Rattle.online_play.specs.PlayersAnswer.{answers_as_algorithm, best_fit_names};

    ghost answer = { λ player. answer_under best_fit };

    ghost is_algorithm = { λ player. answers_as_algorithm best_fit best_fit_names };

    fn place(&self, game: &Game, history: &[u16]) -> u8 {
        replay(PlayerRule::BestFit, game, history)
    }
}

impl Online for LeastLoaded {
    ghost use Rattle.online_play.specs.Rules.{least_loaded};
    ghost use Rattle.online_play.specs.Replays.{answer_under};
    ghost use Rattle.online_play.specs.PlayersAnswer.{answers_as_algorithm, least_loaded_names};

    ghost answer = { λ player. answer_under least_loaded };

    ghost is_algorithm = { λ player. answers_as_algorithm least_loaded least_loaded_names };

    fn place(&self, game: &Game, history: &[u16]) -> u8 {
        replay(PlayerRule::LeastLoaded, game, history)
    }
}
