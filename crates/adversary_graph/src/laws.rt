//! Laws of the adversary's strategies, as contracts of functions that do nothing.

ghost use Rattle.adversary_graph.specs.Laws.{LegalNodesAreWon, LegalStrategiesForceEvery, PlaysAreLost};
ghost use Rattle.adversary_graph.specs.Pools.{IsPool};

use crate::pool::AdvJudged;

/// Judged nodes meet every rule but `root` over the nodes before them, and the numbers of their game are within
/// their ranges.
pub fn pool_is_legal(pool: &AdvJudged)
    ensures { IsPool pool.now }
{
    let _len = pool.len();
}

/// From the position of each node of a legal strategy the adversary wins. So a legal strategy forces every
/// deterministic online algorithm of its game: each meets a packable list of items on which a load reaches the
/// target.
pub fn legal_strategies_force_every_algorithm()
    ensures nodes { LegalNodesAreWon }
    ensures game { LegalStrategiesForceEvery }
{}

/// Every play from a root of a pool has an end, and its algorithm loses it. At each moment a placement says what
/// follows, and the items are packable.
pub fn plays_are_lost()
    ensures lost { PlaysAreLost }
{}
