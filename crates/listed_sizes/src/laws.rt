//! Laws of strategies with listed sizes, as contracts of functions that do nothing.

ghost use Rattle.listed_sizes.specs.Laws.{LegalListedRepliesKeepBelow, LegalListedStrategiesForce};
ghost use Rattle.listed_sizes.specs.Laws.{ListedAdversariesAreLegal, ListedAdversariesForceEvery};

/// A legal strategy of the adversary with listed sizes forces every algorithm of the game with these sizes, by items of
/// these sizes alone. Its nodes are a legal strategy of the whole game too, so every algorithm of that is forced.
pub fn listed_adversaries_force_every_algorithm()
    ensures listed { LegalListedStrategiesForce }
    ensures legal { ListedAdversariesAreLegal }
    ensures whole { ListedAdversariesForceEvery }
{}

/// The replies of a legal strategy of the algorithm with listed sizes keep every load below the target, on every
/// packable list of items of these sizes.
pub fn listed_replies_keep_every_load_below()
    ensures below { LegalListedRepliesKeepBelow }
{}
