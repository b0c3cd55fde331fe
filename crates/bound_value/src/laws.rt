//! Laws of targets and values, as contracts of functions that do nothing.

ghost use Rattle.bound_value.specs.Laws.{LowerTargetsAreForced, TwiceTheCapacityIsKept};
ghost use Rattle.bound_value.specs.Laws.{OneValue, ValuesSplitTargets, ValuesAreBelowTwice};
ghost use Rattle.bound_value.specs.Laws.{ReachableGrowWithTheTarget, AllReachableGrowWithTheTarget};

/// Where every algorithm is forced at a target, it is at each lower target of a game too.
pub fn lower_targets_are_forced()
    ensures lower { LowerTargetsAreForced }
{}

/// At twice the capacity the algorithm wins.
pub fn twice_the_capacity_is_kept()
    ensures kept { TwiceTheCapacityIsKept }
{}

/// A number of bins and a capacity have at most one value. Each target up to it is forced, and it is below twice the
/// capacity.
pub fn values_split_the_targets()
    ensures one { OneValue }
    ensures split { ValuesSplitTargets }
    ensures below { ValuesAreBelowTwice }
{}

/// The number of positions at which the legal paths of a pass end does not fall as the target grows.
pub fn reachable_positions_grow_with_the_target()
    ensures pass { ReachableGrowWithTheTarget }
    ensures all { AllReachableGrowWithTheTarget }
{}
