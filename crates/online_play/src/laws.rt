//! Laws of online algorithms and of packable lists, as contracts of functions that do nothing.

ghost use Rattle.online_play.specs.Laws.{ForcedIsNotBelow, LowerTargetsForce, WonPositionsForce, WonGamesForceEvery};
ghost use Rattle.online_play.specs.Laws.{PackableIsTested, PackableListsAreWritten, EmptyPositionsAreAlike};
ghost use Rattle.online_play.specs.Laws.{BinsGoOn, LoadsGoOn, RunsGoOn, RunsBeginAtZero, LoadsAreWithinTheTotal};
ghost use Rattle.online_play.specs.Laws.{WonWithMoreItems, WonWithMoreSizes, WonAtLowerTargets};

/// No algorithm is both forced and below the target on every packable list.
pub fn forced_is_not_below()
    ensures excludes { ForcedIsNotBelow }
{}

/// A game that forces every algorithm forces every algorithm at a lower target too.
pub fn lower_targets_force()
    ensures lower { LowerTargetsForce }
{}

/// The packable lists of a game can be told by a test and written out, so a function of lists of items is
/// as good as a finite table of answers at the packable lists.
pub fn packable_lists_are_written()
    ensures tested { PackableIsTested }
    ensures written { PackableListsAreWritten }
{}

/// A run begins with loads of 0, and each item adds its size to the load of the bin that is answered for it. So
/// no load is above the total of the items.
pub fn runs_go_item_by_item()
    ensures bins { BinsGoOn }
    ensures loads { LoadsGoOn }
    ensures run { RunsGoOn }
    ensures begin { RunsBeginAtZero }
    ensures within { LoadsAreWithinTheTotal }
{}

/// A position that the adversary wins stays won when more items may be sent, when more sizes are allowed, and
/// at a lower target.
pub fn won_positions_stay_won()
    ensures items { WonWithMoreItems }
    ensures sizes { WonWithMoreSizes }
    ensures target { WonAtLowerTargets }
{}

/// From a position that the adversary wins every algorithm is forced, whatever the history that led to it.
pub fn won_positions_force()
    ensures position { WonPositionsForce }
    ensures game { WonGamesForceEvery }
    ensures empty { EmptyPositionsAreAlike }
{}
