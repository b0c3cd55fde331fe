//! Laws of passes, paths, visits and positions, as contracts of functions that do nothing.

ghost use Rattle.monotone.specs.Laws.{PassesAllowSizes, LaterPassesAllowMore, LastPassAllowsAll};
ghost use Rattle.monotone.specs.Laws.{NoPathBeforeItself, EarlierPathsCompose, AnyTwoPathsCompare};
ghost use Rattle.monotone.specs.Laws.{LegalPathsGrowByLegalMoves, OneMoreMove, LegalPathsAreShort};
ghost use Rattle.monotone.specs.Laws.{NoVisitBeforeItself, EarlierVisitsCompose, VisitsAreBounded};
ghost use Rattle.monotone.specs.Laws.{UnusedMeterCounts, MeterGoesOnCounting, CountIsAtMostTheRank};
ghost use Rattle.monotone.specs.Laws.{CountedVisitsComeBefore, FewerComeBefore};
ghost use Rattle.monotone.specs.SmallGame.{SmallGameHasTenReachable};
ghost use Rattle.monotone.specs.Laws.{ReachableAreCounted, OneNumberOfReachable, ReachableAreNoMore};
ghost use Rattle.monotone.specs.Laws.{LastPassHasMostReachable};

/// A pass allows exactly the listed sizes that, with its number, are at least the largest item; a later pass allows
/// them too, and the last allows each listed size.
pub fn passes_allow_sizes()
    ensures exact { PassesAllowSizes }
    ensures later { LaterPassesAllowMore }
    ensures last { LastPassAllowsAll }
{}

/// The order of paths is a strict order in which any two paths compare.
pub fn paths_are_ordered()
    ensures itself { NoPathBeforeItself }
    ensures compose { EarlierPathsCompose }
    ensures compare { AnyTwoPathsCompare }
{}

/// A legal path with one more move is legal exactly where the move is legal at its end.
pub fn legal_paths_grow()
    ensures legal { LegalPathsGrowByLegalMoves }
    ensures position { OneMoreMove }
{}

/// A legal path has no more moves than the volume of its items, which is at most that of the bins.
pub fn legal_paths_are_short()
    ensures short { LegalPathsAreShort }
{}

/// The order of visits is a strict order.
pub fn visits_are_ordered()
    ensures itself { NoVisitBeforeItself }
    ensures compose { EarlierVisitsCompose }
{}

/// With m bins of capacity g there are at most (m+1)^(m·g) visits in each pass.
pub fn visits_are_bounded()
    ensures bounded { VisitsAreBounded }
{}

/// A meter whose visits are all of one space counts at most as many as there are up to and with the last; so many
/// come before each later one, and these are fewer than there are at most.
pub fn meters_count_visits()
    ensures unused { UnusedMeterCounts }
    ensures counted { MeterGoesOnCounting }
    ensures rank { CountIsAtMostTheRank }
    ensures before { CountedVisitsComeBefore }
    ensures bound { FewerComeBefore }
{}

/// The number of reachable positions exists and is one number; no pass has more than the last.
pub fn reachable_positions_are_counted()
    ensures exists { ReachableAreCounted }
    ensures unique { OneNumberOfReachable }
    ensures most { ReachableAreNoMore }
    ensures last { LastPassHasMostReachable }
{}

/// In the game of 2 bins of capacity 2 with target 3 ten positions are reachable in the last pass.
pub fn a_small_game_has_ten_reachable_positions()
    ensures { SmallGameHasTenReachable }
{}
