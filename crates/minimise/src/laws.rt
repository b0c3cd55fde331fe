//! Laws of the canonical form, as contracts of functions that do nothing.

ghost use Rattle.minimise.specs.Laws.{AgreeingStrategiesHaveOneForm, CanonicalFormsAreLegal, CanonicalFormsAreReached};
ghost use Rattle.minimise.specs.Laws.{CanonicalFormsHaveDistinctPositions, CanonicalFormsHaveNoMoreNodes};
ghost use Rattle.minimise.specs.Laws.{CanonicalFormsStay, UpgradesAreLegal};

/// The canonical form of a legal strategy is legal, its positions are distinct, and each of its nodes is reached from
/// the root.
pub fn canonical_forms_are_legal()
    ensures legal { CanonicalFormsAreLegal }
    ensures distinct { CanonicalFormsHaveDistinctPositions }
    ensures reached { CanonicalFormsAreReached }
{}

/// An upgrade of a legal strategy is legal.
pub fn upgrades_are_legal()
    ensures legal { UpgradesAreLegal }
{}

/// The canonical form of a canonical form is itself.
pub fn canonical_forms_stay()
    ensures { CanonicalFormsStay }
{}

/// The canonical form has no more nodes than the strategy.
pub fn canonical_forms_have_no_more_nodes()
    ensures { CanonicalFormsHaveNoMoreNodes }
{}

/// The canonical form depends neither on the numbers of the nodes, nor on repeats, nor on nodes that are not reached:
/// two legal strategies for a game have the same one where each kept node of the first has a twin in the second. A
/// twin stands for the same position in its strategy, and is the same node but for its references, each of which
/// leads to the same position.
pub fn agreeing_strategies_have_one_form()
    ensures { AgreeingStrategiesHaveOneForm }
{}
