//! Laws of legal strategies, as contracts of functions that do nothing.

ghost use Rattle.strategies.specs.Laws.{LegalBySide, LegalOfOneSide};

/// A legal strategy is one of the adversary or one of the algorithm, as the side of its nodes says.
pub fn a_legal_strategy_is_of_one_side()
    ensures either { LegalOfOneSide }
    ensures by_side { LegalBySide }
{}
