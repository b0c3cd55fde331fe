//! Laws of the definitions, each as the contract of a function that does nothing.

ghost use Rattle.checker.specs.FirstFault.{OneFirstFault, LegalTextHasNoFault, FaultDependsOnLinesBefore};
ghost use Rattle.checker.specs.Laws.{LegalIsSpellable, LegalLinesAreLines};
ghost use Rattle.checker.specs.Laws.{LegalTextTellsStrategy, NoLegalTextBeginsAnother};
ghost use Rattle.checker.specs.Laws.{EveryTextHasAFirstFaultOrNone, OnlyLegalTextsHaveNoFault};
ghost use Rattle.checker.specs.Laws.{OnlyLegalListedTextsHaveNoFault};

/// A text has at most one first fault: one line, and one thing that is wrong with it.
pub fn a_text_has_one_first_fault()
    ensures { OneFirstFault }
{}

/// Every legal strategy has a text, and each of its lines is short enough to be read.
pub fn every_legal_strategy_is_spellable()
    ensures spellable { LegalIsSpellable }
    ensures lines { LegalLinesAreLines }
{}

/// Two legal strategies never have the same text, and no legal strategy's text is a proper prefix of
/// another's.
pub fn a_legal_text_tells_its_strategy()
    ensures same { LegalTextTellsStrategy }
    ensures prefix { NoLegalTextBeginsAnother }
{}

/// No line of the text of a legal strategy of a wanted side has a fault.
pub fn a_legal_text_has_no_fault()
    ensures { LegalTextHasNoFault }
{}

/// The fault of a line depends on the bytes up to its line feed alone: bytes that stand after it change
/// nothing, and without them it is the same.
pub fn faults_depend_on_the_lines_before()
    ensures { FaultDependsOnLinesBefore }
{}

/// Every text has a first fault, or no line of it has a fault; and the texts without a fault are exactly
/// those of the legal strategies of a wanted side, or with listed sizes.
pub fn every_text_has_a_first_fault_or_none()
    ensures decided { EveryTextHasAFirstFaultOrNone }
    ensures legal { OnlyLegalTextsHaveNoFault }
    ensures listed { OnlyLegalListedTextsHaveNoFault }
{}
