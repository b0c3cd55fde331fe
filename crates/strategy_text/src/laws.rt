//! What holds of every text of a strategy. The functions do nothing: their contracts are the laws.

ghost use Rattle.strategy_text.specs.Laws.{TextTellsStrategy, NoTextBeginsAnother, LineTellsNode, NoNodeIsTheEnd};
ghost use Rattle.strategy_text.specs.Laws.{NodesAreLines, LinesAreLines};

/// Two strategies, of any side and format, never have the same text, and no strategy's text is a proper
/// prefix of another's.
pub fn text_is_unique()
    ensures same { TextTellsStrategy }
    ensures prefix { NoTextBeginsAnother }
{}

/// A line spells one node of a number at most, whichever its side, and none where it is the last of a
/// strategy.
pub fn line_is_unique()
    ensures same { LineTellsNode }
    ensures end { NoNodeIsTheEnd }
{}

/// No line of a strategy has a line feed in it.
pub fn lines_have_no_line_feed()
    ensures node { NodesAreLines }
    ensures strategy { LinesAreLines }
{}
