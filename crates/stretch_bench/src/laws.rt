//! Laws of the commands, as contracts of functions that do nothing.

ghost use Rattle.stretch_bench.specs.Commands.{WordsSpellOneCommand};

/// Words spell one command at most.
pub fn words_spell_one_command()
    ensures { WordsSpellOneCommand }
{}
