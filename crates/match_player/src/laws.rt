//! Laws of strategies of both sides, as contracts of functions that do nothing.

ghost use Rattle.match_player.specs.Laws.{NoGameHasBoth};

/// No game has a legal strategy of the adversary and a legal strategy of the algorithm.
pub fn no_game_has_both()
    ensures both { NoGameHasBoth }
{}
