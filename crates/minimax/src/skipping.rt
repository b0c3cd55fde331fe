//! Sizes that need no look-up, since an earlier pass tried them.

ghost use Rattle.std.specs.Prelude.{◌≡◌, ◌↔◌, ℕ, ◌+◌, ◌<◌, ◌≤◌, ◌∷◌, [], ◌++◌, Contains, IsTrue, MatchOption};
ghost use Rattle.items.specs.Packable.{Packable};
ghost use Rattle.good_situations.specs.Finish.{Finishes};
ghost use Rattle.loads.specs.After.{after};
ghost use Rattle.minimax.specs.Serving.{IsFirst, IsSkipped};
ghost use Rattle.minimax.specs.State.{IsPlayable, allowed_by};

use crate::space::Space;
use crate::table::Told;
use good_situations::finishes_after;
use items::laws::game_is_legal;
use loads::Position;
use monotone::allows;

/// The load of the reply to an item of this size, exactly where an earlier pass of the game allowed it and the first load
/// that stays below the target leads to a position that finishes: that pass visited this position.
pub(crate) fn skipped(space: &Space, told: Told, position: &Position, size: u16) -> Option<u16>
    requires playable { IsPlayable space.now position.now }
    requires may_come { Packable space.now.game (position.now.items ++ size ∷ []) }
    requires listed { Contains space.now.sizes size }
    ensures { MatchOption result ((load : ℕ) → IsSkipped space.now told position.now size load → ⊥)
        (IsSkipped space.now told position.now size) }
{
    game_is_legal(&space.game);
    let Told::Earlier(pass) = told else {
        return None;
    };
    if pass > space.game.g() {
        return None;
    }
    if !allows(pass, &position.items, size) {
        return None;
    }
    let Some(load) = first_below(space, position, size) else {
        return None;
    };
    if leads_to_finish(space, position, size, load) {
        return Some(load);
    }
    None
}

// The greatest load that stays below the target with an item of this size; None exactly where there is none.
fn first_below(space: &Space, position: &Position, size: u16) -> Option<u16>
    requires playable { IsPlayable space.now position.now }
    requires may_come { Packable space.now.game (position.now.items ++ size ∷ []) }
    ensures { MatchOption result
        ((load : ℕ) → Contains position.now.loads load → space.now.game.target ≤ load + size)
        (IsFirst space.now.game position.now size) }
{
    let target = space.game.t();
    for load in position.loads.as_slice() {
        if *load + size < target {
            return Some(*load);
        }
    }
    None
}

// Whether the position after an item of this size went to a bin of this load finishes.
fn leads_to_finish(space: &Space, position: &Position, size: u16, load: u16) -> bool
    requires playable { IsPlayable space.now position.now }
    requires has_load { Contains position.now.loads load }
    requires below_target { load + size < space.now.game.target }
    ensures { IsTrue result ↔ Finishes space.now.game (after position.now load size).loads }
{
    finishes_after(&space.game, &position.loads, load, size)
}
