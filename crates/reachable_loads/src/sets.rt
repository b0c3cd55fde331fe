//! The sorted loads of all assignments of a list of items, each kept once in a set.

ghost use Rattle.std.specs.Prelude.{◌≡◌, ◌↔◌, ℕ, ◌+◌, ◌<◌, ◌≤◌, ◌⊎◌, List, [], ◌∷◌, ◌++◌};
ghost use Rattle.std.specs.Prelude.{length, IsTrue, Contains, MatchOption, IfOk, OnOk};
ghost use Rattle.items.specs.Packable.{Packable, IsRoom};
ghost use Rattle.reachable_loads.specs.Reached.{FitOffline, IsAfter, IsLeast, IsReached, sent};

use items::{Game, Nums};
use loads::Loads;
use std::alloc::{AllocError, Global};
use std::collections::BTreeSet;
use std::marker::Model;

/// A list of items of a game, with the sorted loads of all its assignments. It serves the games whose loads
/// do not fit in planes. Clauses see the game and the list of items.
#[derive(Drop)]
pub struct Sets {
    game: Game,
    items: Nums,
    members: BTreeSet<Loads>,
}

impl Model for Sets {
    ghost use Rattle.reachable_loads.specs.Reached.{ItemsSent, IsReachOf, sent};

    ghost Value = { ItemsSent };

    ghost view = { λ a. sent a.game a.items };

    ghost invariant = { λ a. IsReachOf a.game a.items a.members.keys };
}

impl Sets {
    /// The list of no items, whose one member is the load 0 of each bin.
    pub fn start(alloc: Global, game: &Game) -> Result<Sets, AllocError>
        ensures ok { IfOk result (λ made. made ≡ sent game.now []) }
    {
        let mut members = BTreeSet::new(alloc);
        members.insert(Loads::zero(alloc, game))?;
        Ok(Sets {
            game: *game,
            items: Nums::new(alloc),
            members,
        })
    }

    /// The list with one more item, of size `s`, at its end.
    pub fn add(&self, s: u16) -> Result<Sets, AllocError>
        requires low { 1 ≤ s }
        requires high { s ≤ self.now.game.capacity }
        ensures ok { IfOk result (λ more. more ≡ sent self.now.game (self.now.items ++ s ∷ [])) }
    {
        let mut items = self.items.copy()?;
        items.push(s)?;
        let mut members = BTreeSet::new(self.items.allocator());
        for loads in &self.members {
            put_after(&mut members, &self.game, loads, s)?;
        }
        Ok(Sets {
            game: self.game,
            items,
            members,
        })
    }

    /// Whether the items have an assignment.
    pub fn packable(&self) -> bool
        ensures exact { IsTrue result ↔ Packable self.now.game self.now.items }
    {
        !self.members.is_empty()
    }

    /// The greatest size of an item that may come next, so that the items still fit; 0 where none may.
    pub fn room(&self) -> u16
        ensures exact { IsRoom self.now.game self.now.items result }
        ensures law { (size : ℕ) → Packable self.now.game (self.now.items ++ size ∷ []) ↔ (1 ≤ size) × (size ≤ result) }
        ensures none { (Packable self.now.game self.now.items → ⊥) → result ≡ 0 }
    {
        let capacity = self.game.g();
        let mut room = 0u16;
        for loads in &self.members {
            room = room.max(capacity - least(loads));
        }
        room
    }
}

// Puts in the loads after an item, for each of the different loads that has room for it.
fn put_after(
    members: &mut BTreeSet<Loads>,
    game: &Game,
    loads: &Loads,
    s: u16,
) -> Result<(), AllocError>
    requires of_game { FitOffline game.now loads.now }
    requires size { s ≤ game.now.capacity }
    ensures ok { OnOk result ((after : List ℕ) → Contains members.new.keys after
        ↔ (Contains members.old.keys after ⊎ IsAfter game.now.capacity s after loads.now)) }
{
    let capacity = game.g();
    for i in 0..loads.distinct_count() {
        let load = loads.distinct_at(i);
        if load + s <= capacity {
            members.insert(loads.place(game, load, s).unwrap())?;
        }
    }
    Ok(())
}

// The least of some loads.
fn least(loads: &Loads) -> u16
    requires { 0 < length loads.now }
    ensures { IsLeast loads.now result }
{
    *loads.as_slice().last().unwrap()
}
