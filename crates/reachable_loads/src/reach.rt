//! A list of items with the loads that its assignments reach.

ghost use Rattle.std.specs.Prelude.{◌≡◌, ◌↔◌, ℕ, ◌+◌, ◌<◌, ◌≤◌, [], ◌∷◌, ◌++◌, length, IsTrue, All, MatchOption, IfOk};
ghost use Rattle.items.specs.Packable.{Packable, IsRoom};
ghost use Rattle.reachable_loads.specs.Reached.{sent};

use crate::sets::Sets;
use items::{Game, Nums};
use reach_planes::Planes;
use std::alloc::{AllocError, Global};
use std::marker::Model;

/// A list of items of a game, with the loads of all its assignments to the bins of the capacity.
/// It answers what the rule of the game asks, that the items so far always fit offline (Böhm and Simon,
/// "Discovering and certifying lower bounds for the online bin stretching problem"). The loads are kept as
/// bits where the game has at most 1,048,576 lists of loads of all bins but one, else as a set of sorted
/// loads. Sizes and loads are whole numbers on the scale of the capacity. Clauses see the game and the list
/// of items.
#[derive(Drop)]
pub struct Reach {
    loads: Kept,
}

// How the loads are kept.
#[derive(Drop)]
enum Kept {
    Bits(Planes),
    Lists(Sets),
}

impl Model for Reach {
    ghost use Rattle.reachable_loads.specs.Kept.{items_of};
    ghost use Rattle.reachable_loads.specs.Reached.{ItemsSent};

    ghost Value = { ItemsSent };

    ghost view = { λ a. items_of a.loads };
}

impl Reach {
    /// The list of no items, whose one member is the load 0 of each bin. Fails only where memory runs out.
    pub fn start(alloc: Global, game: &Game) -> Result<Reach, AllocError>
        ensures ok { IfOk result (λ made. made ≡ sent game.now []) }
    {
        let loads = if Planes::fits(game) {
            Kept::Bits(Planes::start(alloc, game)?)
        } else {
            Kept::Lists(Sets::start(alloc, game)?)
        };
        Ok(Reach { loads })
    }

    /// The list with one more item, of size `s`, at its end; the items may then fit no longer. Copies the
    /// bits once, or takes a time near linear in the number of sorted loads. Fails only where memory runs out.
    pub fn add(&self, s: u16) -> Result<Reach, AllocError>
        requires low { 1 ≤ s }
        requires high { s ≤ self.now.game.capacity }
        ensures ok { IfOk result (λ more. more ≡ sent self.now.game (self.now.items ++ s ∷ [])) }
    {
        let loads = match &self.loads {
            Kept::Bits(planes) => Kept::Bits(planes.add(s)?),
            Kept::Lists(sets) => Kept::Lists(sets.add(s)?),
        };
        Ok(Reach { loads })
    }

    /// Whether the items fit: whether they have an assignment. Takes no memory.
    pub fn packable(&self) -> bool
        ensures exact { IsTrue result ↔ Packable self.now.game self.now.items }
    {
        match &self.loads {
            Kept::Bits(planes) => packable_by_bits(planes),
            Kept::Lists(sets) => sets.packable(),
        }
    }

    /// The greatest size of an item that may come next, so that the items still fit; 0 where none may,
    /// and where the items do not fit. Takes no memory.
    pub fn room(&self) -> u16
        ensures exact { IsRoom self.now.game self.now.items result }
        ensures law { (size : ℕ) → Packable self.now.game (self.now.items ++ size ∷ []) ↔ (1 ≤ size) × (size ≤ result) }
        ensures none { (Packable self.now.game self.now.items → ⊥) → result ≡ 0 }
    {
        match &self.loads {
            Kept::Bits(planes) => room_by_bits(planes),
            Kept::Lists(sets) => sets.room(),
        }
    }
}

// Whether the items of some planes fit.
fn packable_by_bits(planes: &Planes) -> bool
    ensures { IsTrue result ↔ Packable planes.now.game planes.now.items }
{
    match planes.least_load() {
        Some(_) => true,
        None => false,
    }
}

// The room of the items of some planes: what the least load of any assignment leaves.
fn room_by_bits(planes: &Planes) -> u16
    ensures exact { IsRoom planes.now.game planes.now.items result }
    ensures law { (size : ℕ) → Packable planes.now.game (planes.now.items ++ size ∷ []) ↔ (1 ≤ size) × (size ≤ result) }
    ensures none { (Packable planes.now.game planes.now.items → ⊥) → result ≡ 0 }
{
    match planes.least_load() {
        Some(least) => planes.game().g() - least,
        None => 0,
    }
}
