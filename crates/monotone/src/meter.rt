//! The meter: how many visits a search made, and the last of them.

ghost use Rattle.std.specs.Prelude.{◌≡◌, ◌≤◌, ◌↔◌, OnOk, OnErr, IsErrOf};
ghost use Rattle.monotone.specs.Visits.{visit, unused, counted, IsLater};
ghost use Rattle.monotone.specs.declared.meter.VisitFault.TheVariants.{Memory};

use crate::path::Path;
use items::Game;
use std::alloc::{AllocError, Global};
use std::marker::Model;
use thiserror::Error;

/// Why a visit was not counted.
#[derive(Debug, Drop, Error)]
pub enum VisitFault {
    /// The meter stands at its budget.
    #[error("the budget is spent")]
    Spent,
    /// Memory was refused.
    #[error("memory was refused")]
    Memory,
}

impl From<AllocError> for VisitFault {
    ghost from_gives = { λ _ fault. fault ≡ Memory };

    fn from(_error: AllocError) -> VisitFault {
        VisitFault::Memory
    }
}

/// A meter of the visits that a search of a game makes, each a pass and a path, in their order. It counts up to its
/// budget and keeps the last visit.
#[derive(Drop)]
pub struct Meter {
    game: Game,
    budget: u32,
    count: u32,
    pass: u16,
    path: Path,
}

impl Model for Meter {
    ghost use Rattle.std.specs.Prelude.{◌≤◌, ◌==◌, if◌then◌else◌, Some, None};
    ghost use Rattle.monotone.specs.Visits.{Metered, visit};

    ghost Value = { Metered };

    ghost view = { λ a. record {
      game = a.game;
      budget = a.budget;
      count = a.count;
      last = (if a.count == 0 then None else Some (visit a.pass a.path));
    } };

    ghost invariant = { λ a. a.count ≤ a.budget };
}

impl Meter {
    /// A meter that allows `budget` visits of this game and has counted none. Takes no memory.
    pub fn new(alloc: Global, game: &Game, budget: u32) -> Meter
        requires { 1 ≤ budget }
        ensures unused { result ≡ unused game.now budget }
    {
        Meter {
            game: *game,
            budget,
            count: 0,
            pass: 0,
            path: Path::new(alloc),
        }
    }

    /// How many visits were counted.
    pub fn count(&self) -> u32
        ensures value { result ≡ self.now.count }
        ensures within { self.now.count ≤ self.now.budget }
    {
        self.count
    }

    /// Counts a visit that comes after the last one, and keeps it. `Spent` is answered exactly where the meter stands
    /// at its budget, before any memory is asked; memory is asked only for a path longer than all before. After
    /// either fault the meter is as before.
    pub fn visit(&mut self, pass: u16, path: &Path) -> Result<(), VisitFault>
        requires later { IsLater self.old (visit pass path.now) }
        ensures ok { OnOk result (self.new ≡ counted self.old (visit pass path.now)) }
        ensures spent { IsErrOf result VisitFault.Spent ↔ (self.old.count ≡ self.old.budget) }
        ensures err { OnErr result (self.new ≡ self.old) }
    {
        if self.count == self.budget {
            return Err(VisitFault::Spent);
        }
        self.path.set_to(path)?;
        self.pass = pass;
        self.count += 1;
        Ok(())
    }
}
