//! The rooms of multisets of items, of which a table of bounded size keeps those that take long to find.

ghost use Rattle.std.specs.Prelude.{◌≡◌, ℕ, ◌≤◌, ◌++◌, ◌∷◌, [], IfOk};
ghost use Rattle.items.specs.Packable.{IsRoom, Packable};

use items::{Game, Items};
use loads::Loads;
use reachable_loads::{room_between, room_bounds};
use std::alloc::{AllocError, Global};
use std::marker::Model;
use transposition::{Key, LruTable};

// How many rooms are kept at most.
const MOST_ROOMS: usize = 1000000;

/// The rooms that no bounds told in one game. The positions that lead to a multiset of items have one room.
#[derive(Drop)]
pub(crate) struct Rooms {
    game: Game,
    // The loads of a key, which are the same for all multisets.
    no_loads: Loads,
    table: LruTable<Key, u16>,
}

impl Model for Rooms {
    ghost use Rattle.items.specs.Game.{GameNumbers};
    ghost use Rattle.minimax.specs.Rooms.{AreRooms};

    ghost Value = { GameNumbers };

    ghost view = { λ a. a.game };

    ghost invariant = { λ a. AreRooms a.game a.table.entries };
}

impl Rooms {
    /// No rooms of the game yet.
    pub(crate) fn new(alloc: Global, game: &Game) -> Result<Rooms, AllocError>
        ensures { IfOk result (λ made. made ≡ game.now) }
    {
        Ok(Rooms {
            game: *game,
            no_loads: Loads::zero(alloc, game),
            table: LruTable::new(alloc, MOST_ROOMS)?,
        })
    }

    /// The greatest size of an item that may come next in the game, where a bound on it is known. Where the bounds do not
    /// tell it, it is kept. The key is one of a position with these items.
    pub(crate) fn room_up_to(
        &mut self,
        alloc: Global,
        items: &Items,
        key: &Key,
        most: u16,
    ) -> Result<u16, AllocError>
        requires of_key { key.now.items ≡ items.now }
        requires bound { (size : ℕ) → Packable self.old (items.now ++ size ∷ []) → size ≤ most }
        ensures exact { IfOk result (IsRoom self.old items.now) }
        ensures same { self.new ≡ self.old }
    {
        let game = self.game;
        let (least, most) = room_bounds(&game, items, most);
        if least == most {
            return Ok(least);
        }
        let key = key.with_loads(alloc, &self.no_loads)?;
        if let Some(room) = self.table.get(&key) {
            return Ok(room);
        }
        let room = room_between(alloc, &game, items, least, most)?;
        self.table.insert(key, room)?;
        Ok(room)
    }
}
