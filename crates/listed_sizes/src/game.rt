//! A game whose items have listed sizes alone.

ghost use Rattle.std.specs.Prelude.{◌≡◌, ◌↔◌, IfErr, IfOk};
ghost use Rattle.items.specs.Multiset.{AreSizes};
ghost use Rattle.listed_sizes.specs.Games.{IsListedGame, listed};
ghost use Rattle.listed_sizes.specs.declared.game.ListedFault.TheVariants.{Sizes as NoSizes, Memory};

use items::laws::game_is_legal;
use items::{Game, Nums, Sizes};
use std::alloc::{AllocError, Global};
use std::marker::Model;
use thiserror::Error;

/// Why there is no game with listed sizes.
#[derive(Debug, Drop, Error)]
pub enum ListedFault {
    /// The list is empty, does not strictly ascend, or has a number that is no size of the game.
    #[error("the list is no list of sizes of the game")]
    Sizes,
    /// Memory was refused.
    #[error("memory was refused")]
    Memory,
}

impl From<AllocError> for ListedFault {
    ghost from_gives = { λ _ fault. fault ≡ Memory };

    fn from(_error: AllocError) -> ListedFault {
        ListedFault::Memory
    }
}

/// A game whose items have these of its sizes alone: a list that is not empty, strictly ascends, and has numbers from 1
/// to the capacity.
#[derive(Drop)]
pub struct ListedGame {
    game: Game,
    // The sizes as a list, and the same as a set.
    list: Nums,
    sizes: Sizes,
}

impl Model for ListedGame {
    ghost use Rattle.std.specs.Prelude.{◌≡◌};
    ghost use Rattle.listed_sizes.specs.Games.{IsListedGame, ListedNumbers, listed};

    ghost Value = { ListedNumbers };

    ghost view = { λ a. listed a.game a.list };

    ghost invariant = { λ a. IsListedGame (listed a.game a.list) × (a.sizes ≡ a.list) };
}

impl ListedGame {
    /// The game with these sizes.
    ///
    /// # Errors
    ///
    /// The list is empty, does not strictly ascend, or has a number outside 1 to the capacity, which is seen first; or
    /// memory was refused.
    pub fn new(alloc: Global, game: &Game, sizes: &[u16]) -> Result<ListedGame, ListedFault>
        ensures ok { IfOk result (λ made. made ≡ listed game.now sizes.now) }
        ensures legal { IfOk result IsListedGame }
        ensures fault { IfErr result (λ fault. (fault ≡ NoSizes) ↔ (AreSizes game.now.capacity sizes.now → ⊥)) }
    {
        game_is_legal(game);
        let Some(set) = Sizes::from_slice(game, sizes) else {
            return Err(ListedFault::Sizes);
        };
        Ok(ListedGame {
            game: *game,
            list: Nums::from_slice(alloc, sizes)?,
            sizes: set,
        })
    }

    /// The game. Takes no memory.
    pub fn game(&self) -> Game
        ensures value { result ≡ self.now.game }
        ensures legal { IsListedGame self.now }
    {
        self.game
    }

    /// The sizes, ascending. Takes no memory.
    pub fn sizes(&self) -> &[u16]
        ensures value { result.now ≡ self.now.sizes }
    {
        self.list.as_slice()
    }

    // The sizes as a set.
    pub(crate) fn set(&self) -> &Sizes
        ensures value { result.now ≡ self.now.sizes }
        ensures legal { IsListedGame self.now }
    {
        &self.sizes
    }
}
