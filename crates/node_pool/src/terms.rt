//! What a node is judged by.

ghost use Rattle.std.specs.Prelude.{◌≡◌, All};
ghost use Rattle.items.specs.Multiset.{IsSize};
ghost use Rattle.node_pool.specs.Terms.{AreTerms, terms_of, whole_game};

use items::laws::game_is_legal;
use items::{Game, Sizes};
use std::marker::Model;
use strategy_text::Format;

/// What the nodes of a strategy are judged by: the format of its text, the game, and the sizes that items may have.
#[derive(Drop)]
pub struct Terms {
    format: Format,
    game: Game,
    sizes: Sizes,
}

impl Model for Terms {
    ghost use Rattle.node_pool.specs.Terms.{AreTerms, Terms, terms_of};

    ghost Value = { Terms };

    ghost view = { λ a. terms_of a.format a.game a.sizes };

    ghost invariant = { λ a. AreTerms (terms_of a.format a.game a.sizes) };
}

impl Terms {
    /// The whole game, with all its sizes. Takes no memory.
    pub fn of_game(format: Format, game: &Game) -> Terms
        ensures value { result ≡ whole_game format game.now }
    {
        game_is_legal(game);
        Terms {
            format,
            game: *game,
            sizes: Sizes::of_game(game),
        }
    }

    /// The game with these of its sizes. Takes no memory.
    pub fn of_sizes(format: Format, game: &Game, sizes: &Sizes) -> Terms
        requires sizes { All (IsSize game.now.capacity) sizes.now }
        ensures value { result ≡ terms_of format game.now sizes.now }
    {
        game_is_legal(game);
        Terms {
            format,
            game: *game,
            sizes: sizes.copy(),
        }
    }

    /// The format. Takes no memory.
    pub fn format(&self) -> Format
        ensures value { result ≡ self.now.format }
        ensures legal { AreTerms self.now }
    {
        self.format
    }

    /// The game. Takes no memory.
    pub fn game(&self) -> Game
        ensures value { result ≡ self.now.game }
        ensures legal { AreTerms self.now }
    {
        self.game
    }

    /// The sizes that items may have. Takes no memory.
    pub fn sizes(&self) -> &Sizes
        ensures value { result.now ≡ self.now.sizes }
        ensures legal { AreTerms self.now }
    {
        &self.sizes
    }
}
