//! The commands, and the one that words spell.

ghost use Rattle.std.specs.Prelude.{◌≡◌, ◌↔◌, ◌∷◌, [], IfOk, IsTrue, MatchOption, map};
ghost use Rattle.stretch_bench.specs.Call.{Players};
ghost use Rattle.stretch_bench.specs.Commands.{Spells, SpellsNone, spelling_of};

use crate::answering::answer_of;
use crate::drilling::drill_of;
use crate::force_search::force_of;
use crate::playing::player_of;
use crate::scaling::scale_of;
use crate::searching::search_of;
use crate::valuing::value_of;
use crate::weakening::weaken_of;
use items::{Game, Nums};
use online_play::{Online, Player};
use std::alloc::{AllocError, Global};

/// A command of the program.
#[derive(Drop)]
pub enum Command {
    /// Reads a strategy and says whether it is legal.
    Check,
    /// Reads a strategy of the adversary and plays it against a player.
    Play {
        /// The place of the player in the list, counted from 0.
        player: usize,
    },
    /// Reads a strategy of the algorithm and tells its answers to a list of items.
    Answer {
        /// The sizes of the items, each from 1 to 65,535, in the order in which they come.
        items: Nums,
    },
    /// Reads a strategy and writes its canonical form.
    Minimise,
    /// Reads a strategy and writes its canonical form in format 2.
    Upgrade,
    /// Reads a strategy and says what it shows.
    Report,
    /// Makes a large legal strategy of two numbers, and says what its check and its canonical form come to.
    Drill {
        /// The number that seeds the choices.
        number: u64,
        /// How many copies of each node there are, from 1 to 200,000.
        copies: u32,
    },
    /// Searches a game for a strategy of the side that wins.
    Search {
        /// The game.
        game: Game,
        /// The most visits that it may make, from 1 to 4,000,000,000.
        budget: u32,
        /// The most entries that its table may have, from 1 to 4,000,000.
        table: u32,
    },
    /// Reads a strategy of the adversary, and lets it play against the answers that follow it line by line.
    Session,
    /// Reads a strategy of the adversary and writes it on another scale.
    Scale {
        /// What its capacity and its target are multiplied by, from 1 to 120.
        factor: u16,
    },
    /// Reads a strategy and writes its canonical form at another target.
    Weaken {
        /// The target, from 1 to 240.
        target: u16,
    },
    /// Searches for the value of a number of bins and a capacity, and for a strategy of each side that shows it.
    Value {
        /// How many bins there are, from 2 to 8.
        bins: u16,
        /// The capacity, from 1 to 120.
        capacity: u16,
        /// The most visits that the search of each target may make, from 1 to 4,000,000,000.
        budget: u32,
        /// The most entries that its table may have, from 1 to 4,000,000.
        table: u32,
    },
    /// Searches a game for a strategy of the adversary alone.
    Force {
        /// The game.
        game: Game,
        /// The first pass, from 0 to one less than the capacity.
        pass: u16,
        /// The most visits that it may make, from 1 to 4,000,000,000.
        budget: u32,
        /// The entries of its table, from 1 to 400,000,000.
        table: u32,
    },
}

/// The command that the words spell; None exactly where they spell none. A player is asked for by its name, and the
/// first one with that name is meant.
///
/// # Errors
///
/// Where memory is refused.
pub fn read_words(
    alloc: Global,
    words: &[String],
    players: &Vec<Player>,
) -> Result<Option<Command>, AllocError>
    ensures exact { let players : Players = record {
      names = map (λ player. player.name) players.now.items;
      answers = map (λ player. (⟦<dyn Online as Online>⟧ player.player.vtable).answer player.player.value)
          players.now.items;
    } in IfOk result (λ read. MatchOption read
        (SpellsNone players (spelling_of words.now))
        (Spells players (spelling_of words.now))) }
{
    if is_word(words, "check") {
        return Ok(Some(Command::Check));
    }
    if is_word(words, "minimise") {
        return Ok(Some(Command::Minimise));
    }
    if is_word(words, "upgrade") {
        return Ok(Some(Command::Upgrade));
    }
    if is_word(words, "report") {
        return Ok(Some(Command::Report));
    }
    if is_word(words, "session") {
        return Ok(Some(Command::Session));
    }
    if let Some(player) = player_of(words, players) {
        return Ok(Some(Command::Play { player }));
    }
    if let Some((number, copies)) = drill_of(words) {
        return Ok(Some(Command::Drill { number, copies }));
    }
    if let Some((game, budget, table)) = search_of(words) {
        return Ok(Some(Command::Search {
            game,
            budget,
            table,
        }));
    }
    if let Some(factor) = scale_of(words) {
        return Ok(Some(Command::Scale { factor }));
    }
    if let Some(target) = weaken_of(words) {
        return Ok(Some(Command::Weaken { target }));
    }
    if let Some((bins, capacity, budget, table)) = value_of(words) {
        return Ok(Some(Command::Value {
            bins,
            capacity,
            budget,
            table,
        }));
    }
    if let Some((game, pass, budget, table)) = force_of(words) {
        return Ok(Some(Command::Force {
            game,
            pass,
            budget,
            table,
        }));
    }
    match answer_of(alloc, words)? {
        Some(items) => Ok(Some(Command::Answer { items })),
        None => Ok(None),
    }
}

// Whether there is one word, and it is this one.
fn is_word(words: &[String], word: &str) -> bool
    ensures exact { IsTrue result ↔ (spelling_of words.now ≡ word.now ∷ []) }
{
    let [only] = words else {
        return false;
    };
    only.as_str() == word
}
