//! A strategy with listed sizes, and its text.

ghost use Rattle.std.specs.Prelude.{◌≡◌, ◌++◌, ◌∷◌, [], codes, IfOk, List, OnOk, string_bytes, ℕ};
ghost use Rattle.checker.specs.Listed.{sizes_line};
ghost use Rattle.listed_sizes.specs.Games.{IsLegalListed, text_of_listed};
ghost use Rattle.strategy_text.specs.Text.{game_line};

use items::{Game, Nums};
use match_player::put_list;
use std::alloc::{AllocError, Global};
use strategy_text::{Strategy, Text, text_of};

/// A strategy over listed sizes, of format 1.
#[derive(Drop)]
pub struct ListedStrategy {
    /// The sizes that items may have, ascending.
    pub sizes: Nums,
    /// The strategy.
    pub strategy: Strategy,
}

/// The text of a legal strategy with listed sizes. The memory is that of two such texts.
pub fn listed_text(alloc: Global, listed: &ListedStrategy) -> Result<Text, AllocError>
    requires legal { IsLegalListed listed.now }
    ensures text { IfOk result (λ text. text ≡ text_of_listed listed.now) }
{
    let game = game_words(alloc, &listed.strategy.game)?;
    let whole = text_of(alloc, &listed.strategy)?;
    let mut text = Text::new(alloc);
    text.push_all(b"listed 1\n")?;
    text.push_all(game.as_bytes())?;
    put_sizes(&mut text, listed.sizes.as_slice())?;
    text.push_all(after_game(&whole, game.as_str()))?;
    Ok(text)
}

// The line of a game.
fn game_words(alloc: Global, game: &Game) -> Result<String, AllocError>
    ensures { IfOk result (λ line. string_bytes line ≡ game_line game.now ++ 10 ∷ []) }
{
    let bins = game.m();
    let capacity = game.g();
    let target = game.t();
    format!(in alloc; "game {bins} {capacity} {target}\n")
}

// Puts the line of the sizes.
fn put_sizes(text: &mut Text, sizes: &[u16]) -> Result<(), AllocError>
    ensures { OnOk result (text.new ≡ text.old ++ (sizes_line sizes.now ++ 10 ∷ [])) }
{
    text.push_all(b"sizes")?;
    put_list(text, sizes)?;
    text.push(b'\n')
}

// What stands after the line of the game in the text of a strategy of format 1.
fn after_game<'a>(whole: &'a Text, game: &str) -> &'a [u8]
    requires { (rest : List ℕ) × (whole.now ≡ codes "stretch 1\n" ++ (game.now ++ rest)) }
    ensures { (rest : List ℕ) → whole.now ≡ codes "stretch 1\n" ++ (game.now ++ rest) → result.now ≡ rest }
{
    let from = 10 + game.len();
    &whole.as_slice()[from..]
}
