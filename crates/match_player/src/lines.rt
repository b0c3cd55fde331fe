//! The lines of a play and of answers, made whole in memory.

ghost use Rattle.std.specs.Prelude.{◌≡◌, ◌++◌, ◌∷◌, [], OnOk, IfOk, codes};
ghost use Rattle.match_player.specs.Lines.{game_words, run_lines, pack_line, play_text, answer_text};
ghost use Rattle.match_player.specs.Words.{words_of};
ghost use Rattle.strategy_text.specs.Text.{line_of, text_of_lines};

use crate::answered::Answered;
use crate::words::{put_bins, put_game, put_list, put_word};
use items::{Game, Nums};
use itoa::Integer;
use online_play::{Bins, Transcript};
use packing_witness::Packing;
use std::alloc::{AllocError, Global};
use strategy_text::Text;

/// The text of a play against the player of this name: the line `play NAME M G T`, the items in the order in
/// which they were sent, their bins, the loads by bin number, and the packing.
///
/// # Errors
///
/// Where memory runs out.
pub fn match_text(
    alloc: Global,
    name: &str,
    game: &Game,
    transcript: &Transcript,
) -> Result<Text, AllocError>
    ensures exact { IfOk result (λ text. text ≡ play_text name.now game.now transcript.now) }
{
    let mut text = Text::new(alloc);
    put_play_line(&mut text, name, game)?;
    put_run_lines(
        &mut text,
        &transcript.items,
        &transcript.bins,
        &transcript.loads,
    )?;
    put_pack_line(&mut text, &transcript.packing)?;
    Ok(text)
}

/// The text of an algorithm's answers: the line `answer M G T`, the items in the order in which they came,
/// their bins, and the loads by bin number.
///
/// # Errors
///
/// Where memory runs out.
pub fn answer_text(alloc: Global, game: &Game, answered: &Answered) -> Result<Text, AllocError>
    ensures exact { IfOk result (λ text. text ≡ answer_text game.now answered.now) }
{
    let mut text = Text::new(alloc);
    put_answer_line(&mut text, game)?;
    put_run_lines(&mut text, &answered.items, &answered.bins, &answered.loads)?;
    Ok(text)
}

/// Puts the line of a play's player and game.
fn put_play_line(text: &mut Text, name: &str, game: &Game) -> Result<(), AllocError>
    ensures { OnOk result (text.new ≡ text.old ++ line_of (codes "play" ∷ name.now ∷ game_words game.now) ++ 10 ∷ []) }
{
    text.push_all(b"play")?;
    put_word(text, name.as_bytes())?;
    put_game(text, game)?;
    text.push(b'\n')
}

/// Puts the line of the game of answers.
fn put_answer_line(text: &mut Text, game: &Game) -> Result<(), AllocError>
    ensures { OnOk result (text.new ≡ text.old ++ line_of (codes "answer" ∷ game_words game.now) ++ 10 ∷ []) }
{
    text.push_all(b"answer")?;
    put_game(text, game)?;
    text.push(b'\n')
}

/// Puts the line of a list after its label.
fn put_list_line<T: Integer>(text: &mut Text, label: &[u8], list: &[T]) -> Result<(), AllocError>
    ensures { OnOk result (text.new ≡ text.old ++ line_of (label.now ∷ words_of T.text list.now) ++ 10 ∷ []) }
{
    text.push_all(label)?;
    put_list(text, list)?;
    text.push(b'\n')
}

/// Puts the lines of items, their bins and the loads.
fn put_run_lines(text: &mut Text, items: &Nums, bins: &Bins, loads: &Nums) -> Result<(), AllocError>
    ensures { OnOk result (text.new ≡ text.old ++ text_of_lines (run_lines items.now bins.now loads.now)) }
{
    put_list_line(text, b"items", items.as_slice())?;
    put_list_line(text, b"bins", bins.as_slice())?;
    put_list_line(text, b"loads", loads.as_slice())
}

/// Puts the line of a packing.
fn put_pack_line(text: &mut Text, packing: &Packing) -> Result<(), AllocError>
    ensures { OnOk result (text.new ≡ text.old ++ pack_line packing.now ++ 10 ∷ []) }
{
    text.push_all(b"pack")?;
    put_bins(text, packing.bins())?;
    text.push(b'\n')
}
