//! Words at the end of a text, each after a space.

ghost use Rattle.std.specs.Prelude.{◌≡◌, ◌++◌, ◌∷◌, [], OnOk, codes};
ghost use Rattle.std.specs.List.{flat_map};
ghost use Rattle.match_player.specs.Lines.{game_words};
ghost use Rattle.match_player.specs.Words.{words_of};
ghost use Rattle.strategy_text.specs.Text.{list_words, pack_words};
ghost use Rattle.strategy_text.specs.Writing.{spaced};

use items::{Game, Nums};
use itoa::Integer;
use std::alloc::AllocError;
use strategy_text::Text;

/// Puts a word.
pub(crate) fn put_word(text: &mut Text, word: &[u8]) -> Result<(), AllocError>
    ensures { OnOk result (text.new ≡ text.old ++ spaced (word.now ∷ [])) }
{
    text.push(b' ')?;
    text.push_all(word)
}

/// Puts a number in decimal digits.
fn put_number<T: Integer>(text: &mut Text, number: T) -> Result<(), AllocError>
    ensures { OnOk result (text.new ≡ text.old ++ spaced (T.text number ∷ [])) }
{
    put_word(text, itoa::Buffer::new().format(number).as_bytes())
}

/// Puts the numbers of a game.
pub(crate) fn put_game(text: &mut Text, game: &Game) -> Result<(), AllocError>
    ensures { OnOk result (text.new ≡ text.old ++ spaced (game_words game.now)) }
{
    put_number(text, game.m())?;
    put_number(text, game.g())?;
    put_number(text, game.t())
}

/// Puts each number.
fn put_numbers<T: Integer>(text: &mut Text, list: &[T]) -> Result<(), AllocError>
    ensures { OnOk result (text.new ≡ text.old ++ spaced (flat_map (λ n. T.text n ∷ []) list.now)) }
{
    for number in list {
        put_number(text, *number)?;
    }
    Ok(())
}

/// Puts the numbers of a list at the end of a text, each after a space, or a dash where there are none.
#[tactic(auto, using(crate::proofs::WordLemmas::some_words))]
pub fn put_list<T: Integer>(text: &mut Text, list: &[T]) -> Result<(), AllocError>
    ensures { OnOk result (text.new ≡ text.old ++ spaced (words_of T.text list.now)) }
{
    if list.is_empty() {
        return put_word(text, b"-");
    }
    put_numbers(text, list)
}

/// Puts a list of a packing after a slash.
#[tactic(auto, using(crate::proofs::WordLemmas::same_words))]
fn put_next_bin(text: &mut Text, bin: &Nums) -> Result<(), AllocError>
    ensures { OnOk result (text.new ≡ text.old ++ spaced (codes "/" ∷ list_words bin.now)) }
{
    put_word(text, b"/")?;
    put_list(text, bin.as_slice())
}

/// Puts the lists of a packing, each after a slash.
fn put_next_bins(text: &mut Text, bins: &[Nums]) -> Result<(), AllocError>
    ensures { OnOk result (text.new ≡ text.old ++ spaced (flat_map (λ bin. codes "/" ∷ list_words bin) bins.now)) }
{
    for bin in bins {
        put_next_bin(text, bin)?;
    }
    Ok(())
}

/// Puts the lists of a packing, with a slash between two.
pub(crate) fn put_bins(text: &mut Text, bins: &[Nums]) -> Result<(), AllocError>
    ensures { OnOk result (text.new ≡ text.old ++ spaced (pack_words bins.now)) }
{
    match bins {
        [] => Ok(()),
        [first, others @ ..] => {
            put_list(text, first.as_slice())?;
            put_next_bins(text, others)
        }
    }
}
