//! The parts that the lines of both sides begin with: the node's number, its loads and its items.

ghost use Rattle.std.specs.Prelude.{◌≡◌, OnOk, false, MatchBool, Some, None, codes};
ghost use Rattle.strategy_text.specs.Words.{has_space};
ghost use Rattle.strategy_text.specs.Reading.{ReadsInto};
ghost use Rattle.strategy_text.specs.Reading.{numbers_at, list_at, numbered_at, labelled_at, position_at};

use crate::stop::LineStop;
use crate::words::Words;
use items::Nums;
use std::alloc::AllocError;

/// Puts the numbers up to the first word that is none into a list in place of what it holds.
#[inline(always)]
fn read_numbers(words: &mut Words, list: &mut Nums) -> Result<(), AllocError>
    ensures { OnOk result (numbers_at words.old ≡ (list.new, words.new)) }
{
    list.truncate(0);
    let mut left = words.copy();
    while let Some(number) = left.size() {
        list.push(number)?;
    }
    *words = left;
    Ok(())
}

/// Reads a list of numbers, a dash for none, else one or more numbers, into a list in place of what it holds.
#[tactic(auto, using(crate::proofs::Steps::some_again), unfolding(crate::specs::Reading::list_at))]
#[inline(always)]
pub(crate) fn read_list(words: &mut Words, list: &mut Nums) -> Result<(), LineStop>
    ensures { ReadsInto result list.new words.new (list_at words.old) }
{
    if words.accept(b"-") {
        list.truncate(0);
        return Ok(());
    }
    read_numbers(words, list)?;
    if list.is_empty() {
        return Err(LineStop::Form);
    }
    Ok(())
}

/// Whether the next word is this number.
#[tactic(auto, unfolding(crate::specs::Reading::numbered_at))]
#[inline(always)]
fn is_numbered(words: &mut Words, number: u32) -> bool
    ensures { MatchBool result
        (numbered_at number words.old ≡ Some words.new)
        (numbered_at number words.old ≡ None) }
{
    words.number(u32::MAX) == Some(number)
}

/// Reads a list after a word into a list in place of what it holds.
#[tactic(auto, unfolding(crate::specs::Reading::labelled_at))]
#[inline(always)]
fn read_labelled(words: &mut Words, label: &[u8], list: &mut Nums) -> Result<(), LineStop>
    requires { has_space label.now ≡ false }
    ensures { ReadsInto result list.new words.new (labelled_at label.now words.old) }
{
    if !words.accept(label) {
        return Err(LineStop::Form);
    }
    read_list(words, list)
}

/// Reads the loads and the items of the node of this number into lists in place of what they hold.
#[tactic(auto, unfolding(crate::specs::Reading::position_at))]
#[inline(always)]
pub(crate) fn read_position(
    words: &mut Words,
    number: u32,
    loads: &mut Nums,
    items: &mut Nums,
) -> Result<(), LineStop>
    ensures { ReadsInto result (loads.new, items.new) words.new (position_at number words.old) }
{
    if !is_numbered(words, number) {
        return Err(LineStop::Form);
    }
    read_labelled(words, b"loads", loads)?;
    read_labelled(words, b"items", items)?;
    Ok(())
}
