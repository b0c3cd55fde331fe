//! The line of the sizes that items may have.

ghost use Rattle.std.specs.Prelude.{◌≡◌, ◌≢◌, ◌==◌, ◌<◌, ◌↔◌, ℕ, List, All, IfOk, IsTrue, MatchOption, None, Some};
ghost use Rattle.std.specs.Prelude.{codes, decimal, length, map, slice_index};
ghost use Rattle.std.specs.List.{slice_split};
ghost use Rattle.strategy_text.specs.Spelling.{IsNumber};
ghost use Rattle.strategy_text.specs.Words.{digits_after, number_of};
ghost use Rattle.checker.specs.Listed.{SpellsSizes};

use items::Nums;
use std::alloc::{AllocError, Global};

/// The numbers of a line, without its line feed, that spells a list of sizes, each from 0 to 65,535.
pub(crate) fn parse_sizes(alloc: Global, line: &[u8]) -> Result<Option<Nums>, AllocError>
    ensures exact { IfOk result (λ found. MatchOption found
        ((sizes : List ℕ) → SpellsSizes line.now sizes → ⊥)
        (SpellsSizes line.now)) }
{
    let Some(list) = line.strip_prefix(b"sizes ".as_slice()) else {
        return Ok(None);
    };
    if is_dash(list) {
        return Ok(Some(Nums::new(alloc)));
    }
    let words = words_of(alloc, list)?;
    let found = numbers_of(alloc, &words)?;
    Ok(found)
}

// Whether a list is a dash, which stands for no numbers.
fn is_dash(list: &[u8]) -> bool
    ensures exact { IsTrue result ↔ (list.now ≡ codes "-") }
{
    list == b"-".as_slice()
}

// The words between spaces.
fn words_of(alloc: Global, line: &[u8]) -> Result<Vec<&[u8]>, AllocError>
    ensures { IfOk result (λ words. map (λ word. word.now) words.items ≡ slice_split (λ b. b == 32) line.now) }
{
    line.split(|b| *b == b' ').collect(alloc)
}

// The numbers that words spell.
fn numbers_of(alloc: Global, words: &Vec<&[u8]>) -> Result<Option<Nums>, AllocError>
    ensures { IfOk result (λ found. MatchOption found
        ((list : List ℕ) → All IsNumber list → map (λ word. word.now) words.now.items ≢ map decimal list)
        (λ list. (map (λ word. word.now) words.now.items ≡ map decimal list) × All IsNumber list)) }
{
    let mut list = Nums::new(alloc);
    for word in words {
        let Some(number) = number_of(word) else {
            return Ok(None);
        };
        list.push(number)?;
    }
    Ok(Some(list))
}

// The number from 0 to 65,535 that a word spells in decimal digits without a leading zero.
fn number_of(word: &[u8]) -> Option<u16>
    ensures exact { MatchOption result (number_of 65535 word.now ≡ None) (λ n. number_of 65535 word.now ≡ Some n) }
{
    if word.is_empty() {
        return None;
    }
    if is_led_by_zero(word) {
        return None;
    }
    digits(word)
}

// Whether a word has a zero before other bytes.
fn is_led_by_zero(word: &[u8]) -> bool
    ensures exact { IsTrue result ↔ (1 < length word.now) × (slice_index word.now 0 ≡ 48) }
{
    word.len() > 1 && word[0] == b'0'
}

// The number up to 65,535 that decimal digits spell.
#[tactic(auto, using(crate::proofs::SizesLemmas::digits_go_on, crate::proofs::SizesLemmas::digits_end, crate::proofs::SizesLemmas::digits_other, crate::proofs::SizesLemmas::digits_above))]
fn digits(word: &[u8]) -> Option<u16>
    ensures exact { MatchOption result
        (digits_after 65535 0 word.now ≡ None) (λ n. digits_after 65535 0 word.now ≡ Some n) }
{
    let mut value = 0u32;
    for b in word {
        if !b.is_ascii_digit() {
            return None;
        }
        value = 10 * value + u32::from(*b - b'0');
        if value > 65_535 {
            return None;
        }
    }
    Some(value as u16)
}
