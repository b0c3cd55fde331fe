//! The words of a line, from left to right.

ghost use Rattle.std.specs.Prelude.{◌≡◌, ◌<◌, ◌≤◌, ◌==◌, ◌+◌, ◌↔◌, [], IsTrue, None, Some, false, drop, length};
ghost use Rattle.std.specs.Prelude.{slice_index, MatchBool, MatchOption, IfSome};
ghost use Rattle.strategy_text.specs.Words.{words_left, digits_after, number_of, after, number_at};
ghost use Rattle.strategy_text.specs.Words.{first_word};
ghost use Rattle.strategy_text.specs.Words.{has_space};

use std::marker::Model;

/// What is left of a line, read word by word: nothing after its last word. Each byte is read once.
#[derive(Drop)]
pub(crate) struct Words<'a> {
    line: &'a [u8],
    // Where the next word begins; past the line's end after its last word.
    at: usize,
}

impl<'a> Model for Words<'a> {
    ghost use Rattle.std.specs.Prelude.{ℕ, List};
    ghost use Rattle.strategy_text.specs.Words.{words_left, left_from};

    ghost Value = { List (List ℕ) };

    ghost view = { λ a. words_left (left_from a.at a.line.now) };
}

/// The value of the decimal digits that are the first word, and the word's length; None where it has another byte, or
/// its value is above a limit.
#[inline(always)]
fn digits(bytes: &[u8], high: u32) -> Option<(u32, usize)>
    ensures exact { MatchOption result
        (digits_after high 0 (first_word bytes.now) ≡ None)
        (λ x. (digits_after high 0 (first_word bytes.now) ≡ Some x.0) × (x.1 ≡ length (first_word bytes.now))) }
    ensures low { IfSome result (λ x. x.0 ≤ high) }
    ensures short { IfSome result (λ x. x.1 ≤ length bytes.now) }
{
    let mut value = 0;
    for (i, b) in bytes.iter().enumerate() {
        if !b.is_ascii_digit() {
            if *b == b' ' {
                return Some((value as u32, i));
            }
            return None;
        }
        value = 10 * value + u64::from(*b - b'0');
        if value > u64::from(high) {
            return None;
        }
    }
    Some((value as u32, bytes.len()))
}

/// The number up to a limit that the first word spells, in digits without a leading zero, and the word's length.
#[inline(always)]
fn first_number(bytes: &[u8], high: u32) -> Option<(u32, usize)>
    ensures exact { MatchOption result
        (number_of high (first_word bytes.now) ≡ None)
        (λ x. (number_of high (first_word bytes.now) ≡ Some x.0) × (x.1 ≡ length (first_word bytes.now))) }
    ensures low { IfSome result (λ x. x.0 ≤ high) }
    ensures short { IfSome result (λ x. x.1 ≤ length bytes.now) }
{
    let Some((n, end)) = digits(bytes, high) else {
        return None;
    };
    if end == 0 {
        return None;
    }
    if is_led_by_zero(bytes, end) {
        return None;
    }
    Some((n, end))
}

/// Whether a word of this length, with which the bytes begin, has a zero before other bytes.
#[inline(always)]
fn is_led_by_zero(bytes: &[u8], end: usize) -> bool
    requires { end ≤ length bytes.now }
    ensures { IsTrue result ↔ (1 < end) × (slice_index bytes.now 0 ≡ 48) }
{
    end > 1 && bytes[0] == b'0'
}

/// Whether the first word is this one.
#[inline(always)]
fn is_first(bytes: &[u8], word: &[u8]) -> bool
    requires { has_space word.now ≡ false }
    ensures exact { IsTrue result ↔ (first_word bytes.now ≡ word.now) }
{
    if bytes.len() < word.len() {
        return false;
    }
    for (i, b) in word.iter().enumerate() {
        if bytes[i] != *b {
            return false;
        }
    }
    is_word_end(bytes, word.len())
}

/// Whether a word ends at this place.
#[inline(always)]
fn is_word_end(bytes: &[u8], end: usize) -> bool
    requires { end ≤ length bytes.now }
    ensures exact { IsTrue result ↔ (first_word (drop end bytes.now) ≡ []) }
{
    if end == bytes.len() {
        return true;
    }
    bytes[end] == b' '
}

impl<'a> Words<'a> {
    /// The words of a line.
    #[inline(always)]
    pub(crate) fn new(line: &'a [u8]) -> Self
        ensures { result ≡ words_left (Some line.now) }
    {
        Words { line, at: 0 }
    }

    /// A copy of what is left, with the same words.
    #[inline(always)]
    pub(crate) fn copy(&self) -> Words<'a>
        ensures { result ≡ self.now }
    {
        Words {
            line: self.line,
            at: self.at,
        }
    }

    /// Whether no word is left.
    #[inline(always)]
    pub(crate) fn is_at_end(&self) -> bool
        ensures { result ≡ (length self.now == 0) }
    {
        self.at > self.line.len()
    }

    /// Takes the next word if it is this one.
    #[tactic(auto, unfolding(crate::specs::Words::after))]
    #[inline(always)]
    pub(crate) fn accept(&mut self, word: &[u8]) -> bool
        requires { has_space word.now ≡ false }
        ensures { MatchBool result
            (after word.now self.old ≡ Some self.new)
            ((after word.now self.old ≡ None) × (self.new ≡ self.old)) }
    {
        let (line, at) = (self.line, self.at);
        if at > line.len() {
            return false;
        }
        if !is_first(&line[at..], word) {
            return false;
        }
        self.at = at + word.len() + 1;
        true
    }

    /// Takes the next word if it is a number up to a limit.
    #[tactic(auto, unfolding(crate::specs::Words::number_at))]
    #[inline(always)]
    pub(crate) fn number(&mut self, high: u32) -> Option<u32>
        ensures read { MatchOption result
            ((number_at high self.old ≡ None) × (self.new ≡ self.old))
            (λ n. number_at high self.old ≡ Some (n, self.new)) }
        ensures low { IfSome result (λ n. n ≤ high) }
    {
        let (line, at) = (self.line, self.at);
        if at > line.len() {
            return None;
        }
        let Some((n, end)) = first_number(&line[at..], high) else {
            return None;
        };
        self.at = at + end + 1;
        Some(n)
    }

    /// Takes the next word if it is a number of 16 bits.
    #[inline(always)]
    pub(crate) fn size(&mut self) -> Option<u16>
        ensures { MatchOption result
            ((number_at 65535 self.old ≡ None) × (self.new ≡ self.old))
            (λ n. number_at 65535 self.old ≡ Some (n, self.new)) }
    {
        let n = self.number(u32::from(u16::MAX))?;
        Some(n as u16)
    }
}
