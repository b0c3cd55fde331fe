//! The lines of answers.

ghost use Rattle.std.specs.Prelude.{◌≡◌, ◌↔◌, ◌<◌, ◌≤◌, ℕ, IfOk, IsTrue, MatchOption, OnErr, length, slice_index};
ghost use Rattle.port_io.specs.Faults.{Rose};
ghost use Rattle.strategy_text.specs.Words.{digits_after, number_of};
ghost use Rattle.referee_session.specs.Answering.{IsNext, StopsAsking};
ghost use Rattle.referee_session.specs.Lines.{bin_line};

use port_io::{Failed, Line, LineReader, Source};

/// The number of the line `bin B`, without its line feed, from 0 to 65,535, in decimal digits without a leading zero.
/// None exactly for other lines. Takes no memory.
pub fn parse_bin(line: &[u8]) -> Option<u16>
    ensures exact { MatchOption result
        ((bin : ℕ) → bin ≤ 65535 → line.now ≡ bin_line bin → ⊥)
        (λ bin. (bin ≤ 65535) × (line.now ≡ bin_line bin)) }
{
    let Some(word) = line.strip_prefix(b"bin ".as_slice()) else {
        return None;
    };
    number(word)
}

// The number that a word spells in decimal digits without a leading zero.
fn number(word: &[u8]) -> Option<u16>
    ensures { result ≡ number_of 65535 word.now }
{
    if word.is_empty() {
        return None;
    }
    if is_led_by_zero(word) {
        return None;
    }
    digits(word)
}

// Whether a word has a zero before other bytes.
fn is_led_by_zero(word: &[u8]) -> bool
    ensures { IsTrue result ↔ (1 < length word.now) × (slice_index word.now 0 ≡ 48) }
{
    word.len() > 1 && word[0] == b'0'
}

// The value of decimal digits.
fn digits(word: &[u8]) -> Option<u16>
    ensures { result ≡ digits_after 65535 0 word.now }
{
    let mut value = 0u32;
    for b in word {
        if !b.is_ascii_digit() {
            return None;
        }
        value = 10 * value + u32::from(*b - b'0');
        if value > 65_535 {
            return None;
        }
    }
    Some(value as u16)
}

/// What comes next of the lines of answers.
pub(crate) enum Next {
    /// A bin of the game.
    Bin(u8),
    /// The end of the input.
    End,
    /// A line that is unfinished or too long.
    Cut,
    /// A line that answers no bin of the game.
    Other,
}

// The bin of the game that a line answers, if it does.
fn bin_of(line: &[u8], bins: u16) -> Option<u8>
    requires { bins ≤ 8 }
    ensures { MatchOption result
        ((bin : ℕ) → bin < bins → line.now ≡ bin_line bin → ⊥)
        (λ bin. (bin < bins) × (line.now ≡ bin_line bin)) }
{
    let bin = parse_bin(line)?;
    if bin < bins { Some(bin as u8) } else { None }
}

/// Reads the next line as an answer.
pub(crate) fn next_answer<S: Source>(
    lines: &mut LineReader,
    source: &mut S,
    bins: u16,
) -> Result<Next, Failed>
    requires { bins ≤ 8 }
    ensures count { S.faults source.old ≤ S.faults source.new }
    ensures failed { OnErr result (Rose (S.faults source.old) (S.faults source.new)) }
    ensures err { OnErr result (StopsAsking (record {
      bins = bins;
      reader = lines.old;
      new_reader = lines.new;
      left = S.left source.old;
      new_left = S.left source.new;
    })) }
    ensures ok { IfOk result (IsNext (record {
      bins = bins;
      reader = lines.old;
      new_reader = lines.new;
      left = S.left source.old;
      new_left = S.left source.new;
    })) }
{
    match lines.next_line(source)? {
        Line::Text => Ok(match bin_of(lines.text(), bins) {
            Some(bin) => Next::Bin(bin),
            None => Next::Other,
        }),
        Line::End => Ok(Next::End),
        Line::TooLong => Ok(Next::Cut),
        Line::Unfinished => Ok(Next::Cut),
    }
}
