//! The numbers that words tell.

ghost use Rattle.std.specs.Prelude.{◌≡◌, ◌≢◌, ◌≤◌, ◌↔◌, ◌∷◌, [], ℕ, IsTrue, MatchOption, decimal};
ghost use Rattle.stretch_bench.specs.Commands.{spelling_of};

/// The number from `low` to `high` that a word spells in decimal digits without a leading zero.
pub(crate) fn number_of(word: &str, low: u64, high: u64) -> Option<u64>
    ensures exact { MatchOption result
        ((n : ℕ) → low ≤ n → n ≤ high → word.now ≢ decimal n)
        (λ n. (word.now ≡ decimal n) × (low ≤ n) × (n ≤ high)) }
{
    let Ok(number) = word.parse::<u64>() else {
        return None;
    };
    if !is_spelled(word, number) {
        return None;
    }
    if number < low {
        return None;
    }
    if number > high {
        return None;
    }
    Some(number)
}

// Whether a word is the decimal digits of a number. The standard library also reads a sign and leading zeros.
fn is_spelled(word: &str, number: u64) -> bool
    ensures exact { IsTrue result ↔ (word.now ≡ decimal number) }
{
    itoa::Buffer::new().format(number) == word
}

/// The number from 1 on that stands after a name, as the only word after it.
pub(crate) fn number_after(words: &[String], name: &str, high: u64) -> Option<u64>
    ensures exact { MatchOption result
        ((n : ℕ) → 1 ≤ n → n ≤ high → spelling_of words.now ≢ name.now ∷ decimal n ∷ [])
        (λ n. (spelling_of words.now ≡ name.now ∷ decimal n ∷ []) × (1 ≤ n) × (n ≤ high)) }
{
    let [first, number] = words else {
        return None;
    };
    if first.as_str() != name {
        return None;
    }
    number_of(number.as_str(), 1, high)
}
