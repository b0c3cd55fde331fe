//! The rows of a plane, and what an item does to them.

ghost use Rattle.std.specs.Prelude.{◌≡◌, ◌↔◌, ℕ, ◌+◌, ◌-◌, ◌*◌, ◌/◌, ◌%◌, ◌^◌, ◌<◌, ◌≤◌, ◌∷◌, ◌++◌, ◌⊎◌};
ghost use Rattle.std.specs.Prelude.{List, [], length, slice_index, sum, IfOk, OnOk, All, MatchOption};
ghost use Rattle.std.specs.Int.{bit_at};
ghost use Rattle.items.specs.Multiset.{IsSize};
ghost use Rattle.reach_planes.specs.Words.{IsSet};
ghost use Rattle.reach_planes.specs.Layout.{AreDigitSums, IsKept, IsPlaneOf, IsPutInBin, IsPutInFirst, digit_sum};
ghost use Rattle.reach_planes.specs.Layout.{digits_of, halves_of, held_total, row_of, rows_of, word_at};
ghost use Rattle.reach_planes.specs.Planes.{FitsInPlanes};

use crate::words::{Move, join};
use items::{Game, Nums};
use std::alloc::{AllocError, Global};

/// How many words a row has: one for the loads 0 to 63, and one for the loads from 64 on.
pub fn halves(game: &Game) -> usize
    ensures { result ≡ halves_of game.now }
{
    usize::from(game.g() / 64) + 1
}

/// How many rows a plane has.
pub fn rows(game: &Game) -> usize
    ensures { result ≡ rows_of game.now }
{
    (usize::from(game.g()) + 1).pow(u32::from(game.m()) - 2)
}

/// The sums of the digits of the rows, which are the loads of the bins but the first and the last.
pub fn digit_sums(alloc: Global, game: &Game) -> Result<Vec<u16>, AllocError>
    ensures { IfOk result (λ sums. AreDigitSums game.now sums.items) }
{
    let base = usize::from(game.g()) + 1;
    let mut sums = Vec::new(alloc);
    for row in 0..rows(game) {
        sums.push(digit_sum(row, base, game.m() - 2))?;
    }
    Ok(sums)
}

// The sum of so many digits of a number, from the least on.
fn digit_sum(number: usize, base: usize, places: u16) -> u16
    requires low { 1 ≤ base }
    requires high { base ≤ 121 }
    requires few { places ≤ 6 }
    ensures value { result ≡ digit_sum base places number }
    ensures most { result ≤ 120 * places }
{
    if places == 0 {
        return 0;
    }
    (number % base) as u16 + digit_sum(number / base, base, places - 1)
}

/// The number that digits spell in a base, the least digit first.
pub fn row_of(digits: &[u16], base: usize) -> usize
    requires few { length digits.now ≤ 6 }
    requires low { 1 ≤ base }
    requires high { base ≤ 121 }
    requires digits { All (λ digit. digit + 1 ≤ base) digits.now }
    ensures { result ≡ row_of base digits.now }
{
    let mut row = 0;
    for i in (0..digits.len()).rev() {
        row = row * base + usize::from(digits[i]);
    }
    row
}

/// Puts so many digits of a number at the end of a list, from the least on.
pub fn push_digits(
    list: &mut Nums,
    number: usize,
    base: usize,
    places: u16,
) -> Result<(), AllocError>
    requires low { 1 ≤ base }
    requires high { base ≤ 121 }
    ensures { OnOk result (list.new ≡ list.old ++ digits_of base places number) }
{
    if places == 0 {
        return Ok(());
    }
    list.push((number % base) as u16)?;
    push_digits(list, number / base, base, places - 1)
}

/// The bits that are set in any of so many words from a place on.
pub fn any_of(words: &[u64], from: usize, count: usize) -> u64
    requires { from + count ≤ length words.now }
    ensures { (bit : ℕ) → (bit_at result bit ≡ 1) ↔ ((k : ℕ) × (k < count) × IsSet words.now (from + k) bit) }
{
    let mut all = 0u64;
    for k in 0..count {
        all |= words[from + k];
    }
    all
}

/// Which of so many words from a place on is the first that is not 0; None where all are.
pub fn first_set(words: &[u64], from: usize, count: usize) -> Option<usize>
    requires { from + count ≤ length words.now }
    ensures { MatchOption result
        ((k : ℕ) → k < count → slice_index words.now (from + k) ≡ 0)
        (λ found. (found < count) × (slice_index words.now (from + found) ≡ 0 → ⊥)) }
{
    for k in 0..count {
        if words[from + k] != 0 {
            return Some(k);
        }
    }
    None
}

/// Joins the plane with its bits moved to where the item has gone to each bin. Before, the words are
/// those of the plane; `lack` is what the loads of all bins but the last must reach, so that the last
/// load is within the capacity.
pub fn put_item(words: &mut [u64], source: &[u64], sums: &[u16], game: &Game, lack: u16, s: u16)
    requires same { words.old ≡ source.now }
    requires size { length source.now ≡ halves_of game.now * rows_of game.now }
    requires sums { AreDigitSums game.now sums.now }
    requires low { 1 ≤ s }
    requires high { s ≤ game.now.capacity }
    ensures { (items : List ℕ) → IsPlaneOf game.now items source.now
        → lack ≡ held_total (items ++ s ∷ []) - game.now.capacity
        → IsPlaneOf game.now (items ++ s ∷ []) words.new }
{
    let capacity = game.g();
    keep(words, sums, halves(game), lack);
    put_in_first(words, source, sums.len(), capacity, s);
    let base = usize::from(capacity) + 1;
    let mut stride = 1;
    for _place in 0..game.m() - 2 {
        put_in_bin(words, source, stride, base, usize::from(s));
        stride *= base;
    }
}

// Takes out the bits whose loads sum to less than `lack`.
fn keep(words: &mut [u64], sums: &[u16], halves: usize, lack: u16)
    requires size { length words.old ≡ halves * length sums.now }
    requires few { halves ≤ 2 }
    ensures { IsKept halves lack sums.now words.old words.new }
{
    for half in 0..halves {
        keep_half(
            words,
            half * sums.len(),
            sums,
            lack.saturating_sub(64 * half as u16),
        );
    }
}

// Takes out the bits whose loads sum to less than `lack`, in the words of one half from a place on.
fn keep_half(words: &mut [u64], from: usize, sums: &[u16], lack: u16)
    requires { from + length sums.now ≤ length words.old }
    ensures kept { (row bit : ℕ) → row < length sums.now → bit < 64
        → IsSet words.new (from + row) bit
        ↔ (IsSet words.old (from + row) bit × (lack ≤ bit + slice_index sums.now row)) }
    ensures others { (i : ℕ) → (i < from) ⊎ (from + length sums.now ≤ i)
        → slice_index words.new i ≡ slice_index words.old i }
{
    for (row, sum) in sums.iter().enumerate() {
        words[from + row] &= ones_from(lack.saturating_sub(*sum));
    }
}

// Joins the plane with its bits moved within their rows.
fn put_in_first(words: &mut [u64], source: &[u64], rows: usize, capacity: u16, s: u16)
    requires size { length words.old ≡ (capacity / 64 + 1) * rows }
    requires same { length source.now ≡ length words.old }
    requires of_game { capacity ≤ 120 }
    requires low { 1 ≤ s }
    requires high { s ≤ capacity }
    ensures { IsPutInFirst rows capacity s source.now words.old words.new }
{
    for half in 0..usize::from(capacity / 64) + 1 {
        put_in_half(words, source, rows, capacity, half, s);
    }
}

// Puts the source's bits in, each moved up by the size, in one half of the rows.
fn put_in_half(words: &mut [u64], source: &[u64], rows: usize, capacity: u16, half: usize, s: u16)
    requires size { length words.old ≡ (capacity / 64 + 1) * rows }
    requires same { length source.now ≡ length words.old }
    requires of_game { capacity ≤ 120 }
    requires in_plane { half ≤ capacity / 64 }
    ensures put { (row bit : ℕ) → row < rows → bit < 64
        → IsSet words.new (word_at rows half row) bit
        ↔ (IsSet words.old (word_at rows half row) bit
        ⊎ ((s ≤ 64 * half + bit) × (64 * half + bit ≤ capacity)
        × IsSet source.now (word_at rows ((64 * half + bit - s) / 64) row) ((64 * half + bit - s) % 64))) }
    ensures others { (i : ℕ) → (i < half * rows) ⊎ (half * rows + rows ≤ i)
        → slice_index words.new i ≡ slice_index words.old i }
{
    put_up(words, source, rows, capacity, half, s);
    put_down(words, source, rows, capacity, half, s);
}

// Puts in those bits that the size moves up within a word, or to the same bits of the other half.
fn put_up(words: &mut [u64], source: &[u64], rows: usize, capacity: u16, half: usize, s: u16)
    requires size { length words.old ≡ (capacity / 64 + 1) * rows }
    requires same { length source.now ≡ length words.old }
    requires of_game { capacity ≤ 120 }
    requires in_plane { half ≤ capacity / 64 }
    ensures put { (row bit : ℕ) → row < rows → bit < 64
        → IsSet words.new (word_at rows half row) bit
        ↔ (IsSet words.old (word_at rows half row) bit
        ⊎ ((s / 64 ≤ half) × (s % 64 ≤ bit) × (64 * half + bit ≤ capacity)
        × IsSet source.now (word_at rows (half - s / 64) row) (bit - s % 64))) }
    ensures others { (i : ℕ) → (i < half * rows) ⊎ (half * rows + rows ≤ i)
        → slice_index words.new i ≡ slice_index words.old i }
{
    let whole = usize::from(s / 64);
    if half < whole {
        return;
    }
    let mask = ones_up_to(capacity - 64 * half as u16);
    let by = Move {
        up: u32::from(s % 64),
        down: 0,
        mask,
    };
    join(words, half * rows, source, (half - whole) * rows, rows, by);
}

// Puts in those bits that the size moves up into the other half.
fn put_down(words: &mut [u64], source: &[u64], rows: usize, capacity: u16, half: usize, s: u16)
    requires size { length words.old ≡ (capacity / 64 + 1) * rows }
    requires same { length source.now ≡ length words.old }
    requires of_game { capacity ≤ 120 }
    requires in_plane { half ≤ capacity / 64 }
    ensures put { (row bit : ℕ) → row < rows → bit < 64
        → IsSet words.new (word_at rows half row) bit
        ↔ (IsSet words.old (word_at rows half row) bit
        ⊎ ((s / 64 < half) × (bit < s % 64) × (64 * half + bit ≤ capacity)
        × IsSet source.now (word_at rows (half - s / 64 - 1) row) (bit + 64 - s % 64))) }
    ensures others { (i : ℕ) → (i < half * rows) ⊎ (half * rows + rows ≤ i)
        → slice_index words.new i ≡ slice_index words.old i }
{
    let whole = usize::from(s / 64);
    if half <= whole || s % 64 == 0 {
        return;
    }
    let kept = ones_up_to(capacity - 64 * half as u16);
    let by = Move {
        up: 0,
        down: 64 - u32::from(s % 64),
        mask: kept,
    };
    join(
        words,
        half * rows,
        source,
        (half - whole - 1) * rows,
        rows,
        by,
    );
}

// Joins the rows of the plane moved at one digit.
fn put_in_bin(words: &mut [u64], source: &[u64], stride: usize, base: usize, s: usize)
    requires same { length source.now ≡ length words.old }
    requires digit { s < base }
    requires some { 1 ≤ stride }
    requires within { base * stride ≤ length words.old }
    requires whole { length words.old % (base * stride) ≡ 0 }
    ensures { IsPutInBin stride base s source.now words.old words.new }
{
    let block = base * stride;
    let by = Move {
        up: 0,
        down: 0,
        mask: u64::MAX,
    };
    for i in 0..words.len() / block {
        join(
            words,
            i * block + s * stride,
            source,
            i * block,
            block - s * stride,
            by,
        );
    }
}

// The ones of a word from a bit on.
fn ones_from(bit: u16) -> u64
    ensures { (i : ℕ) → i < 64 → (bit_at result i ≡ 1) ↔ (bit ≤ i) }
{
    if bit < 64 { u64::MAX << bit } else { 0 }
}

// The ones of a word up to a bit.
fn ones_up_to(bit: u16) -> u64
    ensures { (i : ℕ) → i < 64 → (bit_at result i ≡ 1) ↔ (i ≤ bit) }
{
    if bit < 63 {
        (1 << (bit + 1)) - 1
    } else {
        u64::MAX
    }
}
