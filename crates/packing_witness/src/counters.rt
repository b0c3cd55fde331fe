//! Counters of what is left of a multiset of items while bins are taken out of it.

ghost use Rattle.std.specs.Prelude.{◌≡◌, ◌↔◌, ℕ, ◌+◌, ◌*◌, ◌≤◌, ◌++◌, slice_index, All, IsTrue, length, replicate, sum};
ghost use Rattle.std.specs.Bool.{OnTrue, OnFalse};
ghost use Rattle.items.specs.Multiset.{IsSize, count};
ghost use Rattle.packing_witness.specs.Counters.{TakesOut, CannotTakeOut, Empties};

use items::{Items, MOST_SIZE, MOST_VOLUME, Nums};

/// A counter for each size, and one for 0.
pub const COUNTERS: usize = MOST_SIZE as usize + 1;

/// Takes a bin's items out of what is left. False where the bin sums to more than `most`, or has an
/// item that is not left.
pub fn take_bin(left: &mut [u16; COUNTERS], bin: &[u16], most: u16) -> bool
    requires { most ≤ MOST_SIZE }
    ensures taken { OnTrue result (TakesOut most left.old left.new bin.now) }
    ensures refused { OnFalse result (CannotTakeOut most left.old bin.now) }
{
    let mut total = 0u16;
    for item in bin {
        if *item > most || left[*item as usize] == 0 {
            return false;
        }
        total += *item;
        if total > most {
            return false;
        }
        left[*item as usize] -= 1;
    }
    true
}

/// The counters of a multiset of items.
pub fn counters_of(items: &Items) -> [u16; COUNTERS]
    ensures value { (size : ℕ) → slice_index result size ≡ count size items.now }
{
    let mut counters = [0; COUNTERS];
    for size in 1..COUNTERS {
        counters[size] = items.count_of(size as u16);
    }
    counters
}

/// Whether bins of at most `most` each take out all that is left, and no more.
pub fn empties(left: &mut [u16; COUNTERS], bins: &[Nums], most: u16) -> bool
    requires { most ≤ MOST_SIZE }
    ensures exact { IsTrue result ↔ Empties most left.old bins.now }
{
    for bin in bins {
        if !take_bin(left, bin.as_slice(), most) {
            return false;
        }
    }
    all_zero(left)
}

fn all_zero(counters: &[u16]) -> bool
    requires { length counters.now ≤ COUNTERS }
    ensures { IsTrue result ↔ All (λ n. n ≡ 0) counters.now }
{
    total(counters) == 0
}

fn total(counters: &[u16]) -> u32
    requires { length counters.now ≤ COUNTERS }
    ensures { result ≡ sum counters.now }
{
    counters.iter().map(|n| u32::from(*n)).sum()
}

/// The counters of a list of items and `n` more of size `s`.
pub fn counters_with(items: &[u16], s: u16, n: u16) -> [u16; COUNTERS]
    requires items { All (IsSize MOST_SIZE) items.now }
    requires size { IsSize MOST_SIZE s }
    requires fits { sum items.now + n * s ≤ MOST_VOLUME }
    ensures value { (size : ℕ) → slice_index result size ≡ count size (items.now ++ replicate n s) }
{
    let mut counters = [0; COUNTERS];
    for item in items {
        counters[*item as usize] += 1;
    }
    counters[s as usize] += n;
    counters
}
