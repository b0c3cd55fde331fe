//! The different loads of a position, found once for all sizes that are tried there.

ghost use Rattle.std.specs.Prelude.{◌≡◌, ◌<◌, ◌≤◌, Contains, length, slice_index, take};
ghost use Rattle.loads.specs.Descending.{distinct};

use items::MOST_BINS;
use loads::{Loads, Position};

/// The different loads, from the greatest on, and numbers that mean nothing behind them.
pub(crate) fn distinct_loads(loads: &Loads) -> [u16; MOST_BINS as usize]
    ensures loads { take (length (distinct loads.now)) result ≡ distinct loads.now }
    ensures few { length (distinct loads.now) ≤ MOST_BINS }
{
    let _loads = loads.as_slice();
    let mut found = [0; MOST_BINS as usize];
    let count = loads.distinct_count();
    for i in 0..count {
        found[i] = loads.distinct_at(i);
    }
    found
}

/// How many different loads there are.
pub(crate) fn count_of(position: &Position, loads: &[u16]) -> usize
    requires of_loads { loads.now ≡ distinct position.now.loads }
    ensures value { result ≡ length (distinct position.now.loads) }
    ensures few { result ≤ MOST_BINS }
{
    let _loads = position.loads.as_slice();
    loads.len()
}

/// The i-th of the different loads.
pub(crate) fn load_at(position: &Position, loads: &[u16], i: usize) -> u16
    requires of_loads { loads.now ≡ distinct position.now.loads }
    requires within { i < length (distinct position.now.loads) }
    ensures value { result ≡ slice_index (distinct position.now.loads) i }
    ensures member { Contains position.now.loads result }
{
    loads[i]
}
