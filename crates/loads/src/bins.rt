//! Loads by bin number against loads without it.

ghost use Rattle.std.specs.Prelude.{◌≡◌, ◌≤◌, ◌<◌, ◌-◌, ◌/◌, ◌↔◌, IsTrue, All, Contains, MatchOption, length};
ghost use Rattle.items.specs.Multiset.{Same, count};
ghost use Rattle.loads.specs.Loads.{IsLowestBin};

use crate::sorted_loads::Loads;
use items::{Game, MOST_BINS};

/// The lowest number of a bin with this load, the bins being numbered from 0; None exactly where no bin has it.
pub fn bin_with(actual: &[u16], load: u16) -> Option<u8>
    requires { length actual.now ≤ MOST_BINS }
    ensures lowest { MatchOption result (¬ Contains actual.now load) (IsLowestBin actual.now load) }
{
    first_place(actual, load).map(|bin| bin as u8)
}

/// Whether the loads by bin number are these loads but for the numbers of the bins. Takes a time
/// that grows with the square of the number of bins.
pub fn same_up_to_renaming(actual: &[u16], loads: &Loads) -> bool
    ensures same { IsTrue result ↔ Same actual.now loads.now }
{
    let loads = loads.as_slice();
    if actual.len() != loads.len() {
        return false;
    }
    all_as_often(actual, actual, loads) && all_as_often(loads, actual, loads)
}

/// How many items of this size can come to a bin of this load that stays below the target.
pub fn most_on_load(game: &Game, size: u16, load: u16) -> u16
    requires below { load < game.now.target }
    requires size { 1 ≤ size }
    ensures value { result ≡ (game.now.target - 1 - load) / size }
    ensures small { result ≤ 239 }
{
    (game.t() - 1 - load) / size
}

// The first place that has this load.
pub(crate) fn first_place(loads: &[u16], load: u16) -> Option<usize>
    ensures { MatchOption result (¬ Contains loads.now load) (IsLowestBin loads.now load) }
{
    loads.iter().position(|held| *held == load)
}

// Whether each of these loads stands as often in the one list as in the other.
fn all_as_often(loads: &[u16], one: &[u16], other: &[u16]) -> bool
    ensures { IsTrue result ↔ All (λ load. count load one.now ≡ count load other.now) loads.now }
{
    loads
        .iter()
        .all(|load| times(one, *load) == times(other, *load))
}

// How often the load stands in the list.
fn times(loads: &[u16], load: u16) -> usize
    ensures { result ≡ count load loads.now }
{
    loads.iter().filter(|held| **held == load).count()
}
