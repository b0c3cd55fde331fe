//! The finish rule and the order that is kept from a finish on.

ghost use Rattle.std.specs.Prelude.{◌≡◌, ◌+◌, ◌*◌, ◌<◌, ◌≤◌, ◌↔◌, IsTrue, All, Contains, length, take, max, sum_by};
ghost use Rattle.loads.specs.Loads.{IsLoads, loads_after};
ghost use Rattle.good_situations.specs.Finish.{Finishes, raised_total};
ghost use Rattle.good_situations.specs.KeptOrder.{kept_order, finish_bin, CanAdd};

use crate::kept_order::BinOrder;
use items::Game;
use items::laws::game_is_legal;
use loads::Loads;
use std::marker::Model;

/// Whether the loads finish. All loads but the last, each counted as at least `t - g`, and `t - 1` then add up to at
/// least `m * g`. From such loads the order that `Finish` keeps holds every load below the target, whatever packable
/// items come. The rule is this project's.
pub fn finishes(game: &Game, loads: &Loads) -> bool
    ensures exact { IsTrue result ↔ Finishes game.now loads.now }
{
    let filled = first_loads(loads.as_slice(), usize::from(game.m()) - 1);
    let covered = raised_total(filled, game.t() - game.g()) + u32::from(game.t() - 1);
    u32::from(game.m() * game.g()) <= covered
}

/// Whether the loads finish after an item of size `s` went to a bin of this load. Where that is not the least load, it
/// is told from the total alone.
pub fn finishes_after(game: &Game, loads: &Loads, load: u16, s: u16) -> bool
    requires of_game { IsLoads game.now loads.now }
    requires has_load { Contains loads.now load }
    requires below_target { load + s < game.now.target }
    ensures exact { IsTrue result ↔ Finishes game.now (loads_after loads.now load s) }
{
    game_is_legal(game);
    let all = loads.as_slice();
    let least = all[all.len() - 1];
    if load == least {
        return finishes(game, &loads.place(game, load, s).unwrap());
    }
    let floor = game.t() - game.g();
    let total = raised_total(all, floor);
    let due = u32::from(game.m() * game.g())
        + u32::from(load.max(floor))
        + u32::from(least.max(floor));
    due <= total + u32::from((load + s).max(floor)) + u32::from(game.t() - 1)
}

/// The order of the bins that is made where a position finishes and kept to the end of the play. Takes no memory.
#[derive(Drop)]
pub struct Finish {
    game: Game,
    order: BinOrder,
}

impl Model for Finish {
    ghost use Rattle.good_situations.specs.KeptOrder.{FinishOrder, IsOrderOf};

    ghost Value = { FinishOrder };

    ghost view = { λ a. record { game = a.game; order = a.order } };

    ghost invariant = { λ a. IsOrderOf a.game.bins a.order };
}

impl Finish {
    /// The order at these loads by bin number: by load downwards and then by bin number.
    pub fn begin(game: &Game, actual: &[u16]) -> Finish
        requires { length actual.now ≡ game.now.bins }
        ensures game { result.game ≡ game.now }
        ensures order { result.order ≡ kept_order game.now actual.now 0 }
    {
        Finish {
            game: *game,
            order: BinOrder::begin(game, actual, 0),
        }
    }

    /// The bin of an item of size `s` at these loads by bin number: of all bins but the last in the order, the first
    /// whose load with the item stays below the target, or else the last one. Each load with `s` is at most 65,535.
    pub fn bin(&self, actual: &[u16], s: u16) -> u8
        requires one_each { length actual.now ≡ self.now.game.bins }
        requires fits { CanAdd actual.now s }
        ensures bin { result ≡ finish_bin self.now.game self.now.order actual.now s }
        ensures in_range { result < self.now.game.bins }
    {
        self.order.first_below(&self.game, actual, s)
    }
}

// The first loads, so many, or all where there are fewer.
pub(crate) fn first_loads(loads: &[u16], number: usize) -> &[u16]
    ensures { result.now ≡ take number loads.now }
{
    &loads[..number.min(loads.len())]
}

// The total of loads, each counted as at least the floor.
pub(crate) fn raised_total(loads: &[u16], floor: u16) -> u32
    requires { length loads.now ≤ 8 }
    ensures value { result ≡ raised_total floor loads.now }
    ensures small { result ≤ 8 * 65535 }
{
    loads.iter().map(|load| u32::from((*load).max(floor))).sum()
}
