//! The rules of the named players: the bin that each names for an item, by the loads by bin number.

ghost use Rattle.std.specs.Prelude.{◌≡◌, ◌≢◌, ◌<◌, ◌≤◌, ◌&&◌, ◌==◌, [], IfSome, filter, length, nat_lt, position};
ghost use Rattle.std.specs.Prelude.{unwrap_or};
ghost use Rattle.items.specs.Packable.{Packable};
ghost use Rattle.online_play.specs.Rules.{best_fit, first_fit, greatest, least, least_loaded, lowest_bin};
ghost use Rattle.online_play.specs.Replays.{answer_under, rule_of};

use items::Game;
use loads::Actual;

/// How a named player chooses.
#[derive(Clone, Copy)]
pub enum PlayerRule {
    FirstFit,
    BestFit,
    LeastLoaded,
}

// What a rule answers to a history: it is replayed from the first item on.
pub fn replay(rule: PlayerRule, game: &Game, history: &[u16]) -> u8
    requires some { history.now ≢ [] }
    requires packable { Packable game.now history.now }
    ensures { result ≡ answer_under (rule_of rule) game.now history.now }
{
    let mut actual = Actual::zero(game);
    let target = game.t();
    let last = history.len() - 1;
    for i in 0..last {
        let bin = choose(rule, target, actual.as_slice(), history[i]);
        actual.put(bin, history[i]);
    }
    choose(rule, target, actual.as_slice(), history[last])
}

// The bin that a rule names for an item.
fn choose(rule: PlayerRule, target: u16, loads: &[u16], size: u16) -> u8
    requires some { 0 < length loads.now }
    requires few { length loads.now ≤ 8 }
    ensures { result ≡ rule_of rule target loads.now size }
{
    match rule {
        PlayerRule::FirstFit => choose_first(target, loads, size),
        PlayerRule::BestFit => choose_best(target, loads, size),
        PlayerRule::LeastLoaded => choose_least(loads),
    }
}

fn choose_first(target: u16, loads: &[u16], size: u16) -> u8
    requires { length loads.now ≤ 8 }
    ensures { result ≡ first_fit target loads.now size }
{
    bin_or_first(first_below(loads, target.saturating_sub(size)))
}

fn choose_best(target: u16, loads: &[u16], size: u16) -> u8
    requires { length loads.now ≤ 8 }
    ensures { result ≡ best_fit target loads.now size }
{
    let limit = target.saturating_sub(size);
    bin_or_first(first_below_with(loads, limit, greatest_below(loads, limit)))
}

fn choose_least(loads: &[u16]) -> u8
    requires some { 0 < length loads.now }
    requires few { length loads.now ≤ 8 }
    ensures { result ≡ lowest_bin (λ load. load == least loads.now) loads.now }
{
    bin_or_first(first_with(loads, least_of(loads)))
}

// The place as a bin number, and bin 0 where there is none.
fn bin_or_first(place: Option<usize>) -> u8
    requires { IfSome place (λ bin. bin < 256) }
    ensures { result ≡ unwrap_or place 0 }
{
    match place {
        Some(bin) => bin as u8,
        None => 0,
    }
}

fn first_below(loads: &[u16], limit: u16) -> Option<usize>
    ensures { result ≡ position (λ load. nat_lt load limit) loads.now }
{
    loads.iter().position(|load| *load < limit)
}

fn first_below_with(loads: &[u16], limit: u16, wanted: u16) -> Option<usize>
    ensures { result ≡ position (λ load. nat_lt load limit && load == wanted) loads.now }
{
    loads
        .iter()
        .position(|load| *load < limit && *load == wanted)
}

fn first_with(loads: &[u16], wanted: u16) -> Option<usize>
    ensures { result ≡ position (λ load. load == wanted) loads.now }
{
    loads.iter().position(|load| *load == wanted)
}

fn greatest_below(loads: &[u16], limit: u16) -> u16
    ensures { result ≡ greatest (filter (λ load. nat_lt load limit) loads.now) }
{
    let mut most = 0;
    for load in loads {
        if *load < limit {
            most = most.max(*load);
        }
    }
    most
}

fn least_of(loads: &[u16]) -> u16
    requires { 0 < length loads.now }
    ensures { result ≡ least loads.now }
{
    let mut least = loads[0];
    for load in loads {
        least = least.min(*load);
    }
    least
}
