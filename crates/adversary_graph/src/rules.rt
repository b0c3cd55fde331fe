//! The rules of an adversary's node.

ghost use Rattle.std.specs.Prelude.{◌≡◌, ◌<◌, ◌↔◌, ◌+◌, ◌-◌, ◌/◌, ◌*◌, ◌≤◌, ◌∷◌, [], ◌++◌, All, IsTrue, MatchOption};
ghost use Rattle.std.specs.Prelude.{Contains, Some, length, sum, map};
ghost use Rattle.items.specs.Multiset.{sizes_of, IsSize, IsMultiset};
ghost use Rattle.items.specs.Packable.{IsPacking};
ghost use Rattle.loads.specs.After.{after};
ghost use Rattle.loads.specs.Descending.{distinct};
ghost use Rattle.loads.specs.Loads.{IsLoads};
ghost use Rattle.loads.specs.Position.{AreItemsOf, IsEmptyPosition, position};
ghost use Rattle.strategy_text.specs.Rules.{AllMet, IsFirstBroken};
ghost use Rattle.adversary_graph.specs.Nodes.{sent_size, sent_items, placements_of, IsOfFormat};
ghost use Rattle.adversary_graph.specs.Rules.{MeetsRules, Breaks, Meets, rules_past_items, most_below_target};
ghost use Rattle.adversary_graph.specs.Rules.{IsLongEnough, IsPacked, PlacesEachLoad, IsOverAtTarget};
ghost use Rattle.adversary_graph.specs.Judging.{node_at, BreaksPastItems, LeadsOn};

use crate::step::{is_packing_asked, packing_of, sent_number, sent_size};
use items::laws::game_is_legal;
use items::{Game, MOST_SIZE, MOST_VOLUME};
use loads::{EarlierPositions, Loads, are_items_of, most_on_load};
use node_pool::Terms;
use packing_witness::Packing;
use strategy_text::{AdvNode, Format, Placement, Rule, Step, Then};

/// The first rule that the node breaks under these terms as the node that follows the earlier ones; None exactly where
/// it breaks none. The rule `root` is judged only where the node is the last one. Takes no memory; the cost is linear
/// in the node.
pub fn judge<E: EarlierPositions>(
    terms: &Terms,
    earlier: &E,
    last: bool,
    node: &AdvNode,
) -> Option<Rule>
    requires form { IsOfFormat terms.now.format node.now.step }
    ensures exact { let terms = terms.now in MatchOption result
        (MeetsRules terms.format terms.game terms.sizes (E.positions earlier.now) last node.now)
        (Breaks terms.format terms.game terms.sizes (E.positions earlier.now) last node.now) }
{
    let loads = node.loads.as_slice();
    let Some(loads) = Loads::from_slice(node.loads.allocator(), &terms.game(), loads) else {
        return Some(Rule::Loads);
    };
    let items = node.items.as_slice();
    if !are_items_of(terms.sizes(), &loads, items) {
        return Some(Rule::Items);
    }
    fault_past_items(terms, earlier, last, &loads, items, &node.step)
}

/// The first rule of the whole game that the node breaks as the node that follows the earlier ones; None exactly
/// where it breaks none. The rule `root` is judged only where the node is the last one. Takes no memory; the cost
/// is linear in the node.
pub fn node_fault<E: EarlierPositions>(
    game: &Game,
    format: Format,
    earlier: &E,
    last: bool,
    node: &AdvNode,
) -> Option<Rule>
    requires form { IsOfFormat format node.now.step }
    ensures exact { MatchOption result
        (MeetsRules format game.now (sizes_of game.now) (E.positions earlier.now) last node.now)
        (Breaks format game.now (sizes_of game.now) (E.positions earlier.now) last node.now) }
{
    judge(&Terms::of_game(format, game), earlier, last, node)
}

fn total_of(loads: &[u16]) -> u32
    requires { length loads.now ≤ 8 }
    ensures { result ≡ sum loads.now }
{
    loads.iter().map(|load| u32::from(*load)).sum()
}

// The first rule past `items` that a node breaks which takes this step at the position of these loads and items.
fn fault_past_items<E: EarlierPositions>(
    terms: &Terms,
    earlier: &E,
    last: bool,
    loads: &Loads,
    items: &[u16],
    step: &Step,
) -> Option<Rule>
    requires loads { IsLoads terms.now.game loads.now }
    requires items { AreItemsOf terms.now.sizes loads.now items.now }
    ensures exact { let node = node_at (position loads.now items.now) step.now in let terms = terms.now in
        MatchOption result
        (AllMet (Meets terms.format terms.game terms.sizes (E.positions earlier.now) last node) rules_past_items)
        (BreaksPastItems terms.format terms.game terms.sizes (E.positions earlier.now) last node) }
{
    let game = &terms.game();
    if !terms.sizes().contains(sent_size(step)) {
        return Some(Rule::Send);
    }
    if !is_long_enough(game, loads, step) {
        return Some(Rule::Burst);
    }
    if !is_packed(terms.format(), game, loads, items, step) {
        return Some(Rule::Pack);
    }
    if !places_each_load(loads, step) {
        return Some(Rule::Placements);
    }
    if !is_over_at_target(game, step) {
        return Some(Rule::Over);
    }
    if !leads_to_children(game, earlier, loads, items, step) {
        return Some(Rule::Child);
    }
    if last && !is_root(loads, items) {
        return Some(Rule::Root);
    }
    None
}

// Whether a burst has more items than can come without a load that reaches the target.
fn is_long_enough(game: &Game, loads: &Loads, step: &Step) -> bool
    requires loads { IsLoads game.now loads.now }
    requires size { 1 ≤ sent_size step.now }
    ensures { IsTrue result ↔ IsLongEnough game.now loads.now step.now }
{
    match step {
        Step::Send { .. } => true,
        Step::Burst { count, size, .. } => most_below_target(game, *size, loads) < *count,
    }
}

// How many items of this size can come without a load that reaches the target.
fn most_below_target(game: &Game, size: u16, loads: &Loads) -> u16
    requires loads { IsLoads game.now loads.now }
    requires size { 1 ≤ size }
    ensures { result ≡ most_below_target game.now size loads.now }
{
    let mut most = 0u16;
    for load in loads.as_slice() {
        most += most_on_load(game, size, *load);
    }
    most
}

// Whether a packing is shown exactly where it is asked for, and packs the items with all that the step sends.
fn is_packed(format: Format, game: &Game, loads: &Loads, items: &[u16], step: &Step) -> bool
    requires total { sum items.now ≡ sum loads.now }
    requires items { IsMultiset MOST_SIZE items.now }
    requires size { IsSize MOST_SIZE (sent_size step.now) }
    ensures { IsTrue result ↔ IsPacked game.now format (node_at (position loads.now items.now) step.now) }
{
    let asked = is_packing_asked(format, step);
    match packing_of(step) {
        Some(pack) => asked && packs(game, pack, loads, items, step),
        None => !asked,
    }
}

// Whether the bins are a packing of the items with all that the step sends.
fn packs(game: &Game, pack: &Packing, loads: &Loads, items: &[u16], step: &Step) -> bool
    requires total { sum items.now ≡ sum loads.now }
    requires items { IsMultiset MOST_SIZE items.now }
    requires size { IsSize MOST_SIZE (sent_size step.now) }
    ensures exact { IsTrue result ↔ IsPacking game.now pack.now (items.now ++ sent_items step.now) }
{
    game_is_legal(game);
    let size = sent_size(step);
    let number = sent_number(step);
    let total = total_of(loads.as_slice()) + total_sent(number, size);
    if total > u32::from(MOST_VOLUME) {
        return false;
    }
    pack.holds_list(game, items, size, number)
}

// The total of so many items of one size.
fn total_sent(number: u16, size: u16) -> u32
    ensures value { result ≡ number * size }
    ensures small { result ≤ 65535 * 65535 }
{
    u32::from(number) * u32::from(size)
}

// Whether the placements of a sending node have its different loads, descending.
fn places_each_load(loads: &Loads, step: &Step) -> bool
    ensures { IsTrue result ↔ PlacesEachLoad loads.now step.now }
{
    match step {
        Step::Send { placements, .. } => are_distinct_loads(loads, placements.as_slice()),
        Step::Burst { .. } => true,
    }
}

fn are_distinct_loads(loads: &Loads, placements: &[Placement]) -> bool
    ensures exact { IsTrue result ↔ (map (λ placement. placement.load) placements.now ≡ distinct loads.now) }
{
    if placements.len() != loads.distinct_count() {
        return false;
    }
    for (i, placement) in placements.iter().enumerate() {
        if placement.load != loads.distinct_at(i) {
            return false;
        }
    }
    true
}

// Whether each placement is over exactly where its load with the sent item reaches the target.
fn is_over_at_target(game: &Game, step: &Step) -> bool
    ensures { IsTrue result ↔ All (IsOverAtTarget game.now (sent_size step.now)) (placements_of step.now) }
{
    match step {
        Step::Send {
            size,
            placements,
            ..
        } => are_over_at_target(game, *size, placements.as_slice()),
        Step::Burst { .. } => true,
    }
}

fn are_over_at_target(game: &Game, size: u16, placements: &[Placement]) -> bool
    ensures exact { IsTrue result ↔ All (IsOverAtTarget game.now size) placements.now }
{
    placements
        .iter()
        .all(|placement| ends_at_target(game, size, placement))
}

fn ends_at_target(game: &Game, size: u16, placement: &Placement) -> bool
    ensures exact { IsTrue result ↔ IsOverAtTarget game.now size placement.now }
{
    let reached = u32::from(placement.load) + u32::from(size) >= u32::from(game.t());
    match placement.next {
        Then::Over => reached,
        Then::To(_) => !reached,
    }
}

// Whether each child is an earlier node at the position after the placement.
fn leads_to_children<E: EarlierPositions>(
    game: &Game,
    earlier: &E,
    loads: &Loads,
    items: &[u16],
    step: &Step,
) -> bool
    requires loads { IsLoads game.now loads.now }
    requires total { sum items.now ≡ sum loads.now }
    requires items { IsMultiset MOST_SIZE items.now }
    requires size { IsSize MOST_SIZE (sent_size step.now) }
    requires placed { PlacesEachLoad loads.now step.now }
    requires over { All (IsOverAtTarget game.now (sent_size step.now)) (placements_of step.now) }
    ensures { IsTrue result ↔ All (LeadsOn (E.positions earlier.now) (position loads.now items.now)
        (sent_size step.now)) (placements_of step.now) }
{
    match step {
        Step::Send {
            size,
            placements,
            ..
        } => lead_to_children(game, earlier, loads, items, *size, placements.as_slice()),
        Step::Burst { .. } => true,
    }
}

fn lead_to_children<E: EarlierPositions>(
    game: &Game,
    earlier: &E,
    loads: &Loads,
    items: &[u16],
    size: u16,
    placements: &[Placement],
) -> bool
    requires loads { IsLoads game.now loads.now }
    requires total { sum items.now ≡ sum loads.now }
    requires items { IsMultiset MOST_SIZE items.now }
    requires size { IsSize MOST_SIZE size }
    requires placed { map (λ placement. placement.load) placements.now ≡ distinct loads.now }
    requires over { All (IsOverAtTarget game.now size) placements.now }
    ensures exact { IsTrue result
        ↔ All (LeadsOn (E.positions earlier.now) (position loads.now items.now) size) placements.now }
{
    for placement in placements {
        if !leads_to_child(game, earlier, loads, items, size, placement) {
            return false;
        }
    }
    true
}

fn leads_to_child<E: EarlierPositions>(
    game: &Game,
    earlier: &E,
    loads: &Loads,
    items: &[u16],
    size: u16,
    placement: &Placement,
) -> bool
    requires loads { IsLoads game.now loads.now }
    requires total { sum items.now ≡ sum loads.now }
    requires items { IsMultiset MOST_SIZE items.now }
    requires size { IsSize MOST_SIZE size }
    requires placed { Contains loads.now placement.now.load }
    requires over { IsOverAtTarget game.now size placement.now }
    ensures exact { IsTrue result
        ↔ LeadsOn (E.positions earlier.now) (position loads.now items.now) size placement.now }
{
    let Then::To(child) = placement.next else {
        return true;
    };
    game_is_legal(game);
    earlier.is_after(child as usize, loads, items, placement.load, size)
}

// Whether all bins are empty and there are no items.
fn is_root(loads: &Loads, items: &[u16]) -> bool
    ensures exact { IsTrue result ↔ IsEmptyPosition (position loads.now items.now) }
{
    items.is_empty() && loads.as_slice().iter().all(|load| *load == 0)
}
