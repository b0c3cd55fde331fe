//! Plays of the adversary's nodes against a player.

ghost use Rattle.std.specs.Prelude.{◌≡◌, ◌<◌, ◌≤◌, ◌+◌, ◌++◌, ◌∷◌, [], ℕ, List, Option, Some, None, OnOk, IfOk, length};
ghost use Rattle.std.specs.Prelude.{replicate};
ghost use Rattle.std.specs.List.{concat};
ghost use Rattle.std.specs.Option.{option_and_then, unwrap_or};
ghost use Rattle.packing_witness.specs.Edits.{without};
ghost use Rattle.items.specs.Multiset.{count};
ghost use Rattle.items.specs.Packable.{IsPacking, Packable};
ghost use Rattle.adversary_graph.specs.Nodes.{placements_of};
ghost use Rattle.adversary_graph.specs.Play.{IsLost, beyond, child_of, end_at, end_of, end_packing, first_child};
ghost use Rattle.adversary_graph.specs.Play.{load_hit, next_at, play, without_all};
ghost use Rattle.adversary_graph.specs.Pools.{IsRoot};
ghost use Rattle.adversary_graph.specs.Playing.{IsCourse, IsEnd, IsStep, ShowsEndPacking, StandsReady};
ghost use Rattle.adversary_graph.specs.Told.{play_of};

use crate::laws::pool_is_legal;
use crate::pool::{AdvJudged, AdvPool};
use crate::step::packing_of;
use items::laws::game_is_legal;
use items::{Game, Nums};
use loads::Actual;
use online_play::{Bins, Online, Transcript};
use packing_witness::Packing;
use std::alloc::{AllocError, Global};
use strategy_text::{Placement, Step, Then};

/// The play of a pool's nodes against a player, from the root of this number on. The player loses: the items can be
/// packed, as the packing shows, and one of the loads reaches the target. Asks the player and looks a node up once for
/// each item at most. A packing that is not the last node's own costs a copy of it for each item taken out.
pub fn refute<O: Online>(
    alloc: Global,
    pool: &AdvPool,
    root: u32,
    player: &O,
) -> Result<Transcript, AllocError>
    requires root { IsRoot pool.now.nodes root }
    ensures played { let answer = O.answer player.now pool.now.game in
        IfOk result (λ transcript. play pool.now.game pool.now.nodes root answer ≡ Some (play_of transcript)) }
    ensures lost { IfOk result (λ transcript. IsLost pool.now.game (play_of transcript)) }
{
    refute_by(alloc, pool.nodes(), root, player)
}

/// As [`refute`], for nodes without their positions.
pub fn refute_by<O: Online>(
    alloc: Global,
    pool: &AdvJudged,
    root: u32,
    player: &O,
) -> Result<Transcript, AllocError>
    requires root { IsRoot pool.now.nodes root }
    ensures played { let answer = O.answer player.now pool.now.game in
        IfOk result (λ transcript. play pool.now.game pool.now.nodes root answer ≡ Some (play_of transcript)) }
    ensures lost { IfOk result (λ transcript. IsLost pool.now.game (play_of transcript)) }
{
    pool_is_legal(pool);
    let mut course = Course::new(alloc, &pool.game());
    let end = play_on(pool, root, player, &mut course)?;
    let packing = packing_for(pool, end, course.items.as_slice())?;
    let loads = Nums::from_slice(alloc, course.actual.as_slice())?;
    Ok(Transcript {
        items: course.items,
        bins: course.bins,
        loads,
        packing,
    })
}

// A play so far.
#[derive(Drop)]
struct Course {
    items: Nums,
    bins: Bins,
    actual: Actual,
}

impl Course {
    fn new(alloc: Global, game: &Game) -> Course
        ensures items { result.items ≡ [] }
        ensures course { (answer : List ℕ → ℕ) → IsCourse game.now answer result }
    {
        Course {
            items: Nums::new(alloc),
            bins: Bins::new(alloc),
            actual: Actual::zero(game),
        }
    }

    // Sends an item, and gives the load of the bin that the player answers, before the item.
    fn send<O: Online>(&mut self, game: &Game, player: &O, size: u16) -> Result<u16, AllocError>
        requires course { IsCourse game.now (O.answer player.now game.now) self.old }
        requires packable { Packable game.now (self.old.items ++ size ∷ []) }
        ensures sent { OnOk result (self.new.items ≡ self.old.items ++ size ∷ []) }
        ensures course { OnOk result (IsCourse game.now (O.answer player.now game.now) self.new) }
        ensures load { let answer = O.answer player.now game.now in
            IfOk result (λ load. load ≡ load_hit game.now answer self.old.items size) }
    {
        game_is_legal(game);
        self.items.push(size)?;
        let bin = player.place(game, self.items.as_slice());
        self.bins.push(bin)?;
        let load = self.actual.as_slice()[usize::from(bin)];
        self.actual.put(bin, size);
        Ok(load)
    }

    // Sends an item several times.
    fn send_times<O: Online>(
        &mut self,
        game: &Game,
        player: &O,
        size: u16,
        times: u16,
    ) -> Result<(), AllocError>
        requires course { IsCourse game.now (O.answer player.now game.now) self.old }
        requires packable { Packable game.now (self.old.items ++ replicate times size) }
        ensures sent { OnOk result (self.new.items ≡ self.old.items ++ replicate times size) }
        ensures course { OnOk result (IsCourse game.now (O.answer player.now game.now) self.new) }
    {
        for _i in 0..times {
            let _load = self.send(game, player, size)?;
        }
        Ok(())
    }
}

// Plays from the root to the end, and gives the number of the node that sent the last item.
fn play_on<O: Online>(
    pool: &AdvJudged,
    root: u32,
    player: &O,
    course: &mut Course,
) -> Result<u32, AllocError>
    requires root { IsRoot pool.now.nodes root }
    requires none { course.old.items ≡ [] }
    requires course { IsCourse pool.now.game (O.answer player.now pool.now.game) course.old }
    ensures course { OnOk result (IsCourse pool.now.game (O.answer player.now pool.now.game) course.new) }
    ensures end { let answer = O.answer player.now pool.now.game in
        IfOk result (λ number. end_of pool.now.game answer pool.now.nodes (root + 1) root []
        ≡ Some (end_at course.new.items number)) }
{
    pool_is_legal(pool);
    let mut number = root;
    loop {
        match play_step(pool, number, player, course)? {
            Some(child) => number = child,
            None => return Ok(number),
        }
    }
}

// Sends what the node of this number sends, and gives the child at which the play goes on, if it does.
fn play_step<O: Online>(
    pool: &AdvJudged,
    number: u32,
    player: &O,
    course: &mut Course,
) -> Result<Option<u32>, AllocError>
    requires course { IsCourse pool.now.game (O.answer player.now pool.now.game) course.old }
    requires ready { let answer = O.answer player.now pool.now.game in
        StandsReady pool.now.game answer pool.now.nodes number course.old.items }
    ensures course { OnOk result (IsCourse pool.now.game (O.answer player.now pool.now.game) course.new) }
    ensures step { let answer = O.answer player.now pool.now.game in
        IfOk result (λ next. IsStep pool.now.game answer pool.now.nodes number course.old.items next course.new.items) }
{
    pool_is_legal(pool);
    let game = pool.game();
    match &pool.node(number).step {
        Step::Send {
            size,
            placements,
            ..
        } => {
            let load = course.send(&game, player, *size)?;
            Ok(child_at(load, placements.as_slice()))
        }
        Step::Burst { count, size, .. } => {
            course.send_times(&game, player, *size, *count)?;
            Ok(None)
        }
    }
}

// The child of the first placement of this load, if it has one.
fn child_at(load: u16, placements: &[Placement]) -> Option<u32>
    ensures { result ≡ option_and_then child_of (next_at load placements.now) }
{
    for placement in placements {
        if placement.load == load {
            return child_of(placement.next);
        }
    }
    None
}

fn child_of(next: Then) -> Option<u32>
    ensures { result ≡ child_of next }
{
    match next {
        Then::Over => None,
        Then::To(child) => Some(child),
    }
}

/// The packing of a play that ends at the node of this number, whose items are these in any order: the end packing of
/// the node without what that has beyond the items. It costs a copy of the packing for each item taken out.
pub fn packing_for(pool: &AdvJudged, number: u32, items: &[u16]) -> Result<Packing, AllocError>
    requires end { IsEnd pool.now number items.now }
    ensures made { IfOk result (λ packing.
        (bins : List (List ℕ)) × (end_packing pool.now.nodes (number + 1) number ≡ Some bins)
        × (packing ≡ without_all (beyond pool.now.game (concat bins) items.now) bins)) }
    ensures packed { IfOk result (λ packing. IsPacking pool.now.game packing items.now) }
{
    pool_is_legal(pool);
    let game = pool.game();
    let packing = without_beyond(&game, end_packing(pool, number), items)?;
    Ok(packing)
}

// The end packing of the node of this number.
fn end_packing(pool: &AdvJudged, number: u32) -> &Packing
    requires within { number < length pool.now.nodes }
    ensures { end_packing pool.now.nodes (number + 1) number ≡ Some result.now }
{
    packing_of(&pool.node(packed_node(pool, number)).step).unwrap()
}

// The node whose packing is the end packing of the node of this number.
fn packed_node(pool: &AdvJudged, number: u32) -> u32
    requires within { number < length pool.now.nodes }
    ensures { ShowsEndPacking pool.now.nodes number result }
{
    pool_is_legal(pool);
    let mut at = number;
    loop {
        let step = &pool.node(at).step;
        let Some(_shown) = packing_of(step) else {
            at = first_child(step).unwrap();
            continue;
        };
        return at;
    }
}

/// The child of the first placement of a step that has one. Takes no memory.
pub fn first_child(step: &Step) -> Option<u32>
    ensures { result ≡ first_child (placements_of step.now) }
{
    match step {
        Step::Send { placements, .. } => first_child_of(placements.as_slice()),
        Step::Burst { .. } => None,
    }
}

fn first_child_of(placements: &[Placement]) -> Option<u32>
    ensures { result ≡ first_child placements.now }
{
    for placement in placements {
        if let Then::To(child) = placement.next {
            return Some(child);
        }
    }
    None
}

/// The bins without what they have beyond the items: each item is taken out of the first bin that has one, in
/// ascending order. So a packing of the items and others becomes one of the items. Costs a copy of the bins for each
/// item taken out.
pub fn without_beyond(game: &Game, bins: &Packing, items: &[u16]) -> Result<Packing, AllocError>
    requires few { (x : ℕ) → count x (concat bins.now) ≤ 960 }
    ensures { IfOk result (λ packing. packing ≡ without_all (beyond game.now (concat bins.now) items.now) bins.now) }
{
    let mut packing = bins.copy()?;
    for i in 0..game.g() {
        let size = i + 1;
        let surplus = times_in_bins(bins.bins(), size).saturating_sub(times(items, size));
        packing = without_times(packing, size, surplus)?;
    }
    Ok(packing)
}

// The bins when an item is taken out so often.
fn without_times(bins: Packing, size: u16, number: usize) -> Result<Packing, AllocError>
    ensures { IfOk result (λ packing. packing ≡ without_all (replicate number size) bins) }
{
    let mut packing = bins;
    for _i in 0..number {
        packing = without_one(packing, size)?;
    }
    Ok(packing)
}

// The bins when an item is taken out of the first bin that has one.
fn without_one(bins: Packing, size: u16) -> Result<Packing, AllocError>
    ensures { IfOk result (λ packing. packing ≡ unwrap_or (without size bins) bins) }
{
    match bins.without(size)? {
        Some(rest) => Ok(rest),
        None => Ok(bins),
    }
}

// How often a size stands in the bins.
fn times_in_bins(bins: &[Nums], size: u16) -> usize
    requires { count size (concat bins.now) ≤ 960 }
    ensures { result ≡ count size (concat bins.now) }
{
    let mut total = 0usize;
    for bin in bins {
        total += times(bin.as_slice(), size);
    }
    total
}

// How often a size stands in a list.
fn times(list: &[u16], size: u16) -> usize
    ensures { result ≡ count size list.now }
{
    list.iter().filter(|item| **item == size).count()
}
