//! Strategies at another target.

ghost use Rattle.std.specs.Prelude.{◌≡◌, ◌↔◌, ◌+◌, ◌≤◌, ◌<◌, ◌++◌, [], ◌∷◌, IfOk, IfSome, IsTrue, MatchResult, OnOk};
ghost use Rattle.std.specs.Prelude.{None, Some, if◌then◌else◌, length, map, slice_index};
ghost use Rattle.std.specs.List.{cons_option};
ghost use Rattle.items.specs.Game.{HasTarget};
ghost use Rattle.strategy_text.specs.Text.{side_of};
ghost use Rattle.adversary_graph.specs.Nodes.{placements_of};
ghost use Rattle.adversary_graph.specs.Play.{child_of};
ghost use Rattle.strategies.specs.AnyNode.{IsLegal};
ghost use Rattle.strategy_transfer.specs.Faults.{IsFaultOf};
ghost use Rattle.strategy_transfer.specs.Targets.{CanWeakenStrategy, IsWeaker};
ghost use Rattle.strategy_transfer.specs.Weakened.{all_over, is_over, kept_node, new_number, packing_for};
ghost use Rattle.strategy_transfer.specs.Weakened.{sending, stays, weakened_adversary, weakened_node, weakened_nodes};
ghost use Rattle.strategy_transfer.specs.Weakened.{weakened_pack, weakened_placement, weakened_step};
ghost use Rattle.strategy_transfer.specs.Weakened.{weakened_strategy};
ghost use Rattle.strategy_transfer.specs.Weakened.{with_target};
ghost use Rattle.strategy_transfer.specs.Weakening.{AreFew, AreLinked, CanWeakenNodes, IsNumbered, LeadsBelow};

use crate::copies::copied_nodes;
use crate::ends::{end_packing, packed_nodes};
use crate::fault::TransferFault;
use adversary_graph::{renumber_next, without_beyond};
use items::{Game, Nums};
use packing_witness::Packing;
use std::alloc::{AllocError, Global};
use strategy_text::{AdvNode, AdvNodes, Nodes, Placement, Placements, Step, Strategy, Then};

/// A legal strategy at another target, at which it is legal too: of the adversary at one that is not greater, of the
/// algorithm at one that is not smaller. The nodes of the algorithm stay as they are. Of the adversary's, those with a
/// load of at least the target are left out, and the play is over where a load reaches it. Packings and bursts stay; a
/// node that had no packing, and whose placements are now all over, gets one. The time is linear in the strategy, but
/// for these packings: each costs a copy of its end packing for each item taken out of that.
///
/// # Errors
///
/// `Game` where the target is outside these ranges, which is tested before memory is asked: for the adversary above
/// the capacity and up to its own, for the algorithm from its own up to twice the capacity. `Memory` where memory
/// runs out.
pub fn weaken(alloc: Global, strategy: &Strategy, t: u16) -> Result<Strategy, TransferFault>
    requires legal { IsLegal strategy.now }
    ensures exact { MatchResult result
        (λ made. CanWeakenStrategy t strategy.now × (made ≡ weakened_strategy t strategy.now))
        (IsFaultOf (CanWeakenStrategy t strategy.now)) }
    ensures legal { IfOk result IsLegal }
    ensures format { IfOk result (λ made. made.format ≡ strategy.now.format) }
    ensures game { IfOk result (λ made. made.game ≡ with_target t strategy.now.game) }
    ensures side { IfOk result (λ made. side_of made.nodes ≡ side_of strategy.now.nodes) }
{
    if !is_weaker(&strategy.game, &strategy.nodes, t) {
        return Err(TransferFault::Game);
    }
    Ok(Strategy {
        format: strategy.format,
        game: with_target(&strategy.game, t),
        nodes: weakened_nodes(alloc, &strategy.game, &strategy.nodes, t)?,
    })
}

// Whether nodes that are legal for a game serve this target too.
fn is_weaker(game: &Game, nodes: &Nodes, t: u16) -> bool
    ensures exact { IsTrue result ↔ IsWeaker game.now t nodes.now }
{
    match nodes {
        Nodes::Adversary(_) => game.g() < t && t <= game.t(),
        Nodes::Algorithm(_) => game.t() <= t && t <= 2 * game.g(),
    }
}

// The game with another target.
fn with_target(game: &Game, t: u16) -> Game
    requires { HasTarget game.now.capacity t }
    ensures { result ≡ with_target t game.now }
{
    match Game::new(game.m(), game.g(), t) {
        Ok(game) => game,
        Err(_) => unreachable!(),
    }
}

fn weakened_nodes(alloc: Global, game: &Game, nodes: &Nodes, t: u16) -> Result<Nodes, AllocError>
    requires can { CanWeakenNodes nodes.now }
    ensures { IfOk result (λ made. made ≡ weakened_nodes game.now t nodes.now) }
{
    match nodes {
        Nodes::Adversary(nodes) => Ok(Nodes::Adversary(of_adversary(
            alloc,
            game,
            nodes.as_slice(),
            t,
        )?)),
        Nodes::Algorithm(nodes) => Ok(Nodes::Algorithm(copied_nodes(alloc, nodes.as_slice())?)),
    }
}

fn of_adversary(
    alloc: Global,
    game: &Game,
    nodes: &[AdvNode],
    t: u16,
) -> Result<AdvNodes, AllocError>
    requires linked { AreLinked nodes.now }
    ensures { IfOk result (λ made. made ≡ weakened_adversary game.now t nodes.now) }
{
    let numbers = new_numbers(alloc, nodes, t)?;
    let packed = packed_nodes(alloc, nodes)?;
    let mut made = AdvNodes::new(alloc);
    for (number, node) in nodes.iter().enumerate() {
        let end = end_packing(nodes, packed.as_slice(), number);
        let kept = kept_node(game, t, numbers.as_slice(), end, node)?;
        push_some(&mut made, kept)?;
    }
    Ok(made)
}

// Puts a node at the end, if there is one.
fn push_some(nodes: &mut AdvNodes, node: Option<AdvNode>) -> Result<(), AllocError>
    ensures { OnOk result (nodes.new ≡ nodes.old ++ cons_option node []) }
{
    match node {
        Some(node) => nodes.push(node),
        None => Ok(()),
    }
}

// The new number of each node: how many before it stay.
fn new_numbers(alloc: Global, nodes: &[AdvNode], t: u16) -> Result<Vec<u32>, AllocError>
    requires linked { AreLinked nodes.now }
    ensures { IfOk result (λ made. IsNumbered t nodes.now (length nodes.now) made.items) }
{
    let mut numbers = Vec::new(alloc);
    let mut number = 0u32;
    for node in nodes {
        numbers.push(number)?;
        number = number_after(number, t, node);
    }
    Ok(numbers)
}

fn number_after(number: u32, t: u16, node: &AdvNode) -> u32
    requires { number < 4000000000 }
    ensures { result ≡ number + (if stays t node.now then 1 else 0) }
{
    if stays(t, node) { number + 1 } else { number }
}

// Whether each load is below the target.
fn stays(t: u16, node: &AdvNode) -> bool
    ensures { result ≡ stays t node.now }
{
    node.loads.as_slice().iter().all(|load| *load < t)
}

// What a node with this end packing becomes, if it stays.
fn kept_node(
    game: &Game,
    t: u16,
    numbers: &[u32],
    end: &Packing,
    node: &AdvNode,
) -> Result<Option<AdvNode>, AllocError>
    requires below { LeadsBelow (length numbers.now) (placements_of node.now.step) }
    requires few { AreFew end.now }
    ensures { IfOk result (λ made. made ≡ kept_node game.now t (slice_index numbers.now) (Some end.now) node.now) }
{
    if !stays(t, node) {
        return Ok(None);
    }
    Ok(Some(AdvNode {
        loads: node.loads.copy()?,
        items: node.items.copy()?,
        step: weakened_step(game, t, numbers, end, &node.items, &node.step)?,
    }))
}

fn weakened_step(
    game: &Game,
    t: u16,
    numbers: &[u32],
    end: &Packing,
    items: &Nums,
    step: &Step,
) -> Result<Step, AllocError>
    requires below { LeadsBelow (length numbers.now) (placements_of step.now) }
    requires few { AreFew end.now }
    ensures { IfOk result (λ made. made
        ≡ weakened_step game.now t (slice_index numbers.now) (Some end.now) items.now step.now) }
{
    match step {
        Step::Send {
            size,
            pack,
            placements,
        } => {
            let placements = weakened_placements(t, numbers, *size, placements)?;
            sending(game, end, items, *size, pack, placements)
        }
        Step::Burst { count, size, pack } => Ok(Step::Burst {
            count: *count,
            size: *size,
            pack: pack.copy()?,
        }),
    }
}

// An item with these placements, sent after these items by a node with this end packing.
fn sending(
    game: &Game,
    end: &Packing,
    items: &Nums,
    size: u16,
    pack: &Option<Packing>,
    placements: Placements,
) -> Result<Step, AllocError>
    requires few { AreFew end.now }
    ensures { IfOk result (λ made. made ≡ sending game.now (Some end.now) items.now size pack.now placements) }
{
    let pack = weakened_pack(game, end, items, size, pack, placements.as_slice())?;
    Ok(Step::Send {
        size,
        pack,
        placements,
    })
}

// A copy of the packing; where there is none and all placements are over, one that is made from the end packing.
fn weakened_pack(
    game: &Game,
    end: &Packing,
    items: &Nums,
    size: u16,
    pack: &Option<Packing>,
    placements: &[Placement],
) -> Result<Option<Packing>, AllocError>
    requires few { AreFew end.now }
    ensures { IfOk result (λ made. made
        ≡ weakened_pack game.now (Some end.now) (items.now ++ size ∷ []) placements.now pack.now) }
{
    match pack {
        Some(pack) => Ok(Some(pack.copy()?)),
        None => made_pack(game, end, items, size, placements),
    }
}

fn made_pack(
    game: &Game,
    end: &Packing,
    items: &Nums,
    size: u16,
    placements: &[Placement],
) -> Result<Option<Packing>, AllocError>
    requires few { AreFew end.now }
    ensures { IfOk result (λ made. made
        ≡ weakened_pack game.now (Some end.now) (items.now ++ size ∷ []) placements.now None) }
{
    if !all_over(placements) {
        return Ok(None);
    }
    let mut sent = items.copy()?;
    sent.push(size)?;
    Ok(Some(without_beyond(game, end, sent.as_slice())?))
}

// Whether all placements are over.
fn all_over(placements: &[Placement]) -> bool
    ensures { result ≡ all_over placements.now }
{
    placements.iter().all(|placement| is_over(placement.next))
}

fn is_over(next: Then) -> bool
    ensures { result ≡ is_over next }
{
    match next {
        Then::Over => true,
        Then::To(_) => false,
    }
}

fn weakened_placements(
    t: u16,
    numbers: &[u32],
    size: u16,
    placements: &Placements,
) -> Result<Placements, AllocError>
    requires below { LeadsBelow (length numbers.now) placements.now }
    ensures { IfOk result (λ made. made ≡ map (weakened_placement t (slice_index numbers.now) size) placements.now) }
{
    let mut made = Placements::new(placements.allocator());
    for placement in placements.as_slice() {
        made.push(weakened_placement(t, numbers, size, placement))?;
    }
    Ok(made)
}

fn weakened_placement(t: u16, numbers: &[u32], size: u16, placement: &Placement) -> Placement
    requires below { IfSome (child_of placement.now.next) (λ child. child < length numbers.now) }
    ensures { result ≡ weakened_placement t (slice_index numbers.now) size placement.now }
{
    let load = placement.load;
    if u32::from(t) <= u32::from(load) + u32::from(size) {
        return Placement {
            load,
            next: Then::Over,
        };
    }
    Placement {
        load,
        next: renumber_next(numbers, placement.next),
    }
}
