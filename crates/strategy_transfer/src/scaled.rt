//! Strategies of the adversary on another scale.

ghost use Rattle.std.specs.Prelude.{◌≡◌, ◌*◌, ◌≤◌, All, IfOk, IfSome, MatchResult, map, option_map};
ghost use Rattle.items.specs.declared.limits.TheConstants.{MOST_NUMBER};
ghost use Rattle.packing_witness.specs.Edits.{CanScale, scaled};
ghost use Rattle.strategy_text.specs.Text.{side_of};
ghost use Rattle.adversary_graph.specs.Pools.{IsLegalOfAdversary};
ghost use Rattle.strategy_transfer.specs.Faults.{IsFaultOf};
ghost use Rattle.strategy_transfer.specs.Scaled.{scaled_game, scaled_node, scaled_nodes, scaled_placement};
ghost use Rattle.strategy_transfer.specs.Scaled.{scaled_step, scaled_strategy, times};
ghost use Rattle.strategy_transfer.specs.Scaling.{CanMultiply, CanScaleNode, CanScaleNodes, CanScalePlacement};
ghost use Rattle.strategy_transfer.specs.Scaling.{CanScaleStep};
ghost use Rattle.strategy_transfer.specs.Targets.{CanScaleStrategy};

use crate::fault::TransferFault;
use items::{Game, Nums};
use packing_witness::Packing;
use std::alloc::{AllocError, Global};
use strategy_text::{AdvNode, AdvNodes, Nodes, Placement, Placements, Step, Strategy};

/// A legal strategy of the adversary with every load, item, sent size and number of a packing times `c`, for the game
/// whose capacity and target are multiplied too. It is legal there. How many items bursts have, the references and the
/// format stay. The time is linear in the strategy.
///
/// # Errors
///
/// `Game` where the multiplied capacity is above 120, which is tested before memory is asked; `Memory` where memory
/// runs out.
pub fn scale(alloc: Global, strategy: &Strategy, c: u16) -> Result<Strategy, TransferFault>
    requires legal { IsLegalOfAdversary strategy.now }
    requires low { 1 ≤ c }
    requires high { c ≤ 120 }
    ensures exact { MatchResult result
        (λ made. CanScaleStrategy c strategy.now × (made ≡ scaled_strategy c strategy.now))
        (IsFaultOf (CanScaleStrategy c strategy.now)) }
    ensures legal { IfOk result IsLegalOfAdversary }
    ensures format { IfOk result (λ made. made.format ≡ strategy.now.format) }
    ensures game { IfOk result (λ made. made.game ≡ scaled_game c strategy.now.game) }
    ensures side { IfOk result (λ made. side_of made.nodes ≡ side_of strategy.now.nodes) }
{
    let game = &strategy.game;
    match Game::new(game.m(), game.g() * c, game.t() * c) {
        Ok(game) => Ok(Strategy {
            format: strategy.format,
            game,
            nodes: scaled_nodes(alloc, &strategy.nodes, c)?,
        }),
        Err(_) => Err(TransferFault::Game),
    }
}

fn scaled_nodes(alloc: Global, nodes: &Nodes, c: u16) -> Result<Nodes, AllocError>
    requires can { CanScaleNodes c nodes.now }
    ensures { IfOk result (λ made. made ≡ scaled_nodes c nodes.now) }
{
    match nodes {
        Nodes::Adversary(nodes) => Ok(Nodes::Adversary(of_adversary(alloc, nodes.as_slice(), c)?)),
        Nodes::Algorithm(_) => unreachable!(),
    }
}

fn of_adversary(alloc: Global, nodes: &[AdvNode], c: u16) -> Result<AdvNodes, AllocError>
    requires can { All (CanScaleNode c) nodes.now }
    ensures { IfOk result (λ made. made ≡ map (scaled_node c) nodes.now) }
{
    let mut made = AdvNodes::new(alloc);
    for node in nodes {
        made.push(scaled_node(node, c)?)?;
    }
    Ok(made)
}

fn scaled_node(node: &AdvNode, c: u16) -> Result<AdvNode, AllocError>
    requires can { CanScaleNode c node.now }
    ensures { IfOk result (λ made. made ≡ scaled_node c node.now) }
{
    Ok(AdvNode {
        loads: times(&node.loads, c)?,
        items: times(&node.items, c)?,
        step: scaled_step(&node.step, c)?,
    })
}

fn scaled_step(step: &Step, c: u16) -> Result<Step, AllocError>
    requires can { CanScaleStep c step.now }
    ensures { IfOk result (λ made. made ≡ scaled_step c step.now) }
{
    match step {
        Step::Send {
            size,
            pack,
            placements,
        } => Ok(Step::Send {
            size: *size * c,
            pack: scaled_packing(pack, c)?,
            placements: scaled_placements(placements, c)?,
        }),
        Step::Burst { count, size, pack } => Ok(Step::Burst {
            count: *count,
            size: *size * c,
            pack: pack.scaled(c)?,
        }),
    }
}

fn scaled_packing(pack: &Option<Packing>, c: u16) -> Result<Option<Packing>, AllocError>
    requires can { IfSome pack.now (CanScale c) }
    ensures { IfOk result (λ made. made ≡ option_map (scaled c) pack.now) }
{
    match pack {
        Some(pack) => Ok(Some(pack.scaled(c)?)),
        None => Ok(None),
    }
}

fn scaled_placements(placements: &Placements, c: u16) -> Result<Placements, AllocError>
    requires can { All (CanScalePlacement c) placements.now }
    ensures { IfOk result (λ made. made ≡ map (scaled_placement c) placements.now) }
{
    let mut made = Placements::new(placements.allocator());
    for placement in placements.as_slice() {
        made.push(Placement {
            load: placement.load * c,
            next: placement.next,
        })?;
    }
    Ok(made)
}

// Each number of a list times a factor.
fn times(list: &Nums, c: u16) -> Result<Nums, AllocError>
    requires can { CanMultiply c list.now }
    ensures { IfOk result (λ made. made ≡ times c list.now) }
{
    let mut made = Nums::new(list.allocator());
    for number in list.as_slice() {
        made.push(*number * c)?;
    }
    Ok(made)
}
