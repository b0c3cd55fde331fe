//! Nodes of the adversary as nodes of a graph.

ghost use Rattle.std.specs.Prelude.{◌≡◌, ◌<◌, ◌++◌, [], All, IfOk, IfSome, OnOk, length, map, slice_index};
ghost use Rattle.std.specs.List.{cons_option, filter_map};
ghost use Rattle.adversary_graph.specs.Play.{child_of};
ghost use Rattle.adversary_graph.specs.Nodes.{placements_of};
ghost use Rattle.minimise.specs.References.{renamed_placement, renamed_step};

use crate::node::{Node, packed};
use adversary_graph::renumber_next;
use items::Game;
use loads::PackedPosition;
use packing_witness::Packing;
use std::alloc::{AllocError, Global};
use strategy_text::{AdvNode, Placement, Placements, Step, Then};

impl Node for AdvNode {
    ghost use Rattle.adversary_graph.specs.Nodes.{position_of};
    ghost use Rattle.minimise.specs.References.{adversary_references, renamed_adversary};

    ghost position_of = { position_of };

    ghost references_of = { adversary_references };

    ghost renamed_by = { renamed_adversary };

    fn position(&self, game: &Game) -> Result<PackedPosition, AllocError> {
        packed(game, &self.loads, &self.items)
    }

    fn references(&self) -> Result<Vec<u32>, AllocError> {
        children(self.loads.allocator(), &self.step)
    }

    fn renumbered(&self, numbers: &[u32]) -> Result<AdvNode, AllocError> {
        Ok(AdvNode {
            loads: self.loads.copy()?,
            items: self.items.copy()?,
            step: renumbered_step(&self.step, numbers)?,
        })
    }
}

// The numbers of the nodes to which a step leads.
fn children(alloc: Global, step: &Step) -> Result<Vec<u32>, AllocError>
    ensures { IfOk result (λ made.
        made.items ≡ filter_map (λ placement. child_of placement.next) (placements_of step.now)) }
{
    match step {
        Step::Send { placements, .. } => children_of(alloc, placements.as_slice()),
        Step::Burst { .. } => Ok(Vec::new(alloc)),
    }
}

fn children_of(alloc: Global, placements: &[Placement]) -> Result<Vec<u32>, AllocError>
    ensures { IfOk result (λ made.
        made.items ≡ filter_map (λ placement. child_of placement.next) placements.now) }
{
    let mut children = Vec::new(alloc);
    for placement in placements {
        push_child(&mut children, placement.next)?;
    }
    Ok(children)
}

// Puts the number of the node to which a placement leads at the end, if it leads to one.
fn push_child(children: &mut Vec<u32>, next: Then) -> Result<(), AllocError>
    ensures { OnOk result (children.new.items ≡ children.old.items ++ cons_option (child_of next) []) }
{
    match next {
        Then::Over => Ok(()),
        Then::To(child) => {
            children.push(child)?;
            Ok(())
        }
    }
}

// A copy of a step, in which each reference is the new number of its node.
fn renumbered_step(step: &Step, numbers: &[u32]) -> Result<Step, AllocError>
    requires { All (λ number. number < length numbers.now)
        (filter_map (λ placement. child_of placement.next) (placements_of step.now)) }
    ensures { IfOk result (λ made. made ≡ renamed_step (slice_index numbers.now) step.now) }
{
    match step {
        Step::Send {
            size,
            pack,
            placements,
        } => Ok(Step::Send {
            size: *size,
            pack: copy_of(pack)?,
            placements: renumbered_placements(placements, numbers)?,
        }),
        Step::Burst { count, size, pack } => Ok(Step::Burst {
            count: *count,
            size: *size,
            pack: pack.copy()?,
        }),
    }
}

// A copy of the packing, if there is one.
fn copy_of(pack: &Option<Packing>) -> Result<Option<Packing>, AllocError>
    ensures { IfOk result (λ made. made ≡ pack.now) }
{
    match pack {
        Some(pack) => Ok(Some(pack.copy()?)),
        None => Ok(None),
    }
}

fn renumbered_placements(placements: &Placements, numbers: &[u32]) -> Result<Placements, AllocError>
    requires { All (λ number. number < length numbers.now)
        (filter_map (λ placement. child_of placement.next) placements.now) }
    ensures { IfOk result (λ made. made ≡ map (renamed_placement (slice_index numbers.now)) placements.now) }
{
    let mut made = Placements::new(placements.allocator());
    for placement in placements.as_slice() {
        made.push(Placement {
            load: placement.load,
            next: renumber_next(numbers, placement.next),
        })?;
    }
    Ok(made)
}
