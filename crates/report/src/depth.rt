//! The depth of a strategy.

ghost use Rattle.std.specs.Prelude.{◌≡◌, ◌-◌, ◌<◌, ◌≤◌, IfOk, All, length, map};
ghost use Rattle.strategy_text.specs.Text.{AnyNode, of_adversary, of_algorithm, nodes_of};
ghost use Rattle.report.specs.Ways.{goes_to, way_of, ways_of};
ghost use Rattle.report.specs.Walks.{IsDepthAt};
ghost use Rattle.report.specs.Measuring.{AreDepths, EachLeadsOn, IsKnown, depth_by, items_along};

use std::alloc::{AllocError, Global};
use strategy_text::{Act, AdvNode, AlgNode, Entry, Nodes, Placement, Step, Then};

// The greatest number of items on a walk from the last node.
pub fn depth_of(alloc: Global, nodes: &Nodes) -> Result<u16, AllocError>
    requires some { 1 ≤ length (nodes_of nodes.now) }
    requires leads { EachLeadsOn (nodes_of nodes.now) }
    ensures { IfOk result (λ depth. IsDepthAt (nodes_of nodes.now) (length (nodes_of nodes.now) - 1) depth) }
{
    let depths = depths_of_either(alloc, nodes)?;
    Ok(depths.as_slice()[depths.len() - 1])
}

// The depth of each node of either side.
fn depths_of_either(alloc: Global, nodes: &Nodes) -> Result<Vec<u16>, AllocError>
    requires leads { EachLeadsOn (nodes_of nodes.now) }
    ensures one_each { IfOk result (λ depths. length depths.items ≡ length (nodes_of nodes.now)) }
    ensures exact { IfOk result (λ depths. AreDepths (nodes_of nodes.now) depths.items) }
{
    match nodes {
        Nodes::Adversary(list) => depths_of(alloc, list.as_slice()),
        Nodes::Algorithm(list) => depths_of(alloc, list.as_slice()),
    }
}

// The depth of each node, from the least number up.
fn depths_of<N: Walked>(alloc: Global, nodes: &[N]) -> Result<Vec<u16>, AllocError>
    requires leads { EachLeadsOn (map N.any nodes.now) }
    ensures one_each { IfOk result (λ depths. length depths.items ≡ length (map N.any nodes.now)) }
    ensures exact { IfOk result (λ depths. AreDepths (map N.any nodes.now) depths.items) }
{
    let mut depths = Vec::new(alloc);
    for node in nodes {
        let depth = node.depth(depths.as_slice());
        depths.push(depth)?;
    }
    Ok(depths)
}

// A node whose walks can be measured.
trait Walked {
    // The node.
    ghost any: { Self → AnyNode };

    // The depth of the node, by the depths of those before it.
    fn depth(&self, depths: &[u16]) -> u16
        requires { All (IsKnown depths.now) (ways_of (any self.now)) }
        ensures { result ≡ depth_by depths.now (ways_of (any self.now)) };
}

impl Walked for AdvNode {
    ghost any = { of_adversary };

    fn depth(&self, depths: &[u16]) -> u16 {
        match &self.step {
            Step::Send { placements, .. } => depth_of_placements(placements.as_slice(), depths),
            Step::Burst { count, .. } => *count,
        }
    }
}

impl Walked for AlgNode {
    ghost any = { of_algorithm };

    fn depth(&self, depths: &[u16]) -> u16 {
        match &self.act {
            Act::Finish | Act::Big(_) => 0,
            Act::Reply(entries) => depth_of_entries(entries.as_slice(), depths),
        }
    }
}

fn depth_of_placements(placements: &[Placement], depths: &[u16]) -> u16
    requires { All (λ placement. IsKnown depths.now (way_of placement.next)) placements.now }
    ensures { result ≡ depth_by depths.now (map (λ placement. way_of placement.next) placements.now) }
{
    let mut depth = 0u16;
    for placement in placements {
        depth = depth.max(items_along(placement.next, depths));
    }
    depth
}

fn depth_of_entries(entries: &[Entry], depths: &[u16]) -> u16
    requires { All (λ entry. IsKnown depths.now (goes_to entry.to)) entries.now }
    ensures { result ≡ depth_by depths.now (map (λ entry. goes_to entry.to) entries.now) }
{
    let mut depth = 0u16;
    for entry in entries {
        depth = depth.max(items_along(Then::To(entry.to), depths));
    }
    depth
}

// The most items of a walk from a node's item on.
fn items_along(next: Then, depths: &[u16]) -> u16
    requires { IsKnown depths.now (way_of next) }
    ensures { result ≡ items_along depths.now (way_of next) }
{
    match next {
        Then::Over => 1,
        Then::To(child) => depths[child as usize] + 1,
    }
}
