//! Copies of nodes of the algorithm.

ghost use Rattle.std.specs.Prelude.{◌≡◌, IfOk};

use std::alloc::{AllocError, Global};
use strategy_text::{Act, AlgNode, AlgNodes, Entries, Entry};

// A copy of the nodes.
pub fn copied_nodes(alloc: Global, nodes: &[AlgNode]) -> Result<AlgNodes, AllocError>
    ensures { IfOk result (λ copy. copy ≡ nodes.now) }
{
    let mut copy = AlgNodes::new(alloc);
    for node in nodes {
        copy.push(copied_node(node)?)?;
    }
    Ok(copy)
}

fn copied_node(node: &AlgNode) -> Result<AlgNode, AllocError>
    ensures { IfOk result (λ copy. copy ≡ node.now) }
{
    Ok(AlgNode {
        loads: node.loads.copy()?,
        items: node.items.copy()?,
        act: copied_act(node.loads.allocator(), &node.act)?,
    })
}

fn copied_act(alloc: Global, act: &Act) -> Result<Act, AllocError>
    ensures { IfOk result (λ copy. copy ≡ act.now) }
{
    match act {
        Act::Finish => Ok(Act::Finish),
        Act::Big(b) => Ok(Act::Big(*b)),
        Act::Reply(entries) => Ok(Act::Reply(copied_entries(alloc, entries.as_slice())?)),
    }
}

fn copied_entries(alloc: Global, entries: &[Entry]) -> Result<Entries, AllocError>
    ensures { IfOk result (λ copy. copy ≡ entries.now) }
{
    let mut copy = Entries::new(alloc);
    for entry in entries {
        copy.push(*entry)?;
    }
    Ok(copy)
}
