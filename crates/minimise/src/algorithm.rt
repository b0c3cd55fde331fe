//! Nodes of the algorithm as nodes of a graph.

ghost use Rattle.std.specs.Prelude.{◌≡◌, ◌<◌, All, IfOk, length, map, slice_index};
ghost use Rattle.algorithm_graph.specs.Nodes.{entries_of};
ghost use Rattle.minimise.specs.References.{renamed_entry, renamed_act};

use crate::node::{Node, packed};
use items::Game;
use loads::PackedPosition;
use std::alloc::{AllocError, Global};
use strategy_text::{Act, AlgNode, Entries, Entry};

impl Node for AlgNode {
    ghost use Rattle.algorithm_graph.specs.Nodes.{position_of};
    ghost use Rattle.minimise.specs.References.{algorithm_references, renamed_algorithm};

    ghost position_of = { position_of };

    ghost references_of = { algorithm_references };

    ghost renamed_by = { renamed_algorithm };

    fn position(&self, game: &Game) -> Result<PackedPosition, AllocError> {
        packed(game, &self.loads, &self.items)
    }

    fn references(&self) -> Result<Vec<u32>, AllocError> {
        children(self.loads.allocator(), &self.act)
    }

    fn renumbered(&self, numbers: &[u32]) -> Result<AlgNode, AllocError> {
        Ok(AlgNode {
            loads: self.loads.copy()?,
            items: self.items.copy()?,
            act: renumbered_act(&self.act, numbers)?,
        })
    }
}

// The numbers of the nodes to which an act leads.
fn children(alloc: Global, act: &Act) -> Result<Vec<u32>, AllocError>
    ensures { IfOk result (λ made. made.items ≡ map (λ entry. entry.to) (entries_of act.now)) }
{
    match act {
        Act::Finish => Ok(Vec::new(alloc)),
        Act::Big(_) => Ok(Vec::new(alloc)),
        Act::Reply(entries) => children_of(alloc, entries.as_slice()),
    }
}

fn children_of(alloc: Global, entries: &[Entry]) -> Result<Vec<u32>, AllocError>
    ensures { IfOk result (λ made. made.items ≡ map (λ entry. entry.to) entries.now) }
{
    let mut children = Vec::new(alloc);
    for entry in entries {
        children.push(entry.to)?;
    }
    Ok(children)
}

// A copy of an act, in which each reference is the new number of its node.
fn renumbered_act(act: &Act, numbers: &[u32]) -> Result<Act, AllocError>
    requires { All (λ number. number < length numbers.now) (map (λ entry. entry.to) (entries_of act.now)) }
    ensures { IfOk result (λ made. made ≡ renamed_act (slice_index numbers.now) act.now) }
{
    match act {
        Act::Finish => Ok(Act::Finish),
        Act::Big(bins) => Ok(Act::Big(*bins)),
        Act::Reply(entries) => Ok(Act::Reply(renumbered_entries(entries, numbers)?)),
    }
}

fn renumbered_entries(entries: &Entries, numbers: &[u32]) -> Result<Entries, AllocError>
    requires { All (λ number. number < length numbers.now) (map (λ entry. entry.to) entries.now) }
    ensures { IfOk result (λ made. made ≡ map (renamed_entry (slice_index numbers.now)) entries.now) }
{
    let mut made = Entries::new(entries.allocator());
    for entry in entries.as_slice() {
        made.push(Entry {
            size: entry.size,
            load: entry.load,
            to: numbers[entry.to as usize],
        })?;
    }
    Ok(made)
}
