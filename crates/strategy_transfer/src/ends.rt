//! The end packings of all nodes of the adversary.

ghost use Rattle.std.specs.Prelude.{◌≡◌, ◌+◌, ◌<◌, ◌≤◌, IfOk, None, Some, length, slice_index};
ghost use Rattle.adversary_graph.specs.Nodes.{packing_of, placements_of};
ghost use Rattle.adversary_graph.specs.Play.{end_packing, first_child};
ghost use Rattle.adversary_graph.specs.Playing.{ShowsEndPacking};
ghost use Rattle.strategy_transfer.specs.Weakening.{AreLinked, HasFirstChild, ShowEndPackings, packed_number};

use adversary_graph::{first_child, packing_of};
use packing_witness::Packing;
use std::alloc::{AllocError, Global};
use strategy_text::{AdvNode, Step};

// For each node the number of the node whose packing is its end packing. Each is found from those of the nodes before
// it, so a long chain of nodes without packings is passed once.
pub fn packed_nodes(alloc: Global, nodes: &[AdvNode]) -> Result<Vec<u32>, AllocError>
    requires linked { AreLinked nodes.now }
    ensures { IfOk result (λ made. ShowEndPackings nodes.now (length nodes.now) made.items) }
{
    let mut packed = Vec::new(alloc);
    for (number, node) in nodes.iter().enumerate() {
        let at = packed_node(number as u32, &node.step, packed.as_slice());
        packed.push(at)?;
    }
    Ok(packed)
}

// The number of the node whose packing is the end packing of the node of this number.
fn packed_node(number: u32, step: &Step, packed: &[u32]) -> u32
    requires first { packing_of step.now ≡ None → HasFirstChild number step.now }
    requires before { length packed.now ≡ number }
    ensures { result ≡ packed_number packed.now number (packing_of step.now) (first_child (placements_of step.now)) }
{
    let Some(_own) = packing_of(step) else {
        return packed[first_child(step).unwrap() as usize];
    };
    number
}

// The end packing of the node of this number.
pub fn end_packing<'a>(nodes: &'a [AdvNode], packed: &[u32], number: usize) -> &'a Packing
    requires within { number < length packed.now }
    requires shown { ShowsEndPacking nodes.now number (slice_index packed.now number) }
    ensures { end_packing nodes.now (number + 1) number ≡ Some result.now }
{
    packing_of(&nodes[packed[number] as usize].step).unwrap()
}
