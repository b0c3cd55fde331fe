//! What is kept of the nodes that were read.

ghost use Rattle.std.specs.Prelude.{◌≡◌, ◌++◌, ◌∷◌, [], List, OnOk};
ghost use Rattle.strategy_text.specs.Text.{AnyNode, nodes_of, side_of};
ghost use Rattle.strategy_text.specs.declared.node.Side.{Side};
ghost use Rattle.strategies.specs.AnyNode.{side_of_node};
ghost use Rattle.checker.specs.Progress.{any_node, AreKept, NoneIsKept};

use crate::node::Node;
use std::alloc::{AllocError, Global};
use std::mem;
use strategy_text::{AdvNode, AdvNodes, AlgNode, AlgNodes, Nodes, Side};

// What keeps the nodes of a side, one after the other, or nothing of them.
pub(crate) trait Keeper {
    // It was given these nodes of this side, and holds what it keeps of them.
    ghost holds: { Self → Side → List AnyNode → Type 0 };

    // Begins anew, without a node of this side.
    fn begin(&mut self, alloc: Global, side: Side)
        ensures { holds self.new side [] };

    // Takes a node after the others, which are of its side. The node may be another one of this side then.
    fn keep(&mut self, alloc: Global, node: &mut Node) -> Result<(), AllocError>
        requires { (nodes : List AnyNode) × holds self.old (side_of_node (any_node node.old)) nodes }
        ensures kept { OnOk result ((nodes : List AnyNode) → holds self.old (side_of_node (any_node node.old)) nodes
            → holds self.new (side_of_node (any_node node.old)) (nodes ++ any_node node.old ∷ [])) }
        ensures side { side_of_node (any_node node.new) ≡ side_of_node (any_node node.old) };
}

// Keeps nothing.
#[derive(Drop)]
pub(crate) struct Nothing {}

impl Keeper for Nothing {
    ghost holds = { NoneIsKept };

    fn begin(&mut self, _alloc: Global, _side: Side) {}

    fn keep(&mut self, _alloc: Global, _node: &mut Node) -> Result<(), AllocError> {
        Ok(())
    }
}

impl Keeper for Nodes {
    ghost holds = { AreKept };

    fn begin(&mut self, alloc: Global, side: Side) {
        *self = match side {
            Side::Adversary => Nodes::Adversary(AdvNodes::new(alloc)),
            Side::Algorithm => Nodes::Algorithm(AlgNodes::new(alloc)),
        };
    }

    fn keep(&mut self, alloc: Global, node: &mut Node) -> Result<(), AllocError> {
        put(self, take(alloc, node))
    }
}

// Takes a node out, and leaves an empty one of its side.
fn take(alloc: Global, node: &mut Node) -> Node
    ensures value { any_node result ≡ any_node node.old }
    ensures left { side_of_node (any_node node.new) ≡ side_of_node (any_node node.old) }
{
    match node {
        Node::Adversary(node) => Node::Adversary(mem::replace(node, AdvNode::empty(alloc))),
        Node::Algorithm(node) => Node::Algorithm(mem::replace(node, AlgNode::empty(alloc))),
    }
}

// Puts a node of the same side after the others.
fn put(nodes: &mut Nodes, node: Node) -> Result<(), AllocError>
    requires side { side_of_node (any_node node) ≡ side_of nodes.old }
    ensures ok { OnOk result (nodes_of nodes.new ≡ nodes_of nodes.old ++ any_node node ∷ []) }
    ensures side { side_of nodes.new ≡ side_of nodes.old }
{
    match (nodes, node) {
        (Nodes::Adversary(list), Node::Adversary(node)) => list.push(node),
        (Nodes::Algorithm(list), Node::Algorithm(node)) => list.push(node),
        _ => unreachable!(),
    }
}
