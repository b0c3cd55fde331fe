//! The nodes that were written so far.

ghost use Rattle.std.specs.Prelude.{◌≡◌, IfOk, IfSome, OnOk, length, ◌<◌};
ghost use Rattle.node_pool.specs.Pools.{terms_in};
ghost use Rattle.node_pool.specs.Terms.{whole_game};
ghost use Rattle.strategy_text.specs.declared.node.Format.TheVariants.{Two};

use adversary_graph::{AdvPool, judge};
use indexmap::IndexMap;
use items::{Game, Nums};
use loads::{Loads, PackedPosition, Position};
use std::alloc::{AllocError, Global};
use strategy_text::{AdvNode, Format, Step};

// The most nodes of a strategy.
const MOST_NODES: u32 = 4_000_000_000;

/// Nodes of the adversary, each judged when it was put in, and the numbers of their positions.
#[derive(Drop)]
pub(crate) struct Book {
    pub(crate) nodes: AdvPool,
    numbers: IndexMap<PackedPosition, u32>,
}

impl Book {
    /// No nodes.
    pub(crate) fn new(alloc: Global, game: &Game) -> Book
        ensures { terms_in result.nodes ≡ whole_game Two game.now }
    {
        Book {
            nodes: AdvPool::new(alloc, game, Format::Two),
            numbers: IndexMap::new(alloc),
        }
    }

    /// The nodes alone.
    pub(crate) fn into_nodes(self) -> AdvPool
        ensures { result ≡ self.nodes }
    {
        let Book { nodes, .. } = self;
        nodes
    }

    /// The number of the node at a position, where there is one.
    pub(crate) fn number_of(
        &self,
        alloc: Global,
        position: &Position,
    ) -> Result<Option<u32>, AllocError> {
        let packed = PackedPosition::of(alloc, &position.loads, &position.items)?;
        match self.numbers.get(&packed) {
            Some(number) => Ok(Some(*number)),
            None => Ok(None),
        }
    }

    /// Puts the node that takes a step at a position, where it breaks no rule, and gives its number.
    pub(crate) fn put(
        &mut self,
        alloc: Global,
        position: &Position,
        step: Step,
    ) -> Result<Option<u32>, AllocError>
        requires { self.old.nodes.format ≡ Two }
        ensures { terms_in self.new.nodes ≡ terms_in self.old.nodes }
    {
        let node = AdvNode {
            loads: Nums::from_slice(alloc, position.loads.as_slice())?,
            items: position.items.list(alloc)?,
            step,
        };
        let packed = PackedPosition::of(alloc, &position.loads, &position.items)?;
        let Some(number) = put_judged(&mut self.nodes, node)? else {
            return Ok(None);
        };
        self.numbers.insert(packed, number)?;
        Ok(Some(number))
    }
}

// Puts a node at the end where it breaks no rule, and gives its number.
fn put_judged(nodes: &mut AdvPool, node: AdvNode) -> Result<Option<u32>, AllocError>
    requires { nodes.old.format ≡ Two }
    ensures { terms_in nodes.new ≡ terms_in nodes.old }
{
    if nodes.len() >= MOST_NODES {
        return Ok(None);
    }
    match judge(nodes.terms(), nodes.positions(), false, &node) {
        Some(_rule) => Ok(None),
        None => Ok(Some(nodes.push(node)?)),
    }
}
