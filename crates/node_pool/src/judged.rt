//! Growing lists of nodes of one side that are legal but for a root.

ghost use Rattle.std.specs.Prelude.{◌≡◌, ◌↔◌, ◌<◌, ◌-◌, [], IfOk, IsTrue, OnErr, OnOk, Some, length, slice_get, take};
ghost use Rattle.std.specs.Prelude.{List};
ghost use Rattle.node_pool.specs.Pools.{AreLegal, IsPool, IsRoot, MayComeNext, nodes_up_to, pool_of, terms_in};
ghost use Rattle.node_pool.specs.Pools.{with_node};
ghost use Rattle.loads.specs.Position.{IsEmptyPosition, position};
ghost use Rattle.node_pool.specs.Terms.{whole_game};
ghost use Rattle.strategy_text.specs.declared.node.Strategy.{Strategy};

use crate::side::NodeRules;
use crate::terms::Terms;
use items::{Game, Sequence};
use std::alloc::{AllocError, Global};
use std::marker::{Model, PhantomData};
use strategy_text::{Format, Strategy};

/// Nodes of one side over the same terms, numbered from 0. Each meets every rule but `root` over the nodes before it,
/// so any node with the empty position ends a legal strategy. Positions are not kept.
#[derive(Drop)]
pub struct JudgedNodes<N, R: NodeRules<N>> {
    terms: Terms,
    nodes: Sequence<N>,
    rules: PhantomData<R>,
}

impl<N, R: NodeRules<N>> Model for JudgedNodes<N, R> {
    ghost use Rattle.node_pool.specs.Pools.{Pool, IsPool, pool_of};

    ghost Value = { Pool N };

    ghost view = { λ a. pool_of a.terms a.nodes };

    ghost invariant = { λ a. IsPool R.position R.IsOfFormat R.MeetsRules (pool_of a.terms a.nodes) };
}

impl<N: Drop, R: NodeRules<N>> JudgedNodes<N, R> {
    /// No nodes. Takes no memory.
    pub fn new(alloc: Global, terms: Terms) -> Self
        ensures empty { result ≡ pool_of terms [] }
    {
        let _format = terms.format();
        JudgedNodes {
            terms,
            nodes: Sequence::new(alloc),
            rules: PhantomData,
        }
    }

    /// Puts a node at the end and gives its number. Where memory is refused, the nodes stay as they were and the node
    /// is dropped.
    pub fn push(&mut self, node: N) -> Result<u32, AllocError>
        requires next { MayComeNext R.position R.IsOfFormat R.MeetsRules self.old node }
        ensures number { IfOk result (λ number. number ≡ length self.old.nodes) }
        ensures ok { OnOk result (self.new ≡ with_node self.old node) }
        ensures err { OnErr result (self.new ≡ self.old) }
    {
        let number = self.nodes.len();
        self.nodes.push(node)?;
        Ok(number as u32)
    }

    /// Drops the nodes from this number on. Takes no memory.
    pub(crate) fn truncate(&mut self, n: usize)
        ensures kept { self.new ≡ pool_of (terms_in self.old) (take n self.old.nodes) }
    {
        self.nodes.truncate(n);
    }

    /// How many nodes there are, at most 4,000,000,000.
    pub fn len(&self) -> u32
        ensures value { result ≡ length self.now.nodes }
        ensures legal { IsPool R.position R.IsOfFormat R.MeetsRules self.now }
    {
        self.nodes.len() as u32
    }

    /// The node of this number.
    pub fn node(&self, i: u32) -> &N
        requires within { i < length self.now.nodes }
        ensures value { slice_get self.now.nodes i ≡ Some result.now }
    {
        &self.nodes.as_slice()[i as usize]
    }

    /// What the nodes are judged by. Takes no memory.
    pub fn terms(&self) -> &Terms
        ensures value { result.now ≡ terms_in self.now }
    {
        &self.terms
    }

    /// The game. Takes no memory.
    pub fn game(&self) -> Game
        ensures value { result ≡ self.now.game }
    {
        self.terms.game()
    }

    /// The format. Takes no memory.
    pub fn format(&self) -> Format
        ensures value { result ≡ self.now.format }
    {
        self.terms.format()
    }

    /// Whether the node of this number has empty bins and no items, and so ends a legal strategy. Takes no memory.
    pub fn is_root(&self, i: u32) -> bool
        ensures exact { IsTrue result ↔ IsRoot R.position self.now.nodes i }
    {
        match self.nodes.get(i as usize) {
            Some(node) => is_empty(R::loads(node), R::items(node)),
            None => false,
        }
    }

    /// The strategy whose root is the node of this number: the nodes up to it. Takes no memory.
    pub fn into_strategy(self, root: u32) -> Strategy
        requires root { IsRoot R.position self.nodes root }
        ensures format { result.format ≡ self.format }
        ensures game { result.game ≡ self.game }
        ensures nodes { result.nodes ≡ R.nodes_of_side (nodes_up_to root self.nodes) }
        ensures legal { AreLegal R.position R.IsOfFormat R.MeetsRules (terms_in self) (nodes_up_to root self.nodes) }
    {
        let mut nodes = self.nodes;
        nodes.truncate(root as usize + 1);
        Strategy {
            format: self.terms.format(),
            game: self.terms.game(),
            nodes: R::into_strategy_nodes(nodes),
        }
    }

    /// The nodes of a legal strategy for the whole game. Takes no memory.
    pub fn from_strategy(strategy: Strategy) -> Self
        requires legal { (list : List N) × (strategy.nodes ≡ R.nodes_of_side list)
            × AreLegal R.position R.IsOfFormat R.MeetsRules (whole_game strategy.format strategy.game) list }
        ensures format { result.format ≡ strategy.format }
        ensures terms { terms_in result ≡ whole_game strategy.format strategy.game }
        ensures nodes { strategy.nodes ≡ R.nodes_of_side result.nodes }
        ensures root { IsRoot R.position result.nodes (length result.nodes - 1) }
    {
        let Strategy {
            format,
            game,
            nodes,
        } = strategy;
        let terms = Terms::of_game(format, &game);
        let _format = terms.format();
        JudgedNodes {
            terms,
            nodes: R::from_strategy_nodes(nodes),
            rules: PhantomData,
        }
    }
}

// Whether all bins are empty and there are no items.
fn is_empty(loads: &[u16], items: &[u16]) -> bool
    ensures exact { IsTrue result ↔ IsEmptyPosition (position loads.now items.now) }
{
    items.is_empty() && loads.iter().all(|load| *load == 0)
}
