//! Judged nodes with their positions.

ghost use Rattle.std.specs.Prelude.{◌≡◌, ◌↔◌, ◌<◌, ◌-◌, [], IfOk, IsTrue, OnErr, OnOk, Some, List, length, map};
ghost use Rattle.std.specs.Prelude.{slice_get, take, ◌+◌};
ghost use Rattle.node_pool.specs.Pools.{AreLegal, IsPool, IsRoot, MayComeNext, nodes_up_to, pool_of};
ghost use Rattle.node_pool.specs.Pools.{terms_in, with_node};
ghost use Rattle.node_pool.specs.Terms.{whole_game};

use crate::judged::JudgedNodes;
use crate::side::NodeRules;
use crate::terms::Terms;
use items::Game;
use loads::PackedPositions;
use std::alloc::{AllocError, Global};
use std::marker::Model;
use strategy_text::{Format, Strategy};

/// Judged nodes of one side with the position of each at hand, for whoever judges further nodes over them. A position
/// takes what [`PackedPositions`] says.
#[derive(Drop)]
pub struct Pool<N, R: NodeRules<N>> {
    nodes: JudgedNodes<N, R>,
    positions: PackedPositions,
}

impl<N, R: NodeRules<N>> Model for Pool<N, R> {
    ghost use Rattle.std.specs.Prelude.{◌≡◌, map};
    ghost use Rattle.node_pool.specs.Pools.{Pool};

    ghost Value = { Pool N };

    ghost view = { λ a. a.nodes };

    ghost invariant = { λ a. a.positions ≡ map R.position a.nodes.nodes };
}

impl<N: Drop, R: NodeRules<N>> Pool<N, R> {
    /// No nodes, for the whole game. Takes no memory.
    pub fn new(alloc: Global, game: &Game, format: Format) -> Self
        ensures empty { result ≡ pool_of (whole_game format game.now) [] }
    {
        Pool::over(alloc, Terms::of_game(format, game))
    }

    /// No nodes, over these terms. Takes no memory.
    pub fn over(alloc: Global, terms: Terms) -> Self
        ensures empty { result ≡ pool_of terms [] }
    {
        Pool {
            nodes: JudgedNodes::new(alloc, terms),
            positions: PackedPositions::new(alloc),
        }
    }

    /// Puts a node at the end and gives its number. Where memory is refused, the pool stays as it was and the node
    /// is dropped.
    pub fn push(&mut self, node: N) -> Result<u32, AllocError>
        requires next { MayComeNext R.position R.IsOfFormat R.MeetsRules self.old node }
        ensures number { IfOk result (λ number. number ≡ length self.old.nodes) }
        ensures ok { OnOk result (self.new ≡ with_node self.old node) }
        ensures err { OnErr result (self.new ≡ self.old) }
    {
        let number = self.nodes.push(node)?;
        match push_position::<N, R>(&mut self.positions, &self.nodes, number) {
            Ok(()) => Ok(number),
            Err(error) => {
                self.nodes.truncate(number as usize);
                Err(error)
            }
        }
    }

    /// How many nodes there are, at most 4,000,000,000.
    pub fn len(&self) -> u32
        ensures value { result ≡ length self.now.nodes }
        ensures legal { IsPool R.position R.IsOfFormat R.MeetsRules self.now }
    {
        self.nodes.len()
    }

    /// The node of this number.
    pub fn node(&self, i: u32) -> &N
        requires within { i < length self.now.nodes }
        ensures value { slice_get self.now.nodes i ≡ Some result.now }
    {
        self.nodes.node(i)
    }

    /// The positions of the nodes, by the nodes' numbers.
    pub fn positions(&self) -> &PackedPositions
        ensures value { result.now ≡ map R.position self.now.nodes }
    {
        &self.positions
    }

    /// What the nodes are judged by. Takes no memory.
    pub fn terms(&self) -> &Terms
        ensures value { result.now ≡ terms_in self.now }
    {
        self.nodes.terms()
    }

    /// The game. Takes no memory.
    pub fn game(&self) -> Game
        ensures value { result ≡ self.now.game }
    {
        self.nodes.game()
    }

    /// The format. Takes no memory.
    pub fn format(&self) -> Format
        ensures value { result ≡ self.now.format }
    {
        self.nodes.format()
    }

    /// The nodes without their positions.
    pub fn nodes(&self) -> &JudgedNodes<N, R>
        ensures value { result.now ≡ self.now }
    {
        &self.nodes
    }

    /// The nodes without their positions, which are dropped. Takes no memory.
    pub fn into_nodes(self) -> JudgedNodes<N, R>
        ensures value { result ≡ self }
    {
        self.nodes
    }

    /// Whether the node of this number has empty bins and no items, and so ends a legal strategy. Takes no memory.
    pub fn is_root(&self, i: u32) -> bool
        ensures exact { IsTrue result ↔ IsRoot R.position self.now.nodes i }
    {
        self.nodes.is_root(i)
    }

    /// The strategy whose root is the node of this number: the nodes up to it. Takes no memory.
    pub fn into_strategy(self, root: u32) -> Strategy
        requires root { IsRoot R.position self.nodes root }
        ensures format { result.format ≡ self.format }
        ensures game { result.game ≡ self.game }
        ensures nodes { result.nodes ≡ R.nodes_of_side (nodes_up_to root self.nodes) }
        ensures legal { AreLegal R.position R.IsOfFormat R.MeetsRules (terms_in self) (nodes_up_to root self.nodes) }
    {
        self.nodes.into_strategy(root)
    }

    /// The pool of the nodes of a legal strategy for the whole game.
    pub fn from_strategy(alloc: Global, strategy: Strategy) -> Result<Self, AllocError>
        requires legal { (list : List N) × (strategy.nodes ≡ R.nodes_of_side list)
            × AreLegal R.position R.IsOfFormat R.MeetsRules (whole_game strategy.format strategy.game) list }
        ensures format { IfOk result (λ pool. pool.format ≡ strategy.format) }
        ensures terms { IfOk result (λ pool. terms_in pool ≡ whole_game strategy.format strategy.game) }
        ensures nodes { IfOk result (λ pool. strategy.nodes ≡ R.nodes_of_side pool.nodes) }
        ensures root { IfOk result (λ pool. IsRoot R.position pool.nodes (length pool.nodes - 1)) }
    {
        let nodes = JudgedNodes::from_strategy(strategy);
        let positions = positions_of(alloc, &nodes)?;
        Ok(Pool { nodes, positions })
    }
}

// The positions of judged nodes.
fn positions_of<N: Drop, R: NodeRules<N>>(
    alloc: Global,
    nodes: &JudgedNodes<N, R>,
) -> Result<PackedPositions, AllocError>
    ensures { IfOk result (λ positions. positions ≡ map R.position nodes.now.nodes) }
{
    let mut positions = PackedPositions::new(alloc);
    for number in 0..nodes.len() {
        push_position(&mut positions, nodes, number)?;
    }
    Ok(positions)
}

// Puts the position of the node of this number at the end. Where memory is refused, the positions stay as they were.
fn push_position<N: Drop, R: NodeRules<N>>(
    positions: &mut PackedPositions,
    nodes: &JudgedNodes<N, R>,
    number: u32,
) -> Result<(), AllocError>
    requires within { number < length nodes.now.nodes }
    requires before { positions.old ≡ map R.position (take number nodes.now.nodes) }
    ensures ok { OnOk result (positions.new ≡ map R.position (take (number + 1) nodes.now.nodes)) }
    ensures err { OnErr result (positions.new ≡ positions.old) }
{
    let _count = nodes.len();
    let node = nodes.node(number);
    positions.push_lists(R::loads(node), R::items(node))
}
