//! The canonical form.

ghost use Rattle.std.specs.Prelude.{◌≡◌, ◌+◌, ◌<◌, ◌≤◌, ◌++◌, All, IfOk, OnOk, length, map, slice_get, slice_index};
ghost use Rattle.std.specs.List.{filter_map};
ghost use Rattle.strategy_text.specs.Spelling.{most_nodes};
ghost use Rattle.strategy_text.specs.Text.{nodes_of, side_of};
ghost use Rattle.node_pool.specs.Pools.{IsPositionOf};
ghost use Rattle.strategies.specs.AnyNode.{IsLegal};
ghost use Rattle.minimise.specs.Canonical.{canonical, firsts, leads, place, representatives, walk};
ghost use Rattle.minimise.specs.Nodes.{LeadBack};
ghost use Rattle.minimise.specs.Ordering.{IsOrdered, ordering};
ghost use Rattle.minimise.specs.Reached.{AreDistinct, AreReached};
ghost use Rattle.minimise.specs.Strategies.{canonical_form, canonical_nodes, positions_in, references_in};

use crate::node::Node;
use crate::order::Order;
use crate::representatives::least_numbers;
use items::{Game, Sequence};
use std::alloc::{AllocError, Global};
use strategy_text::{Nodes, Strategy};

/// The canonical form of a legal strategy, as this project defines it. Of the nodes with one position the
/// least-numbered stands for all. Those that are reached from the root are kept, and numbered so that children come
/// before their parent, in the order in which it lists them, each at its first visit. So strategies that differ only
/// in the numbers of their nodes, in repeats and in nodes that nothing reaches become the same. The result need not be
/// the smallest strategy. An error is want of memory.
///
/// The time is linear in the nodes and their references. Beside the result it takes a packed position and a few
/// numbers for each node. Its recursion is at most as deep as a play is long: the items' total rises at each step.
pub fn minimise(alloc: Global, strategy: &Strategy) -> Result<Strategy, AllocError>
    requires legal { IsLegal strategy.now }
    ensures exact { IfOk result (λ made. made ≡ canonical_form strategy.now) }
    ensures format { IfOk result (λ made. made.format ≡ strategy.now.format) }
    ensures game { IfOk result (λ made. made.game ≡ strategy.now.game) }
    ensures side { IfOk result (λ made. side_of made.nodes ≡ side_of strategy.now.nodes) }
    ensures legal { IfOk result IsLegal }
    ensures distinct { IfOk result (λ made. AreDistinct (positions_in made.nodes)) }
    ensures reached { IfOk result (λ made. AreReached (references_in made.nodes)) }
    ensures number { IfOk result (λ made. length (nodes_of made.nodes) ≤ length (nodes_of strategy.now.nodes)) }
{
    Ok(Strategy {
        format: strategy.format,
        game: strategy.game,
        nodes: canonical_nodes(alloc, strategy)?,
    })
}

// The canonical form of the nodes of a strategy.
fn canonical_nodes(alloc: Global, strategy: &Strategy) -> Result<Nodes, AllocError>
    requires legal { IsLegal strategy.now }
    ensures { IfOk result (λ made. made ≡ canonical_nodes strategy.now.nodes) }
{
    match &strategy.nodes {
        Nodes::Adversary(nodes) => {
            Ok(Nodes::Adversary(canonical(alloc, &strategy.game, nodes)?))
        }
        Nodes::Algorithm(nodes) => {
            Ok(Nodes::Algorithm(canonical(alloc, &strategy.game, nodes)?))
        }
    }
}

// The canonical form of the nodes of one side.
fn canonical<N: Node>(
    alloc: Global,
    game: &Game,
    nodes: &Sequence<N>,
) -> Result<Sequence<N>, AllocError>
    requires of_game { All (λ node. IsPositionOf game.now (N.position_of node)) nodes.now }
    requires some { 1 ≤ length nodes.now }
    requires few { length nodes.now ≤ most_nodes }
    requires back { LeadBack (map N.references_of nodes.now) }
    ensures { IfOk result (λ made. made ≡ canonical N.position_of N.references_of N.renamed_by nodes.now) }
{
    let nodes = nodes.as_slice();
    let least = least_numbers(alloc, game, nodes)?;
    let root = least[nodes.len() - 1];
    let mut order = Order::new(alloc, nodes.len())?;
    visit(nodes, least.as_slice(), root, &mut order)?;
    let numbers = new_numbers(alloc, least.as_slice(), &order)?;
    renumbered(alloc, nodes, &order, numbers.as_slice())
}

// Visits a node: what it leads to is visited before it, in its order, and each node is put into the order once.
fn visit<N: Node>(
    nodes: &[N],
    least: &[u32],
    number: u32,
    order: &mut Order,
) -> Result<(), AllocError>
    requires back { LeadBack (map N.references_of nodes.now) }
    requires least { least.now ≡ representatives (map N.position_of nodes.now) }
    requires within { number < length nodes.now }
    requires count { order.old.count ≡ length nodes.now }
    requires ordered { IsOrdered
        (leads (map N.position_of nodes.now) (map N.references_of nodes.now)) order.old.numbers }
    ensures { OnOk result (order.new ≡ ordering
        (firsts (order.old.numbers
        ++ walk (leads (map N.position_of nodes.now) (map N.references_of nodes.now)) (number + 1) number))
        order.old.count) }
{
    if order.contains(number) {
        return Ok(());
    }
    let references = nodes[number as usize].references()?;
    for reference in &references {
        visit(nodes, least, least[*reference as usize], order)?;
    }
    order.push(number)
}

// The new number of each node: the place of its representative.
fn new_numbers(alloc: Global, least: &[u32], order: &Order) -> Result<Vec<u32>, AllocError>
    requires count { order.now.count ≡ length least.now }
    requires within { All (λ number. number < length least.now) least.now }
    ensures { IfOk result (λ made. made.items ≡ map (λ number. place number order.now.numbers) least.now) }
{
    let mut numbers = Vec::new(alloc);
    for number in least {
        numbers.push(new_number(order, *number))?;
    }
    Ok(numbers)
}

// The place of a number, or how many places there are.
fn new_number(order: &Order, number: u32) -> u32
    requires { number < order.now.count }
    ensures { result ≡ place number order.now.numbers }
{
    match order.place(number) {
        Some(place) => place,
        None => order.len(),
    }
}

// The nodes that are kept, with the new numbers in their references.
fn renumbered<N: Node>(
    alloc: Global,
    nodes: &[N],
    order: &Order,
    numbers: &[u32],
) -> Result<Sequence<N>, AllocError>
    requires back { LeadBack (map N.references_of nodes.now) }
    requires count { order.now.count ≡ length nodes.now }
    requires numbers { length numbers.now ≡ length nodes.now }
    ensures { IfOk result (λ made. made
        ≡ map (N.renamed_by (slice_index numbers.now)) (filter_map (slice_get nodes.now) order.now.numbers)) }
{
    let mut made = Sequence::new(alloc);
    for number in order.numbers() {
        made.push(nodes[*number as usize].renumbered(numbers)?)?;
    }
    Ok(made)
}
