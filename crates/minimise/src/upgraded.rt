//! Strategies in format 2 that say the same as another in fewer words.

ghost use Rattle.std.specs.Prelude.{◌≡◌, ◌++◌, ◌≤◌, IfOk, All, MatchOption, length, replicate};
ghost use Rattle.std.specs.List.{AllZip};
ghost use Rattle.items.specs.Multiset.{IsMultiset, IsSize};
ghost use Rattle.items.specs.Packable.{IsPacking, Packable};
ghost use Rattle.loads.specs.Loads.{IsLoads};
ghost use Rattle.strategy_text.specs.Text.{nodes_of, side_of};
ghost use Rattle.strategy_text.specs.declared.node.Format.TheVariants.{Two};
ghost use Rattle.strategies.specs.AnyNode.{IsLegal};
ghost use Rattle.minimise.specs.Reached.{AreDistinct, AreReached};
ghost use Rattle.minimise.specs.Strategies.{positions_in, references_in};
ghost use Rattle.minimise.specs.Upgrade.{IsCanonicalUpgrade};
ghost use Rattle.minimise.specs.Upgrade.{IsUpgradeOf, UpgradesAct, UpgradesAdversary, UpgradesAlgorithm, UpgradesNodes};
ghost use Rattle.minimise.specs.Upgrade.{UpgradesReply, UpgradesSend, UpgradesStep, least_burst};
ghost use Rattle.minimise.specs.Upgrading.{CanUpgradeAdversary, CanUpgradeAlgorithm, CanUpgradeNodes};

use crate::canonical::minimise;
use good_situations::big_bound;
use items::{Game, Items};
use loads::{Loads, most_on_load};
use packing_witness::Packing;
use reachable_loads::pack;
use std::alloc::{AllocError, Global};
use strategy_text::{
    Act, AdvNode, AdvNodes, AlgNode, AlgNodes, Entries, Entry, Format, Nodes, Placement,
    Placements, Step, Strategy,
};

/// The canonical form of a strategy in format 2 that says the same as a legal one, and is legal: bursts of the least
/// number of items that suffices, packings only where all placements are over, and `big` with the fewest reserved bins.
/// Which packings there are is free. The time is that of the packings and of the canonical form.
///
/// # Errors
///
/// Where memory runs out.
pub fn upgrade(alloc: Global, strategy: &Strategy) -> Result<Strategy, AllocError>
    requires legal { IsLegal strategy.now }
    ensures upgrade { IfOk result (IsCanonicalUpgrade strategy.now) }
    ensures format { IfOk result (λ made. made.format ≡ Two) }
    ensures game { IfOk result (λ made. made.game ≡ strategy.now.game) }
    ensures side { IfOk result (λ made. side_of made.nodes ≡ side_of strategy.now.nodes) }
    ensures legal { IfOk result IsLegal }
    ensures distinct { IfOk result (λ made. AreDistinct (positions_in made.nodes)) }
    ensures reached { IfOk result (λ made. AreReached (references_in made.nodes)) }
    ensures number { IfOk result (λ made. length (nodes_of made.nodes) ≤ length (nodes_of strategy.now.nodes)) }
{
    let made = upgraded(alloc, strategy)?;
    minimise(alloc, &made)
}

/// The strategy in format 2. Where a node of the adversary sends an item, and so many more of its size are packable
/// that a load must reach the target, the node is a burst of the least such number; else it has no packing. Where a
/// node of the algorithm replies and its position meets the rule of the big finish, it says `big` with the fewest
/// reserved bins. The positions and the numbers of the nodes stay. Which packings there are is free.
///
/// # Errors
///
/// Where memory runs out.
fn upgraded(alloc: Global, strategy: &Strategy) -> Result<Strategy, AllocError>
    requires legal { IsLegal strategy.now }
    ensures upgrade { IfOk result (λ upgraded. IsUpgradeOf strategy.now upgraded) }
    ensures legal { IfOk result (λ upgraded. IsLegal upgraded) }
    ensures side { IfOk result (λ upgraded. side_of upgraded.nodes ≡ side_of strategy.now.nodes) }
    ensures number { IfOk result (λ upgraded.
        length (nodes_of upgraded.nodes) ≡ length (nodes_of strategy.now.nodes)) }
{
    Ok(Strategy {
        format: Format::Two,
        game: strategy.game,
        nodes: upgraded_nodes(alloc, &strategy.game, &strategy.nodes)?,
    })
}

fn upgraded_nodes(alloc: Global, game: &Game, nodes: &Nodes) -> Result<Nodes, AllocError>
    requires can { CanUpgradeNodes game.now nodes.now }
    ensures { IfOk result (λ news. UpgradesNodes game.now nodes.now news) }
{
    match nodes {
        Nodes::Adversary(list) => Ok(Nodes::Adversary(of_adversary(alloc, game, list.as_slice())?)),
        Nodes::Algorithm(list) => Ok(Nodes::Algorithm(of_algorithm(alloc, game, list.as_slice())?)),
    }
}

fn of_adversary(alloc: Global, game: &Game, nodes: &[AdvNode]) -> Result<AdvNodes, AllocError>
    requires can { All (CanUpgradeAdversary game.now) nodes.now }
    ensures { IfOk result (λ news. AllZip (UpgradesAdversary game.now) nodes.now news) }
{
    let mut news = AdvNodes::new(alloc);
    for node in nodes {
        news.push(adversary_node(alloc, game, node)?)?;
    }
    Ok(news)
}

fn of_algorithm(alloc: Global, game: &Game, nodes: &[AlgNode]) -> Result<AlgNodes, AllocError>
    requires can { All (CanUpgradeAlgorithm game.now) nodes.now }
    ensures { IfOk result (λ news. AllZip (UpgradesAlgorithm game.now) nodes.now news) }
{
    let mut news = AlgNodes::new(alloc);
    for node in nodes {
        news.push(algorithm_node(alloc, game, node)?)?;
    }
    Ok(news)
}

// ---- the adversary's

fn adversary_node(alloc: Global, game: &Game, node: &AdvNode) -> Result<AdvNode, AllocError>
    requires can { CanUpgradeAdversary game.now node.now }
    ensures { IfOk result (λ new. UpgradesAdversary game.now node.now new) }
{
    let step = adversary_step(alloc, game, node)?;
    Ok(AdvNode {
        loads: node.loads.copy()?,
        items: node.items.copy()?,
        step,
    })
}

fn adversary_step(alloc: Global, game: &Game, node: &AdvNode) -> Result<Step, AllocError>
    requires can { CanUpgradeAdversary game.now node.now }
    ensures { IfOk result (λ new. UpgradesStep game.now node.now node.now.step new) }
{
    match &node.step {
        Step::Send {
            size,
            placements,
            ..
        } => instead_of_send(alloc, game, node, *size, placements.as_slice()),
        Step::Burst { count, size, pack } => Ok(Step::Burst {
            count: *count,
            size: *size,
            pack: pack.copy()?,
        }),
    }
}

// The least burst where its items may come; else the same item without a packing.
fn instead_of_send(
    alloc: Global,
    game: &Game,
    node: &AdvNode,
    size: u16,
    placements: &[Placement],
) -> Result<Step, AllocError>
    requires loads { IsLoads game.now node.now.loads }
    requires items { IsMultiset game.now.capacity node.now.items }
    requires size { IsSize game.now.capacity size }
    ensures { IfOk result (λ new. UpgradesSend game.now size placements.now node.now new) }
{
    let loads = Loads::from_slice(alloc, game, node.loads.as_slice()).unwrap();
    let items = Items::from_slice(game, node.items.as_slice()).unwrap();
    let count = least_burst(game, size, &loads);
    match pack_with(alloc, game, &items, size, count)? {
        Some(pack) => Ok(Step::Burst { count, size, pack }),
        None => Ok(Step::Send {
            size,
            pack: None,
            placements: Placements::from_slice(alloc, placements)?,
        }),
    }
}

// The least number of items of this size of which one must reach the target.
fn least_burst(game: &Game, size: u16, loads: &Loads) -> u16
    requires loads { IsLoads game.now loads.now }
    requires size { 1 ≤ size }
    ensures value { result ≡ least_burst game.now size loads.now }
    ensures few { result ≤ 1913 }
{
    let mut most = 0u16;
    for load in loads.as_slice() {
        most += most_on_load(game, size, *load);
    }
    most + 1
}

// A packing of the items with so many more of one size; None exactly where they do not fit.
fn pack_with(
    alloc: Global,
    game: &Game,
    items: &Items,
    size: u16,
    count: u16,
) -> Result<Option<Packing>, AllocError>
    requires size { IsSize game.now.capacity size }
    ensures { IfOk result (λ found. MatchOption found
        (Packable game.now (items.now ++ replicate count size) → ⊥)
        (λ packing. IsPacking game.now packing (items.now ++ replicate count size))) }
{
    let total = u32::from(items.volume()) + u32::from(count) * u32::from(size);
    if total > u32::from(game.m() * game.g()) {
        return Ok(None);
    }
    let found = pack(alloc, game, &items.add_times(size, count))?;
    Ok(found)
}

// ---- the algorithm's

fn algorithm_node(alloc: Global, game: &Game, node: &AlgNode) -> Result<AlgNode, AllocError>
    requires can { CanUpgradeAlgorithm game.now node.now }
    ensures { IfOk result (λ new. UpgradesAlgorithm game.now node.now new) }
{
    let act = algorithm_act(alloc, game, node)?;
    Ok(AlgNode {
        loads: node.loads.copy()?,
        items: node.items.copy()?,
        act,
    })
}

fn algorithm_act(alloc: Global, game: &Game, node: &AlgNode) -> Result<Act, AllocError>
    requires can { CanUpgradeAlgorithm game.now node.now }
    ensures { IfOk result (λ new. UpgradesAct game.now node.now node.now.act new) }
{
    match &node.act {
        Act::Finish => Ok(Act::Finish),
        Act::Big(b) => Ok(Act::Big(*b)),
        Act::Reply(entries) => instead_of_replies(alloc, game, node, entries.as_slice()),
    }
}

// The big finish with the fewest reserved bins where there is one; else the same replies.
fn instead_of_replies(
    alloc: Global,
    game: &Game,
    node: &AlgNode,
    entries: &[Entry],
) -> Result<Act, AllocError>
    requires can { CanUpgradeAlgorithm game.now node.now }
    ensures { IfOk result (λ new. UpgradesReply game.now entries.now node.now new) }
{
    let loads = Loads::from_slice(alloc, game, node.loads.as_slice()).unwrap();
    let items = Items::from_slice(game, node.items.as_slice()).unwrap();
    match big_bound(game, &loads, &items) {
        Some(b) => Ok(Act::Big(b)),
        None => Ok(Act::Reply(Entries::from_slice(alloc, entries)?)),
    }
}
