//! Which node stands for each node.

ghost use Rattle.std.specs.Prelude.{◌≡◌, ◌≤◌, All, IfOk, OnOk, None, Some, if◌then◌else◌, length, map, unwrap_or};
ghost use Rattle.std.specs.Option.{option_or};
ghost use Rattle.indexmap.specs.IndexMap.{get};
ghost use Rattle.loads.specs.Position.{are_equal};
ghost use Rattle.loads.specs.declared.position.Position.{Position};
ghost use Rattle.strategy_text.specs.Spelling.{most_nodes};
ghost use Rattle.minimise.specs.Canonical.{representatives};
ghost use Rattle.node_pool.specs.Pools.{IsPositionOf};

use crate::node::Node;
use indexmap::IndexMap;
use items::Game;
use loads::PackedPosition;
use std::alloc::{AllocError, Global};

/// The least number at which each node's position stands.
pub(crate) fn least_numbers<N: Node>(
    alloc: Global,
    game: &Game,
    nodes: &[N],
) -> Result<Vec<u32>, AllocError>
    requires of_game { All (λ node. IsPositionOf game.now (N.position_of node)) nodes.now }
    requires few { length nodes.now ≤ most_nodes }
    ensures { IfOk result (λ made. made.items ≡ representatives (map N.position_of nodes.now)) }
{
    let mut index = IndexMap::new(alloc);
    let mut least = Vec::new(alloc);
    for node in nodes {
        let number = least.len() as u32;
        least.push(number_of(&mut index, node.position(game)?, number)?)?;
    }
    Ok(least)
}

// The number that a position has in the index; a new position gets this one.
fn number_of(
    index: &mut IndexMap<PackedPosition, u32>,
    position: PackedPosition,
    number: u32,
) -> Result<u32, AllocError>
    ensures found { IfOk result (λ found. found ≡ unwrap_or (get are_equal index.old position) number) }
    ensures index { OnOk result ((other : Position) → get are_equal index.new other
        ≡ option_or (get are_equal index.old other) (if are_equal position other then Some number else None)) }
{
    if let Some(found) = index.get(&position) {
        return Ok(*found);
    }
    index.insert(position, number)?;
    Ok(number)
}
