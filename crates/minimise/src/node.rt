//! What nodes of both sides have in common.

ghost use Rattle.std.specs.Prelude.{◌≡◌, ◌<◌, ℕ, List, IfOk, All, length, slice_index};
ghost use Rattle.items.specs.Multiset.{IsMultiset};
ghost use Rattle.loads.specs.Loads.{IsLoads};
ghost use Rattle.loads.specs.Position.{position};
ghost use Rattle.loads.specs.declared.position.Position.{Position};
ghost use Rattle.node_pool.specs.Pools.{IsPositionOf};

use items::{Game, Items, Nums};
use loads::{Loads, PackedPosition};
use std::alloc::AllocError;

/// A node of a strategy: a position, and references to other nodes.
pub(crate) trait Node: Drop {
    // Its position.
    ghost position_of: { Self → Position };

    // The numbers of the nodes that it leads to, in the order in which it lists them.
    ghost references_of: { Self → List ℕ };

    // The node with each of its references renamed.
    ghost renamed_by: { (ℕ → ℕ) → Self → Self };

    /// The position.
    fn position(&self, game: &Game) -> Result<PackedPosition, AllocError>
        requires { IsPositionOf game.now (position_of self.now) }
        ensures { IfOk result (λ made. made ≡ position_of self.now) };

    /// The numbers of the nodes that it leads to.
    fn references(&self) -> Result<Vec<u32>, AllocError>
        ensures { IfOk result (λ made. made.items ≡ references_of self.now) };

    /// A copy, in which each reference is the new number of its node.
    fn renumbered(&self, numbers: &[u32]) -> Result<Self, AllocError>
        requires { All (λ number. number < length numbers.now) (references_of self.now) }
        ensures { IfOk result (λ made. made ≡ renamed_by (slice_index numbers.now) self.now) };
}

/// The position of these loads and items.
pub(crate) fn packed(game: &Game, loads: &Nums, items: &Nums) -> Result<PackedPosition, AllocError>
    requires { IsPositionOf game.now (position loads.now items.now) }
    ensures { IfOk result (λ made. made ≡ position loads.now items.now) }
{
    let alloc = loads.allocator();
    let loads = Loads::from_slice(alloc, game, loads.as_slice()).unwrap();
    let items = Items::from_slice(game, items.as_slice()).unwrap();
    PackedPosition::of(alloc, &loads, &items)
}
