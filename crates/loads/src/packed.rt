//! Positions that are kept in number. One of at most 23 loads and items takes 40 bytes and no memory besides.

ghost use Rattle.std.specs.Prelude.{◌≡◌, IfOk};
ghost use Rattle.loads.specs.Position.{position};

use crate::bytes::{Bytes, items_of, pack, parts, position_of};
use crate::position::Position;
use crate::sorted_loads::Loads;
use items::Items;
use std::alloc::{AllocError, Global};
use std::hash::{Hash, Hasher};
use std::marker::Model;
use std::mem::size_of;

/// A position in one byte for each load and each item and one more, seen by clauses as the position. Up to 24 bytes
/// lie inline; for more of them memory is taken.
#[derive(Debug, Drop)]
pub struct PackedPosition {
    bytes: Bytes,
}

impl Model for PackedPosition {
    ghost use Rattle.loads.specs.declared.position.Position.{Position};
    ghost use Rattle.loads.specs.Packed.{ArePositionBytes, position_in};

    ghost Value = { Position };

    ghost view = { λ a. position_in a.bytes.items };

    ghost invariant = { λ a. ArePositionBytes a.bytes.items };
}

impl PackedPosition {
    /// The position of these loads and items.
    pub fn of(alloc: Global, loads: &Loads, items: &Items) -> Result<PackedPosition, AllocError>
        ensures ok { IfOk result (λ made. made ≡ position loads.now items.now) }
    {
        Ok(PackedPosition {
            bytes: pack(alloc, loads, items)?,
        })
    }

    /// The position. Takes no memory.
    pub fn position(&self) -> Position
        ensures value { result ≡ self.now }
    {
        position_of(*self.bytes.allocator(), self.bytes.as_slice())
    }

    /// The loads. Takes no memory.
    pub fn loads(&self) -> Loads
        ensures value { result ≡ self.now.loads }
    {
        Loads::from_bytes(*self.bytes.allocator(), parts(self.bytes.as_slice()).0)
    }

    /// The items. Takes no memory.
    pub fn items(&self) -> Items
        ensures value { result ≡ self.now.items }
    {
        items_of(parts(self.bytes.as_slice()).1)
    }

    /// A copy of the position.
    pub fn copy(&self) -> Result<PackedPosition, AllocError>
        ensures ok { IfOk result (λ made. made ≡ self.now) }
    {
        Ok(PackedPosition {
            bytes: Bytes::from_slice(*self.bytes.allocator(), self.bytes.as_slice())?,
        })
    }
}

impl PartialEq for PackedPosition {
    ghost use Rattle.loads.specs.Position.{are_equal};
    ghost use Rattle.std.specs.Cmp.Rules.{comparing};
    ghost use Rattle.std.proofs.Common.{rules};

    ghost eq = { are_equal };

    ghost laws = { Prim.search (comparing, rules) };

    fn eq(&self, other: &PackedPosition) -> bool {
        self.bytes.as_slice() == other.bytes.as_slice()
    }
}

impl Eq for PackedPosition {
    ghost use Rattle.std.specs.Cmp.Rules.{comparing};
    ghost use Rattle.std.proofs.Common.{rules};

    ghost laws = { Prim.search (comparing, rules) };
}

impl Hash for PackedPosition {
    ghost use Rattle.std.specs.Prelude.{◌∷◌, []};
    ghost use Rattle.std.specs.Cmp.Rules.{hashing};
    ghost use Rattle.std.proofs.Common.{rules};
    ghost use Rattle.loads.specs.Packed.{bytes_of};

    ghost hash_input = { λ position. bytes_of position ∷ [] };

    ghost respects_eq = { Prim.search (hashing, rules) };

    fn hash<H: Hasher>(&self, state: &mut H) {
        state.write(self.bytes.as_slice());
    }
}

// Packed positions are kept by the million.
const _: () = prove!(size_of::<PackedPosition>() <= 40);
