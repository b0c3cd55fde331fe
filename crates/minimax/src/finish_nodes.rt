//! The nodes that finish, by their positions.

ghost use Rattle.std.specs.Prelude.{◌≡◌, ◌<◌, ◌≤◌, [], None, Some, IfOk, OnOk, if◌then◌else◌};
ghost use Rattle.loads.specs.Position.{are_equal};
ghost use Rattle.transposition.specs.Bounded.{found};

use indexmap::IndexMap;
use std::alloc::{AllocError, Global};
use std::marker::Model;
use transposition::Key;

/// What the verdict of a position that finishes has in place of a node's number: no node has it.
pub(crate) const FINISHES: u32 = 4294967295;

/// The numbers of the nodes that finish, by their positions.
#[derive(Drop)]
pub(crate) struct FinishNodes {
    numbers: IndexMap<Key, u32>,
}

impl Model for FinishNodes {
    ghost use Rattle.std.specs.Prelude.{ℕ, List};
    ghost use Rattle.loads.specs.declared.position.Position.{Position};

    ghost Value = { List (Position × ℕ) };

    ghost view = { λ a. a.numbers.entries };
}

impl FinishNodes {
    /// No nodes. Takes no memory.
    pub(crate) fn new(alloc: Global) -> FinishNodes
        ensures none { result ≡ [] }
    {
        FinishNodes {
            numbers: IndexMap::new(alloc),
        }
    }

    /// The number of the node at a position; None exactly where there is none.
    pub(crate) fn number(&self, key: &Key) -> Option<u32>
        ensures value { result ≡ found are_equal self.now key.now }
    {
        self.numbers.get(key).copied()
    }

    /// Puts the number of the node at a position.
    pub(crate) fn put(&mut self, key: Key, number: u32) -> Result<(), AllocError>
        ensures put { OnOk result ((other : _) → found are_equal self.new other
            ≡ (if are_equal key other then Some number else found are_equal self.old other)) }
    {
        self.numbers.insert(key, number)?;
        Ok(())
    }
}
