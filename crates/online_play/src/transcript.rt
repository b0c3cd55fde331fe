//! Players by name, and what a play leaves behind.

ghost use Rattle.std.specs.Prelude.{◌≡◌, IfOk};

use crate::online::Online;
use items::{Nums, Sequence};
use packing_witness::Packing;
use std::alloc::{AllocError, Global};
use std::marker::Model;

/// A text that names something. Clauses see it as its bytes.
#[derive(Drop)]
pub struct Name {
    text: String,
}

impl Model for Name {
    ghost use Rattle.std.specs.Prelude.{ℕ, List};
    ghost use Rattle.std.specs.String.{string_bytes};

    ghost Value = { List ℕ };

    ghost view = { λ a. string_bytes a.text };
}

impl Name {
    /// The name of this text.
    pub fn new(alloc: Global, name: &str) -> Result<Name, AllocError>
        ensures same { IfOk result (λ made. made ≡ name.now) }
    {
        Ok(Name {
            text: String::from_str(alloc, name)?,
        })
    }

    /// The text. Takes no memory.
    pub fn as_str(&self) -> &str
        ensures value { result.now ≡ self.now }
    {
        self.text.as_str()
    }
}

/// A player under its name.
#[derive(Drop)]
pub struct Player {
    /// What it is asked for by.
    pub name: Name,
    /// How it plays.
    pub player: Box<dyn Online>,
}

/// The numbers of bins, from 0, one for each item of a list.
pub type Bins = Sequence<u8>;

/// A play: the items that were sent, the bin of each, the loads by bin number after the last one, and a packing
/// of the items.
#[derive(Drop)]
pub struct Transcript {
    /// The sizes of the items, in the order in which they were sent.
    pub items: Nums,
    /// The bin of each item, the bins being numbered from 0.
    pub bins: Bins,
    /// The loads by bin number after the last item.
    pub loads: Nums,
    /// How the items fit into bins of the capacity.
    pub packing: Packing,
}
