//! Strategies, their nodes and the parts of nodes.

ghost use Rattle.std.specs.Prelude.{◌≡◌, [], None, length};
ghost use Rattle.strategy_text.specs.declared.node.Act.TheVariants.{Finish};
ghost use Rattle.strategy_text.specs.declared.node.Step.TheVariants.{Send};
ghost use Rattle.strategy_text.specs.Text.{side_word, nodes_of, side_of};

use items::{Game, Nums, Sequence};
use packing_witness::Packing;
use std::alloc::Global;

/// The format of a strategy's text. Format 2 has nodes that format 1 has not.
#[derive(Clone, Copy, Debug, PartialEq, Eq)]
pub enum Format {
    /// Each node of the adversary sends one item and has a packing.
    One,
    /// A node of the adversary may have no packing, or may send several equal items; a node of the
    /// algorithm may keep bins for big items.
    Two,
}

/// Whose strategy it is.
#[derive(Clone, Copy, Debug, PartialEq, Eq)]
pub enum Side {
    /// The adversary's, which is to force every algorithm to the target.
    Adversary,
    /// The algorithm's, whose replies are to keep every load below the target.
    Algorithm,
}

impl Side {
    /// The word for the side in a text, as in the line `side adversary`.
    pub fn word(self) -> &'static str
        ensures value { result.now ≡ side_word self }
    {
        match self {
            Side::Adversary => "adversary",
            Side::Algorithm => "algorithm",
        }
    }
}

/// What follows when the sent item goes to a bin.
#[derive(Clone, Copy, Debug, PartialEq, Eq)]
pub enum Then {
    /// The load reaches the target, and the adversary has won.
    Over,
    /// The play goes on at the node of this number.
    To(u32),
}

/// What follows when the sent item goes to a bin of this load.
#[derive(Clone, Copy, Debug, PartialEq, Eq)]
pub struct Placement {
    /// The load of the bin before the item.
    pub load: u16,
    /// What follows.
    pub next: Then,
}

/// The placements of a node.
pub type Placements = Sequence<Placement>;

/// What a node of the adversary sends.
#[derive(Drop)]
pub enum Step {
    /// One item.
    Send {
        /// The size of the item.
        size: u16,
        /// A packing of the items together with the sent one.
        pack: Option<Packing>,
        /// What follows for each distinct load, from the greatest.
        placements: Placements,
    },
    /// Equal items, one after the other, to the end of the play.
    Burst {
        /// How many items.
        count: u16,
        /// The size of each.
        size: u16,
        /// A packing of the items together with those of the burst.
        pack: Packing,
    },
}

/// A node of an adversary's strategy: a position, and what to send there. Sizes and loads are on the
/// scale of the capacity. That the parts are as they are called is what the rules ask.
#[derive(Drop)]
pub struct AdvNode {
    /// The loads of the bins, descending.
    pub loads: Nums,
    /// The items so far, ascending.
    pub items: Nums,
    /// What is sent.
    pub step: Step,
}

impl AdvNode {
    /// A node without loads or items, which sends size 0 and has no placements. Takes no memory.
    pub fn empty(alloc: Global) -> AdvNode
        ensures loads { result.loads ≡ [] }
        ensures items { result.items ≡ [] }
        ensures step { result.step ≡ Send 0 None [] }
    {
        AdvNode {
            loads: Sequence::new(alloc),
            items: Sequence::new(alloc),
            step: Step::Send {
                size: 0,
                pack: None,
                placements: Sequence::new(alloc),
            },
        }
    }
}

/// The nodes of an adversary's strategy; the last is the root.
pub type AdvNodes = Sequence<AdvNode>;

/// The reply to an item that may come.
#[derive(Clone, Copy, Debug, PartialEq, Eq)]
pub struct Entry {
    /// The size of the item.
    pub size: u16,
    /// The load, before the item, of the bin that it goes to.
    pub load: u16,
    /// The number of the node at which the play goes on.
    pub to: u32,
}

/// The replies of a node.
pub type Entries = Sequence<Entry>;

/// What a node of the algorithm does with the items that come.
#[derive(Drop)]
pub enum Act {
    /// All items that come go into the bins by the rule of the finish.
    Finish,
    /// All items that come go into the bins by the rule of the big finish, which keeps so many bins for
    /// items larger than half the capacity.
    Big(u16),
    /// The next item is placed as the entry of its size says; the sizes ascend.
    Reply(Entries),
}

/// A node of an algorithm's strategy: a position, and what is done there. Sizes and loads are on the
/// scale of the capacity. That the parts are as they are called is what the rules ask.
#[derive(Drop)]
pub struct AlgNode {
    /// The loads of the bins, descending.
    pub loads: Nums,
    /// The items so far, ascending.
    pub items: Nums,
    /// What is done.
    pub act: Act,
}

impl AlgNode {
    /// A node without loads or items, which finishes. Takes no memory.
    pub fn empty(alloc: Global) -> AlgNode
        ensures loads { result.loads ≡ [] }
        ensures items { result.items ≡ [] }
        ensures act { result.act ≡ Finish }
    {
        AlgNode {
            loads: Sequence::new(alloc),
            items: Sequence::new(alloc),
            act: Act::Finish,
        }
    }
}

/// The nodes of an algorithm's strategy; the last is the root.
pub type AlgNodes = Sequence<AlgNode>;

/// The nodes of a strategy of either side.
#[derive(Drop)]
pub enum Nodes {
    /// The adversary's.
    Adversary(AdvNodes),
    /// The algorithm's.
    Algorithm(AlgNodes),
}

impl Nodes {
    /// How many nodes there are.
    pub fn len(&self) -> usize
        ensures value { result ≡ length (nodes_of self.now) }
    {
        match self {
            Nodes::Adversary(list) => list.len(),
            Nodes::Algorithm(list) => list.len(),
        }
    }

    /// Whose nodes they are.
    pub fn side(&self) -> Side
        ensures value { result ≡ side_of self.now }
    {
        match self {
            Nodes::Adversary(_) => Side::Adversary,
            Nodes::Algorithm(_) => Side::Algorithm,
        }
    }
}

/// A strategy of either side for a game.
#[derive(Drop)]
pub struct Strategy {
    /// The format of its text.
    pub format: Format,
    /// The game.
    pub game: Game,
    /// The nodes, in the order of their numbers from 0.
    pub nodes: Nodes,
}
