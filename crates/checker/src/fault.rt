//! What a check comes to.

ghost use Rattle.std.specs.Prelude.{◌≡◌};
ghost use Rattle.checker.specs.declared.fault.CheckFault.TheVariants.{Memory};

use items::{Game, Sizes};
use std::alloc::{AllocError, AllocFailed};
use strategy_text::{Rule, Side};
use thiserror::Error;

/// What is wrong with a line.
#[derive(Clone, Copy, Debug, PartialEq, Eq)]
pub enum Why {
    /// The line is missing, unfinished, too long, or not of the form of its place.
    Syntax,
    /// The line breaks this rule, the first in their order.
    Rule(Rule),
    /// The line breaks the rule `sizes`: its list is empty, does not strictly ascend, or has a number that is no size
    /// of the game. Only a text with listed sizes has this rule.
    Sizes,
}

/// Which side of a strategy is wanted.
#[derive(Clone, Copy, Debug, PartialEq, Eq)]
pub enum Wanted {
    /// Either side.
    Either,
    /// This side alone.
    Only(Side),
}

/// Which head lines a text is to have.
#[derive(Clone, Copy, Debug, PartialEq, Eq)]
pub enum Heading {
    /// The four of a strategy, of a wanted side.
    Strategy(Wanted),
    /// The five of a strategy with listed sizes, of either side.
    Listed,
}

/// Why a text was not accepted.
#[derive(Debug, Drop, Error)]
pub enum CheckFault {
    /// The text has this first fault, in this line, counted from 1.
    #[error("line {line} has a fault")]
    Rejected {
        /// The line, counted from 1.
        line: u64,
        /// What is wrong with it.
        why: Why,
    },
    /// A read failed.
    #[error("a read failed")]
    Read,
    /// Memory was refused.
    #[error("memory was refused")]
    Memory,
}

impl From<AllocError> for CheckFault {
    ghost from_gives = { λ _ fault. fault ≡ Memory };

    fn from(_error: AllocError) -> CheckFault {
        CheckFault::Memory
    }
}

impl<T: Drop> From<AllocFailed<T>> for CheckFault {
    ghost from_gives = { λ _ fault. fault ≡ Memory };

    fn from(_error: AllocFailed<T>) -> CheckFault {
        CheckFault::Memory
    }
}

/// A legal strategy that was read: its game, its side, and how many nodes it has.
#[derive(Clone, Copy)]
pub struct Accepted {
    /// The game.
    pub game: Game,
    /// Whose strategy it is.
    pub side: Side,
    /// How many nodes it has.
    pub nodes: u32,
}

/// A legal strategy with listed sizes that was read: its game, the sizes, its side, and how many nodes it has.
#[derive(Drop)]
pub struct AcceptedListed {
    /// The game.
    pub game: Game,
    /// The sizes that items may have.
    pub sizes: Sizes,
    /// Whose strategy it is.
    pub side: Side,
    /// How many nodes it has.
    pub nodes: u32,
}
