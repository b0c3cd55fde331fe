//! Moves and paths of moves, and the order in which a search visits paths.

ghost use Rattle.std.specs.Prelude.{◌≡◌, ◌↔◌, ◌<◌, [], ◌∷◌, ◌++◌, length, IsTrue, IfOk, OnOk, OnErr, MatchOption};
ghost use Rattle.monotone.specs.Paths.{ComesBefore, IsEarlierMove};

use std::alloc::{AllocError, Global};
use std::marker::Model;

/// One move: an item goes to a bin that has this load. Both are on the scale of the capacity.
#[derive(Clone, Copy, PartialEq, Eq, Debug)]
pub struct PathMove {
    /// The size of the item.
    pub item: u16,
    /// The load of the bin before the item.
    pub load: u16,
}

/// A path: the moves from the position with no items, in their order. Clauses see the list of the moves.
#[derive(Debug, Drop)]
pub struct Path {
    moves: Vec<PathMove>,
}

impl Model for Path {
    ghost use Rattle.std.specs.Prelude.{List};
    ghost use Rattle.monotone.specs.declared.path.PathMove.{PathMove};

    ghost Value = { List PathMove };

    ghost view = { λ a. a.moves.items };
}

impl PathMove {
    // Whether this move comes first: the larger item, and of equal items the one that goes to the larger load.
    fn before(&self, other: &PathMove) -> bool
        ensures { IsTrue result ↔ IsEarlierMove self.now other.now }
    {
        self.item > other.item || (self.item == other.item && self.load > other.load)
    }
}

impl Path {
    /// The path without moves. Takes no memory.
    pub fn new(alloc: Global) -> Path
        ensures none { result ≡ [] }
    {
        Path {
            moves: Vec::new(alloc),
        }
    }

    /// The moves in their order.
    pub fn as_slice(&self) -> &[PathMove]
        ensures value { result.now ≡ self.now }
    {
        self.moves.as_slice()
    }

    /// How many moves there are.
    pub fn len(&self) -> usize
        ensures value { result ≡ length self.now }
    {
        self.moves.len()
    }

    /// Whether there are no moves.
    pub fn is_empty(&self) -> bool
        ensures value { IsTrue result ↔ (self.now ≡ []) }
    {
        self.moves.is_empty()
    }

    /// Puts a move at the end. Where memory is refused, the path stays as it was.
    pub fn push(&mut self, step: PathMove) -> Result<(), AllocError>
        ensures ok { OnOk result (self.new ≡ self.old ++ step ∷ []) }
        ensures err { OnErr result (self.new ≡ self.old) }
    {
        self.moves.push(step)?;
        Ok(())
    }

    /// Takes the last move off; None exactly where there is none. Takes no memory.
    pub fn pop(&mut self) -> Option<PathMove>
        ensures exact { MatchOption result
            ((self.old ≡ []) × (self.new ≡ []))
            (λ step. self.old ≡ self.new ++ step ∷ []) }
    {
        self.moves.pop()
    }

    /// A path of the same moves.
    pub fn copy(&self) -> Result<Path, AllocError>
        ensures ok { IfOk result (λ made. made ≡ self.now) }
    {
        Ok(Path {
            moves: Vec::from_slice(*self.moves.allocator(), self.moves.as_slice())?,
        })
    }

    /// Whether this path comes before the other in the order of a search: a proper prefix does; else, at the first
    /// difference, the larger item does, and of equal items the one that goes to the larger load. Takes no memory.
    pub fn before(&self, other: &Path) -> bool
        ensures order { IsTrue result ↔ ComesBefore self.now other.now }
    {
        let others = other.as_slice();
        let mine = self.as_slice();
        for (i, step) in mine.iter().enumerate() {
            if i == others.len() {
                return false;
            }
            if *step != others[i] {
                return step.before(&others[i]);
            }
        }
        mine.len() < others.len()
    }

    // Makes this path one of the same moves as the other; memory is asked only where the other is longer than the
    // storage. Where it is refused, the path stays as it was.
    pub(crate) fn set_to(&mut self, other: &Path) -> Result<(), AllocError>
        ensures ok { OnOk result (self.new ≡ other.now) }
        ensures err { OnErr result (self.new ≡ self.old) }
    {
        let moves = other.moves.as_slice();
        // The usual case in a search, whose paths follow each other at one depth.
        if moves.len() == self.moves.len() {
            self.moves.copy_from_slice(moves);
            return Ok(());
        }
        self.moves
            .reserve(moves.len().saturating_sub(self.moves.len()))?;
        self.moves.clear();
        self.moves.extend_from_slice(moves).unwrap();
        Ok(())
    }
}
