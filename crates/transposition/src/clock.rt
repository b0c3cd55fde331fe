//! The marks of a table's entries, and the hand that goes round them.

ghost use Rattle.std.specs.Prelude.{◌≡◌, ◌↔◌, ◌<◌, ◌≤◌, ◌++◌, ◌∷◌, [], true, false, length, slice_set, IsTrue, OnOk};
ghost use Rattle.transposition.specs.Clock.{StopsAt, next_place};

use std::alloc::{AllocError, Global};
use std::marker::Model;

/// A mark for each place of a table, and a hand that goes round the places.
#[derive(Drop)]
pub(crate) struct Clock {
    marks: Vec<bool>,
    hand: usize,
}

impl Model for Clock {
    ghost use Rattle.std.specs.Prelude.{◌≤◌, ◌-◌, length, vec_capacity};
    ghost use Rattle.transposition.specs.Clock.{Marks, marks_at};

    ghost Value = { Marks };

    ghost view = { λ a. marks_at a.marks.items a.hand (vec_capacity a.marks - length a.marks.items) };

    ghost invariant = { λ a. a.hand ≤ length a.marks.items - 1 };
}

impl Clock {
    /// No places. Takes no memory.
    pub(crate) fn new(alloc: Global) -> Clock
        ensures none { result.marks ≡ [] }
        ensures start { result.hand ≡ 0 }
    {
        Clock {
            marks: Vec::new(alloc),
            hand: 0,
        }
    }

    /// Whether there is room for one more place.
    pub(crate) fn has_room(&self) -> bool
        ensures { IsTrue result ↔ (0 < self.now.room) }
    {
        self.marks.len() < self.marks.capacity()
    }

    /// Makes room for so many more places. Where memory is refused, the places stay.
    pub(crate) fn reserve(&mut self, more: usize) -> Result<(), AllocError>
        ensures ok { OnOk result (more ≤ self.new.room) }
        ensures marks { self.new.marks ≡ self.old.marks }
        ensures hand { self.new.hand ≡ self.old.hand }
    {
        self.marks.reserve_exact(more)
    }

    /// One more place, without a mark.
    pub(crate) fn add(&mut self)
        requires { 0 < self.old.room }
        ensures marks { self.new.marks ≡ self.old.marks ++ false ∷ [] }
        ensures hand { self.new.hand ≡ self.old.hand }
    {
        self.marks.push_reserved(false);
    }

    /// Marks a place.
    pub(crate) fn mark(&mut self, place: usize)
        requires { place < length self.old.marks }
        ensures marks { self.new.marks ≡ slice_set self.old.marks place true }
        ensures hand { self.new.hand ≡ self.old.hand }
    {
        self.marks[place] = true;
    }

    /// The first place without a mark, from the hand on round; the marks that are passed are cleared, and the hand
    /// stops there.
    pub(crate) fn stop(&mut self) -> usize
        requires { 0 < length self.old.marks }
        ensures within { result < length self.old.marks }
        ensures number { length self.new.marks ≡ length self.old.marks }
        ensures stopped { StopsAt self.old self.new result }
    {
        while self.marks[self.hand] {
            self.marks[self.hand] = false;
            self.hand = following(self.marks.len(), self.hand);
        }
        self.hand
    }

    /// The hand goes on to the next place.
    pub(crate) fn pass(&mut self)
        requires { 0 < length self.old.marks }
        ensures marks { self.new.marks ≡ self.old.marks }
        ensures hand { self.new.hand ≡ next_place (length self.old.marks) self.old.hand }
    {
        self.hand = following(self.marks.len(), self.hand);
    }
}

// The place that follows on the way round.
fn following(number: usize, place: usize) -> usize
    requires { place < number }
    ensures { result ≡ next_place number place }
{
    if place + 1 == number { 0 } else { place + 1 }
}
