//! Lists that grow at their end.

ghost use Rattle.std.specs.Prelude.{◌≡◌, ◌↔◌, [], ◌∷◌, ◌++◌, length, replicate, slice_get, take, IsTrue, IfOk, OnOk};
ghost use Rattle.std.specs.Prelude.{OnErr};
ghost use Rattle.std.specs.Option.{option_copied};

use std::alloc::{AllocError, Global};
use std::marker::Model;

/// A list that grows at its end and that clauses see as the list of its elements.
#[derive(Drop)]
pub struct Sequence<T> {
    elements: Vec<T>,
}

/// A list of numbers: sizes, loads or totals, on the scale of the capacity.
pub type Nums = Sequence<u16>;

impl<T> Model for Sequence<T> {
    ghost use Rattle.std.specs.Prelude.{List};

    ghost Value = { List T };

    ghost view = { λ a. a.elements.items };
}

impl<T> Sequence<T> {
    /// The empty list. Takes no memory.
    pub fn new(alloc: Global) -> Self
        ensures empty { result ≡ [] }
    {
        Sequence {
            elements: Vec::new(alloc),
        }
    }

    /// The elements in their order.
    pub fn as_slice(&self) -> &[T]
        ensures value { result.now ≡ self.now }
    {
        self.elements.as_slice()
    }

    /// How many elements there are.
    pub fn len(&self) -> usize
        ensures value { result ≡ length self.now }
    {
        self.elements.len()
    }

    /// Whether there are no elements.
    pub fn is_empty(&self) -> bool
        ensures value { IsTrue result ↔ (self.now ≡ []) }
    {
        self.elements.is_empty()
    }

    /// The allocator that the list was made with.
    pub fn allocator(&self) -> Global {
        *self.elements.allocator()
    }

    /// The element at a place, counted from 0; None exactly where there is none.
    pub fn get(&self, i: usize) -> Option<&T>
        ensures value { option_copied result ≡ slice_get self.now i }
    {
        self.elements.get(i)
    }
}

impl<T: Drop> Sequence<T> {
    /// Puts an element at the end. Where memory is refused, the list stays as it was and the element is dropped.
    pub fn push(&mut self, element: T) -> Result<(), AllocError>
        ensures ok { OnOk result (self.new ≡ self.old ++ element ∷ []) }
        ensures err { OnErr result (self.new ≡ self.old) }
    {
        self.elements.push(element)?;
        Ok(())
    }

    /// Drops the elements from a place on, counted from 0. Takes no memory.
    pub fn truncate(&mut self, n: usize)
        ensures kept { self.new ≡ take n self.old }
    {
        self.elements.truncate(n);
    }
}

impl<T: Copy + Drop> Sequence<T> {
    /// The list of these elements.
    pub fn from_slice(alloc: Global, list: &[T]) -> Result<Self, AllocError>
        ensures ok { IfOk result (λ made. made ≡ list.now) }
    {
        Ok(Sequence {
            elements: Vec::from_slice(alloc, list)?,
        })
    }

    /// A list of the same elements.
    pub fn copy(&self) -> Result<Self, AllocError>
        ensures ok { IfOk result (λ made. made ≡ self.now) }
    {
        Ok(Sequence {
            elements: Vec::from_slice(*self.elements.allocator(), self.elements.as_slice())?,
        })
    }

    /// Puts an element at the end `n` times.
    pub fn push_times(&mut self, element: T, n: u16) -> Result<(), AllocError>
        ensures ok { OnOk result (self.new ≡ self.old ++ replicate n element) }
    {
        for _i in 0..n {
            self.elements.push(element)?;
        }
        Ok(())
    }
}
