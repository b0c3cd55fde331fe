//! The nodes that are kept, in their new order.

ghost use Rattle.std.specs.Prelude.{◌≡◌, ◌↔◌, ◌<◌, ◌≤◌, ◌++◌, ◌∷◌, ◌==◌, [], Contains, IfOk, IsTrue, OnOk};
ghost use Rattle.std.specs.Prelude.{length, position};
ghost use Rattle.strategy_text.specs.Spelling.{most_nodes};
ghost use Rattle.minimise.specs.Ordering.{ordering, IsOrdering};

use std::alloc::{AllocError, Global};
use std::marker::Model;

/// Some of the numbers below a count, each once, in an order; the place of each is at hand.
#[derive(Drop)]
pub(crate) struct Order {
    numbers: Vec<u32>,
    places: Vec<Option<u32>>,
}

impl Model for Order {
    ghost use Rattle.std.specs.Prelude.{length};
    ghost use Rattle.minimise.specs.Ordering.{Ordering, ordering, IsPlaced};

    ghost Value = { Ordering };

    ghost view = { λ a. ordering a.numbers.items (length a.places.items) };

    ghost invariant = { λ a. IsPlaced a.numbers.items a.places.items };
}

impl Order {
    /// No numbers, of those below a count.
    pub(crate) fn new(alloc: Global, count: usize) -> Result<Order, AllocError>
        requires { count ≤ most_nodes }
        ensures { IfOk result (λ made. made ≡ ordering [] count) }
    {
        let mut places = Vec::with_capacity(alloc, count)?;
        for _number in 0..count {
            places.push(None)?;
        }
        Ok(Order {
            numbers: Vec::new(alloc),
            places,
        })
    }

    /// The numbers in their order.
    pub(crate) fn numbers(&self) -> &[u32]
        ensures value { result.now ≡ self.now.numbers }
        ensures legal { IsOrdering self.now }
    {
        self.numbers.as_slice()
    }

    /// How many numbers there are.
    pub(crate) fn len(&self) -> u32
        ensures { result ≡ length self.now.numbers }
    {
        self.numbers.len() as u32
    }

    /// The place of a number; None exactly where it has none.
    pub(crate) fn place(&self, number: u32) -> Option<u32>
        requires { number < self.now.count }
        ensures { result ≡ position (λ other. other == number) self.now.numbers }
    {
        self.places[number as usize]
    }

    /// Whether a number is there.
    pub(crate) fn contains(&self, number: u32) -> bool
        requires { number < self.now.count }
        ensures value { IsTrue result ↔ Contains self.now.numbers number }
        ensures legal { IsOrdering self.now }
    {
        self.places[number as usize].is_some()
    }

    /// Puts a number at the end.
    pub(crate) fn push(&mut self, number: u32) -> Result<(), AllocError>
        requires below { number < self.old.count }
        requires new { ¬ Contains self.old.numbers number }
        ensures { OnOk result (self.new ≡ ordering (self.old.numbers ++ number ∷ []) self.old.count) }
    {
        let place = self.numbers.len() as u32;
        self.numbers.push(number)?;
        self.places[number as usize] = Some(place);
        Ok(())
    }
}
