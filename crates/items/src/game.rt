//! The game of online bin stretching in whole numbers, after Böhm and Simon.

ghost use Rattle.std.specs.Prelude.{◌≡◌, ◌<◌, MatchResult};
ghost use Rattle.items.specs.Game.{numbers, IsGame};
ghost use Rattle.items.specs.GameFaults.{IsFaultOf};

use crate::limits::{MOST_BINS, MOST_SIZE};
use std::marker::Model;
use thiserror::Error;

/// A game: `m` bins, the capacity `g` of each bin offline, and the target `t`, the load at which
/// the algorithm loses. `2 ≤ m ≤ 8`, `1 ≤ g ≤ 120`, `g < t ≤ 2g`; these limits are this project's.
#[derive(Clone, Copy)]
pub struct Game {
    m: u16,
    g: u16,
    t: u16,
}

impl Model for Game {
    ghost use Rattle.items.specs.Game.{GameNumbers, numbers, IsGame};

    ghost Value = { GameNumbers };

    ghost view = { λ a. numbers a.m a.g a.t };

    ghost invariant = { λ a. IsGame (numbers a.m a.g a.t) };

    ghost inverse = { λ v. record { m = v.bins; g = v.capacity; t = v.target } };
}

/// Which number is out of its range; of several, the first in this order.
#[derive(Clone, Copy, Debug, PartialEq, Eq, Error)]
pub enum GameFault {
    /// The number of bins is not from 2 to 8.
    #[error("the number of bins is not from 2 to 8")]
    Bins,
    /// The capacity is not from 1 to 120.
    #[error("the capacity is not from 1 to 120")]
    Capacity,
    /// The target is not above the capacity, or is more than twice the capacity.
    #[error("the target is not above the capacity and at most twice the capacity")]
    Target,
}

impl Game {
    /// The game of these numbers. Takes no memory.
    pub fn new(m: u16, g: u16, t: u16) -> Result<Game, GameFault>
        ensures exact { MatchResult result
            (λ game. (game ≡ numbers m g t) × IsGame (numbers m g t))
            (IsFaultOf (numbers m g t)) }
    {
        if !(2..=MOST_BINS).contains(&m) {
            return Err(GameFault::Bins);
        }
        if !(1..=MOST_SIZE).contains(&g) {
            return Err(GameFault::Capacity);
        }
        if t <= g || t > 2 * g {
            return Err(GameFault::Target);
        }
        Ok(Game { m, g, t })
    }

    /// The number of bins.
    pub fn m(&self) -> u16
        ensures value { result ≡ self.now.bins }
        ensures legal { IsGame self.now }
    {
        self.m
    }

    /// The capacity of each bin offline.
    pub fn g(&self) -> u16
        ensures value { result ≡ self.now.capacity }
        ensures legal { IsGame self.now }
    {
        self.g
    }

    /// The load at which the algorithm loses.
    pub fn t(&self) -> u16
        ensures value { result ≡ self.now.target }
        ensures legal { IsGame self.now }
    {
        self.t
    }
}
