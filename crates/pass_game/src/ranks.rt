//! Where the rows of loads begin in the table.

use crate::packed_loads::PackedLoads;
use items::Game;
use std::alloc::{AllocError, Global};

/// How many loads a place has an entry for.
pub(crate) const LOADS: usize = 256;

/// For each place and each load there what it adds to the start of the rows of the loads: the number of loads that come
/// before, binomial(load + place, place + 1), times the length of the rows of one list of loads.
#[derive(Drop)]
pub(crate) struct Ranks {
    places: Vec<[u32; LOADS]>,
}

impl Ranks {
    /// The ranks of a game where the rows of one list of loads take so many bytes. A sum that doesn't fit stays at the
    /// greatest number.
    pub(crate) fn new(alloc: Global, game: &Game, block: u32) -> Result<Ranks, AllocError> {
        let mut places = Vec::new(alloc);
        let mut last = [block; LOADS];
        for _ in 0..game.m() {
            let mut sum = 0u32;
            last[0] = 0;
            for load in 1..LOADS {
                sum = sum.saturating_add(last[load]);
                last[load] = sum;
            }
            places.push(last)?;
        }
        Ok(Ranks { places })
    }

    /// How many bytes the rows of all loads below the target take; the greatest number where it isn't less.
    pub(crate) fn len(&self, target: u16) -> usize {
        match self.places.last() {
            Some(last) => last[usize::from(target & 255)] as usize,
            None => 0,
        }
    }

    /// Where the rows of these loads begin.
    #[inline]
    pub(crate) fn start_of(&self, loads: PackedLoads) -> usize {
        let mut word = loads.word();
        let mut start = 0usize;
        for place in &self.places {
            start = start.wrapping_add(place[(word & 255) as usize] as usize);
            word >>= 8;
        }
        start
    }

    /// What each load adds in this place.
    #[inline]
    pub(crate) fn place(&self, place: usize) -> Option<&[u32; LOADS]> {
        self.places.get(place)
    }
}
