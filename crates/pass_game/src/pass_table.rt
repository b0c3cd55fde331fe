//! The table over loads of the relaxed game of a pass.

use crate::loads_order::fullest_first;
use crate::packed_loads::PackedLoads;
use crate::ranks::Ranks;
use crate::rows::{Replies, Rows, Sent, WINDOW, window};
use items::{Game, MOST_SIZE};
use std::alloc::{AllocError, Global};

// How many bytes the rows of a table take at most.
const MOST_BYTES: usize = 0x4000_0000;

// How many sizes there are, from 0 on.
const SIZES: usize = 128;

/// For each list of loads, number of large items that may still come and greatest size that may, the least greatest
/// item so far from which the algorithm wins the relaxed game of a pass. It is a hint: nothing is claimed of its
/// numbers.
#[derive(Drop)]
pub struct PassTable {
    game: Game,
    // From one row to the next: a byte for each greatest size, from 0 to the capacity.
    row_len: usize,
    ranks: Ranks,
    order: Vec<PackedLoads>,
    bytes: Vec<u8>,
}

impl PassTable {
    /// A table for a game, of no pass yet; None where its rows would take more than 2^30 bytes. Takes all the memory
    /// that it ever needs: binomial(t - 1 + m, m) (m + 1) (g + 1) bytes for the rows, and 8 bytes for each list of
    /// loads.
    pub fn new(alloc: Global, game: &Game) -> Result<Option<PassTable>, AllocError> {
        let row_len = usize::from(game.g()) + 1;
        let block = row_len * (usize::from(game.m()) + 1);
        let ranks = Ranks::new(alloc, game, block as u32)?;
        let len = ranks.len(game.t());
        if len > MOST_BYTES - WINDOW {
            return Ok(None);
        }
        let order = fullest_first(alloc, game, len / block)?;
        let bytes = vec![in alloc; 0u8; len + WINDOW]?;
        Ok(Some(PassTable {
            game: *game,
            row_len,
            ranks,
            order,
            bytes,
        }))
    }

    /// Decides the relaxed game of a pass for all loads, from the fullest down. Takes no memory.
    pub fn fill(&mut self, pass: u16) {
        let mut starts = [[0u32; SIZES]; 8];
        for place in 0..self.order.len() {
            if let Some(loads) = self.order.get(place) {
                let loads = *loads;
                self.decide(loads, pass, &mut starts);
            }
        }
    }

    /// Whether the algorithm wins the relaxed game of the pass that was filled last, from these loads, where so many
    /// items larger than half the capacity may still come, this is the greatest size that may, and this is the greatest
    /// item so far. Numbers above those of the game are taken as the greatest ones; loads that are none of the game
    /// give any answer. One look-up.
    #[inline]
    pub fn holds(&self, loads: PackedLoads, big: u16, room: u16, largest: u16) -> bool {
        let row = usize::from(big.min(self.game.m()));
        let place = usize::from(room.min(self.game.g()));
        let index = self
            .ranks
            .start_of(loads)
            .wrapping_add(row.wrapping_mul(self.row_len))
            .wrapping_add(place);
        match self.bytes.get(index) {
            Some(wins_from) => u16::from(*wins_from) <= largest,
            None => false,
        }
    }

    // Decides the game from these loads, where it is decided from fuller ones.
    #[inline(always)]
    fn decide(&mut self, loads: PackedLoads, pass: u16, starts: &mut [[u32; SIZES]; 8]) {
        let capacity = self.game.g();
        let bins = usize::from(self.game.m());
        let left = self
            .game
            .m()
            .wrapping_mul(capacity)
            .saturating_sub(loads.volume());
        let room = left.min(capacity).min(MOST_SIZE);
        let most_large = usize::from(left / (capacity / 2 + 1)).min(bins);
        let start = self.ranks.start_of(loads);
        let limits = put_starts(&self.ranks, &self.game, loads, start, room, starts);
        let mut rows = Rows::new(self.row_len, most_large, room);
        for size in 1..room + 1 {
            let sent = Sent {
                size: size as u8,
                forbidden_from: size.saturating_add(pass).saturating_add(1).min(255) as u8,
                is_large: 2 * size > capacity,
            };
            rows.send(&sent, &replies_to(&self.bytes, starts, &limits, size));
        }
        let made = rows.bytes(bins + 1);
        let block = self.row_len.wrapping_mul(bins + 1).min(WINDOW);
        if let Some(bytes) = self.bytes.as_mut_slice().get_mut(start..) {
            if let Some(bytes) = bytes.get_mut(..block) {
                bytes.copy_from_slice(&made[..block]);
            }
        }
    }
}

// The rows of the replies to a size.
#[inline(always)]
fn replies_to<'a>(
    table: &'a [u8],
    starts: &[[u32; SIZES]; 8],
    limits: &[u16; 8],
    size: u16,
) -> Replies<'a> {
    let mut count = 0usize;
    for place in 0..8 {
        if size <= limits[place] {
            count = place + 1;
        }
    }
    Replies {
        windows: [
            window(table, start_of_reply(starts, limits, 0, size)),
            window(table, start_of_reply(starts, limits, 1, size)),
            window(table, start_of_reply(starts, limits, 2, size)),
            window(table, start_of_reply(starts, limits, 3, size)),
            window(table, start_of_reply(starts, limits, 4, size)),
            window(table, start_of_reply(starts, limits, 5, size)),
            window(table, start_of_reply(starts, limits, 6, size)),
            window(table, start_of_reply(starts, limits, 7, size)),
        ],
        count,
    }
}

// Where the rows begin of the reply in this place; None where there is none.
#[inline(always)]
fn start_of_reply(
    starts: &[[u32; SIZES]; 8],
    limits: &[u16; 8],
    place: usize,
    size: u16,
) -> Option<usize> {
    if place < 8 && size <= limits[place] && usize::from(size) < SIZES {
        Some(starts[place][usize::from(size)] as usize)
    } else {
        None
    }
}

// For each bin with another load than the next, from the least loaded, and for each size up to a limit: where the rows
// begin of the loads that the size makes there. Gives the limits, 0 where there is no bin.
#[inline(always)]
fn put_starts(
    ranks: &Ranks,
    game: &Game,
    loads: PackedLoads,
    start: usize,
    room: u16,
    starts: &mut [[u32; SIZES]; 8],
) -> [u16; 8] {
    let bins = usize::from(game.m());
    let mut limits = [0u16; 8];
    let mut count = 0usize;
    for bin in 0..bins {
        let load = loads.at(bin);
        if bin + 1 == bins || loads.at(bin + 1) != load {
            let limit = room.min((game.t() - 1).saturating_sub(load));
            if count < 8 {
                limits[count] = limit;
                put_starts_of_bin(
                    ranks,
                    bins,
                    loads,
                    bin,
                    (start & 0xffff_ffff) as u32,
                    limit,
                    &mut starts[count],
                );
                count += 1;
            }
        }
    }
    limits
}

// As `put_starts`, for one bin.
#[inline(always)]
fn put_starts_of_bin(
    ranks: &Ranks,
    bins: usize,
    loads: PackedLoads,
    bin: usize,
    start: u32,
    limit: u16,
    starts: &mut [u32; SIZES],
) {
    let load = loads.at(bin);
    let mut from = 1u16;
    let mut base = start;
    if let Some(rank) = ranks.place(bin) {
        base = base.wrapping_sub(rank[usize::from(load & 255)]);
    }
    for place in bin..bins {
        if let Some(rank) = ranks.place(place) {
            let next = loads.at(place + 1);
            let is_last = place + 1 == bins;
            let until = if is_last {
                limit
            } else {
                next.saturating_sub(load).min(limit)
            };
            for size in from..until.saturating_add(1) {
                let grown = load.wrapping_add(size) & 255;
                if usize::from(size) < SIZES {
                    starts[usize::from(size)] = base.wrapping_add(rank[usize::from(grown)]);
                }
            }
            from = from.max(until.saturating_add(1));
            if !is_last {
                if let Some(above) = ranks.place(place + 1) {
                    let moved = usize::from(next & 255);
                    base = base.wrapping_add(rank[moved]).wrapping_sub(above[moved]);
                }
            }
        }
    }
}
