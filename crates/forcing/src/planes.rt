//! The packings of items into three bins: planes of the loads that they reach.

ghost use Rattle.std.specs.Prelude.{◌<◌, ◌≤◌};

use crate::look::{Burst, Look, Offline};
use crate::mixing::mix_in;
use crate::replies::count_below;
use items::Game;
use pass_game::PackedLoads;
use std::alloc::{AllocError, Global};

// Rows of zeros before the rows of a plane, as many as the greatest size and more.
const ZEROS: usize = 128;

// The rows of a plane: a row for each load up to the greatest capacity.
const ROWS: usize = 249;

// The rows of masks, and the row of the mask that leaves out nothing.
const MASKS: usize = 512;

const WHOLE: usize = 256;

// The most items of one size that a burst is looked for with.
const COUNTED: usize = 3;

// The loads that some items reach in two of the bins: a row for each load of one, a bit for each load of the other.
#[derive(Clone, Copy)]
struct Plane {
    words: [[u64; ROWS]; 2],
    volume: u16,
}

/// Planes by depth. Memory is taken once: 4 kB for each item that a play may have.
#[derive(Drop)]
pub(crate) struct Planes {
    game: Game,
    depths: Vec<Plane>,
    // The words of the bits from a load on, up to the capacity.
    masks: [[u64; MASKS]; 2],
    // The greatest size of which so many items still pack, for one, two and three.
    rooms: [u16; COUNTED],
}

impl Planes {
    /// Planes of which the first is that of no items.
    pub(crate) fn new(alloc: Global, game: &Game) -> Result<Planes, AllocError> {
        let empty = Plane {
            words: [[0; ROWS]; 2],
            volume: 0,
        };
        let count = usize::from(game.m()) * usize::from(game.g()) + 2;
        let mut depths = vec![in alloc; empty; count]?;
        depths[0].words[0][ZEROS] = 1;
        Ok(Planes {
            game: *game,
            depths,
            masks: [masks(game, 0), masks(game, 64)],
            rooms: [0; COUNTED],
        })
    }

    // The greatest sizes of which one, two and three items still pack at a depth, where they are at least the least size,
    // and a word of the rows that tell them.
    fn rooms_at(&self, depth: usize, least: u16) -> ([u16; COUNTED], u64) {
        let Some(plane) = self.depths.get(depth) else {
            return ([0; COUNTED], 0);
        };
        let highest = usize::from(self.game.g().saturating_sub(least));
        let (one, two, word) = self.ones_and_pairs(plane, highest);
        let (three, profile) = self.threes(plane, highest, word);
        ([one, two, three], profile)
    }

    // How many words a row has.
    fn words(&self) -> usize
        ensures { result ≤ 2 }
    {
        usize::from(self.game.g() / 64) + 1
    }

    // The bits of a word of a row between two loads.
    fn bits(&self, plane: &Plane, word: usize, row: usize, low: usize, high: usize) -> u64
        requires { word < 2 }
    {
        let from = self.masks[word][WHOLE - low.min(WHOLE)];
        let past = self.masks[word][WHOLE - (high.min(WHOLE - 1) + 1)];
        row_of(plane, word, row) & from & !past
    }

    // The least load of a row between two.
    fn least_between(&self, plane: &Plane, row: usize, low: usize, high: usize) -> Option<usize> {
        for word in 0..self.words() {
            let bits = self.bits(plane, word, row, low, high);
            if bits != 0 {
                return Some(64 * word + bits.trailing_zeros() as usize);
            }
        }
        None
    }

    // The greatest sizes of which one and two items still pack, where they are at least the least size, and a word of
    // the rows that tell them.
    fn ones_and_pairs(&self, plane: &Plane, highest: usize) -> (u16, u16, u64)
        requires { highest ≤ 120 }
    {
        let capacity = usize::from(self.game.g());
        let start = usize::from(plane.volume).saturating_sub(2 * capacity);
        let mut profile = 0x1234_5670_u64;
        let mut one = 0usize;
        let mut second = highest + 1;
        for row in start..highest + 1 {
            if row >= second {
                break;
            }
            if one == 0 {
                if row_of(plane, 0, row) | row_of(plane, 1, row) == 0 {
                    continue;
                }
                one = capacity.saturating_sub(row);
                profile = mix_in(profile, row as u64);
            }
            if let Some(load) = self.least_between(plane, row, row, second - 1) {
                second = load;
                profile = mix_in(profile, ((row as u64) << 8) | load as u64);
            }
        }
        let two = if second <= highest {
            capacity.saturating_sub(second)
        } else {
            0
        };
        (size_of(one), size_of(two), profile)
    }

    // The greatest size of which three items still pack, where it is at least the least size, and a word of the rows
    // that tell it with a word of others.
    fn threes(&self, plane: &Plane, highest: usize, before: u64) -> (u16, u64)
        requires { highest ≤ 120 }
    {
        let capacity = usize::from(self.game.g());
        let volume = usize::from(plane.volume);
        let mut profile = before;
        let mut least = highest + 1;
        let mut is_met = false;
        for row in volume.saturating_sub(2 * highest)..highest.min(volume / 3) + 1 {
            let low = row.max((volume - row).saturating_sub(highest));
            let high = ((volume - row) / 2).min(highest);
            for word in (0..self.words()).rev() {
                let bits = self.bits(plane, word, row, low, high);
                if bits != 0 && low <= high {
                    is_met = true;
                    let top = 64 * word + 63 - bits.leading_zeros() as usize;
                    least = least.min((volume - row).saturating_sub(top));
                    profile = mix_in(profile, bits ^ ((row * 2 + word + 7) as u64) << 40);
                    profile = profile.wrapping_add(
                        (row as u64).wrapping_mul(0x94D0_49BB_1331_11EB),
                    );
                }
            }
        }
        if !is_met {
            return (0, profile);
        }
        (
            size_of(capacity.saturating_sub(least)),
            mix_in(profile, (volume as u64) << 32),
        )
    }
}

impl Offline for Planes {
    fn add(&mut self, depth: usize, size: u16) {
        let next = depth.saturating_add(1);
        if next >= self.depths.len() {
            return;
        }
        let (before, after) = self.depths.as_mut_slice().split_at_mut(next);
        if let Some(plane) = before.last() {
            put_item(&self.game, &self.masks, plane, &mut after[0], size);
        }
    }

    fn look(&mut self, depth: usize, least: u16) -> Look {
        let (rooms, profile) = self.rooms_at(depth, least);
        self.rooms = rooms;
        let [room, pair, _] = rooms;
        Look {
            room,
            pair,
            big: count_large(&self.game, &rooms),
            profile,
        }
    }

    fn burst(&self, loads: PackedLoads) -> Option<Burst> {
        for (i, size) in self.rooms.iter().enumerate() {
            if *size == 0 {
                return None;
            }
            let count = count_below(&self.game, loads, *size).saturating_add(1);
            if usize::from(count) <= i + 1 {
                return Some(Burst { size: *size, count });
            }
        }
        None
    }
}

// A row of a plane.
fn row_of(plane: &Plane, word: usize, row: usize) -> u64
    requires { word < 2 }
{
    match plane.words[word].get(ZEROS + row.min(ROWS - ZEROS)) {
        Some(bits) => *bits,
        None => 0,
    }
}

// A number that is a size or 0.
fn size_of(number: usize) -> u16 {
    number.min(255) as u16
}

// How many of the sizes of which one, two and three items still pack are larger than half the capacity, up to the first
// that is not.
fn count_large(game: &Game, rooms: &[u16; COUNTED]) -> u16 {
    let mut count = 0u16;
    for size in rooms {
        if u32::from(*size) * 2 <= u32::from(game.g()) {
            return count;
        }
        count = count.saturating_add(1);
    }
    count
}

// The masks of a word of rows, which begins at a load: that in the row 256 less x has the bits from the load x on, up
// to the capacity.
fn masks(game: &Game, first: usize) -> [u64; MASKS] {
    let mut masks = [0u64; MASKS];
    for row in 0..MASKS {
        for bit in 0..64usize {
            let load = first.saturating_add(bit);
            if load.saturating_add(row) >= WHOLE && load <= usize::from(game.g()) {
                masks[row] |= 1u64 << bit;
            }
        }
    }
    masks
}

// The plane of the items of another and one more.
fn put_item(game: &Game, masks: &[[u64; MASKS]; 2], source: &Plane, target: &mut Plane, size: u16) {
    let zeros = &[0u64; ROWS];
    let low = &source.words[0];
    let high = &source.words[1];
    target.volume = source.volume.saturating_add(size);
    let first = (WHOLE + usize::from(game.g())).saturating_sub(usize::from(target.volume));
    let shift = u32::from(size % 64);
    let size = usize::from(size).min(ZEROS);
    let rows = usize::from(game.g()) + 1;
    let is_short = size < 64;
    if is_short {
        join(
            &mut target.words[0],
            rows,
            low,
            low,
            zeros,
            size,
            shift,
            &masks[0],
            first,
        );
    } else {
        join(
            &mut target.words[0],
            rows,
            low,
            zeros,
            zeros,
            size,
            0,
            &masks[0],
            first,
        );
    }
    if rows <= 64 {
        return;
    }
    if is_short {
        join(
            &mut target.words[1],
            rows,
            high,
            high,
            low,
            size,
            shift,
            &masks[1],
            first,
        );
    } else {
        join(
            &mut target.words[1],
            rows,
            high,
            low,
            zeros,
            size,
            shift,
            &masks[1],
            first,
        );
    }
}

// Joins the rows as they are, as they are when the item goes to the bin that a row counts, and the bits as they are when
// it goes to the other.
fn join(
    target: &mut [u64; ROWS],
    rows: usize,
    same: &[u64; ROWS],
    high: &[u64; ROWS],
    low: &[u64; ROWS],
    size: usize,
    shift: u32,
    masks: &[u64; MASKS],
    first: usize,
)
    requires rows { rows ≤ 121 }
    requires size { size ≤ 128 }
    requires shift { shift < 64 }
    requires first { first ≤ 376 }
{
    for row in 0..rows {
        let here = ZEROS + row;
        let moved = (high[here] << shift) | ((low[here] >> 1) >> (63 - shift));
        target[here] = (same[here] | moved | same[here - size]) & masks[first + row];
    }
}
