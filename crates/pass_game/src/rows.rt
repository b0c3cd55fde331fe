//! The rows of one list of loads, in lanes of sixteen bytes.

ghost use Rattle.std.specs.Prelude.{◌+◌, ◌<◌, ◌≤◌};

use std::simd::prelude::*;

/// How many bytes are looked at from the start of a row on: at least those of all rows of a list of loads, and the
/// lanes that reach beyond the last.
pub(crate) const WINDOW: usize = 1280;

const LANES: usize = 16;

// As many lanes as hold a row of the greatest capacity.
const CHUNKS: usize = 8;

// From one row to the next while they are decided.
const STRIDE: usize = CHUNKS * LANES;

// A row for each number of large items of the most bins, from 0 on.
const ROWS: usize = 9;

// Where the last of the rows begins at most, in the greatest game.
const LAST_START: usize = 968;

// What stands in place of a reply that there isn't: the algorithm wins from no greatest item on.
static NO_REPLY: [u8; WINDOW] = [255; WINDOW];

/// The rows of the replies to one size: at most eight, and no reply in the places that are left.
#[derive(Drop)]
pub(crate) struct Replies<'a> {
    pub(crate) windows: [&'a [u8; WINDOW]; 8],
    pub(crate) count: usize,
}

impl<'a> Replies<'a> {
    // The least of the replies' bytes, in sixteen lanes.
    #[inline(always)]
    fn least(&self, at: usize) -> u8x16
        requires { at + LANES ≤ WINDOW }
    {
        let mut least = self.pair(0, at);
        if self.count > 2 {
            least = least.simd_min(self.pair(2, at));
        }
        if self.count > 4 {
            least = least.simd_min(self.pair(4, at));
        }
        if self.count > 6 {
            least = least.simd_min(self.pair(6, at));
        }
        least
    }

    #[inline(always)]
    fn pair(&self, place: usize, at: usize) -> u8x16
        requires place { place + 1 < 8 }
        requires lanes { at + LANES ≤ WINDOW }
    {
        lanes(self.windows[place], at).simd_min(lanes(self.windows[place + 1], at))
    }
}

/// The bytes of a table from a place on; those of no reply where there is no place, or too few bytes.
#[inline(always)]
pub(crate) fn window(table: &[u8], start: Option<usize>) -> &[u8; WINDOW] {
    if let Some(start) = start {
        if let Some(rest) = table.get(start..) {
            if let Some(window) = rest.first_chunk::<WINDOW>() {
                return window;
            }
        }
    }
    &NO_REPLY
}

#[inline(always)]
fn lanes(window: &[u8; WINDOW], at: usize) -> u8x16
    requires { at + LANES ≤ WINDOW }
{
    u8x16::from_slice(&window[at..])
}

/// A size that the adversary may send.
#[derive(Drop)]
pub(crate) struct Sent {
    pub(crate) size: u8,
    /// The least greatest item from which the pass forbids the size.
    pub(crate) forbidden_from: u8,
    pub(crate) is_large: bool,
}

/// The rows of a list of loads while they are decided.
#[derive(Drop)]
pub(crate) struct Rows {
    bytes: [u8; ROWS * STRIDE],
    row_len: usize,
    most_large: usize,
    last_chunk: usize,
}

impl Rows {
    /// Rows of so many bytes, in which the algorithm wins at once; to be decided up to this number of large items and
    /// this greatest size.
    #[inline(always)]
    pub(crate) fn new(row_len: usize, most_large: usize, room: u16) -> Self {
        Rows {
            bytes: [0; ROWS * STRIDE],
            row_len,
            most_large,
            last_chunk: usize::from(room / 16),
        }
    }

    /// Lets the adversary send a size too.
    #[inline(always)]
    pub(crate) fn send(&mut self, sent: &Sent, replies: &Replies) {
        let size = u8x16::splat(sent.size);
        let forbidden_from = u8x16::splat(sent.forbidden_from);
        let large = usize::from(sent.is_large);
        let last_chunk = self.last_chunk.min(CHUNKS - 1);
        let first_chunk = usize::from(sent.size / 16);
        let places = u8x16::from_array([0, 1, 2, 3, 4, 5, 6, 7, 8, 9, 10, 11, 12, 13, 14, 15]);
        let first_room = places
            .simd_ge(u8x16::splat(sent.size % 16))
            .select(u8x16::splat(255), u8x16::splat(0));
        for row in large..self.most_large.min(ROWS - 1) + 1 {
            let start = (row - large).wrapping_mul(self.row_len).min(LAST_START);
            let mut has_room = first_room;
            for chunk in first_chunk..last_chunk + 1 {
                let wins_from = replies
                    .least(start + chunk * LANES)
                    .simd_min(forbidden_from);
                let counts = wins_from.simd_gt(size).select(wins_from, u8x16::splat(0));
                let at = row * STRIDE + chunk * LANES;
                u8x16::from_slice(&self.bytes[at..])
                    .simd_max(counts & has_room)
                    .copy_to_slice(&mut self.bytes[at..]);
                has_room = u8x16::splat(255);
            }
        }
    }

    /// So many rows one after the other, for every greatest size up to the capacity.
    #[inline(always)]
    pub(crate) fn bytes(&self, rows: usize) -> [u8; WINDOW] {
        let mut bytes = [0; WINDOW];
        let last_chunk = self.last_chunk.min(CHUNKS - 1);
        let chunks = (self.row_len / LANES + 1).min(CHUNKS);
        for row in 0..rows.min(ROWS) {
            let start = row.wrapping_mul(self.row_len).min(LAST_START);
            let from = row.min(self.most_large).min(ROWS - 1) * STRIDE;
            for chunk in 0..last_chunk + 1 {
                u8x16::from_slice(&self.bytes[from + chunk * LANES..]).copy_to_slice(
                    &mut bytes[start + chunk * LANES..],
                );
            }
            let beyond = u8x16::splat(self.bytes[from + last_chunk * LANES + LANES - 1]);
            for chunk in last_chunk + 1..chunks {
                beyond.copy_to_slice(&mut bytes[start + chunk * LANES..]);
            }
        }
        bytes
    }
}
