//! What is kept of positions that were searched. All of it is a hint: two positions may have one key.

use std::alloc::{AllocError, Global};

// How many entries lie in a line, which is looked through as a whole.
const ENTRIES: u32 = 8;

// The bits of an entry: 48 of the key; then whether the adversary wins, so many bits of the effort, and a byte.
const WINS: u64 = 0x8000;

const EFFORT: u64 = 0x1f00;

const NUMBER: u64 = 0x00ff;

const VERDICT: u64 = 0xffff;

/// What a table tells of a key.
#[derive(Clone, Copy, PartialEq, Eq)]
pub(crate) enum Known {
    /// Nothing.
    Nothing,
    /// The adversary wins, and sends this size.
    Wins(u16),
    /// The adversary does not win in this pass.
    HoldsIn(u16),
}

/// A table of bounded size, whose entries of least effort go first.
#[derive(Drop)]
pub(crate) struct Table {
    lines: Vec<[u64; ENTRIES as usize]>,
}

impl Table {
    /// A table of so many entries, rounded up to whole lines of eight. An entry takes 8 bytes.
    pub(crate) fn new(alloc: Global, entries: u32) -> Result<Table, AllocError> {
        let count = entries / ENTRIES + u32::from(entries % ENTRIES != 0);
        Ok(Table {
            lines: vec![in alloc; [0u64; ENTRIES as usize]; count as usize]?,
        })
    }

    /// What is known of a key.
    pub(crate) fn get(&self, key: u64) -> Known {
        let Some(line) = self.lines.get(self.line_of(key)) else {
            return Known::Nothing;
        };
        for entry in line {
            if is_of(*entry, key) {
                return known_by(*entry);
            }
        }
        Known::Nothing
    }

    /// Keeps what is known of a key, and the visits that it took. A win is not lost for less.
    pub(crate) fn put(&mut self, key: u64, known: Known, visits: u32) {
        let at = self.line_of(key);
        let Some(line) = self.lines.get_mut(at) else {
            return;
        };
        let mut place = 0usize;
        let mut least = u64::MAX;
        for (i, entry) in line.iter().enumerate() {
            if is_of(*entry, key) {
                if *entry & WINS != 0 && !is_win(known) {
                    return;
                }
                place = i;
                break;
            }
            let worth = worth_of(*entry);
            if worth < least {
                least = worth;
                place = i;
            }
        }
        if place < line.len() {
            line[place] = (key << 16) | verdict_of(known) | effort_of(visits);
        }
    }

    // The line in which a key has its place.
    fn line_of(&self, key: u64) -> usize {
        ((key >> 32).wrapping_mul(self.lines.len() as u64) >> 32) as usize
    }
}

// Whether an entry is of a key.
fn is_of(entry: u64, key: u64) -> bool {
    entry != 0 && (entry ^ (key << 16)) <= VERDICT
}

fn is_win(known: Known) -> bool {
    matches!(known, Known::Wins(_))
}

// What an entry tells.
fn known_by(entry: u64) -> Known {
    let number = (entry & NUMBER) as u16;
    if entry & WINS != 0 {
        Known::Wins(number)
    } else if number == 0 {
        Known::Nothing
    } else {
        Known::HoldsIn(number - 1)
    }
}

// The bits of what is known.
fn verdict_of(known: Known) -> u64 {
    match known {
        Known::Nothing => 0,
        Known::Wins(size) => WINS | (u64::from(size) & NUMBER),
        Known::HoldsIn(pass) => u64::from(pass.saturating_add(1)) & NUMBER,
    }
}

// The bits of the logarithm of so many visits.
fn effort_of(visits: u32) -> u64 {
    let digits = 31 - (visits | 1).leading_zeros().min(31);
    (u64::from(digits) << 8) & EFFORT
}

// How much would be lost with an entry: nothing with an empty one, and a win is worth more.
fn worth_of(entry: u64) -> u64 {
    if entry == 0 {
        return 0;
    }
    let effort = ((entry & EFFORT) >> 8) * 2 + 1;
    if entry & WINS != 0 {
        effort + 3
    } else {
        effort
    }
}
