//! Words of 64 bits, moved and joined four at a time.

ghost use Rattle.std.specs.Prelude.{◌≡◌, ◌+◌, ◌<◌, ◌≤◌, length};
ghost use Rattle.reach_planes.specs.Words.{AreJoined, HasMovedLanes, moved};

use std::simd::prelude::*;

/// How the bits of words move before they are joined to others.
#[derive(Clone, Copy)]
pub struct Move {
    /// By how many places each bit goes up.
    pub up: u32,
    /// By how many places it then goes down.
    pub down: u32,
    /// The bits that are then kept.
    pub mask: u64,
}

/// Joins moved words of the source, from a place on, to as many words from another place on.
pub fn join(words: &mut [u64], to: usize, source: &[u64], from: usize, count: usize, by: Move)
    requires to { to + count ≤ length words.old }
    requires from { from + count ≤ length source.now }
    requires up { by.up < 64 }
    requires down { by.down < 64 }
    ensures { AreJoined by.up by.down by.mask count to from source.now words.old words.new }
{
    for i in 0..count / 4 {
        join_lanes(words, to + 4 * i, source, from + 4 * i, by);
    }
    for k in count / 4 * 4..count {
        words[to + k] |= moved(source[from + k], by);
    }
}

// Joins four moved words of the source, which lie side by side, to as many words.
fn join_lanes(words: &mut [u64], to: usize, source: &[u64], from: usize, by: Move)
    requires to { to + 4 ≤ length words.old }
    requires from { from + 4 ≤ length source.now }
    requires up { by.up < 64 }
    requires down { by.down < 64 }
    ensures { AreJoined by.up by.down by.mask 4 to from source.now words.old words.new }
{
    let joined = u64x4::from_slice(&words[to..])
        | moved_lanes(u64x4::from_slice(&source[from..]), by);
    joined.copy_to_slice(&mut words[to..]);
}

// Four words with their bits moved.
fn moved_lanes(words: u64x4, by: Move) -> u64x4
    requires up { by.up < 64 }
    requires down { by.down < 64 }
    requires four { length words ≡ 4 }
    ensures four { length result ≡ 4 }
    ensures moved { HasMovedLanes by.up by.down by.mask words result }
{
    let up = u64x4::splat(u64::from(by.up));
    let down = u64x4::splat(u64::from(by.down));
    ((words << up) >> down) & u64x4::splat(by.mask)
}

// A word with its bits moved.
fn moved(word: u64, by: Move) -> u64
    requires up { by.up < 64 }
    requires down { by.down < 64 }
    ensures { result ≡ moved by.up by.down by.mask word }
{
    ((word << by.up) >> by.down) & by.mask
}
