//! Words mixed into keys.

/// A word whose bits each depend on all bits of this one.
pub(crate) fn mix(word: u64) -> u64 {
    let once = (word ^ (word >> 32)).wrapping_mul(0x9E37_79B9_7F4A_7C15);
    let twice = (once ^ (once >> 29)).wrapping_mul(0xBF58_476D_1CE4_E5B9);
    twice ^ (twice >> 32)
}

/// A word of both.
pub(crate) fn mix_in(state: u64, word: u64) -> u64 {
    let once = (state ^ word).wrapping_mul(0x9E37_79B9_7F4A_7C15);
    once ^ (once >> 29)
}
