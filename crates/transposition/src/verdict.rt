//! What a search finds at positions.

/// What a search found at a position.
#[derive(Clone, Copy, PartialEq, Eq, Debug)]
pub enum Verdict {
    /// The adversary wins, by the node of this number.
    Adversary(u32),
    /// The algorithm wins, by the node of this number.
    Algorithm(u32),
    /// The adversary has no win in the pass of this number.
    Held(u16),
}
