//! The limits of this project's games and positions.

/// The greatest number of bins.
pub const MOST_BINS: u16 = 8;

/// The greatest capacity, and so the greatest size of an item.
pub const MOST_SIZE: u16 = 120;

/// The greatest total of the items of a position: eight loads of 239, each below the greatest target.
pub const MOST_VOLUME: u16 = 1912;

/// The greatest number that a list of numbers can hold.
pub const MOST_NUMBER: u16 = 65535;
