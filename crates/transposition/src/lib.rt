//! Tables of bounded size, and the transposition table of a search.
#![tactic(auto)]

mod clock;
mod clock_table;
mod key;
pub mod laws;
mod lru_table;
mod memo;
mod small_position;
mod verdict;

pub use clock_table::ClockTable;
pub use key::Key;
pub use lru_table::LruTable;
pub use memo::{ClockMemo, LruMemo, Memo};
pub use verdict::Verdict;

#[cfg(test)]
mod tests;
