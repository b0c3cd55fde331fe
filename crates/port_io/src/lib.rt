//! Byte sources and byte sinks that may fail, a reader of lines, and a writer of whole pieces.
//!
//! A source or a sink counts its faults. A call that answers [`Failed`] does so only where that count
//! rose in the call, so a caller can always tell a fault of the outside from one of its own.
#![tactic(auto)]

mod calm;
pub mod laws;
mod lines;
mod memory;
mod read_ahead;
mod sinks;
mod sources;
#[cfg(test)]
mod tests;

pub use crate::calm::{CalmSink, CalmSource};
pub use crate::lines::{LONGEST_LINE, Line, LineReader};
pub use crate::memory::{MemSink, MemSource};
pub use crate::sinks::{Sink, put_all};
pub use crate::sources::{Failed, Source};
