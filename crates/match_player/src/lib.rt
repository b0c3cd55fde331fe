//! Plays and answers as text.
#![tactic(auto)]

mod answered;
mod answers;
pub mod laws;
mod lines;
mod words;

pub use answered::{AnswerFault, Answered};
pub use answers::answer;
pub use lines::{answer_text, match_text};
pub use words::put_list;

#[cfg(test)]
mod tests;
