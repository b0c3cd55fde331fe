//! A search for the adversary's side alone: what it finds is judged node by node, so all that it prunes by is a hint.
#![tactic(auto)]

mod book;
mod counted;
mod forced;
mod look;
mod mixing;
mod passes;
mod placing;
mod planes;
mod replies;
mod search;
mod table;
mod writing;

pub use forced::Forced;
pub use passes::force;

#[cfg(test)]
mod tests;
