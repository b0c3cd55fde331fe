//! The lines of a strategy that are no nodes. Their forms are this project's.

ghost use Rattle.std.specs.Prelude.{◌≡◌, ◌↔◌, ℕ, IsTrue, MatchOption};
ghost use Rattle.std.specs.Option.{option_map};
ghost use Rattle.items.specs.Game.{GameNumbers, numbers};
ghost use Rattle.strategy_text.specs.declared.node.Format.{Format};
ghost use Rattle.strategy_text.specs.declared.node.Side.{Side};
ghost use Rattle.strategy_text.specs.Text.{first_line, side_line, end_line};
ghost use Rattle.strategy_text.specs.Spelling.{SpellsGame, SpellsCount};
ghost use Rattle.strategy_text.specs.Reading.{game_at, count_at};

use crate::node::{Format, Side};
use crate::words::Words;

/// The most nodes of a strategy. This limit is this project's.
const NODES: u32 = 4_000_000_000;

/// The format that a line, without its line feed, names as the first of a strategy. Takes no memory.
pub fn parse_first(line: &[u8]) -> Option<Format>
    ensures exact { MatchOption result ((f : Format) → line.now ≡ first_line f → ⊥) (λ f. line.now ≡ first_line f) }
{
    if line == b"stretch 1".as_slice() {
        return Some(Format::One);
    }
    if line == b"stretch 2".as_slice() {
        return Some(Format::Two);
    }
    None
}

/// Whether a line, without its line feed, is the last of a strategy. Takes no memory.
pub fn parse_end(line: &[u8]) -> bool
    ensures exact { IsTrue result ↔ (line.now ≡ end_line) }
{
    line == b"end".as_slice()
}

/// The side that a line, without its line feed, names. Takes no memory.
pub fn parse_side(line: &[u8]) -> Option<Side>
    ensures exact { MatchOption result ((s : Side) → line.now ≡ side_line s → ⊥) (λ s. line.now ≡ side_line s) }
{
    if line == b"side adversary".as_slice() {
        return Some(Side::Adversary);
    }
    if line == b"side algorithm".as_slice() {
        return Some(Side::Algorithm);
    }
    None
}

/// The numbers of bins, capacity and target in the words of a line.
#[tactic(auto, unfolding(crate::specs::Reading::game_at))]
fn game(words: &mut Words) -> Option<(u16, u16, u16)>
    ensures { option_map (λ x. numbers x.0 x.1 x.2) result ≡ game_at words.old }
{
    if !words.accept(b"game") {
        return None;
    }
    let bins = words.size()?;
    let capacity = words.size()?;
    let target = words.size()?;
    words.is_at_end().then_some((bins, capacity, target))
}

/// The three numbers of a line, without its line feed, that spells a game: how many bins, the capacity
/// of each and the target, each from 0 to 65,535. Takes no memory.
pub fn parse_game(line: &[u8]) -> Option<(u16, u16, u16)>
    ensures exact { MatchOption result
        ((game : GameNumbers) → SpellsGame line.now game → ⊥)
        (λ x. SpellsGame line.now (numbers x.0 x.1 x.2)) }
{
    game(&mut Words::new(line))
}

/// The number of nodes in the words of a line.
#[tactic(auto, unfolding(crate::specs::Reading::count_at))]
fn count(words: &mut Words) -> Option<u32>
    ensures { result ≡ count_at words.old }
{
    if !words.accept(b"nodes") {
        return None;
    }
    let nodes = words.number(NODES)?;
    if nodes == 0 || !words.is_at_end() {
        return None;
    }
    Some(nodes)
}

/// The number of nodes that a line, without its line feed, spells: from 1 to 4,000,000,000. Takes no memory.
pub fn parse_nodes(line: &[u8]) -> Option<u32>
    ensures exact { MatchOption result
        ((nodes : ℕ) → SpellsCount line.now nodes → ⊥)
        (SpellsCount line.now) }
{
    count(&mut Words::new(line))
}
