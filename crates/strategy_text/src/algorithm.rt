//! The lines that are nodes of the algorithm. Their forms are this project's.

ghost use Rattle.std.specs.Prelude.{◌≡◌, [], IfOk, IfSome, IfNone};
ghost use Rattle.strategy_text.specs.declared.node.AlgNode.{AlgNode};
ghost use Rattle.std.specs.Bool.{OnTrue, OnFalse};
ghost use Rattle.strategy_text.specs.Text.{AnyNode, of_algorithm};
ghost use Rattle.strategy_text.specs.Spelling.{SpellsNode};
ghost use Rattle.strategy_text.specs.Reading.{Takes, Reads, GivesInto, more_words};
ghost use Rattle.strategy_text.specs.Reading.{each_at, entry_at, entries_at, big_at};
ghost use Rattle.strategy_text.specs.Reading.{reply_at, act_at, algorithm_at};

use crate::node::{Act, AlgNode, Entries, Entry, Format};
use crate::position::read_position;
use crate::stop::LineStop;
use crate::words::Words;
use items::Sequence;
use port_io::LONGEST_LINE;
use std::alloc::{AllocError, Global};
use std::mem;

/// A reply.
#[tactic(auto, unfolding(crate::specs::Reading::entry_at))]
#[inline(always)]
fn read_entry(words: &mut Words) -> Option<Entry>
    ensures { Takes result words.new (entry_at words.old) }
{
    let size = words.size()?;
    if !words.accept(b"on") {
        return None;
    }
    let load = words.size()?;
    if !words.accept(b"to") {
        return None;
    }
    let to = words.number(u32::MAX)?;
    Some(Entry { size, load, to })
}

/// The replies to the end of the line, in the memory of a list that is empty.
#[inline(always)]
fn read_each_entry(words: &mut Words, empty: Entries) -> Result<Entries, LineStop>
    requires { empty ≡ [] }
    ensures { Reads result words.new (each_at more_words entry_at words.old) }
{
    let mut entries = empty;
    while !words.is_at_end() {
        let Some(entry) = read_entry(words) else {
            return Err(LineStop::Form);
        };
        entries.push(entry)?;
    }
    Ok(entries)
}

/// The replies: a dash for none, else one or more to the end of the line; in the memory of a list that is empty.
#[tactic(auto, using(crate::proofs::Steps::some_again), unfolding(crate::specs::Reading::entries_at))]
#[inline(always)]
fn read_entries(words: &mut Words, empty: Entries) -> Result<Entries, LineStop>
    requires { empty ≡ [] }
    ensures { Reads result words.new (entries_at words.old) }
{
    if words.accept(b"-") {
        return Ok(empty);
    }
    let entries = read_each_entry(words, empty)?;
    if entries.is_empty() {
        return Err(LineStop::Form);
    }
    Ok(entries)
}

/// Bins kept for big items.
#[tactic(auto, unfolding(crate::specs::Reading::big_at))]
#[inline(always)]
fn read_big(words: &mut Words) -> Option<Act>
    ensures { Takes result words.new (big_at words.old) }
{
    if !words.accept(b"big") {
        return None;
    }
    let bins = words.size()?;
    Some(Act::Big(bins))
}

/// Replies, or bins kept for big items.
#[tactic(auto, unfolding(crate::specs::Reading::reply_at))]
#[inline(always)]
fn read_reply(format: Format, words: &mut Words, empty: Entries) -> Result<Act, LineStop>
    requires { empty ≡ [] }
    ensures { Reads result words.new (reply_at format words.old) }
{
    if words.accept(b"reply") {
        let entries = read_entries(words, empty)?;
        return Ok(Act::Reply(entries));
    }
    match format {
        Format::One => Err(LineStop::Form),
        Format::Two => read_big(words).ok_or(LineStop::Form),
    }
}

/// What is done, the replies in the memory of a list that is empty.
#[tactic(auto, unfolding(crate::specs::Reading::act_at))]
#[inline(always)]
fn read_act(format: Format, words: &mut Words, empty: Entries) -> Result<Act, LineStop>
    requires { empty ≡ [] }
    ensures { Reads result words.new (act_at format words.old) }
{
    if words.accept(b"finish") {
        return Ok(Act::Finish);
    }
    read_reply(format, words, empty)
}

/// An empty list in the memory of the replies of an act, which then has none.
#[inline(always)]
fn emptied(alloc: Global, act: &mut Act) -> Entries
    ensures { result ≡ [] }
{
    match act {
        Act::Reply(entries) => {
            let mut list = mem::replace(entries, Sequence::new(alloc));
            list.truncate(0);
            list
        }
        Act::Finish => Sequence::new(alloc),
        Act::Big(_) => Sequence::new(alloc),
    }
}

/// Reads a node of the algorithm of this number into a node in place of what it holds.
#[tactic(auto, unfolding(crate::specs::Reading::algorithm_at))]
#[inline(always)]
fn fill_algorithm(
    alloc: Global,
    format: Format,
    words: &mut Words,
    number: u32,
    node: &mut AlgNode,
) -> Result<(), LineStop>
    ensures { GivesInto result node.new (algorithm_at format number words.old) }
{
    read_position(words, number, &mut node.loads, &mut node.items)?;
    let empty = emptied(alloc, &mut node.act);
    node.act = read_act(format, words, empty)?;
    if !words.is_at_end() {
        return Err(LineStop::Form);
    }
    Ok(())
}

/// The node of the algorithm of this number that a line of a strategy of this format, without its line
/// feed, spells; None exactly where it spells none. Takes memory for the node alone, in time linear in
/// the line's bytes.
pub fn parse_algorithm(
    alloc: Global,
    format: Format,
    line: &[u8],
    number: u32,
) -> Result<Option<AlgNode>, AllocError>
    ensures spelled { IfOk result (λ read.
        IfSome read (λ node. SpellsNode format number line.now (of_algorithm node))) }
    ensures refused { IfOk result (λ read.
        IfNone read ((node : AlgNode) → SpellsNode format number line.now (of_algorithm node) → ⊥)) }
{
    let mut node = AlgNode::empty(alloc);
    if read_algorithm(alloc, format, line, number, &mut node)? {
        return Ok(Some(node));
    }
    Ok(None)
}

/// Reads the node that [`parse_algorithm`] gives into a node in place of what it holds, in the memory of its lists of
/// loads, items and replies where that is enough. False exactly where the line spells none; the node may then hold
/// anything.
#[inline(never)]
pub fn read_algorithm(
    alloc: Global,
    format: Format,
    line: &[u8],
    number: u32,
    node: &mut AlgNode,
) -> Result<bool, AllocError>
    ensures spelled { IfOk result (λ read. OnTrue read (SpellsNode format number line.now (of_algorithm node.new))) }
    ensures refused { IfOk result (λ read.
        OnFalse read ((other : AlgNode) → SpellsNode format number line.now (of_algorithm other) → ⊥)) }
{
    if line.len() > LONGEST_LINE {
        return Ok(false);
    }
    match fill_algorithm(alloc, format, &mut Words::new(line), number, node) {
        Ok(()) => Ok(true),
        Err(LineStop::Form) => Ok(false),
        Err(LineStop::Memory) => Err(AllocError),
    }
}
