//! The lines that are nodes of the adversary. Their forms are this project's.

ghost use Rattle.std.specs.Prelude.{◌≡◌, ◌∷◌, [], IfOk, IfSome, IfNone, codes};
ghost use Rattle.strategy_text.specs.declared.node.AdvNode.{AdvNode};
ghost use Rattle.std.specs.Bool.{OnTrue, OnFalse};
ghost use Rattle.strategy_text.specs.Text.{AnyNode, of_adversary};
ghost use Rattle.strategy_text.specs.Spelling.{SpellsNode};
ghost use Rattle.strategy_text.specs.Words.{after};
ghost use Rattle.strategy_text.specs.Reading.{Takes, Reads, GivesInto, list_at, each_at, bins_at, pack_at};
ghost use Rattle.strategy_text.specs.Reading.{optional_pack_at, then_at, placement_at, placements_at, send_at};
ghost use Rattle.strategy_text.specs.Reading.{burst_at, step_at, adversary_at};

use crate::node::{AdvNode, Format, Placement, Placements, Step, Then};
use crate::position::{read_list, read_position};
use crate::stop::LineStop;
use crate::words::Words;
use items::{Nums, Sequence};
use packing_witness::Packing;
use port_io::LONGEST_LINE;
use std::alloc::{AllocError, Global};
use std::mem;

/// The lists of a packing whose first was read, in the memory of another packing.
#[inline(always)]
fn read_bins(words: &mut Words, first: Nums, spare: Packing) -> Result<Packing, LineStop>
    ensures { Reads result words.new (bins_at first words.old) }
{
    let mut packing = spare;
    let mut count = packing.put_bin(0, first)?;
    while words.accept(b"/") {
        let mut bin = packing.lend_bin(count);
        read_list(words, &mut bin)?;
        count = packing.put_bin(count, bin)?;
    }
    packing.truncate(count);
    Ok(packing)
}

/// The lists of a packing, with a slash between two, in the memory of another packing.
#[tactic(auto, unfolding(crate::specs::Reading::pack_at))]
#[inline(always)]
fn read_packing(words: &mut Words, spare: Packing) -> Result<Packing, LineStop>
    ensures { Reads result words.new (pack_at words.old) }
{
    let mut spare = spare;
    let mut first = spare.lend_bin(0);
    read_list(words, &mut first)?;
    read_bins(words, first, spare)
}

/// A packing, which may be missing in format 2, in the memory of another one.
#[tactic(auto, unfolding(crate::specs::Reading::optional_pack_at))]
#[inline(always)]
fn read_optional_packing(
    format: Format,
    words: &mut Words,
    spare: Packing,
) -> Result<Option<Packing>, LineStop>
    ensures { Reads result words.new (optional_pack_at format words.old) }
{
    if words.accept(b"pack") {
        let pack = read_packing(words, spare)?;
        return Ok(Some(pack));
    }
    match format {
        Format::One => Err(LineStop::Form),
        Format::Two => Ok(None),
    }
}

/// What follows a placement.
#[tactic(auto, unfolding(crate::specs::Reading::then_at))]
#[inline(always)]
fn read_next(words: &mut Words) -> Option<Then>
    ensures { Takes result words.new (then_at words.old) }
{
    if words.accept(b"over") {
        return Some(Then::Over);
    }
    if !words.accept(b"to") {
        return None;
    }
    let child = words.number(u32::MAX)?;
    Some(Then::To(child))
}

/// A placement after its first word.
#[tactic(auto, unfolding(crate::specs::Reading::placement_at))]
#[inline(always)]
fn read_placement(words: &mut Words) -> Option<Placement>
    ensures { Takes result words.new (placement_at words.old) }
{
    let load = words.size()?;
    let next = read_next(words)?;
    Some(Placement { load, next })
}

/// The placements, in the memory of a list that is empty.
#[inline(always)]
fn read_each_placement(words: &mut Words, empty: Placements) -> Result<Placements, LineStop>
    requires { empty ≡ [] }
    ensures { Reads result words.new (each_at (after (codes "on")) placement_at words.old) }
{
    let mut placements = empty;
    while words.accept(b"on") {
        let Some(placement) = read_placement(words) else {
            return Err(LineStop::Form);
        };
        placements.push(placement)?;
    }
    Ok(placements)
}

/// The placements, at least one, in the memory of a list that is empty.
#[tactic(auto, using(crate::proofs::Steps::some_again), unfolding(crate::specs::Reading::placements_at))]
#[inline(always)]
fn read_placements(words: &mut Words, empty: Placements) -> Result<Placements, LineStop>
    requires { empty ≡ [] }
    ensures { Reads result words.new (placements_at words.old) }
{
    let placements = read_each_placement(words, empty)?;
    if placements.is_empty() {
        return Err(LineStop::Form);
    }
    Ok(placements)
}

/// An item that is sent, after the first word.
#[tactic(auto, unfolding(crate::specs::Reading::send_at))]
#[inline(always)]
fn read_send(
    format: Format,
    words: &mut Words,
    spare: Packing,
    empty: Placements,
) -> Result<Step, LineStop>
    requires { empty ≡ [] }
    ensures { Reads result words.new (send_at format words.old) }
{
    let size = words.size().ok_or(LineStop::Form)?;
    let pack = read_optional_packing(format, words, spare)?;
    let placements = read_placements(words, empty)?;
    Ok(Step::Send {
        size,
        pack,
        placements,
    })
}

/// A burst.
#[tactic(auto, unfolding(crate::specs::Reading::burst_at))]
fn read_burst(words: &mut Words, spare: Packing) -> Result<Step, LineStop>
    ensures { Reads result words.new (burst_at words.old) }
{
    if !words.accept(b"burst") {
        return Err(LineStop::Form);
    }
    let count = words.size().ok_or(LineStop::Form)?;
    let size = words.size().ok_or(LineStop::Form)?;
    if !words.accept(b"pack") {
        return Err(LineStop::Form);
    }
    let pack = read_packing(words, spare)?;
    Ok(Step::Burst { count, size, pack })
}

/// What is sent, in the memory of a packing and of a list of placements that is empty.
#[tactic(auto, unfolding(crate::specs::Reading::step_at))]
#[inline(always)]
fn read_step(
    format: Format,
    words: &mut Words,
    spare: Packing,
    empty: Placements,
) -> Result<Step, LineStop>
    requires { empty ≡ [] }
    ensures { Reads result words.new (step_at format words.old) }
{
    if words.accept(b"send") {
        return read_send(format, words, spare, empty);
    }
    match format {
        Format::One => Err(LineStop::Form),
        Format::Two => read_burst(words, spare),
    }
}

/// An empty list in the memory of the placements of a step, which then has none.
#[inline(always)]
fn emptied(alloc: Global, step: &mut Step) -> Placements
    ensures { result ≡ [] }
{
    match step {
        Step::Send { placements, .. } => {
            let mut list = mem::replace(placements, Sequence::new(alloc));
            list.truncate(0);
            list
        }
        Step::Burst { .. } => Sequence::new(alloc),
    }
}

/// The packing of a step, which then has no bins, for its memory.
#[inline(always)]
fn spare_packing(alloc: Global, step: &mut Step) -> Packing {
    match step {
        Step::Send {
            pack: Some(pack),
            ..
        } => mem::replace(pack, Packing::new(alloc)),
        Step::Send { pack: None, .. } => Packing::new(alloc),
        Step::Burst { pack, .. } => mem::replace(pack, Packing::new(alloc)),
    }
}

/// Reads a node of the adversary of this number into a node in place of what it holds.
#[tactic(auto, unfolding(crate::specs::Reading::adversary_at))]
#[inline(always)]
fn fill_adversary(
    alloc: Global,
    format: Format,
    words: &mut Words,
    number: u32,
    node: &mut AdvNode,
) -> Result<(), LineStop>
    ensures { GivesInto result node.new (adversary_at format number words.old) }
{
    read_position(words, number, &mut node.loads, &mut node.items)?;
    let empty = emptied(alloc, &mut node.step);
    let spare = spare_packing(alloc, &mut node.step);
    node.step = read_step(format, words, spare, empty)?;
    if !words.is_at_end() {
        return Err(LineStop::Form);
    }
    Ok(())
}

/// The node of the adversary of this number that a line of a strategy of this format, without its line
/// feed, spells; None exactly where it spells none. Takes memory for the node alone, in time linear in
/// the line's bytes.
pub fn parse_adversary(
    alloc: Global,
    format: Format,
    line: &[u8],
    number: u32,
) -> Result<Option<AdvNode>, AllocError>
    ensures spelled { IfOk result (λ read.
        IfSome read (λ node. SpellsNode format number line.now (of_adversary node))) }
    ensures refused { IfOk result (λ read.
        IfNone read ((node : AdvNode) → SpellsNode format number line.now (of_adversary node) → ⊥)) }
{
    let mut node = AdvNode::empty(alloc);
    if read_adversary(alloc, format, line, number, &mut node)? {
        return Ok(Some(node));
    }
    Ok(None)
}

/// Reads the node that [`parse_adversary`] gives into a node in place of what it holds, in the memory of its lists of
/// loads, items and placements and of its packing where that is enough. False exactly where the line spells none; the
/// node may then hold anything.
#[inline(never)]
pub fn read_adversary(
    alloc: Global,
    format: Format,
    line: &[u8],
    number: u32,
    node: &mut AdvNode,
) -> Result<bool, AllocError>
    ensures spelled { IfOk result (λ read. OnTrue read (SpellsNode format number line.now (of_adversary node.new))) }
    ensures refused { IfOk result (λ read.
        OnFalse read ((other : AdvNode) → SpellsNode format number line.now (of_adversary other) → ⊥)) }
{
    if line.len() > LONGEST_LINE {
        return Ok(false);
    }
    match fill_adversary(alloc, format, &mut Words::new(line), number, node) {
        Ok(()) => Ok(true),
        Err(LineStop::Form) => Ok(false),
        Err(LineStop::Memory) => Err(AllocError),
    }
}
