//! The lines of a strategy, written to a sink.

ghost use Rattle.std.specs.Prelude.{◌≡◌, ◌<◌, ◌≤◌, ◌+◌, [], ◌∷◌, ◌++◌, length, drop, take, codes, OnOk, OnErr};
ghost use Rattle.std.specs.List.{flat_map};
ghost use Rattle.std.specs.Io.KnownBytes.{append_known};
ghost use Rattle.port_io.specs.Faults.{Rose};
ghost use Rattle.port_io.specs.Told.{AppendsSome};
ghost use Rattle.strategy_text.specs.Text.{line_of, position_words, step_words, act_words, node_lines, nodes_of};
ghost use Rattle.strategy_text.specs.Text.{side_of, first_line, head_lines, text_of_lines, text_of};
ghost use Rattle.strategy_text.specs.Spelling.{IsSpellable};
ghost use Rattle.strategy_text.specs.Writing.{standing, Writes};

use crate::buffer::Buffer;
use crate::node::{AdvNode, AlgNode, Format, Nodes, Side, Strategy};
use crate::spelled::{Spelled, Word, put_each, write_position};
use items::Game;
use port_io::{Failed, Sink};

impl Spelled for AdvNode {
    ghost words = { λ node. position_words node.loads node.items ++ step_words node.step };

    fn put<K: Sink>(&self, buffer: &mut Buffer, sink: &mut K) -> Result<(), Failed> {
        write_position(self.loads.as_slice(), self.items.as_slice(), buffer, sink)?;
        self.step.put(buffer, sink)
    }
}

impl Spelled for AlgNode {
    ghost words = { λ node. position_words node.loads node.items ++ act_words node.act };

    fn put<K: Sink>(&self, buffer: &mut Buffer, sink: &mut K) -> Result<(), Failed> {
        write_position(self.loads.as_slice(), self.items.as_slice(), buffer, sink)?;
        self.act.put(buffer, sink)
    }
}

/// Writes a line of its first word and the words of some values.
fn write_line<T: Spelled, K: Sink>(
    first: &[u8],
    others: &[T],
    buffer: &mut Buffer,
    sink: &mut K,
) -> Result<(), Failed>
    ensures { Writes result
        (standing (K.written sink.old) (K.faults sink.old) buffer.old)
        (standing (K.written sink.new) (K.faults sink.new) buffer.new)
        (line_of (first.now ∷ flat_map T.words others.now) ++ 10 ∷ []) }
{
    buffer.put(sink, first)?;
    put_each(others, buffer, sink)?;
    buffer.put(sink, b"\n")
}

/// Writes the line of the node of this number.
fn write_node<K: Sink>(
    nodes: &Nodes,
    number: u32,
    buffer: &mut Buffer,
    sink: &mut K,
) -> Result<(), Failed>
    requires { number < length (nodes_of nodes.now) }
    ensures { Writes result
        (standing (K.written sink.old) (K.faults sink.old) buffer.old)
        (standing (K.written sink.new) (K.faults sink.new) buffer.new)
        (text_of_lines (node_lines number (take 1 (drop number (nodes_of nodes.now))))) }
{
    let mut digits = itoa::Buffer::new();
    let first = digits.format(number).as_bytes();
    let i = number as usize;
    match nodes {
        Nodes::Adversary(list) => write_line(first, &list.as_slice()[i..i + 1], buffer, sink),
        Nodes::Algorithm(list) => write_line(first, &list.as_slice()[i..i + 1], buffer, sink),
    }
}

/// Writes the lines of the nodes.
fn write_nodes<K: Sink>(nodes: &Nodes, buffer: &mut Buffer, sink: &mut K) -> Result<(), Failed>
    requires { length (nodes_of nodes.now) ≤ 4000000000 }
    ensures { Writes result
        (standing (K.written sink.old) (K.faults sink.old) buffer.old)
        (standing (K.written sink.new) (K.faults sink.new) buffer.new)
        (text_of_lines (node_lines 0 (nodes_of nodes.now))) }
{
    let count = nodes.len() as u32;
    for number in 0..count {
        write_node(nodes, number, buffer, sink)?;
    }
    Ok(())
}

/// The first line of a format.
fn first_line(format: Format) -> &'static str
    ensures { result.now ≡ first_line format }
{
    match format {
        Format::One => "stretch 1",
        Format::Two => "stretch 2",
    }
}

/// Writes the lines before the nodes.
fn write_head<K: Sink>(
    format: Format,
    game: &Game,
    side: Side,
    count: u32,
    buffer: &mut Buffer,
    sink: &mut K,
) -> Result<(), Failed>
    ensures { Writes result
        (standing (K.written sink.old) (K.faults sink.old) buffer.old)
        (standing (K.written sink.new) (K.faults sink.new) buffer.new)
        (text_of_lines (head_lines format game.now side count)) }
{
    let nothing: [Word; 0] = [];
    write_line(first_line(format).as_bytes(), &nothing, buffer, sink)?;
    let numbers = [
        Word::Size(game.m()),
        Word::Size(game.g()),
        Word::Size(game.t()),
    ];
    write_line(b"game", &numbers, buffer, sink)?;
    write_line(b"side", &[Word::Keyword(side.word())], buffer, sink)?;
    write_line(b"nodes", &[Word::Number(count)], buffer, sink)
}

/// Writes all lines.
fn write_lines<K: Sink>(
    strategy: &Strategy,
    buffer: &mut Buffer,
    sink: &mut K,
) -> Result<(), Failed>
    requires { IsSpellable strategy.now }
    ensures { Writes result
        (standing (K.written sink.old) (K.faults sink.old) buffer.old)
        (standing (K.written sink.new) (K.faults sink.new) buffer.new) (text_of strategy.now) }
{
    let list = &strategy.nodes;
    write_head(
        strategy.format,
        &strategy.game,
        list.side(),
        list.len() as u32,
        buffer,
        sink,
    )?;
    write_nodes(list, buffer, sink)?;
    buffer.put(sink, b"end\n")
}

/// Writes the text of a spellable strategy. Takes no memory: the bytes go through one buffer of fixed
/// size, in time linear in the text.
///
/// # Errors
///
/// [`Failed`] where a write failed. A prefix of the text was written then.
pub fn write_strategy<K: Sink>(strategy: &Strategy, sink: &mut K) -> Result<(), Failed>
    requires { IsSpellable strategy.now }
    ensures count { K.faults sink.old ≤ K.faults sink.new }
    ensures ok { OnOk result (K.written sink.new ≡ append_known (K.written sink.old) (text_of strategy.now)) }
    ensures failed { OnErr result (Rose (K.faults sink.old) (K.faults sink.new)) }
    ensures err { OnErr result (AppendsSome (K.written sink.old) (K.written sink.new) (text_of strategy.now)) }
{
    let mut buffer = Buffer::new();
    write_lines(strategy, &mut buffer, sink)?;
    buffer.flush(sink)
}
