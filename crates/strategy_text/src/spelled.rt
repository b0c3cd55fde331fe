//! The words of a node, written to a sink.

ghost use Rattle.std.specs.Prelude.{◌≡◌, ℕ, ◌∷◌, [], ◌++◌, List, decimal, codes};
ghost use Rattle.std.specs.List.{flat_map};
ghost use Rattle.strategy_text.specs.declared.node.Step.TheVariants.{Send, Burst};
ghost use Rattle.strategy_text.specs.Text.{list_words, pack_words, packing_words, placement_words, step_words};
ghost use Rattle.strategy_text.specs.Text.{entry_words, entries_words, act_words, position_words};
ghost use Rattle.strategy_text.specs.Writing.{standing, Writes, spaced, word_of};

use crate::buffer::Buffer;
use crate::node::{Act, Entry, Placement, Step, Then};
use items::Nums;
use packing_witness::Packing;
use port_io::{Failed, Sink};

/// A word of a line.
#[derive(Clone, Copy)]
pub(crate) enum Word {
    /// A word that a form has.
    Keyword(&'static str),
    /// A size, a load or a count, in decimal digits.
    Size(u16),
    /// The number of a node, in decimal digits.
    Number(u32),
}

/// What has words in a line.
pub(crate) trait Spelled {
    // The words.
    ghost words: { Self → List (List ℕ) };

    /// Writes the words, each after a space.
    fn put<K: Sink>(&self, buffer: &mut Buffer, sink: &mut K) -> Result<(), Failed>
        ensures { Writes result
            (standing (K.written sink.old) (K.faults sink.old) buffer.old)
            (standing (K.written sink.new) (K.faults sink.new) buffer.new) (spaced (words self.now)) };
}

/// Writes the words of each value, each word after a space.
pub(crate) fn put_each<T: Spelled, K: Sink>(
    list: &[T],
    buffer: &mut Buffer,
    sink: &mut K,
) -> Result<(), Failed>
    ensures { Writes result
        (standing (K.written sink.old) (K.faults sink.old) buffer.old)
        (standing (K.written sink.new) (K.faults sink.new) buffer.new) (spaced (flat_map T.words list.now)) }
{
    for value in list {
        value.put(buffer, sink)?;
    }
    Ok(())
}

impl Spelled for Word {
    ghost words = { λ word. word_of word ∷ [] };

    fn put<K: Sink>(&self, buffer: &mut Buffer, sink: &mut K) -> Result<(), Failed> {
        match *self {
            Word::Keyword(word) => buffer.word(sink, word.as_bytes()),
            Word::Size(n) => buffer.word(sink, itoa::Buffer::new().format(n).as_bytes()),
            Word::Number(n) => buffer.word(sink, itoa::Buffer::new().format(n).as_bytes()),
        }
    }
}

impl Spelled for u16 {
    ghost words = { λ n. decimal n ∷ [] };

    fn put<K: Sink>(&self, buffer: &mut Buffer, sink: &mut K) -> Result<(), Failed> {
        Word::Size(*self).put(buffer, sink)
    }
}

/// Writes a list of numbers.
fn write_list<K: Sink>(list: &[u16], buffer: &mut Buffer, sink: &mut K) -> Result<(), Failed>
    ensures { Writes result
        (standing (K.written sink.old) (K.faults sink.old) buffer.old)
        (standing (K.written sink.new) (K.faults sink.new) buffer.new) (spaced (list_words list.now)) }
{
    if list.is_empty() {
        return buffer.word(sink, b"-");
    }
    put_each(list, buffer, sink)
}

/// A list of a packing after the first, with the slash before it.
impl Spelled for Nums {
    ghost words = { λ bin. codes "/" ∷ list_words bin };

    fn put<K: Sink>(&self, buffer: &mut Buffer, sink: &mut K) -> Result<(), Failed> {
        buffer.word(sink, b"/")?;
        write_list(self.as_slice(), buffer, sink)
    }
}

impl Spelled for Placement {
    ghost words = { placement_words };

    fn put<K: Sink>(&self, buffer: &mut Buffer, sink: &mut K) -> Result<(), Failed> {
        let load = Word::Size(self.load);
        match self.next {
            Then::Over => put_each(
                &[Word::Keyword("on"), load, Word::Keyword("over")],
                buffer,
                sink,
            ),
            Then::To(child) => {
                let to = [
                    Word::Keyword("on"),
                    load,
                    Word::Keyword("to"),
                    Word::Number(child),
                ];
                put_each(&to, buffer, sink)
            }
        }
    }
}

impl Spelled for Entry {
    ghost words = { entry_words };

    fn put<K: Sink>(&self, buffer: &mut Buffer, sink: &mut K) -> Result<(), Failed> {
        let words = [
            Word::Size(self.size),
            Word::Keyword("on"),
            Word::Size(self.load),
            Word::Keyword("to"),
            Word::Number(self.to),
        ];
        put_each(&words, buffer, sink)
    }
}

/// Writes the lists of a packing, with a slash between two.
fn write_bins<K: Sink>(bins: &[Nums], buffer: &mut Buffer, sink: &mut K) -> Result<(), Failed>
    ensures { Writes result
        (standing (K.written sink.old) (K.faults sink.old) buffer.old)
        (standing (K.written sink.new) (K.faults sink.new) buffer.new) (spaced (pack_words bins.now)) }
{
    match bins {
        [] => Ok(()),
        [first, others @ ..] => {
            write_list(first.as_slice(), buffer, sink)?;
            put_each(others, buffer, sink)
        }
    }
}

/// Writes a packing.
fn write_packing<K: Sink>(pack: &Packing, buffer: &mut Buffer, sink: &mut K) -> Result<(), Failed>
    ensures { Writes result
        (standing (K.written sink.old) (K.faults sink.old) buffer.old)
        (standing (K.written sink.new) (K.faults sink.new) buffer.new) (spaced (codes "pack" ∷ pack_words pack.now)) }
{
    buffer.word(sink, b"pack")?;
    write_bins(pack.bins(), buffer, sink)
}

/// Writes a packing, if there is one.
fn write_optional_packing<K: Sink>(
    pack: &Option<Packing>,
    buffer: &mut Buffer,
    sink: &mut K,
) -> Result<(), Failed>
    ensures { Writes result
        (standing (K.written sink.old) (K.faults sink.old) buffer.old)
        (standing (K.written sink.new) (K.faults sink.new) buffer.new) (spaced (packing_words pack.now)) }
{
    match pack {
        Some(pack) => write_packing(pack, buffer, sink),
        None => Ok(()),
    }
}

/// Writes a packing, if there is one, and the placements.
fn write_branches<K: Sink>(
    pack: &Option<Packing>,
    placements: &[Placement],
    buffer: &mut Buffer,
    sink: &mut K,
) -> Result<(), Failed>
    ensures { Writes result
        (standing (K.written sink.old) (K.faults sink.old) buffer.old)
        (standing (K.written sink.new) (K.faults sink.new) buffer.new)
        (spaced (packing_words pack.now ++ flat_map placement_words placements.now)) }
{
    write_optional_packing(pack, buffer, sink)?;
    put_each(placements, buffer, sink)
}

/// Writes an item that is sent.
fn write_send<K: Sink>(
    size: u16,
    pack: &Option<Packing>,
    placements: &[Placement],
    buffer: &mut Buffer,
    sink: &mut K,
) -> Result<(), Failed>
    ensures { Writes result
        (standing (K.written sink.old) (K.faults sink.old) buffer.old)
        (standing (K.written sink.new) (K.faults sink.new) buffer.new)
        (spaced (step_words (Send size pack.now placements.now))) }
{
    let words = [Word::Keyword("send"), Word::Size(size)];
    put_each(&words, buffer, sink)?;
    write_branches(pack, placements, buffer, sink)
}

/// Writes a burst.
fn write_burst<K: Sink>(
    count: u16,
    size: u16,
    pack: &Packing,
    buffer: &mut Buffer,
    sink: &mut K,
) -> Result<(), Failed>
    ensures { Writes result
        (standing (K.written sink.old) (K.faults sink.old) buffer.old)
        (standing (K.written sink.new) (K.faults sink.new) buffer.new)
        (spaced (step_words (Burst count size pack.now))) }
{
    let words = [Word::Keyword("burst"), Word::Size(count), Word::Size(size)];
    put_each(&words, buffer, sink)?;
    write_packing(pack, buffer, sink)
}

impl Spelled for Step {
    ghost words = { step_words };

    fn put<K: Sink>(&self, buffer: &mut Buffer, sink: &mut K) -> Result<(), Failed> {
        match self {
            Step::Send {
                size,
                pack,
                placements,
            } => write_send(*size, pack, placements.as_slice(), buffer, sink),
            Step::Burst { count, size, pack } => write_burst(*count, *size, pack, buffer, sink),
        }
    }
}

/// Writes the replies.
fn write_entries<K: Sink>(
    entries: &[Entry],
    buffer: &mut Buffer,
    sink: &mut K,
) -> Result<(), Failed>
    ensures { Writes result
        (standing (K.written sink.old) (K.faults sink.old) buffer.old)
        (standing (K.written sink.new) (K.faults sink.new) buffer.new) (spaced (entries_words entries.now)) }
{
    if entries.is_empty() {
        return buffer.word(sink, b"-");
    }
    put_each(entries, buffer, sink)
}

/// Writes a node's replies after their word.
fn write_reply<K: Sink>(list: &[Entry], buffer: &mut Buffer, sink: &mut K) -> Result<(), Failed>
    ensures { Writes result
        (standing (K.written sink.old) (K.faults sink.old) buffer.old)
        (standing (K.written sink.new) (K.faults sink.new) buffer.new)
        (spaced (codes "reply" ∷ entries_words list.now)) }
{
    buffer.word(sink, b"reply")?;
    write_entries(list, buffer, sink)
}

impl Spelled for Act {
    ghost words = { act_words };

    fn put<K: Sink>(&self, buffer: &mut Buffer, sink: &mut K) -> Result<(), Failed> {
        match self {
            Act::Finish => buffer.word(sink, b"finish"),
            Act::Big(bins) => {
                let words = [Word::Keyword("big"), Word::Size(*bins)];
                put_each(&words, buffer, sink)
            }
            Act::Reply(list) => write_reply(list.as_slice(), buffer, sink),
        }
    }
}

/// Writes a list after a word.
fn write_labelled<K: Sink>(
    label: &[u8],
    numbers: &[u16],
    buffer: &mut Buffer,
    sink: &mut K,
) -> Result<(), Failed>
    ensures { Writes result
        (standing (K.written sink.old) (K.faults sink.old) buffer.old)
        (standing (K.written sink.new) (K.faults sink.new) buffer.new) (spaced (label.now ∷ list_words numbers.now)) }
{
    buffer.word(sink, label)?;
    write_list(numbers, buffer, sink)
}

/// Writes the loads and the items.
pub(crate) fn write_position<K: Sink>(
    loads: &[u16],
    items: &[u16],
    buffer: &mut Buffer,
    sink: &mut K,
) -> Result<(), Failed>
    ensures { Writes result
        (standing (K.written sink.old) (K.faults sink.old) buffer.old)
        (standing (K.written sink.new) (K.faults sink.new) buffer.new) (spaced (position_words loads.now items.now)) }
{
    write_labelled(b"loads", loads, buffer, sink)?;
    write_labelled(b"items", items, buffer, sink)
}
