//! The text of a strategy, in memory.

ghost use Rattle.std.specs.Prelude.{◌≡◌, ◌+◌, ◌^◌, ◌≤◌, ◌<◌, [], ◌∷◌, ◌++◌, Some, Ok, IfOk, OnOk, OnErr, length, take};
ghost use Rattle.std.specs.Io.KnownBytes.{append_known};
ghost use Rattle.port_io.specs.Faults.{Rose};
ghost use Rattle.strategy_text.specs.Text.{text_of};
ghost use Rattle.strategy_text.specs.Spelling.{IsSpellable};

use crate::node::Strategy;
use crate::writing::write_strategy;
use port_io::{Failed, Sink};
use std::alloc::{AllocError, Global};
use std::marker::Model;

/// Bytes of a text, in a list that grows at its end.
#[derive(Drop)]
pub struct Text {
    bytes: Vec<u8>,
}

impl Model for Text {
    ghost use Rattle.std.specs.Prelude.{ℕ, List};

    ghost Value = { List ℕ };

    ghost view = { λ t. t.bytes.items };
}

impl Text {
    /// The empty text. Takes no memory.
    pub fn new(alloc: Global) -> Text
        ensures empty { result ≡ [] }
    {
        Text {
            bytes: Vec::new(alloc),
        }
    }

    /// The bytes in their order.
    pub fn as_slice(&self) -> &[u8]
        ensures value { result.now ≡ self.now }
    {
        self.bytes.as_slice()
    }

    /// How many bytes there are.
    pub fn len(&self) -> usize
        ensures value { result ≡ length self.now }
    {
        self.bytes.len()
    }

    /// Puts a byte at the end. Where memory is refused, the text stays as it was.
    pub fn push(&mut self, byte: u8) -> Result<(), AllocError>
        ensures ok { OnOk result (self.new ≡ self.old ++ byte ∷ []) }
        ensures err { OnErr result (self.new ≡ self.old) }
    {
        self.bytes.push(byte)?;
        Ok(())
    }

    /// Puts bytes at the end. Where memory is refused, the text stays as it was.
    pub fn push_all(&mut self, bytes: &[u8]) -> Result<(), AllocError>
        ensures ok { OnOk result (self.new ≡ self.old ++ bytes.now) }
        ensures err { OnErr result (self.new ≡ self.old) }
    {
        self.bytes.extend_from_slice(bytes)?;
        Ok(())
    }
}

/// A text as a sink, whose writes fail where memory is refused.
#[derive(Drop)]
struct TextSink {
    text: Text,
    refused: u64,
}

impl Sink for TextSink {
    ghost written = { λ s. Some s.text };

    ghost faults = { λ s. s.refused };

    fn write(&mut self, piece: &[u8]) -> Result<usize, Failed>
        ensures count { self.old.refused ≤ self.new.refused }
        ensures bound { IfOk result (λ n. n ≤ length piece.now) }
        ensures progress { IfOk result (λ n. 0 < length piece.now → 0 < n) }
        ensures empty { length piece.now ≡ 0 → result ≡ Ok 0 }
        ensures taken { IfOk result (λ n. Some self.new.text ≡ append_known (Some self.old.text) (take n piece.now)) }
        ensures failed { OnErr result (Rose self.old.refused self.new.refused) }
        ensures kept { OnErr result (Some self.new.text ≡ Some self.old.text) }
    {
        if piece.is_empty() {
            return Ok(0);
        }
        match self.text.push_all(piece) {
            Ok(()) => Ok(piece.len()),
            Err(AllocError) => {
                self.refused = self.refused.saturating_add(1);
                Err(Failed)
            }
        }
    }
}

/// The text of a spellable strategy.
///
/// # Errors
///
/// Where memory runs out.
pub fn text_of(alloc: Global, strategy: &Strategy) -> Result<Text, AllocError>
    requires { IsSpellable strategy.now }
    ensures exact { IfOk result (λ text. text ≡ text_of strategy.now) }
{
    let mut sink = TextSink {
        text: Text::new(alloc),
        refused: 0,
    };
    match write_strategy(strategy, &mut sink) {
        Ok(()) => Ok(sink.text),
        Err(Failed) => Err(AllocError),
    }
}
