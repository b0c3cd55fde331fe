//! Words on their way to a sink, through one buffer.

ghost use Rattle.std.specs.Prelude.{◌≡◌, ◌+◌, ◌≤◌, ◌∷◌, [], ◌++◌, OnOk, length};
ghost use Rattle.strategy_text.specs.Writing.{standing, Writes, spaced};

use port_io::{Failed, Sink, put_all};
use std::marker::Model;

/// The bytes that are held before they go to the sink.
const ROOM: usize = 4096;

/// Bytes that are held before they go to a sink.
#[derive(Drop)]
pub(crate) struct Buffer {
    bytes: [u8; 4096],
    len: usize,
}

impl Model for Buffer {
    ghost use Rattle.std.specs.Prelude.{ℕ, ◌≤◌, List, take};

    ghost Value = { List ℕ };

    ghost view = { λ b. take b.len b.bytes };

    ghost invariant = { λ b. b.len ≤ 4096 };
}

impl Buffer {
    /// A buffer that holds nothing.
    pub(crate) fn new() -> Self
        ensures { result ≡ [] }
    {
        Buffer {
            bytes: [0; ROOM],
            len: 0,
        }
    }

    /// Takes a piece that has room.
    fn keep(&mut self, piece: &[u8])
        requires { length self.old + length piece.now ≤ 4096 }
        ensures { self.new ≡ self.old ++ piece.now }
    {
        let end = self.len + piece.len();
        self.bytes[self.len..end].copy_from_slice(piece);
        self.len = end;
    }

    /// Writes all that is held.
    pub(crate) fn flush<K: Sink>(&mut self, sink: &mut K) -> Result<(), Failed>
        ensures writes { Writes result
            (standing (K.written sink.old) (K.faults sink.old) self.old)
            (standing (K.written sink.new) (K.faults sink.new) self.new) [] }
        ensures empty { OnOk result (self.new ≡ []) }
    {
        put_all(sink, &self.bytes[..self.len])?;
        self.len = 0;
        Ok(())
    }

    /// Makes room for so many bytes.
    fn make_room<K: Sink>(&mut self, sink: &mut K, count: usize) -> Result<(), Failed>
        requires { count ≤ 4096 }
        ensures writes { Writes result
            (standing (K.written sink.old) (K.faults sink.old) self.old)
            (standing (K.written sink.new) (K.faults sink.new) self.new) [] }
        ensures room { OnOk result (length self.new + count ≤ 4096) }
    {
        if count <= ROOM - self.len {
            return Ok(());
        }
        self.flush(sink)
    }

    /// Takes a piece of at most the room, after what is held.
    fn put_short<K: Sink>(&mut self, sink: &mut K, piece: &[u8]) -> Result<(), Failed>
        requires { length piece.now ≤ 4096 }
        ensures { Writes result
            (standing (K.written sink.old) (K.faults sink.old) self.old)
            (standing (K.written sink.new) (K.faults sink.new) self.new) piece.now }
    {
        self.make_room(sink, piece.len())?;
        self.keep(piece);
        Ok(())
    }

    /// Takes a piece, after what is held.
    pub(crate) fn put<K: Sink>(&mut self, sink: &mut K, piece: &[u8]) -> Result<(), Failed>
        ensures { Writes result
            (standing (K.written sink.old) (K.faults sink.old) self.old)
            (standing (K.written sink.new) (K.faults sink.new) self.new) piece.now }
    {
        if piece.len() <= ROOM {
            return self.put_short(sink, piece);
        }
        self.flush(sink)?;
        put_all(sink, piece)
    }

    /// Takes a word after a space.
    pub(crate) fn word<K: Sink>(&mut self, sink: &mut K, word: &[u8]) -> Result<(), Failed>
        ensures { Writes result
            (standing (K.written sink.old) (K.faults sink.old) self.old)
            (standing (K.written sink.new) (K.faults sink.new) self.new) (spaced (word.now ∷ [])) }
    {
        self.put(sink, b" ")?;
        self.put(sink, word)
    }
}
