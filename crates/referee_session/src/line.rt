//! Short lines in fixed storage.

ghost use Rattle.std.specs.Prelude.{◌≡◌, ◌+◌, ◌≤◌, ◌<◌, ◌∷◌, [], ◌++◌, decimal, length};
ghost use Rattle.referee_session.specs.Lines.{bad_line, ended_line, item_line, lost_line, session_line};

use items::Game;
use std::marker::Model;

/// The most bytes of a line: those of two words and eight loads.
const ROOM: usize = 64;

/// A line that is made word by word. It takes no memory.
#[derive(Drop)]
pub(crate) struct ShortLine {
    bytes: [u8; 64],
    len: usize,
}

impl Model for ShortLine {
    ghost use Rattle.std.specs.Prelude.{ℕ, ◌≤◌, List, take};

    ghost Value = { List ℕ };

    ghost view = { λ b. take b.len b.bytes };

    ghost invariant = { λ b. b.len ≤ 64 };
}

impl ShortLine {
    // A line of no bytes.
    fn new() -> ShortLine
        ensures { result ≡ [] }
    {
        ShortLine {
            bytes: [0; ROOM],
            len: 0,
        }
    }

    /// The bytes.
    pub(crate) fn as_slice(&self) -> &[u8]
        ensures { result.now ≡ self.now }
    {
        &self.bytes[..self.len]
    }

    // Puts bytes at the end.
    fn put(&mut self, piece: &[u8])
        requires { length self.old + length piece.now ≤ 64 }
        ensures { self.new ≡ self.old ++ piece.now }
    {
        let end = self.len + piece.len();
        self.bytes[self.len..end].copy_from_slice(piece);
        self.len = end;
    }

    // Puts a space and a number at the end.
    fn number(&mut self, n: u16)
        requires { length self.old ≤ 58 }
        ensures value { self.new ≡ self.old ++ 32 ∷ decimal n }
        ensures short { length self.new ≤ length self.old + 6 }
    {
        self.put(b" ");
        self.put(itoa::Buffer::new().format(n).as_bytes());
    }
}

/// The first line of a session.
pub(crate) fn session_line(game: &Game) -> ShortLine
    ensures { result ≡ session_line game.now }
{
    let mut line = ShortLine::new();
    line.put(b"session");
    line.number(game.m());
    line.number(game.g());
    line.number(game.t());
    line.put(b"\n");
    line
}

// A line of a word and a number.
fn numbered(word: &[u8], n: u16) -> ShortLine
    requires { length word.now ≤ 16 }
    ensures { result ≡ (word.now ++ 32 ∷ decimal n) ++ 10 ∷ [] }
{
    let mut line = ShortLine::new();
    line.put(word);
    line.number(n);
    line.put(b"\n");
    line
}

/// The line of an item that waits for its bin.
pub(crate) fn item_line(size: u16) -> ShortLine
    ensures { result ≡ item_line size }
{
    numbered(b"item", size)
}

/// The line of an input that ended after so many answers.
pub(crate) fn ended_line(count: u16) -> ShortLine
    ensures { result ≡ ended_line count }
{
    numbered(b"ended", count)
}

/// The line of an answer that is none, by its number, counted from 1.
pub(crate) fn bad_line(number: u16) -> ShortLine
    ensures { result ≡ bad_line number }
{
    numbered(b"badanswer", number)
}

/// The line of a play that has ended with these loads.
pub(crate) fn lost_line(loads: &[u16]) -> ShortLine
    requires some { 0 < length loads.now }
    requires few { length loads.now ≤ 8 }
    ensures { result ≡ lost_line loads.now }
{
    let mut line = ShortLine::new();
    line.put(b"lost loads");
    for load in loads {
        line.number(*load);
    }
    line.put(b"\n");
    line
}
