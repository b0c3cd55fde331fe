//! Reading a source line by line.
ghost use Rattle.std.specs.Prelude.{◌≡◌, ◌+◌, ◌<◌, ◌≤◌, [], None, Some, Ok, ◌++◌, Option};
ghost use Rattle.std.specs.Prelude.{IfOk, OnErr, IsOk, IfSome, IfNone, Contains, length};
ghost use Rattle.std.specs.Io.KnownBytes.{prepend_known};
ghost use Rattle.port_io.specs.Faults.{Rose};
ghost use Rattle.port_io.specs.Reading.{ReadsOn};
ghost use Rattle.port_io.specs.Lines.{lf, longest_line, HasNoLf, StandsNext, OnlyStandsNext};
ghost use Rattle.port_io.specs.Lines.{GivesText, to_come, line_given, ending_of};
ghost use Rattle.port_io.specs.Found.{NoLfBelow, EndsAt, IsFound};

use crate::read_ahead::ReadAhead;
use crate::sources::{Failed, Source};
use memchr::memchr;
use std::alloc::{AllocError, Global};
use std::marker::Model;

const LF: u8 = b'\n';

/// The most bytes of a line, its LF not counted. This limit is this project's.
pub const LONGEST_LINE: usize = 16_384;

/// What a call of [`LineReader::next_line`] found.
#[derive(Clone, Copy, PartialEq, Eq, Debug)]
pub enum Line {
    /// A whole line of at most 16,384 bytes, its LF not counted.
    Text,
    /// The end of the input, after an LF or at once.
    End,
    /// More than 16,384 bytes without an LF.
    TooLong,
    /// The end of the input, after 1 to 16,384 bytes without an LF.
    Unfinished,
}

// What the search for the next line came to.
enum Found {
    // A whole line of that length.
    Whole(usize),
    Ending(Line),
}

/// A reader of lines, which end in LF and have at most 16,384 bytes without it.
///
/// It reads ahead into a buffer of fixed size.
#[derive(Drop)]
pub struct LineReader {
    ahead: ReadAhead,
    ending: Option<Line>,
}

impl Model for LineReader {
    ghost use Rattle.std.specs.Prelude.{◌≢◌, Some};
    ghost use Rattle.port_io.specs.Lines.{ReaderState};
    ghost use Rattle.port_io.specs.declared.lines.Line.TheVariants.{Text};

    ghost Value = { ReaderState };

    ghost view = { λ r. record { held = r.ahead.held; text = r.ahead.text; ending = r.ending } };

    ghost invariant = { λ r. r.ending ≢ Some Text };
}

impl LineReader {
    /// A reader that holds no bytes. All its memory is taken here.
    ///
    /// # Errors
    ///
    /// Where memory runs out.
    pub fn new(alloc: Global) -> Result<LineReader, AllocError>
        ensures { IfOk result (λ r. r ≡ record { held = []; text = []; ending = None }) }
    {
        Ok(LineReader {
            ahead: ReadAhead::new(alloc)?,
            ending: None,
        })
    }

    /// The line, without its LF, that the last call of [`LineReader::next_line`] gave, or nothing where that
    /// call did not answer [`Line::Text`].
    pub fn text(&self) -> &[u8]
        ensures { result.now ≡ self.now.text }
    {
        self.ahead.text()
    }

    /// Finds what stands next, and gives it where it is a whole line.
    ///
    /// The source is asked only while no whole line is held. After any other answer than [`Line::Text`]
    /// every later call answers the same and reads nothing, whatever source it is given.
    ///
    /// # Errors
    ///
    /// [`Failed`] where a read failed. A later call goes on from the bytes that were read before.
    pub fn next_line<S: Source>(&mut self, source: &mut S) -> Result<Line, Failed>
        ensures count { S.faults source.old ≤ S.faults source.new }

        // What was held, and what was read in this call, is the line given and what is held now. So what
        // was to come is the line given, and then what is to come.
        ensures reads { ReadsOn self.old.held (line_given result self.new.text ++ self.new.held)
            (S.left source.old) (S.left source.new) }
        ensures input { to_come self.old (S.left source.old)
            ≡ prepend_known (line_given result self.new.text) (to_come self.new (S.left source.new)) }
        ensures text { GivesText result self.new.text }

        // What it answers is what stands next, and nothing else stands next.
        ensures answer { IfNone self.old.ending (IfOk result (λ line.
            IfSome (to_come self.old (S.left source.old)) (StandsNext line))) }
        ensures only { IfNone self.old.ending (IfOk result (λ line.
            IfSome (to_come self.old (S.left source.old)) (OnlyStandsNext line))) }
        ensures ending { IfOk result (λ line. self.new.ending ≡ ending_of line) }

        // The bytes that were read show it: it stands next in what was held and what was read in this call.
        ensures shown { IfNone self.old.ending (IfOk result (λ line.
            StandsNext line (line_given result self.new.text ++ self.new.held))) }

        // After an ending.
        ensures again { IfSome self.old.ending (λ ending. result ≡ Ok ending) }
        ensures again_kept { IfSome self.old.ending (λ ending.
            (source.new ≡ source.old) × (self.new.held ≡ self.old.held)) }

        // Where a whole line was held.
        ensures held { Contains self.old.held lf → (source.new ≡ source.old) × IsOk result }

        ensures failed { OnErr result (Rose (S.faults source.old) (S.faults source.new)) }
        ensures err { OnErr result (HasNoLf self.new.held × (self.new.ending ≡ None)) }
    {
        self.ahead.forget();
        if let Some(ending) = self.ending {
            return Ok(ending);
        }
        match find_next(&mut self.ahead, source)? {
            Found::Whole(length) => {
                self.ahead.give(length);
                Ok(Line::Text)
            }
            Found::Ending(ending) => {
                self.ending = Some(ending);
                Ok(ending)
            }
        }
    }
}

// Reads on until it is known what stands next.
fn find_next<S: Source>(ahead: &mut ReadAhead, source: &mut S) -> Result<Found, Failed>
    requires { ahead.old.text ≡ [] }
    ensures count { S.faults source.old ≤ S.faults source.new }
    ensures text { ahead.new.text ≡ [] }
    ensures reads { ReadsOn ahead.old.held ahead.new.held (S.left source.old) (S.left source.new) }
    ensures found { IfOk result (λ found. IsFound found ahead.new.held (S.left source.new)) }
    ensures held { Contains ahead.old.held lf → (source.new ≡ source.old) × IsOk result }
    ensures failed { OnErr result (Rose (S.faults source.old) (S.faults source.new)) }
    ensures err { OnErr result (NoLfBelow (length ahead.new.held) ahead.new.held) }
{
    let mut searched = 0;
    loop {
        let held = ahead.held();
        if let Some(length) = line_length(held, searched) {
            return Ok(Found::Whole(length));
        }
        searched = held.len();
        if searched > LONGEST_LINE {
            return Ok(Found::Ending(Line::TooLong));
        }
        if ahead.refill(source)? == 0 {
            let is_empty = searched == 0;
            return Ok(Found::Ending(if is_empty {
                Line::End
            } else {
                Line::Unfinished
            }));
        }
    }
}

// The length of the first line, where it is there whole. The bytes searched have no LF.
fn line_length(bytes: &[u8], searched: usize) -> Option<usize>
    requires within { searched ≤ length bytes.now }
    requires short { searched ≤ longest_line }
    requires no_lf { NoLfBelow searched bytes.now }
    ensures some { IfSome result (λ n. EndsAt n bytes.now) }
    ensures none { IfNone result (NoLfBelow (longest_line + 1) bytes.now) }
{
    let top = bytes.len().min(LONGEST_LINE + 1);
    let length = memchr(LF, &bytes[searched..top])?;
    Some(searched + length)
}
