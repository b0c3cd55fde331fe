//! The bytes that a reader of lines has read and not yet given.
ghost use Rattle.std.specs.Prelude.{◌≡◌, ◌+◌, ◌-◌, ◌<◌, ◌≤◌, [], IfOk, OnErr, length, take, drop, slice_range, vec_len};
ghost use Rattle.std.specs.Io.KnownBytes.{prepend_known, IsAtEnd};
ghost use Rattle.port_io.specs.Faults.{Rose};
ghost use Rattle.port_io.specs.Lines.{longest_line};
ghost use Rattle.port_io.specs.Reading.{ReadsOn};

use crate::sources::{Failed, Source};
use std::alloc::{AllocError, Global};
use std::marker::Model;

// The size of the buffer: room for a line that is too long, and for many short ones at each read.
const SIZE: usize = 65_536;

// `bytes[start..end]` is held, and `bytes[text_start..text_end]` is the line that was given last.
#[derive(Drop)]
pub struct ReadAhead {
    bytes: Vec<u8>,
    text_start: usize,
    text_end: usize,
    start: usize,
    end: usize,
}

impl Model for ReadAhead {
    ghost use Rattle.std.specs.Prelude.{◌≡◌, ◌≤◌, slice_range, vec_len};
    ghost use Rattle.port_io.specs.Reading.{Ahead};

    ghost Value = { Ahead };

    ghost view = { λ b. record {
      text = slice_range b.bytes.items b.text_start b.text_end;
      held = slice_range b.bytes.items b.start b.end;
    } };

    ghost invariant = { λ b. (b.text_start ≤ b.text_end) × (b.text_end ≤ 65536) × (b.start ≤ b.end)
        × (b.end ≤ 65536) × (vec_len b.bytes ≡ 65536) };
}

impl ReadAhead {
    pub fn new(alloc: Global) -> Result<ReadAhead, AllocError>
        ensures { IfOk result (λ b. b ≡ record { text = []; held = [] }) }
    {
        Ok(ReadAhead {
            bytes: vec![in alloc; 0; SIZE]?,
            text_start: 0,
            text_end: 0,
            start: 0,
            end: 0,
        })
    }

    pub fn text(&self) -> &[u8]
        ensures { result.now ≡ self.now.text }
    {
        let (start, end) = (self.text_start, self.text_end);
        &self.bytes.as_slice()[start..end]
    }

    pub fn held(&self) -> &[u8]
        ensures { result.now ≡ self.now.held }
    {
        let (start, end) = (self.start, self.end);
        &self.bytes.as_slice()[start..end]
    }

    // Forgets the line that was given.
    pub fn forget(&mut self)
        ensures { self.new ≡ record { text = []; held = self.old.held } }
    {
        self.text_start = 0;
        self.text_end = 0;
    }

    // Gives the line of that length that is held first, and takes it and the byte after it from what is held.
    pub fn give(&mut self, count: usize)
        requires { count < length self.old.held }
        ensures { self.new ≡ record { text = take count self.old.held; held = drop (count + 1) self.old.held } }
    {
        self.text_start = self.start;
        self.text_end = self.start + count;
        self.start = self.text_end + 1;
    }

    // Reads once, to the end of what is held, and answers how many bytes came. The line given is forgotten.
    pub fn refill<S: Source>(&mut self, source: &mut S) -> Result<usize, Failed>
        requires { length self.old.held ≤ longest_line }
        ensures count { S.faults source.old ≤ S.faults source.new }
        ensures text { self.new.text ≡ [] }
        ensures reads { ReadsOn self.old.held self.new.held (S.left source.old) (S.left source.new) }
        ensures amount { IfOk result (λ n. length self.new.held ≡ length self.old.held + n) }
        ensures end { IfOk result (λ n. n ≡ 0 → IsAtEnd (S.left source.new)) }
        ensures failed { OnErr result (Rose (S.faults source.old) (S.faults source.new)) }
        ensures kept { OnErr result (self.new.held ≡ self.old.held) }
    {
        self.text_start = 0;
        self.text_end = 0;
        let end = move_to_front(&mut self.bytes, self.start, self.end);
        self.start = 0;
        self.end = end;
        let count = read_behind(source, &mut self.bytes, end)?;
        self.end += count;
        Ok(count)
    }
}

// Moves the bytes from `start` to `end` to the buffer's beginning, and answers where they end then.
fn move_to_front(bytes: &mut Vec<u8>, start: usize, end: usize) -> usize
    requires ordered { start ≤ end }
    requires within { end ≤ vec_len bytes.old }
    ensures len { vec_len bytes.new ≡ vec_len bytes.old }
    ensures end { result ≡ end - start }
    ensures moved { take result bytes.new.items ≡ slice_range bytes.old.items start end }
{
    if start > 0 {
        bytes.copy_within(start..end, 0);
    }
    end - start
}

// Reads once into the bytes from `end` on, of which there are 4,096 at least.
fn read_behind<S: Source>(source: &mut S, bytes: &mut Vec<u8>, end: usize) -> Result<usize, Failed>
    requires { end + 4096 ≤ vec_len bytes.old }
    ensures count { S.faults source.old ≤ S.faults source.new }
    ensures len { vec_len bytes.new ≡ vec_len bytes.old }
    ensures before { take end bytes.new.items ≡ take end bytes.old.items }
    ensures bound { IfOk result (λ n. end + n ≤ vec_len bytes.new) }
    ensures given { IfOk result (λ n.
        S.left source.old ≡ prepend_known (slice_range bytes.new.items end (end + n)) (S.left source.new)) }
    ensures end { IfOk result (λ n. n ≡ 0 → IsAtEnd (S.left source.new)) }
    ensures failed { OnErr result (Rose (S.faults source.old) (S.faults source.new)) }
    ensures kept { OnErr result (S.left source.new ≡ S.left source.old) }
{
    let all = bytes.as_mut_slice();
    source.read(&mut all[end..])
}
