//! A source and a sink in memory, whose reads and writes fail where they are told to.
ghost use Rattle.std.specs.Prelude.{◌≡◌, ◌+◌, ◌-◌, ◌^◌, ◌<◌, ◌≤◌, ◌⊎◌, ◌↔◌, Some, Ok, IfOk, OnErr, IsTrue};
ghost use Rattle.std.specs.Prelude.{IsErr, is_err, if◌then◌else◌, Contains, length, take, drop, min, [], ◌==◌};
ghost use Rattle.std.specs.Io.KnownBytes.{prepend_known, append_known, IsAtEnd};
ghost use Rattle.port_io.specs.Faults.{Rose};

use crate::sinks::Sink;
use crate::sources::{Failed, Source};
use std::alloc::{AllocError, Global};
use std::marker::Model;

// Copies the first bytes of `from` to the beginning of `to`, as many as there are and fit, but at most
// `most`, and says how many.
pub(crate) fn copy_front(from: &[u8], to: &mut [u8], most: usize) -> usize
    ensures count { result ≡ min (min (length from.now) (length to.old)) most }
    ensures copied { take result to.new ≡ take result from.now }
{
    let count = from.len().min(to.len()).min(most);
    to[..count].copy_from_slice(&from[..count]);
    count
}

// Whether the number after `before` is among the numbers.
fn is_next_among(before: u64, numbers: &[u64]) -> bool
    ensures { IsTrue result ↔ Contains numbers.now (before + 1) }
{
    match before.checked_add(1) {
        Some(number) => numbers.contains(&number),
        None => false,
    }
}

/// A source in memory.
///
/// A read gives as many bytes as are left and fit, but at most `step`. Exactly the reads whose numbers,
/// counted from 1, are among `failing` fail.
#[derive(Drop)]
pub struct MemSource {
    bytes: Vec<u8>,
    position: usize,
    step: usize,
    failing: Vec<u64>,
    reads: u64,
    faults: u64,
}

impl Model for MemSource {
    ghost use Rattle.std.specs.Prelude.{◌≤◌, drop, vec_len};
    ghost use Rattle.port_io.specs.Memory.{SourceState};

    ghost Value = { SourceState };

    ghost view = { λ s. record {
      left = drop s.position s.bytes.items;
      step = s.step;
      failing = s.failing.items;
      reads = s.reads;
      faults = s.faults;
    } };

    ghost invariant = { λ s. (s.position ≤ vec_len s.bytes) × (1 ≤ s.step) };
}

impl MemSource {
    /// A source of these bytes.
    ///
    /// # Errors
    ///
    /// Where memory runs out.
    pub fn new(
        alloc: Global,
        bytes: &[u8],
        step: usize,
        failing: &[u64],
    ) -> Result<MemSource, AllocError>
        requires { 1 ≤ step }
        ensures { IfOk result (λ s. s ≡ record {
          left = bytes.now;
          step = step;
          failing = failing.now;
          reads = 0;
          faults = 0;
        }) }
    {
        Ok(MemSource {
            bytes: Vec::from_slice(alloc, bytes)?,
            position: 0,
            step,
            failing: Vec::from_slice(alloc, failing)?,
            reads: 0,
            faults: 0,
        })
    }
}

impl Source for MemSource {
    ghost left = { λ s. Some s.left };

    ghost faults = { λ s. s.faults };

    fn read(&mut self, buf: &mut [u8]) -> Result<usize, Failed>
        // What every source promises.
        ensures count { self.old.faults ≤ self.new.faults }
        ensures bound { IfOk result (λ n. n ≤ length buf.old) }
        ensures given { IfOk result (λ n. Some self.old.left ≡ prepend_known (take n buf.new) (Some self.new.left)) }
        ensures end { IfOk result (λ n. n ≡ 0 → 0 < length buf.old → IsAtEnd (Some self.old.left)) }
        ensures failed { OnErr result (Rose self.old.faults self.new.faults) }
        ensures kept { OnErr result (Some self.new.left ≡ Some self.old.left) }

        // Exactly the numbered reads fail.
        ensures exact { IsErr result ↔ Contains self.old.failing (self.old.reads + 1) }
        ensures amount { IfOk result (λ n. n ≡ min (min (length self.old.left) (length buf.old)) self.old.step) }
        ensures reads { self.new.reads ≡ min (self.old.reads + 1) (2 ^ 64 - 1) }
        ensures faults { self.new.faults
            ≡ (if is_err result then min (self.old.faults + 1) (2 ^ 64 - 1) else self.old.faults) }
        ensures step { self.new.step ≡ self.old.step }
        ensures failing { self.new.failing ≡ self.old.failing }
    {
        let fails = is_next_among(self.reads, &self.failing);
        self.reads = self.reads.saturating_add(1);
        if fails {
            self.faults = self.faults.saturating_add(1);
            return Err(Failed);
        }
        let count = copy_front(&self.bytes[self.position..], buf, self.step);
        self.position += count;
        Ok(count)
    }
}

/// A sink in memory of bounded room, which it takes when it is made.
///
/// A write takes at most `step` bytes and never more than there is room for. Exactly the writes of
/// nonempty pieces fail that find no room left, or whose numbers, counted from 1, are among `failing`.
#[derive(Drop)]
pub struct MemSink {
    held: Vec<u8>,
    room: usize,
    step: usize,
    failing: Vec<u64>,
    writes: u64,
    faults: u64,
}

impl Model for MemSink {
    ghost use Rattle.std.specs.Prelude.{◌≤◌, vec_len, vec_capacity};
    ghost use Rattle.port_io.specs.Memory.{SinkState};

    ghost Value = { SinkState };

    ghost view = { λ s. record {
      held = s.held.items;
      room = s.room;
      step = s.step;
      failing = s.failing.items;
      writes = s.writes;
      faults = s.faults;
    } };

    ghost invariant = { λ s. (vec_len s.held ≤ s.room) × (s.room ≤ vec_capacity s.held) × (1 ≤ s.step) };
}

impl MemSink {
    /// An empty sink with room for so many bytes.
    ///
    /// # Errors
    ///
    /// Where memory runs out.
    pub fn new(
        alloc: Global,
        room: usize,
        step: usize,
        failing: &[u64],
    ) -> Result<MemSink, AllocError>
        requires { 1 ≤ step }
        ensures { IfOk result (λ s. s ≡ record {
          held = [];
          room = room;
          step = step;
          failing = failing.now;
          writes = 0;
          faults = 0;
        }) }
    {
        Ok(MemSink {
            held: Vec::with_capacity(alloc, room)?,
            room,
            step,
            failing: Vec::from_slice(alloc, failing)?,
            writes: 0,
            faults: 0,
        })
    }

    /// The bytes held: all that was written.
    pub fn bytes(&self) -> &[u8]
        ensures value { result.now ≡ self.now.held }
        ensures room { length self.now.held ≤ self.now.room }
    {
        self.held.as_slice()
    }
}

impl Sink for MemSink {
    ghost written = { λ s. Some s.held };

    ghost faults = { λ s. s.faults };

    fn write(&mut self, piece: &[u8]) -> Result<usize, Failed>
        // What every sink promises.
        ensures count { self.old.faults ≤ self.new.faults }
        ensures bound { IfOk result (λ n. n ≤ length piece.now) }
        ensures progress { IfOk result (λ n. 0 < length piece.now → 0 < n) }
        ensures empty { length piece.now ≡ 0 → result ≡ Ok 0 }
        ensures taken { IfOk result (λ n. Some self.new.held ≡ append_known (Some self.old.held) (take n piece.now)) }
        ensures failed { OnErr result (Rose self.old.faults self.new.faults) }
        ensures kept { OnErr result (Some self.new.held ≡ Some self.old.held) }

        // Exactly the numbered writes fail, and those that find no room.
        ensures exact { IsErr result ↔ (0 < length piece.now)
            × (Contains self.old.failing (self.old.writes + 1) ⊎ (self.old.room ≤ length self.old.held)) }
        ensures amount { IfOk result (λ n.
            n ≡ min (min (length piece.now) self.old.step) (self.old.room - length self.old.held)) }
        ensures within { length self.new.held ≤ self.new.room }
        ensures writes { self.new.writes
            ≡ (if length piece.now == 0 then self.old.writes else min (self.old.writes + 1) (2 ^ 64 - 1)) }
        ensures faults { self.new.faults
            ≡ (if is_err result then min (self.old.faults + 1) (2 ^ 64 - 1) else self.old.faults) }
        ensures room { self.new.room ≡ self.old.room }
        ensures step { self.new.step ≡ self.old.step }
        ensures failing { self.new.failing ≡ self.old.failing }
    {
        let space = self.room - self.held.len();
        if piece.is_empty() {
            return Ok(0);
        }
        let fails = space == 0 || is_next_among(self.writes, &self.failing);
        self.writes = self.writes.saturating_add(1);
        if fails {
            self.faults = self.faults.saturating_add(1);
            return Err(Failed);
        }
        let count = piece.len().min(self.step).min(space);
        self.held.extend_from_slice(&piece[..count]).unwrap();
        Ok(count)
    }
}
