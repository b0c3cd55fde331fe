//! A source over borrowed bytes and a sink that keeps nothing, which never fail.
ghost use Rattle.std.specs.Prelude.{◌≡◌, ℕ, ◌<◌, ◌≤◌, List, Some, Ok, IfOk, OnErr, length, take, drop, min};
ghost use Rattle.std.specs.Io.KnownBytes.{prepend_known, append_known, IsAtEnd};
ghost use Rattle.port_io.specs.Faults.{Rose};

use crate::memory::copy_front;
use crate::sinks::Sink;
use crate::sources::{Failed, Source};
use std::marker::Model;

/// A source over borrowed bytes. It never fails, and is seen as the bytes that are not yet given.
#[derive(Drop)]
pub struct CalmSource<'a> {
    rest: &'a [u8],
}

impl<'a> Model for CalmSource<'a> {
    ghost Value = { List ℕ };

    ghost view = { λ s. s.rest.now };
}

impl<'a> CalmSource<'a> {
    /// A source that gives these bytes.
    pub fn new(bytes: &'a [u8]) -> CalmSource<'a>
        ensures { result ≡ bytes.now }
    {
        CalmSource { rest: bytes }
    }
}

impl<'a> Source for CalmSource<'a> {
    ghost left = { λ s. Some s };

    ghost faults = { λ _. 0 };

    /// Gives as many bytes as are left and as the buffer has room for.
    fn read(&mut self, buf: &mut [u8]) -> Result<usize, Failed>
        // What every source promises.
        ensures count { 0 ≤ 0 }
        ensures bound { IfOk result (λ n. n ≤ length buf.old) }
        ensures given { IfOk result (λ n. Some self.old ≡ prepend_known (take n buf.new) (Some self.new)) }
        ensures end { IfOk result (λ n. n ≡ 0 → 0 < length buf.old → IsAtEnd (Some self.old)) }
        ensures failed { OnErr result (Rose 0 0) }
        ensures kept { OnErr result (Some self.new ≡ Some self.old) }

        // It never fails, and gives as much as there is and fits.
        ensures amount { result ≡ Ok (min (length self.old) (length buf.old)) }
    {
        let count = copy_front(self.rest, buf, usize::MAX);
        self.rest = &self.rest[count..];
        Ok(count)
    }
}

/// A sink that takes every piece whole and keeps nothing. It never fails.
#[derive(Drop)]
pub struct CalmSink {}

impl CalmSink {
    /// A sink.
    pub fn new() -> CalmSink {
        CalmSink {}
    }
}

impl Sink for CalmSink {
    ghost faults = { λ _. 0 };

    /// Takes the piece whole.
    fn write(&mut self, piece: &[u8]) -> Result<usize, Failed>
        ensures whole { result ≡ Ok (length piece.now) }
    {
        Ok(piece.len())
    }
}
