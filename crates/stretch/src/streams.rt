//! Standard input and standard output as a source and a sink.

ghost use Rattle.std.specs.Prelude.{◌≡◌};

use port_io::{Failed, Sink, Source};
use std::io::{Read, Stdin, Stdout, Write};

/// Standard input. It does not tell what it gives.
#[derive(Drop)]
pub(crate) struct StdSource {
    input: Stdin,
    faults: u64,
}

impl StdSource {
    /// The source over standard input, with no faults.
    pub(crate) fn new(input: Stdin) -> StdSource {
        StdSource { input, faults: 0 }
    }
}

impl Source for StdSource {
    ghost faults = { λ s. s.faults };

    fn read(&mut self, buf: &mut [u8]) -> Result<usize, Failed> {
        match self.input.read(buf) {
            Ok(count) => Ok(count),
            Err(_) => {
                self.faults = self.faults.saturating_add(1);
                Err(Failed)
            }
        }
    }
}

/// Standard output. It does not tell what it took.
#[derive(Drop)]
pub(crate) struct StdSink {
    output: Stdout,
    faults: u64,
}

impl StdSink {
    /// The sink over standard output, with no faults.
    pub(crate) fn new(output: Stdout) -> StdSink {
        StdSink { output, faults: 0 }
    }
}

impl Sink for StdSink {
    ghost faults = { λ s. s.faults };

    // A write of 0 bytes of a nonempty piece is a fault, and so is a flush that fails: each piece is out before the
    // next read, so that whoever answers a session sees what it answers.
    fn write(&mut self, piece: &[u8]) -> Result<usize, Failed> {
        if piece.is_empty() {
            return Ok(0);
        }
        if let Ok(count) = self.output.write(piece) {
            if count > 0 && self.output.flush().is_ok() {
                return Ok(count);
            }
        }
        self.faults = self.faults.saturating_add(1);
        Err(Failed)
    }
}
