//! How a run ends.

ghost use Rattle.std.specs.Prelude.{◌≡◌};
ghost use Rattle.stretch_bench.specs.Codes.{code_of};

/// How a run ended.
#[derive(Clone, Copy, Debug, PartialEq, Eq)]
pub enum Status {
    /// The command was done.
    Done,
    /// The input has a fault.
    Rejected,
    /// The words spell no command.
    Usage,
    /// A search ended at its budget.
    Undecided,
    /// A read failed. Nothing was written, or in a session what is said to the answers that were read.
    ReadFault,
    /// A write failed. What was written is the front of the text that was due.
    WriteFault,
    /// Memory was refused. Nothing was written.
    OutOfMemory,
    /// The items of the words do not fit into the bins.
    Unpackable,
    /// The strategy can't be moved to the game that was asked for.
    NoTransfer,
    /// The input of a session ended before the play did.
    Ended,
    /// A line of a session is no answer.
    BadAnswer,
    /// A search for the adversary's side found no strategy.
    NotFound,
}

impl Status {
    /// The number that the program ends with, from 0 to 11. Takes no memory.
    pub fn code(self) -> u8
        ensures value { result ≡ code_of self }
    {
        self as u8
    }
}
