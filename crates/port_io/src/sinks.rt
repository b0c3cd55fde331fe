//! Where bytes go.
ghost use Rattle.std.specs.Prelude.{◌≡◌, ℕ, ◌<◌, ◌≤◌, List, None, Option, Ok, IfOk, OnOk, OnErr, length, take};
ghost use Rattle.std.specs.Io.KnownBytes.{append_known};
ghost use Rattle.port_io.specs.Faults.{Rose};
ghost use Rattle.port_io.specs.Told.{AppendsSome};

use crate::sources::Failed;

/// A sink of bytes.
///
/// It may tell which bytes were written, and it counts the writes that failed. The count never falls, and
/// once it stands at 18,446,744,073,709,551,615 it stays there.
pub trait Sink {
    // The bytes that were written, where the sink tells them.
    ghost written: { Self → Option (List ℕ) } = { λ _. None };

    // How many writes failed.
    ghost faults: { Self → ℕ };

    /// Takes the first bytes of `piece`, and answers how many: at least one of a nonempty piece.
    ///
    /// # Errors
    ///
    /// [`Failed`] where the write of a nonempty piece failed. Nothing of the piece was taken then.
    fn write(&mut self, piece: &[u8]) -> Result<usize, Failed>
        ensures count { faults self.old ≤ faults self.new }
        ensures bound { IfOk result (λ n. n ≤ length piece.now) }
        ensures progress { IfOk result (λ n. 0 < length piece.now → 0 < n) }
        ensures empty { length piece.now ≡ 0 → result ≡ Ok 0 }
        ensures taken { IfOk result (λ n. written self.new ≡ append_known (written self.old) (take n piece.now)) }

        ensures failed { OnErr result (Rose (faults self.old) (faults self.new)) }
        ensures kept { OnErr result (written self.new ≡ written self.old) };
}

/// Writes the whole piece, going on after each write that took a part of it. It takes no memory.
///
/// # Errors
///
/// [`Failed`] where a write failed. A prefix of the piece was written then.
pub fn put_all<K: Sink>(sink: &mut K, piece: &[u8]) -> Result<(), Failed>
    ensures count { K.faults sink.old ≤ K.faults sink.new }
    ensures ok { OnOk result (K.written sink.new ≡ append_known (K.written sink.old) piece.now) }

    ensures failed { OnErr result (Rose (K.faults sink.old) (K.faults sink.new)) }
    ensures err { OnErr result (AppendsSome (K.written sink.old) (K.written sink.new) piece.now) }
{
    let mut done = 0;
    while done < piece.len() {
        done += sink.write(&piece[done..])?;
    }
    Ok(())
}
