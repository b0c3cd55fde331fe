//! Where bytes come from.
ghost use Rattle.std.specs.Prelude.{◌≡◌, ℕ, ◌<◌, ◌≤◌, List, None, Option, Ok, IfOk, OnErr, length, take};
ghost use Rattle.std.specs.Io.KnownBytes.{prepend_known, IsAtEnd};
ghost use Rattle.port_io.specs.Faults.{Rose};

/// A read or a write failed, and the count of faults rose.
#[derive(Clone, Copy, PartialEq, Eq, Debug)]
pub struct Failed;

/// A source of bytes.
///
/// It may tell which bytes it has left, and it counts the reads that failed. The count never falls, and
/// once it stands at 18,446,744,073,709,551,615 it stays there.
pub trait Source {
    // The bytes that are not yet given, where the source tells them.
    ghost left: { Self → Option (List ℕ) } = { λ _. None };

    // How many reads failed.
    ghost faults: { Self → ℕ };

    /// Gives the next bytes as the first of `buf`, and answers how many. `Ok(0)` for a nonempty buffer is
    /// the end of the input. The bytes of `buf` after them are left open.
    ///
    /// # Errors
    ///
    /// [`Failed`] where the read failed. A later read goes on from the same place.
    fn read(&mut self, buf: &mut [u8]) -> Result<usize, Failed>
        ensures count { faults self.old ≤ faults self.new }
        ensures bound { IfOk result (λ n. n ≤ length buf.old) }
        // The bytes given were the first of those left, and are gone from them.
        ensures given { IfOk result (λ n. left self.old ≡ prepend_known (take n buf.new) (left self.new)) }
        ensures end { IfOk result (λ n. n ≡ 0 → 0 < length buf.old → IsAtEnd (left self.old)) }

        ensures failed { OnErr result (Rose (faults self.old) (faults self.new)) }
        ensures kept { OnErr result (left self.new ≡ left self.old) };
}
