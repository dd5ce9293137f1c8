// A stream that takes bytes.
ghost use Rattle.std.specs.Prelude.{◌≡◌, ℕ, ◌≤◌, List, length, take, Option, IfOk, OnErr};
ghost use Rattle.std.specs.Io.KnownBytes.{append_known};
ghost use Rattle.nova_io.specs.Faults.{Rose};
ghost use Rattle.nova_io.specs.Taken.{Took, TakeFailed};

use crate::faults::Failed;

/// A stream that takes bytes in pieces.
///
/// A sink may tell what it took, as one in memory does, or not, as the standard output. It counts its faults, and the
/// count never falls.
pub trait Sink {
    /// The bytes that were taken, where the sink tells them.
    ghost written: { Self → Option (List ℕ) };

    /// How many writes failed.
    ghost faults: { Self → ℕ };

    /// How much a write took, and which sink it left. A sink that says nothing of it leaves this out, and the next too.
    ghost took: { Took Self } = { λ _ _ _ _. Unit {0} };

    /// Which sink a write that failed left.
    ghost write_failed: { TakeFailed Self } = { λ _ _ _. Unit {0} };

    /// Writes `bytes` from the first on, and says how many of them were taken.
    ///
    /// To take none of a piece that isn't empty is a fault. The answer is Failed only where the count of faults rose,
    /// and then what was taken is as before.
    fn write(&mut self, bytes: &[u8]) -> Result<usize, Failed>
        ensures within { IfOk result (λ count. count ≤ length bytes.now) }
        ensures progress { IfOk result (λ count. count ≡ 0 → length bytes.now ≡ 0) }
        ensures taken { IfOk result (λ count. written self.new ≡ append_known (written self.old) (take count bytes.now)) }
        ensures took { IfOk result (λ count. took self.old bytes.now count self.new) }
        ensures failed { OnErr result (Rose (faults self.old) (faults self.new)) }
        ensures write_failed { OnErr result (write_failed self.old bytes.now self.new) }
        ensures same { OnErr result (written self.new ≡ written self.old) }
        ensures counts { faults self.old ≤ faults self.new };
}
