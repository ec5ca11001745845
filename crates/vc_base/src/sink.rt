ghost use Rattle.std.specs.Prelude.{◌≡◌, ℕ, ◌≤◌, List, Option, IfOk, OnErr};
ghost use Rattle.vc_model.specs.Count.{Rose};
ghost use Rattle.vc_model.specs.Stream.{Writes};

use crate::WriteFailed;

/// What bytes are written to.
pub trait Sink {
    /// The bytes that were written, where it tells them.
    ghost written: { Self → Option (List ℕ) };

    /// How often a write has failed; it stays at the greatest u64 once there.
    ghost failures: { Self → ℕ };

    /// Writes the first bytes of the piece and tells how many: at least one, where there is one. A failed write takes
    /// nothing.
    fn write(&mut self, piece: &[u8]) -> Result<usize, WriteFailed>
        ensures ok { IfOk result (λ n. Writes (written self.old) (written self.new) piece.now n) }
        ensures err { OnErr result (written self.new ≡ written self.old) }

        // The count of failures rises at each failed write.
        ensures never_falls { failures self.old ≤ failures self.new }
        ensures cause { OnErr result (Rose (failures self.old) (failures self.new)) };

    /// How often a write has failed, which never falls and stays at the greatest u64 once there.
    fn faults(&self) -> u64
        ensures { result ≡ failures self.now };
}
