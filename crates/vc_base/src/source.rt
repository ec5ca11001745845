ghost use Rattle.std.specs.Prelude.{◌≡◌, ℕ, ◌≤◌, List, Option, IfOk, OnErr};
ghost use Rattle.vc_model.specs.Count.{Rose};
ghost use Rattle.vc_model.specs.Stream.{Reads};

use crate::ReadFailed;

/// What bytes are read from.
pub trait Source {
    /// The bytes that are left, where it tells them.
    ghost left: { Self → Option (List ℕ) };

    /// How often a read has failed; it stays at the greatest u64 once there.
    ghost failures: { Self → ℕ };

    /// Reads into the front of the buffer and tells how many bytes. For a buffer that isn't empty, 0 is the end of the
    /// input. A failed read takes nothing.
    fn read(&mut self, buf: &mut [u8]) -> Result<usize, ReadFailed>
        ensures ok { IfOk result (λ n. Reads (left self.old) (left self.new) buf.new n) }
        ensures err { OnErr result (left self.new ≡ left self.old) }

        // The count of failures rises at each failed read.
        ensures never_falls { failures self.old ≤ failures self.new }
        ensures cause { OnErr result (Rose (failures self.old) (failures self.new)) };

    /// How often a read has failed, which never falls and stays at the greatest u64 once there.
    fn faults(&self) -> u64
        ensures { result ≡ failures self.now };
}
