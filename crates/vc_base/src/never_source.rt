ghost use Rattle.std.specs.Prelude.{◌≡◌, ℕ, ◌++◌, Some, Ok, length, min, take, drop, IfOk};
ghost use Rattle.vc_model.specs.Stream.{Reads};

use crate::{ReadFailed, Source};
use std::marker::Model;

/// A source over memory that never fails: each read gives as many bytes as are left and fit. It is seen as the bytes
/// that are left.
#[derive(Debug, Drop)]
pub struct NeverSource {
    bytes: Vec<u8>,
    taken: usize,
}

impl Model for NeverSource {
    ghost use Rattle.std.specs.Prelude.{ℕ, ◌≤◌, List, length, drop};

    ghost Value = { List ℕ };

    ghost view = { λ s. drop s.taken s.bytes.items };

    ghost invariant = { λ s. s.taken ≤ length s.bytes.items };
}

impl NeverSource {
    /// A source of these bytes.
    pub fn new(bytes: Vec<u8>) -> NeverSource
        ensures { result ≡ bytes.items }
    {
        NeverSource { bytes, taken: 0 }
    }
}

impl Source for NeverSource {
    ghost left = { λ left. Some left };

    ghost failures = { λ _. 0 };

    fn read(&mut self, buf: &mut [u8]) -> Result<usize, ReadFailed>
        ensures count { result ≡ Ok (min (length buf.old) (length self.old)) }
        ensures rest { IfOk result (λ n. self.new ≡ drop n self.old) }
        ensures bytes { IfOk result (λ n. buf.new ≡ take n self.old ++ drop n buf.old) }

        // What each source ensures.
        ensures ok { IfOk result (λ n. Reads (Some self.old) (Some self.new) buf.new n) }
    {
        let n = buf.len().min(self.bytes.len() - self.taken);
        buf[..n].copy_from_slice(&self.bytes[self.taken..self.taken + n]);
        self.taken += n;
        Ok(n)
    }

    fn faults(&self) -> u64 {
        0
    }
}
