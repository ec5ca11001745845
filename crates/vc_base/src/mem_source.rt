ghost use Rattle.std.specs.Prelude.{◌≡◌, ℕ, ◌≤◌, ◌↔◌, Some, length, take, drop, ◌++◌, IsTrue, IsErr, IfOk, OnErr};
ghost use Rattle.vc_model.specs.Count.{Rose};
ghost use Rattle.vc_model.specs.Stream.{Reads};
ghost use Rattle.vc_base.specs.Memory.{MemorySource, after_read, fails_after, bytes_given};

use crate::{ReadFailed, Source, one_more};
use std::marker::Model;

/// A source over memory: each read gives as many bytes as are left, fit and stand in a piece. The reads of given
/// numbers, counted from 1, fail.
#[derive(Debug, Drop)]
pub struct MemSource {
    bytes: Vec<u8>,
    taken: usize,
    piece: usize,
    fails: Vec<u64>,
    calls: u64,
    faults: u64,
}

impl Model for MemSource {
    ghost use Rattle.std.specs.Prelude.{◌≤◌, length, drop};
    ghost use Rattle.vc_base.specs.Memory.{MemorySource};

    ghost Value = { MemorySource };

    ghost view = { λ s. record {
      left = drop s.taken s.bytes.items;
      piece = s.piece;
      fails = s.fails.items;
      calls = s.calls;
      faults = s.faults;
    } };

    ghost invariant = { λ s. (1 ≤ s.piece) × (s.taken ≤ length s.bytes.items) };
}

impl MemSource {
    /// A source of these bytes, in pieces of at most that size, which is at least 1. The reads of the numbers in
    /// `fails` fail; the first is number 1.
    pub fn new(bytes: Vec<u8>, piece: usize, fails: Vec<u64>) -> MemSource
        requires { 1 ≤ piece }
        ensures { result ≡ record {
          left = bytes.items;
          piece = piece;
          fails = fails.items;
          calls = 0;
          faults = 0;
        } }
    {
        MemSource {
            bytes,
            taken: 0,
            piece,
            fails,
            calls: 0,
            faults: 0,
        }
    }
}

impl Source for MemSource {
    ghost left = { λ s. Some s.left };

    ghost failures = { λ s. s.faults };

    fn read(&mut self, buf: &mut [u8]) -> Result<usize, ReadFailed>
        ensures fails { IsErr result ↔ IsTrue (fails_after self.old.fails self.old.calls) }
        ensures count { IfOk result (λ n. n ≡ bytes_given self.old (length buf.old)) }
        ensures state { self.new ≡ after_read self.old (length buf.old) }
        ensures bytes { IfOk result (λ n. buf.new ≡ take n self.old.left ++ drop n buf.old) }
        ensures untouched { OnErr result (buf.new ≡ buf.old) }

        // What each source ensures.
        ensures ok { IfOk result (λ n. Reads (Some self.old.left) (Some self.new.left) buf.new n) }
        ensures err { OnErr result (Some self.new.left ≡ Some self.old.left) }
        ensures never_falls { self.old.faults ≤ self.new.faults }
        ensures cause { OnErr result (Rose self.old.faults self.new.faults) }
    {
        self.calls = one_more(self.calls);
        if self.fails.contains(&self.calls) {
            self.faults = one_more(self.faults);
            return Err(ReadFailed);
        }
        let n = self.piece.min(buf.len()).min(self.bytes.len() - self.taken);
        buf[..n].copy_from_slice(&self.bytes[self.taken..self.taken + n]);
        self.taken += n;
        Ok(n)
    }

    fn faults(&self) -> u64 {
        self.faults
    }
}
