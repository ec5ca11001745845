ghost use Rattle.std.specs.Prelude.{◌≡◌, ℕ, ◌+◌, ◌≤◌, ◌↔◌, Some, [], length, take, ◌++◌, IsTrue, IsErr, IsOk, IfOk, OnErr, vec_len, vec_capacity};
ghost use Rattle.vc_model.specs.Count.{Rose};
ghost use Rattle.vc_model.specs.Stream.{Writes};
ghost use Rattle.vc_base.specs.Memory.{MemorySink, after_write, refuses, bytes_accepted};

use crate::{OutOfMemory, Sink, WriteFailed, append, one_more};
use std::alloc::Global;
use std::marker::Model;

/// A sink over memory: each write takes as many bytes as stand in a piece and still fit. The writes of given numbers,
/// counted from 1, fail, and so does each write once the sink is full. No write needs memory.
#[derive(Debug, Drop)]
pub struct MemSink {
    bytes: Vec<u8>,
    room: usize,
    piece: usize,
    fails: Vec<u64>,
    calls: u64,
    faults: u64,
}

impl Model for MemSink {
    ghost use Rattle.std.specs.Prelude.{◌≤◌, ◌+◌, vec_len, vec_capacity};
    ghost use Rattle.vc_base.specs.Memory.{MemorySink};

    ghost Value = { MemorySink };

    ghost view = { λ s. record {
      written = s.bytes.items;
      room = s.room;
      piece = s.piece;
      fails = s.fails.items;
      calls = s.calls;
      faults = s.faults;
    } };

    ghost invariant = { λ s. (1 ≤ s.piece) × (vec_len s.bytes + s.room ≤ vec_capacity s.bytes) };
}

impl MemSink {
    /// A sink with room for that many bytes, which it reserves at once, in pieces of at most that size, which is at
    /// least 1. The writes of the numbers in `fails` fail; the first is number 1.
    pub fn new(
        alloc: Global,
        room: usize,
        piece: usize,
        fails: Vec<u64>,
    ) -> Result<MemSink, OutOfMemory>
        requires { 1 ≤ piece }
        ensures value { IfOk result (λ s. s ≡ record {
          written = [];
          room = room;
          piece = piece;
          fails = fails.items;
          calls = 0;
          faults = 0;
        }) }
        ensures no_room { room ≡ 0 → IsOk result }
    {
        let bytes = Vec::with_capacity(alloc, room)?;
        Ok(MemSink {
            bytes,
            room,
            piece,
            fails,
            calls: 0,
            faults: 0,
        })
    }

    /// The bytes that were written.
    pub fn bytes(&self) -> &[u8]
        ensures { result.now ≡ self.now.written }
    {
        self.bytes.as_slice()
    }
}

impl Sink for MemSink {
    ghost written = { λ s. Some s.written };

    ghost failures = { λ s. s.faults };

    fn write(&mut self, piece: &[u8]) -> Result<usize, WriteFailed>
        ensures fails { IsErr result ↔ IsTrue (refuses self.old) }
        ensures count { IfOk result (λ n. n ≡ bytes_accepted self.old (length piece.now)) }
        ensures state { self.new ≡ after_write self.old piece.now }

        // What each sink ensures.
        ensures ok { IfOk result (λ n. Writes (Some self.old.written) (Some self.new.written)
            piece.now n) }
        ensures err { OnErr result (Some self.new.written ≡ Some self.old.written) }
        ensures never_falls { self.old.faults ≤ self.new.faults }
        ensures cause { OnErr result (Rose self.old.faults self.new.faults) }
    {
        self.calls = one_more(self.calls);
        if self.room == 0 || self.fails.contains(&self.calls) {
            self.faults = one_more(self.faults);
            return Err(WriteFailed);
        }
        let n = self.piece.min(piece.len()).min(self.room);
        append(&mut self.bytes, &piece[..n]);
        self.room -= n;
        Ok(n)
    }

    fn faults(&self) -> u64 {
        self.faults
    }
}
