ghost use Rattle.std.specs.Prelude.{◌≡◌, ℕ, ◌≤◌, None, is_err, length, IfOk, OnErr, if◌then◌else◌};
ghost use Rattle.vc_model.specs.Count.{Rose, next_count};
ghost use Rattle.vc_model.specs.Stream.{Reads, Writes};
ghost use Rattle.std.specs.Io.KnownBytes.{ReadConsumes, WriteAppends};

use crate::{ReadFailed, Sink, Source, WriteFailed, one_more};
use std::io::{Read, Write};
use std::marker::Model;

/// A source over a stream of std, as `rt.stdin()`. It tells no bytes, and is seen as the stream and its count of
/// failures: each read takes from the stream exactly the bytes that it counts, and a failed read takes none.
#[derive(Drop)]
pub struct StdSource<R> {
    input: R,
    faults: u64,
}

impl<R> Model for StdSource<R> {
    ghost use Rattle.vc_base.specs.Standard.{Counted};

    ghost Value = { Counted R };

    ghost view = { λ s. record { stream = s.input; faults = s.faults } };
}

impl<R> StdSource<R> {
    /// A source of what this stream gives.
    pub fn new(input: R) -> StdSource<R>
        ensures { result ≡ record { stream = input; faults = 0 } }
    {
        StdSource { input, faults: 0 }
    }
}

impl<R: Read> Source for StdSource<R> {
    ghost left = { λ _. None };

    ghost failures = { λ s. s.faults };

    fn read(&mut self, buf: &mut [u8]) -> Result<usize, ReadFailed>
        ensures count { self.new.faults
            ≡ (if is_err result then next_count self.old.faults else self.old.faults) }
        // What the stream had left, where it tells that, is what was read and what it has left now.
        ensures taken { ReadConsumes (R.remaining self.old.stream) (R.remaining self.new.stream)
            result buf.new }

        // What each source ensures.
        ensures ok { IfOk result (λ n. Reads None None buf.new n) }
        ensures never_falls { self.old.faults ≤ self.new.faults }
        ensures cause { OnErr result (Rose self.old.faults self.new.faults) }
    {
        match self.input.read(buf) {
            Ok(n) => Ok(n),
            Err(_) => {
                self.faults = one_more(self.faults);
                Err(ReadFailed)
            }
        }
    }

    fn faults(&self) -> u64 {
        self.faults
    }
}

/// A sink over a stream of std, as `rt.stdout()` or `rt.stderr()`, which hold nothing back. It tells no bytes, and is
/// seen as the stream and its count of failures: each write puts exactly the bytes that it counts, and a failed write
/// none. A write that takes none of a piece that isn't empty is a failure too.
#[derive(Drop)]
pub struct StdSink<W> {
    output: W,
    faults: u64,
}

impl<W> Model for StdSink<W> {
    ghost use Rattle.vc_base.specs.Standard.{Counted};

    ghost Value = { Counted W };

    ghost view = { λ s. record { stream = s.output; faults = s.faults } };
}

impl<W> StdSink<W> {
    /// A sink to this stream.
    pub fn new(output: W) -> StdSink<W>
        ensures { result ≡ record { stream = output; faults = 0 } }
    {
        StdSink { output, faults: 0 }
    }
}

impl<W: Write> Sink for StdSink<W> {
    ghost written = { λ _. None };

    ghost failures = { λ s. s.faults };

    fn write(&mut self, piece: &[u8]) -> Result<usize, WriteFailed>
        ensures count { self.new.faults
            ≡ (if is_err result then next_count self.old.faults else self.old.faults) }
        // What the stream holds, where it tells that, is what it held and the bytes that the answer counts.
        ensures put { WriteAppends (W.contents self.old.stream) (W.contents self.new.stream)
            result piece.now }

        // What each sink ensures.
        ensures ok { IfOk result (λ n. Writes None None piece.now n) }
        ensures never_falls { self.old.faults ≤ self.new.faults }
        ensures cause { OnErr result (Rose self.old.faults self.new.faults) }
    {
        match self.output.write(piece) {
            Ok(n) if n > 0 || piece.is_empty() => Ok(n),
            _ => {
                self.faults = one_more(self.faults);
                Err(WriteFailed)
            }
        }
    }

    fn faults(&self) -> u64 {
        self.faults
    }
}
