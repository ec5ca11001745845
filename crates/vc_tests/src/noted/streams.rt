ghost use Rattle.std.specs.Prelude.{◌≡◌, ◌≤◌, Some, IfOk, OnErr};
ghost use Rattle.vc_base.specs.Prelude.{Rose};
ghost use Rattle.vc_model.specs.Stream.{Reads, Writes};

use crate::noted::{Notes, note};
use vc_base::{MemSink, MemSource, ReadFailed, Sink, Source, WriteFailed};

// A source that notes each read.
#[derive(Drop)]
pub(crate) struct NotedSource {
    pub inner: MemSource,
    pub notes: Notes,
}

impl Source for NotedSource {
    ghost left = { λ s. Some s.inner.left };

    ghost failures = { λ s. s.inner.faults };

    fn read(&mut self, buf: &mut [u8]) -> Result<usize, ReadFailed> {
        note(&self.notes, b"R");
        self.inner.read(buf)
    }

    fn faults(&self) -> u64 {
        self.inner.faults()
    }
}

// A sink that notes each write by its letter.
#[derive(Drop)]
pub(crate) struct NotedSink {
    pub inner: MemSink,
    pub letter: &'static [u8],
    pub notes: Notes,
}

impl Sink for NotedSink {
    ghost written = { λ s. Some s.inner.written };

    ghost failures = { λ s. s.inner.faults };

    fn write(&mut self, piece: &[u8]) -> Result<usize, WriteFailed> {
        note(&self.notes, self.letter);
        self.inner.write(piece)
    }

    fn faults(&self) -> u64 {
        self.inner.faults()
    }
}
