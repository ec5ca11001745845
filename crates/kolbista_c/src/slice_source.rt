ghost use Rattle.std.specs.Prelude.{◌≡◌, ◌≤◌, Some, IfOk, OnErr, length};
ghost use Rattle.vc_model.specs.Count.{Rose};
ghost use Rattle.vc_model.specs.Stream.{Reads};

use vc_base::{ReadFailed, Source};

// A source that gives the bytes of a slice, and never fails.
#[derive(Drop)]
pub(crate) struct SliceSource<'a> {
    pub left: &'a [u8],
}

impl<'a> Source for SliceSource<'a> {
    ghost left = { λ s. Some s.left.now };

    ghost failures = { λ s. 0 };

    fn read(&mut self, buf: &mut [u8]) -> Result<usize, ReadFailed> {
        let n = self.left.len().min(buf.len());
        buf[..n].copy_from_slice(&self.left[..n]);
        self.left = &self.left[n..];
        Ok(n)
    }

    fn faults(&self) -> u64 {
        0
    }
}
