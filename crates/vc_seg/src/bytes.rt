ghost use Rattle.std.specs.Prelude.{◌≡◌, ℕ, ◌+◌, ◌≤◌, length, take, drop, replicate};
ghost use Rattle.vc_base.specs.Prelude.{with_bytes};

use crate::Segment;

// Puts bytes over others from an offset on.
pub(crate) fn put_in(bytes: &mut [u8], off: usize, src: &[u8])
    requires { off + length src.now ≤ length bytes.old }
    ensures { bytes.new ≡ with_bytes off src.now bytes.old }
{
    bytes[off..off + src.len()].copy_from_slice(src);
}

// Fills a range with one byte.
fn fill_in(bytes: &mut [u8], off: usize, len: usize, byte: u8)
    requires { off + len ≤ length bytes.old }
    ensures { bytes.new ≡ with_bytes off (replicate len byte) bytes.old }
{
    bytes[off..off + len].fill(byte);
}

// Copies a range, also where the two ranges overlap.
fn shift_in(bytes: &mut [u8], from: usize, to: usize, len: usize)
    requires from { from + len ≤ length bytes.old }
    requires to { to + len ≤ length bytes.old }
    ensures { bytes.new ≡ with_bytes to (take len (drop from bytes.old)) bytes.old }
{
    bytes.copy_within(from..from + len, to);
}

impl Segment {
    /// Its bytes from an offset on. The range lies in the segment.
    pub fn bytes(&self, off: u32, len: u32) -> &[u8]
        requires { off + len ≤ length self.now.bytes }
        ensures { result.now ≡ take len (drop off self.now.bytes) }
    {
        &self.block.all(self.at, self.room as usize)[off as usize..off as usize + len as usize]
    }

    /// Puts bytes there from an offset on. They fit behind it.
    pub fn put(&mut self, off: u32, src: &[u8])
        requires { off + length src.now ≤ length self.old.bytes }
        ensures bytes { self.new.bytes ≡ with_bytes off src.now self.old.bytes }
        ensures number { self.new.number ≡ self.old.number }
    {
        put_in(
            self.block.all_mut(self.at, self.room as usize),
            off as usize,
            src,
        );
    }

    /// Fills a range that lies in the segment with one byte.
    pub fn fill(&mut self, off: u32, len: u32, byte: u8)
        requires { off + len ≤ length self.old.bytes }
        ensures bytes { self.new.bytes ≡ with_bytes off (replicate len byte) self.old.bytes }
        ensures number { self.new.number ≡ self.old.number }
    {
        fill_in(
            self.block.all_mut(self.at, self.room as usize),
            off as usize,
            len as usize,
            byte,
        );
    }

    /// Copies a range within the segment, also where the two ranges overlap. Both lie in the segment.
    pub fn shift(&mut self, from: u32, to: u32, len: u32)
        requires from { from + len ≤ length self.old.bytes }
        requires to { to + len ≤ length self.old.bytes }
        ensures bytes { self.new.bytes ≡ with_bytes to (take len (drop from self.old.bytes))
            self.old.bytes }
        ensures number { self.new.number ≡ self.old.number }
    {
        shift_in(
            self.block.all_mut(self.at, self.room as usize),
            from as usize,
            to as usize,
            len as usize,
        );
    }

    /// Copies a range of another segment here. It lies in that segment, and fits here.
    pub fn carry(&mut self, to: u32, src: &Segment, from: u32, len: u32)
        requires from { from + len ≤ length src.now.bytes }
        requires to { to + len ≤ length self.old.bytes }
        ensures bytes { self.new.bytes ≡ with_bytes to (take len (drop from src.now.bytes))
            self.old.bytes }
        ensures number { self.new.number ≡ self.old.number }
    {
        self.put(to, src.bytes(from, len));
    }
}
