ghost use Rattle.std.specs.Prelude.{◌≡◌, ℕ, ◌+◌, ◌%◌, ◌≤◌, length, IfOk, OnErr, OnOk};
ghost use Rattle.vc_base.specs.Prelude.{IsSegmentSize};
ghost use Rattle.vc_seg.specs.Segment.{grown_segment, zero_segment};

use crate::block::{Block, take};
use crate::bytes::put_in;
use std::alloc::Global;
use std::marker::Model;
use vc_base::OutOfMemory;

/// A segment of memory: a number and its bytes. Its memory is freed when it is dropped.
pub struct Segment {
    number: u32,
    size: u32,
    // The bytes of its memory, of which those behind its size are zeros.
    pub(crate) room: u32,
    pub(crate) at: *const u8,
    alloc: Global,
    pub(crate) block: Block,
}

impl Model for Segment {
    ghost use Rattle.std.specs.Prelude.{take};
    ghost use Rattle.vc_seg.specs.Kept.{IsKept};
    ghost use Rattle.vc_seg.specs.Segment.{Bytes};

    ghost Value = { Bytes };

    ghost view = { λ s. record { number = s.number; bytes = take s.size s.block.bytes } };

    ghost invariant = { λ s. IsKept s.size s.room s.at s.alloc s.block };
}

impl Drop for Segment {
    fn drop(self) {
        let Segment {
            number: _,
            size: _,
            room,
            at,
            alloc,
            block,
        } = self;
        block.free(at, room as usize, &alloc);
    }
}

impl Segment {
    /// A segment of zeros under that number. The size is a multiple of 32 from 64 to 33,554,432 bytes.
    pub fn take(alloc: Global, number: u32, size: u32) -> Result<Segment, OutOfMemory>
        requires { IsSegmentSize size }
        ensures { IfOk result (λ segment. segment ≡ zero_segment number size) }
    {
        match take(&alloc, size as usize) {
            Some((at, block)) => Ok(Segment {
                number,
                size,
                room: size,
                at,
                alloc,
                block,
            }),
            None => Err(OutOfMemory),
        }
    }

    /// Puts so many zeros behind its bytes, a multiple of 32 with which its size stays at most 33,554,432. With no memory it
    /// stays as it is. Where its memory has no room for them, it takes memory for twice its bytes, or for its new size where
    /// that is more, so that it is copied seldom.
    pub fn grow(&mut self, alloc: Global, more: u32) -> Result<(), OutOfMemory>
        requires { IsSegmentSize (length self.old.bytes + more) }
        ensures grown { OnOk result (self.new ≡ grown_segment more self.old) }
        ensures same { OnErr result (self.new ≡ self.old) }
    {
        let size = self.size + more;
        if size > self.room {
            let room = (2 * self.size).max(size).min(33_554_432);
            let Some((at, mut block)) = take(&alloc, room as usize) else {
                return Err(OutOfMemory);
            };
            put_in(
                block.all_mut(at, room as usize),
                0,
                self.block.all(self.at, self.room as usize),
            );
            *self = Segment {
                number: self.number,
                size,
                room,
                at,
                alloc,
                block,
            };
            return Ok(());
        }
        self.size = size;
        Ok(())
    }

    /// Its number in its region.
    pub fn number(&self) -> u32
        ensures { result ≡ self.now.number }
    {
        self.number
    }

    /// Its size in bytes, a multiple of 32 from 64 to 33,554,432.
    pub fn size(&self) -> u32
        ensures value { result ≡ length self.now.bytes }
        ensures legal { IsSegmentSize result }
    {
        self.size
    }
}
