ghost use Rattle.std.specs.Prelude.{◌≡◌, ◌-◌, ◌*◌, ◌≤◌, ◌&&◌, ◌⊎◌, nat_le, nat_lt};
ghost use Rattle.vc_base.specs.Prelude.{HasBlock, next_segment, segment_at};
ghost use Rattle.vc_seg.specs.OneBlock.{IsBlockAt, IsNextBlock};
ghost use Rattle.vc_audit.specs.DebugStat.{debug_stat};
ghost use Rattle.vc_audit.specs.DebugParts.{blocks_in, debug_of, segments_in};

use crate::debug::Debug;
use crate::debug::guard::{guarded_after, user_addr};
use vc_base::Addr;
use vc_seg::Stat;

// The numbers with each block's size less its guards.
fn without_guards(stat: Stat) -> Stat
    requires { 48 * stat.busy ≤ stat.sbusy }
    ensures { result ≡ record stat {
      sbusy = stat.sbusy - 48 * stat.busy;
      mbusy = stat.mbusy - 48;
    } }
{
    Stat {
        busy: stat.busy,
        free: stat.free,
        sbusy: stat.sbusy - 48 * stat.busy,
        sfree: stat.sfree,
        mbusy: stat.mbusy.saturating_sub(48),
        mfree: stat.mfree,
        segs: stat.segs,
        extent: stat.extent,
    }
}

// Whether an offset in a block with guards of that size is that of a byte of the user.
fn is_users(inner: u32, size: u32) -> bool
    requires { 16 ≤ size }
    ensures { result ≡ (nat_le 32 inner && nat_lt inner (size - 16)) }
{
    inner >= 32 && inner < size - 16
}

/// What it holds, by place and in order. These calls can't fail, and take no memory.
impl Debug {
    /// The block whose bytes hold the byte at an offset of a segment, and the offset in the block. None where no block
    /// does, as for a guard's byte.
    pub fn block_at(&self, seg: u32, off: u32) -> Option<(Addr, u32)>
        ensures { IsBlockAt result (seg, off) (blocks_in self.now) }
    {
        match self.best.block_at(seg, off) {
            Some((at, inner)) => {
                if !is_users(inner, self.best.size(at)) {
                    return None;
                }
                Some((user_addr(at), inner - 32))
            }
            None => None,
        }
    }

    /// The size of the segment of that number, where it has a byte at that offset, else None.
    pub fn segment_at(&self, seg: u32, off: u32) -> Option<u32>
        ensures { result ≡ segment_at (seg, off) (segments_in self.now) }
    {
        self.best.segment_at(seg, off)
    }

    /// The segment with the least number above one, as number and size. A walk begins with 0, and ends with None.
    pub fn next_segment(&self, after: u32) -> Option<(u32, u32)>
        ensures { result ≡ next_segment after (segments_in self.now) }
    {
        self.best.next_segment(after)
    }

    /// The block behind one in order of addresses. A walk begins with `Addr::NONE`, and ends with None.
    pub fn next_block(&self, after: Addr) -> Option<Addr>
        requires { (after.0 ≡ 0) ⊎ HasBlock (blocks_in self.now) after.0 }
        ensures { IsNextBlock result after.0 (blocks_in self.now) }
    {
        match self.best.next_block(guarded_after(after)) {
            Some(at) => Some(user_addr(at)),
            None => None,
        }
    }

    /// Its numbers of blocks, gaps and segments, and their sizes in bytes. The sizes of blocks are the user's.
    pub fn stat(&self) -> Stat
        ensures { result ≡ debug_stat (debug_of self.now) }
    {
        without_guards(self.best.stat())
    }
}
