ghost use Rattle.std.specs.Prelude.{◌≡◌, IfOk, IsErrOf, OnErr, OnOk, map};
ghost use Rattle.vc_base.specs.Prelude.{LentNothing, Unserved, address};
ghost use Rattle.vc_model.specs.Discipline.{CanExtend, Extended, Kept};
ghost use Rattle.vc_seg.specs.Segment.{pair_of};
ghost use Rattle.vc_extent.specs.Change.{IsExtentAt, IsWidened, widen};
ghost use Rattle.vc_extent.specs.Tiling.{IsThere, change_in, longer, size_in, tiling};

use crate::extents::Extents;
use crate::lay::lay_more;
use crate::read::last_in;
use std::alloc::Global;
use vc_base::Addr;
use vc_seg::{LendFault, SegDisc, Segment, obtain_more};

// Asks for so many bytes more of a segment, and makes them a free extent behind the others. One of these lies from a
// place on.
fn widen_in(
    seg: &mut Segment,
    alloc: Global,
    disc: &mut Box<dyn SegDisc>,
    from: u32,
    more: u32,
) -> Result<(), LendFault>
    requires there { IsExtentAt seg.old.bytes from }
    requires can { CanExtend (state disc.old) (pair_of seg.old) more }

    ensures widened { OnOk result (IsWidened more seg.old seg.new) }
    ensures extended { OnOk result (Extended (state disc.old) (state disc.new) (pair_of seg.old) more) }
    ensures refused { IsErrOf result LendFault.Refused
        → Unserved (state disc.old) (state disc.new) more }
    ensures no_memory { IsErrOf result LendFault.OutOfMemory
        → LentNothing (state disc.old) (state disc.new) }
    ensures same { OnErr result (seg.new ≡ seg.old) }
    ensures kept { Kept (state disc.old) (state disc.new) }
{
    let before = last_in(seg, from);
    obtain_more(disc, alloc, seg, more)?;
    lay_more(seg, more, before);
    Ok(())
}

impl Extents {
    /// Asks the discipline for so many bytes more of segment n, which is there, as `obtain_more`: the discipline grows and has
    /// the segment out, and the bytes are a multiple of its round from that on, with which the segment's size stays at
    /// most 33,554,432. They become one free extent behind the segment's last one, and the answer is its address. Where
    /// the discipline refuses, or for want of memory, nothing changes. It reads the spans of the extents from the one
    /// on that it made when it was called before, where that was for the same segment; else of all of the segment.
    pub fn widen(
        &mut self,
        alloc: Global,
        n: u32,
        disc: &mut Box<dyn SegDisc>,
        more: u32,
    ) -> Result<Addr, LendFault>
        requires there { IsThere n self.old.segs.items }
        requires can { CanExtend (state disc.old)
            (n, size_in n (map pair_of self.old.segs.items)) more }

        ensures tiling { OnOk result (tiling self.new.segs.items
            ≡ change_in n (widen (size_in n (map pair_of self.old.segs.items)) more)
            (tiling self.old.segs.items)) }
        ensures pairs { OnOk result (map pair_of self.new.segs.items
            ≡ longer n more (map pair_of self.old.segs.items)) }
        ensures value { IfOk result (λ a. a.0
            ≡ address (n, size_in n (map pair_of self.old.segs.items))) }
        ensures same { OnErr result (self.new ≡ self.old) }

        ensures extended { OnOk result (Extended (state disc.old) (state disc.new)
            (n, size_in n (map pair_of self.old.segs.items)) more) }
        ensures refused { IsErrOf result LendFault.Refused
            → Unserved (state disc.old) (state disc.new) more }
        ensures no_memory { IsErrOf result LendFault.OutOfMemory
            → LentNothing (state disc.old) (state disc.new) }
        ensures kept { Kept (state disc.old) (state disc.new) }
    {
        let (place, from) = self.walk_from(n);
        let size = self.segs[place].size();
        widen_in(&mut self.segs[place], alloc, disc, from, more)?;
        let a = Addr::new(n, size);
        self.near = a;
        Ok(a)
    }
}
