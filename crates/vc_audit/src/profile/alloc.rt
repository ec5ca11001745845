ghost use Rattle.std.specs.Prelude.{◌≤◌, IfOk, length};
ghost use Rattle.vc_base.specs.Prelude.{best_need, HasOut, IsAlign};
ghost use Rattle.vc_seg.specs.Answer.{Answers, Asks};
ghost use Rattle.vc_seg.specs.OneBlock.{IsBlockPut, IsSize};
ghost use Rattle.vc_audit.specs.Profile.{profile_alloc};
ghost use Rattle.vc_audit.specs.ProfileParts.{blocks_in, disc_in, profile_of, segments_in};

use crate::plain::Uncounted;
use crate::profile::Profile;
use crate::profile::rows::{put_row, row_for};
use vc_base::{Addr, Name, Steps};
use vc_seg::{BoxedDisc, RegionFault, SegDisc};

// The index of each row is below 2^32.
const MOST_ROWS: usize = 4_294_967_295;

impl Profile {
    /// A block of zeros that has a site of 1 to 32 bytes: 1 to 16,777,216 bytes at an offset that the alignment divides,
    /// a power of two from 32 to 4,096. Where no gap holds it, a segment is asked for. The site's row and the room to
    /// keep the block's site are made before all else, and where there is no memory for them the answer is `OutOfMemory`,
    /// as it is where there are 4,294,967,295 rows. Where the block is refused, no row is left.
    pub fn alloc(
        &mut self,
        size: u32,
        align: u32,
        tag: u32,
        site: &[u8],
    ) -> Result<Addr, RegionFault>
        requires size { IsSize size }
        requires align { IsAlign align }
        requires named { 1 ≤ length site.now }
        requires short { length site.now ≤ 32 }
        requires lent { HasOut (disc_in state self.old) (segments_in self.old) }

        ensures answer { Answers
            (profile_alloc (disc_in state self.old).terms (profile_of self.old)
            tag site.now size align)
            result (profile_of self.old) (profile_of self.new) }
        ensures disc { Asks result (disc_in state self.old) (disc_in state self.new)
            (segments_in self.old) (segments_in self.new)
            (best_need (disc_in state self.old).terms size align) }

        // The block stands there, at an address of its own, and the others stay.
        ensures put { IfOk result
            (λ a. IsBlockPut tag size a.0 (blocks_in self.old) (blocks_in self.new)) }
    {
        let site = Name::new(site);
        let row = row_for(&self.rows, &site);
        if self.rows.len() >= MOST_ROWS {
            return Err(RegionFault::OutOfMemory);
        }
        self.rows.reserve(1).map_err(|_| RegionFault::OutOfMemory)?;
        self.sites.reserve().map_err(|_| RegionFault::OutOfMemory)?;
        let mut steps = Steps::<Uncounted>::new(self.best.alloc);
        match self.best.alloc(size, align, tag, &mut steps) {
            Ok(a) => {
                let bytes = row.bytes + size as u64;
                let index = put_row(&mut self.rows, site, row.with(row.blocks + 1, bytes));
                self.sites.put(a, index as u32);
                Ok(a)
            }
            Err(fault) => Err(fault),
        }
    }
}
