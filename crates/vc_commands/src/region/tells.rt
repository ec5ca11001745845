ghost use Rattle.std.specs.Prelude.{◌≡◌, ℕ, List, IfOk};
ghost use Rattle.vc_region.specs.Cells.{rest_in};
ghost use Rattle.vc_commands.specs.Held.{AreLabelsOf, home_of};
ghost use Rattle.vc_commands.specs.Home.{reply_alone};
ghost use Rattle.vc_commands.specs.Whole.{addr_in, list_blocks, list_segments, segment_in, stat_in};

use crate::region::home::{HomeEntry, place_of};
use crate::region::labels::Labels;
use std::alloc::Global;
use vc_base::{Addr, OutOfMemory};
use vc_script::{BlockItems, Place, Reply, SegmentItems};
use vc_seg::{BoxedDisc, SegDisc};

impl HomeEntry {
    ghost use Rattle.vc_commands.specs.RegionRun.{held_of};
    ghost use Rattle.vc_commands.specs.declared.region.labels.Labels.{Labels};

    // Tells the block whose bytes hold the byte at a place, and the offset in it.
    pub(crate) fn addr(&self, labels: &Labels, at: Place) -> Reply
        requires names { AreLabelsOf (rest_in self.now.region) labels.now }
        ensures { (r : List ℕ) → addr_in (home_of (held_of state r self.now labels.now)) at
            ≡ reply_alone (home_of (held_of state r self.now labels.now)) result }
    {
        match self.region.block_at(at.seg, at.off) {
            None => Reply::AddrNone,
            Some((block, off)) => Reply::AddrIn(labels.name(self.region.tag(block)), off),
        }
    }

    // Tells the segment that has the byte at a place.
    pub(crate) fn segment(&self, at: Place) -> Reply
        ensures { (labels : Labels) (r : List ℕ)
            → segment_in (home_of (held_of state r self.now labels)) at
            ≡ reply_alone (home_of (held_of state r self.now labels)) result }
    {
        match self.region.segment_at(at.seg, at.off) {
            None => Reply::SegmentNone,
            Some(size) => Reply::SegmentIs(at.seg, size),
        }
    }

    // Tells the numbers of the region.
    pub(crate) fn stat(&self) -> Reply
        ensures { (labels : Labels) (r : List ℕ)
            → stat_in (home_of (held_of state r self.now labels))
            ≡ reply_alone (home_of (held_of state r self.now labels)) result }
    {
        Reply::Stats(self.region.stat())
    }

    // Lists the segments by number.
    pub(crate) fn segments(&self, alloc: Global) -> Result<Reply, OutOfMemory>
        ensures { IfOk result (λ reply. (labels : Labels) (r : List ℕ)
            → list_segments (home_of (held_of state r self.now labels))
            ≡ reply_alone (home_of (held_of state r self.now labels)) reply) }
    {
        let mut items = Vec::new(alloc);
        let mut after = 0;
        while let Some(segment) = self.region.next_segment(after) {
            items.push(segment)?;
            after = segment.0;
        }
        Ok(Reply::SegmentList(SegmentItems::from_vec(items)))
    }

    // Lists the blocks by address.
    pub(crate) fn blocks(&self, labels: &Labels, alloc: Global) -> Result<Reply, OutOfMemory>
        requires names { AreLabelsOf (rest_in self.now.region) labels.now }
        ensures { IfOk result (λ reply. (r : List ℕ)
            → list_blocks (home_of (held_of state r self.now labels.now))
            ≡ reply_alone (home_of (held_of state r self.now labels.now)) reply) }
    {
        let mut items = Vec::new(alloc);
        let mut after = Addr::NONE;
        while let Some(block) = self.region.next_block(after) {
            let name = labels.name(self.region.tag(block));
            items.push((name, place_of(block), self.region.size(block)))?;
            after = block;
        }
        Ok(Reply::BlockList(BlockItems::from_vec(items)))
    }
}
