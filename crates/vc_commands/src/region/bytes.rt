ghost use Rattle.std.specs.Prelude.{◌≡◌, ℕ, List, IfOk};
ghost use Rattle.vc_base.specs.Prelude.{HasOut, NoneRefused};
ghost use Rattle.vc_region.specs.Cells.{rest_in};
ghost use Rattle.vc_region.specs.Parts.{disc_in};
ghost use Rattle.vc_region.specs.Region.{segments_of};
ghost use Rattle.vc_commands.specs.Held.{AreLabelsOf};
ghost use Rattle.vc_commands.specs.Blocks.{read_named, size_of_named, write_named};

use crate::region::blocks::no_block;
use crate::region::home::{HomeEntry, find_block};
use crate::region::labels::Labels;
use crate::region::marks::watch_line;
use std::alloc::Global;
use vc_base::{Name, OutOfMemory};
use vc_script::{Bytes, Refusal, Reply};
use vc_seg::{BoxedDisc, SegDisc};

impl HomeEntry {
    ghost use Rattle.vc_commands.specs.RegionRun.{ChangesRegion, RunsRegion, region_with};

    // Writes bytes into a block, from an offset on.
    pub(crate) fn write(&mut self, labels: &Labels, name: &Name, off: u32, bytes: &[u8]) -> Reply
        requires names { AreLabelsOf (rest_in self.old.region) labels.now }
        requires lent { HasOut (disc_in state self.old.region)
            (segments_of (rest_in self.old.region)) }

        ensures step { RunsRegion state
            (λ h. write_named h name.now off bytes.now)
            self.old labels.now (region_with self.new labels.now) result }
        ensures change { ChangesRegion state
            self.old labels.now self.new labels.now }
        ensures granted { result ≡ Reply.Refused Refusal.NoSegment → ⊥ }
        ensures served { NoneRefused (disc_in state self.old.region)
            (disc_in state self.new.region) }
    {
        match find_block(&self.region, labels, name) {
            None => Reply::Refused(no_block(labels, name)),
            Some(at) => {
                if off as u64 + bytes.len() as u64 > self.region.size(at) as u64 {
                    return Reply::Refused(Refusal::Range);
                }
                let watch = watch_line(&self.region, at);
                self.region.write(at, off, bytes);
                Reply::Written(*name, bytes.len() as u32, watch)
            }
        }
    }

    // Reads 1 to 4,096 bytes of a block, from an offset on.
    pub(crate) fn read(
        &self,
        alloc: Global,
        labels: &Labels,
        name: &Name,
        off: u32,
        len: u32,
    ) -> Result<Reply, OutOfMemory>
        requires names { AreLabelsOf (rest_in self.now.region) labels.now }
        ensures { IfOk result (λ reply. RunsRegion state
            (λ h. read_named h name.now off len)
            self.now labels.now (region_with self.now labels.now) reply) }
    {
        match find_block(&self.region, labels, name) {
            None => Ok(Reply::Refused(no_block(labels, name))),
            Some(at) => {
                if len == 0 || len > 4096 || off as u64 + len as u64 > self.region.size(at) as u64 {
                    return Ok(Reply::Refused(Refusal::Range));
                }
                let bytes = self.region.read(at, off, len).to_vec(alloc)?;
                Ok(Reply::Hex(*name, Bytes::from_vec(bytes)))
            }
        }
    }

    // Tells the size of a block.
    pub(crate) fn size(&self, labels: &Labels, name: &Name) -> Reply
        requires names { AreLabelsOf (rest_in self.now.region) labels.now }
        ensures { RunsRegion state
            (λ h. size_of_named h name.now)
            self.now labels.now (region_with self.now labels.now) result }
    {
        match find_block(&self.region, labels, name) {
            None => Reply::Refused(no_block(labels, name)),
            Some(at) => Reply::Size(*name, self.region.size(at)),
        }
    }
}
