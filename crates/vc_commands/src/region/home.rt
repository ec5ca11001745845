ghost use Rattle.std.specs.Prelude.{◌≡◌, Some, None, false, IfSome, IfNone};
ghost use Rattle.vc_base.specs.Prelude.{place_of, HasBlock, HasOut};
ghost use Rattle.vc_region.specs.Cells.{rest_in};
ghost use Rattle.vc_region.specs.Parts.{blocks_in, disc_in};
ghost use Rattle.vc_region.specs.Region.{segments_of};
ghost use Rattle.vc_commands.specs.Answered.{answered};
ghost use Rattle.vc_commands.specs.Held.{HasName, AreLabelsOf};
ghost use Rattle.vc_commands.specs.Labels.{tag_of};
ghost use Rattle.vc_commands.specs.RegionCommands.{block_asked, in_region, puts_block};

use crate::lent::put_answer;
use crate::region::labels::Labels;
use std::alloc::Global;
use vc_base::{Addr, Name, OutOfMemory};
use vc_region::Region;
use vc_script::{Command, Place, Refusal, Reply};
use vc_seg::{BoxedDisc, SegDisc};

/// A region that is open.
#[derive(Drop)]
pub struct HomeEntry {
    /// The number of its discipline on the shelf.
    pub place: u32,
    /// The region, whose blocks have tags: 0 is that of a block without a name.
    pub region: Region,
}

// The segment and the offset of an address.
pub(crate) fn place_of(at: Addr) -> Place
    ensures seg { result.seg ≡ (place_of at.0).0 }
    ensures off { result.off ≡ (place_of at.0).1 }
{
    Place {
        seg: at.seg(),
        off: at.off(),
    }
}

// The address of the block of a name in the region whose names these are, where it has one.
pub(crate) fn find_block(region: &Region, labels: &Labels, name: &Name) -> Option<Addr>
    requires { AreLabelsOf (rest_in region.now) labels.now }
    ensures some { IfSome result (λ at. HasName (rest_in region.now) labels.now name.now at) }
    ensures there { IfSome result (λ at. HasBlock (blocks_in region.now) at.0) }
    ensures none { IfNone result (tag_of labels.now name.now ≡ None) }
{
    labels.find(name)
}

impl HomeEntry {
    ghost use Rattle.vc_commands.specs.RegionRun.{LeavesRegion, RunsHome};

    /// Runs the command of a line, numbered from 1 on, in the region whose names these are, and puts its reply in place of
    /// another one. A command that works in no region is refused as if there were none. A refusal changes neither the region
    /// nor its names; want of memory, the one error, neither blocks nor names, and any reply may stand then.
    pub fn run(
        &mut self,
        alloc: Global,
        labels: &mut Labels,
        line: u32,
        command: &Command,
        reply: &mut Reply,
    ) -> Result<(), OutOfMemory>
        requires names { AreLabelsOf (rest_in self.old.region) labels.old }
        requires lent { HasOut (disc_in state self.old.region)
            (segments_of (rest_in self.old.region)) }

        ensures runs { RunsHome state (answered result reply.new)
            (λ h. in_region h line command.now) (Some (block_asked command.now))
            self.old labels.old self.new labels.new }
        ensures change { LeavesRegion state command.now
            self.old labels.old self.new labels.new }
    {
        match command {
            Command::Alloc(_, block, size, site) => self.allocate(
                labels, block, site, *size, reply,
            ),
            Command::Align(_, block, size, align) => self.align(
                labels, block, *size, *align, reply,
            ),
            Command::Resize(_, block, size, may_move) => self.resize(
                labels, block, *size, *may_move, reply,
            ),
            Command::Free(_, block) => self.free(labels, block, line, reply),
            _ => { put_answer(self.run_other(alloc, labels, line, command), reply) }
        }
    }

    // The same for a command that puts, resizes and frees no block. It stands apart, since a call clears room for the replies
    // of all its arms.
    #[inline(never)]
    fn run_other(
        &mut self,
        alloc: Global,
        labels: &mut Labels,
        line: u32,
        command: &Command,
    ) -> Result<Reply, OutOfMemory>
        requires names { AreLabelsOf (rest_in self.old.region) labels.old }
        requires lent { HasOut (disc_in state self.old.region)
            (segments_of (rest_in self.old.region)) }
        requires other { puts_block command.now ≡ false }

        ensures runs { RunsHome state result (λ h. in_region h line command.now)
            (Some (block_asked command.now)) self.old labels.old self.new labels.new }
        ensures change { LeavesRegion state command.now
            self.old labels.old self.new labels.new }
    {
        match command {
            Command::ClearRegion(name) => Ok(self.clear(labels, *name, line)),
            Command::Compact(name) => Ok(self.compact(*name)),
            Command::WriteBlock(_, block, off, bytes) => Ok(self.write(
                labels,
                block,
                *off,
                bytes.as_slice(),
            )),
            Command::ReadBlock(_, block, off, len) => self.read(alloc, labels, block, *off, *len),
            Command::SizeOf(_, block) => Ok(self.size(labels, block)),
            Command::AddrOf(_, at) => Ok(self.addr(labels, *at)),
            Command::SegmentOf(_, at) => Ok(self.segment(*at)),
            Command::StatOf(_) => Ok(self.stat()),
            Command::Segments(_) => self.segments(alloc),
            Command::Blocks(_) => self.blocks(labels, alloc),
            Command::Poke(_, block, off, byte) => Ok(self.poke(labels, block, *off, *byte)),
            Command::Check(_) => self.check(labels, alloc),
            Command::Watch(_, block) => self.watch(labels, block, line),
            Command::ProfileOf(_) => self.profile(alloc),
            _ => Ok(Reply::Refused(Refusal::NoRegion)),
        }
    }
}
