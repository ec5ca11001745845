ghost use Rattle.std.specs.Prelude.{◌≡◌, ◌<◌, ◌+◌, ◌^◌, ◌≤◌, length, Some, None, option_map};
ghost use Rattle.std.specs.HashMap.{spare};
ghost use Rattle.vc_base.specs.Prelude.{HasOut};
ghost use Rattle.slab.specs.Slab.{HasRoomFor, slab_len};
ghost use Rattle.vc_region.specs.Cells.{rest_in};
ghost use Rattle.vc_region.specs.Parts.{disc_in};
ghost use Rattle.vc_region.specs.Region.{segments_of};
ghost use Rattle.vc_commands.specs.Answered.{answered};
ghost use Rattle.vc_commands.specs.Held.{AreLabelsOf};
ghost use Rattle.vc_commands.specs.Blocks.{align_in, align_refused, alloc_in, fault_of, free_named, is_align, is_size, no_block, script_refusal, resize_named, site_or_hyphen, size_refused};
ghost use Rattle.vc_commands.specs.FreedNames.{freed_line};
ghost use Rattle.vc_commands.specs.Labels.{AreLabels, kept_of, tag_of};
ghost use Rattle.vc_commands.specs.Naming.{NamesPut, TellsFault, new_refused};
ghost use Rattle.vc_commands.specs.RegionCommands.{is_for_block};

use crate::region::home::{HomeEntry, find_block, place_of};
use crate::region::labels::Labels;
use crate::region::marks::{aligns, keeps_freed, watch_line};
use vc_base::{Addr, Name, OutOfMemory};
use vc_region::Region;
use vc_script::{Refusal, Reply};
use vc_seg::{BoxedDisc, RegionFault, SegDisc};

// A region has at most so many labels.
pub(crate) const LABEL_LIMIT: usize = 1_000_000;

fn is_size(size: u32) -> bool
    ensures { result ≡ is_size size }
{
    1 <= size && size <= 16_777_216
}

fn is_align(align: u32) -> bool
    ensures { result ≡ is_align align }
{
    matches!(align, 32 | 64 | 128 | 256 | 512 | 1024 | 2048 | 4096)
}

// The refusal of the size of a new block.
fn size_refused(size: u32) -> Option<Refusal>
    ensures { result ≡ size_refused size }
{
    if is_size(size) {
        None
    } else {
        Some(Refusal::Size)
    }
}

// And of an alignment besides, in a region whose method aligns blocks.
fn align_refused(region: &Region, size: u32, align: u32) -> Option<Refusal>
    ensures { result ≡ align_refused (rest_in region.now) size align }
{
    if !aligns(region) {
        return Some(Refusal::WrongMethod);
    }
    if is_size(size) && is_align(align) {
        None
    } else {
        Some(Refusal::Size)
    }
}

// The site of an allocation; a hyphen where the command has none.
fn site_of(site: &Option<Name>) -> &[u8]
    ensures value { result.now ≡ site_or_hyphen site.now }
    ensures least { 1 ≤ length result.now }
    ensures most { length result.now ≤ 32 }
{
    match site {
        Some(name) => name.bytes(),
        None => b"-",
    }
}

// The refusal for a region's fault; want of memory has none.
fn refusal_of(fault: RegionFault) -> Option<Refusal>
    ensures { result ≡ option_map script_refusal (fault_of fault) }
{
    match fault {
        RegionFault::TooManySegments => Some(Refusal::TooManySegments),
        RegionFault::NoSegment => Some(Refusal::NoSegment),
        RegionFault::OutOfMemory => None,
        RegionFault::Fixed => Some(Refusal::CannotGrow),
        RegionFault::PoolSize => Some(Refusal::PoolSize),
        RegionFault::NotLast => Some(Refusal::NotLast),
        RegionFault::WrongMethod => Some(Refusal::WrongMethod),
    }
}

// The answer to a region's fault.
fn refused(fault: RegionFault, reply: &mut Reply) -> Result<(), OutOfMemory>
    ensures { TellsFault fault (answered result reply.new) }
{
    match refusal_of(fault) {
        Some(why) => {
            *reply = Reply::Refused(why);
            Ok(())
        }
        None => Err(OutOfMemory),
    }
}

// Why a new block of that name is refused before a place is looked for, by the refusal of its words.
fn new_refused(labels: &Labels, name: &Name, words: Option<Refusal>) -> Option<Refusal>
    ensures { result ≡ new_refused labels.now name.now words }
{
    if labels.has(name) {
        return Some(Refusal::BlockExists);
    }
    match words {
        Some(why) => Some(why),
        None => {
            if labels.len() >= LABEL_LIMIT && labels.freed(name).is_none() {
                return Some(Refusal::TooManyBlocks);
            }
            None
        }
    }
}

// Why there is no block of that name: it was freed at a line, or the name isn't kept.
pub(crate) fn no_block(labels: &Labels, name: &Name) -> Refusal
    ensures value { result ≡ no_block (freed_line name.now (kept_of labels.now)) }
    ensures granted { result ≡ Refusal.NoSegment → ⊥ }
{
    match labels.freed(name) {
        Some(line) => Refusal::FreedAt(line),
        None => Refusal::NoBlock,
    }
}

// Names the block that was put, and tells its place; or tells why none was put.
fn name_put(
    labels: &mut Labels,
    name: &Name,
    put: Result<Addr, RegionFault>,
    reply: &mut Reply,
) -> Result<(), OutOfMemory>
    requires agree { AreLabels labels.old }
    requires new { tag_of labels.old name.now ≡ None }
    requires room_by_tag { HasRoomFor labels.old.by_tag 1 }
    requires room_by_name { 0 < spare labels.old.tags }
    requires tag { labels.old.by_tag.vacant_key + 1 < 2 ^ 32 }
    ensures { NamesPut (labels.old.by_tag.vacant_key + 1) name.now put
        labels.old labels.new (answered result reply.new) }
{
    match put {
        Ok(at) => {
            labels.insert(*name, at);
            *reply = Reply::At(*name, place_of(at), None);
            Ok(())
        }
        Err(fault) => refused(fault, reply),
    }
}

impl HomeEntry {
    ghost use Rattle.vc_commands.specs.RegionRun.{ChangesRegion, RunsHome};

    // Allocates a block under a name, at a site.
    pub(crate) fn allocate(
        &mut self,
        labels: &mut Labels,
        name: &Name,
        site: &Option<Name>,
        size: u32,
        reply: &mut Reply,
    ) -> Result<(), OutOfMemory>
        requires names { AreLabelsOf (rest_in self.old.region) labels.old }
        requires lent { HasOut (disc_in state self.old.region)
            (segments_of (rest_in self.old.region)) }

        ensures runs { RunsHome state (answered result reply.new)
            (λ h need. alloc_in h name.now site.now size (is_for_block need))
            (Some (size, 32)) self.old labels.old self.new labels.new }
        ensures change { ChangesRegion state self.old labels.old self.new labels.new }
    {
        match new_refused(labels, name, size_refused(size)) {
            Some(why) => {
                *reply = Reply::Refused(why);
                Ok(())
            }
            None => {
                let tag = labels.reserve()?;
                name_put(
                    labels,
                    name,
                    self.region.alloc(size, tag, site_of(site)),
                    reply,
                )
            }
        }
    }

    // Allocates a block under a name, at an offset that the alignment divides.
    pub(crate) fn align(
        &mut self,
        labels: &mut Labels,
        name: &Name,
        size: u32,
        align: u32,
        reply: &mut Reply,
    ) -> Result<(), OutOfMemory>
        requires names { AreLabelsOf (rest_in self.old.region) labels.old }
        requires lent { HasOut (disc_in state self.old.region)
            (segments_of (rest_in self.old.region)) }

        ensures runs { RunsHome state (answered result reply.new)
            (λ h need. align_in h name.now size align (is_for_block need))
            (Some (size, align)) self.old labels.old self.new labels.new }
        ensures change { ChangesRegion state self.old labels.old self.new labels.new }
    {
        let words = align_refused(&self.region, size, align);
        match new_refused(labels, name, words) {
            Some(why) => {
                *reply = Reply::Refused(why);
                Ok(())
            }
            None => {
                let tag = labels.reserve()?;
                name_put(
                    labels,
                    name,
                    self.region.align(size, align, tag, b"-"),
                    reply,
                )
            }
        }
    }

    // Gives a block another size, where it is or where it moves to.
    pub(crate) fn resize(
        &mut self,
        labels: &mut Labels,
        name: &Name,
        size: u32,
        may_move: bool,
        reply: &mut Reply,
    ) -> Result<(), OutOfMemory>
        requires names { AreLabelsOf (rest_in self.old.region) labels.old }
        requires lent { HasOut (disc_in state self.old.region)
            (segments_of (rest_in self.old.region)) }

        ensures runs { RunsHome state (answered result reply.new)
            (λ h need. resize_named h name.now size may_move (is_for_block need))
            (Some (size, 32)) self.old labels.old self.new labels.new }
        ensures change { ChangesRegion state self.old labels.old self.new labels.new }
    {
        let Some(at) = find_block(&self.region, labels, name) else {
            *reply = Reply::Refused(no_block(labels, name));
            return Ok(());
        };
        if !is_size(size) {
            *reply = Reply::Refused(Refusal::Size);
            return Ok(());
        }
        let watch = watch_line(&self.region, at);
        match self.region.resize(at, size, may_move) {
            Ok(to) => {
                labels.move_to(name, to);
                *reply = Reply::At(*name, place_of(to), watch);
                Ok(())
            }
            Err(fault) => refused(fault, reply),
        }
    }

    // Frees the block of that name, at a line.
    pub(crate) fn free(
        &mut self,
        labels: &mut Labels,
        name: &Name,
        line: u32,
        reply: &mut Reply,
    ) -> Result<(), OutOfMemory>
        requires names { AreLabelsOf (rest_in self.old.region) labels.old }
        requires lent { HasOut (disc_in state self.old.region)
            (segments_of (rest_in self.old.region)) }

        ensures runs { RunsHome state (answered result reply.new)
            (λ h need. free_named h name.now line) None self.old labels.old self.new labels.new }
        ensures change { ChangesRegion state self.old labels.old self.new labels.new }
    {
        let Some(at) = find_block(&self.region, labels, name) else {
            *reply = Reply::Refused(no_block(labels, name));
            return Ok(());
        };
        let watch = watch_line(&self.region, at);
        let keeps = keeps_freed(&self.region);
        match self.region.free(at) {
            Ok(()) => {
                let _ = labels.free(name, keeps, line);
                *reply = Reply::Freed(*name, watch);
                Ok(())
            }
            Err(fault) => refused(fault, reply),
        }
    }
}
