ghost use Rattle.std.specs.Prelude.{◌≡◌, ◌<◌, All, None, IfErr, IfOk, OnOk, bytes_eq, false, if◌then◌else◌, length, true};
ghost use Rattle.std.specs.HashMap.{get};
ghost use Rattle.vc_seg.specs.OneBlock.{IsSize};
ghost use Rattle.vc_ways.specs.Answer.{HasOwnSegmentsOut, KeepsWays};
ghost use Rattle.vc_ways.specs.Asking.{size_asked};
ghost use Rattle.vc_ways.specs.RegionsParts.{all_holdings, regions_of, terms_of};
ghost use Rattle.vc_ways.specs.Regions.{new_regions, put_block};
ghost use Rattle.vc_ways.specs.Settled.{AreBack, AreTaken, slots_on};
ghost use Rattle.vc_ways.specs.Step.{Goes, Outside, free_found, goes_with, is_its_region, is_new, is_size, size_found, start, trace_step};
ghost use Rattle.vc_ways.specs.Table.{find_live};
ghost use Rattle.vc_ways.specs.TraceParts.{AnswersCommand, CanClose, IsBlockPlaced, LeavesTrace, StandsSoFar, trace_state};

use crate::pool_way::class_of;
use crate::tally::none;
use crate::{Each, Live, Newests, Regions, Stop, Tally, Way};
use indexmap::IndexMap;
use std::alloc::Global;
use vc_base::Name;
use vc_script::Command;
use vc_seg::{RegionFault, SegDisc, Shelf};

/// A trace that is run three ways.
#[derive(Drop)]
pub struct Trace {
    /// The name of the region in its first command, once there was one.
    pub region: Option<Name>,
    /// Its live blocks.
    pub blocks: IndexMap<Name, Live>,
    /// Its regions.
    pub regions: Regions,
    /// The extent of each way.
    pub extents: Each,
    /// The sum of the sizes of its live blocks.
    pub live: u64,
    /// What is reported of its commands.
    pub tally: Tally,
}

// A trace has at most so many live blocks.
const LIVE_LIMIT: usize = 1_000_000;

// Want of memory for the table of live blocks, or a sum that no u64 holds: it is told as of the first way.
pub(crate) fn out_of_memory() -> Stop
    ensures { result.fault ≡ RegionFault.OutOfMemory }
{
    Stop {
        way: Way::Best,
        fault: RegionFault::OutOfMemory,
    }
}

// Whether a block has 1 to 16,777,216 bytes.
fn is_size(size: u32) -> bool
    ensures { result ≡ is_size size }
{
    1 <= size && size <= 16_777_216
}

impl Trace {
    /// Of no command, over regions without a block.
    pub fn new(alloc: Global, regions: Regions) -> Trace
        requires none { regions_of regions ≡ new_regions }
        requires lent { All HasOwnSegmentsOut (all_holdings state regions) }
        ensures state { trace_state result ≡ start }
        ensures stands { StandsSoFar state result }
        ensures regions { result.regions ≡ regions }
    {
        Trace {
            region: None,
            blocks: IndexMap::new(alloc),
            regions,
            extents: none(),
            live: 0,
            tally: Tally::new(),
        }
    }

    // Whether that is the region of the trace.
    fn is_region(&self, r: &Name) -> bool
        ensures { result ≡ is_its_region self.now.region r.now }
    {
        match &self.region {
            None => true,
            Some(first) => first == r,
        }
    }

    // The live block of a name.
    fn found(&self, x: &Name) -> Option<Live>
        ensures { result ≡ get bytes_eq self.now.blocks x.now }
    {
        match self.blocks.get(x) {
            Some(live) => Some(*live),
            None => None,
        }
    }

    // Whether a block of that name can be put.
    fn is_new(&self, x: &Name) -> bool
        ensures { result ≡ is_new (trace_state self.now).table x.now }
    {
        match self.found(x) {
            None => self.blocks.len() < LIVE_LIMIT,
            Some(_) => false,
        }
    }

    // A block came, or has another size: its name has it, in place of one of so many bytes. Before it these were
    // the newest segments, of the pools in that of its class.
    fn place(
        &mut self,
        r: &Name,
        x: &Name,
        live: Live,
        gone: u32,
        class: usize,
        first: Newests,
    ) -> Result<(), Stop>
        requires classes { length self.old.regions.pools.items ≡ 20 }
        requires class { class < 20 }
        ensures regions { self.new.regions ≡ self.old.regions }
        ensures placed { OnOk result
            (IsBlockPlaced self.old self.new r.now x.now live gone class first) }
        ensures memory { IfErr result (λ stop. stop.fault ≡ RegionFault.OutOfMemory) }
    {
        let extents = match self.regions.add(class, first, self.extents) {
            Some(extents) => extents,
            None => return Err(out_of_memory()),
        };
        let bytes = match self.live.checked_add(live.size as u64) {
            Some(bytes) => bytes,
            None => return Err(out_of_memory()),
        };
        match self.blocks.insert(*x, live) {
            Ok(_) => {}
            Err(_) => return Err(out_of_memory()),
        }
        self.region = Some(*r);
        self.extents = extents;
        self.live = bytes.saturating_sub(gone as u64);
        self.tally = self.tally.with(self.live, extents);
        Ok(())
    }

    // Puts a block under a name that has none.
    fn put(&mut self, r: &Name, x: &Name, size: u32) -> Result<bool, Stop>
        requires stands { StandsSoFar state self.old }
        requires size { IsSize size }
        requires new { is_new (trace_state self.old).table x.now ≡ true }
        ensures answer { AnswersCommand (λ refused. goes_with (trace_state self.old) r.now x.now
            (put_block (terms_of state self.old.regions) (regions_of self.old.regions) size refused))
            result (trace_state self.new) }
        ensures leaves { LeavesTrace state self.old size result self.new }
    {
        let class = class_of(size);
        let first = self.regions.newest(class);
        match self.regions.put(size) {
            Ok(live) => match self.place(r, x, live, 0, class, first) {
                Ok(()) => Ok(true),
                Err(stop) => Err(stop),
            },
            Err(stop) => Err(stop),
        }
    }

    // Gives the block of a name another size, where it has one.
    fn resize(&mut self, r: &Name, x: &Name, size: u32) -> Result<bool, Stop>
        requires stands { StandsSoFar state self.old }
        requires size { IsSize size }
        ensures answer { AnswersCommand (λ refused. size_found (terms_of state self.old.regions)
            (trace_state self.old) r.now x.now size refused
            (find_live x.now (trace_state self.old).table))
            result (trace_state self.new) }
        ensures leaves { LeavesTrace state self.old size result self.new }
    {
        let old = match self.found(x) {
            None => return Ok(false),
            Some(old) => old,
        };
        let class = class_of(size);
        let first = self.regions.newest(class);
        match self.regions.resize(&old, size) {
            Ok(live) => match self.place(r, x, live, old.size, class, first) {
                Ok(()) => Ok(true),
                Err(stop) => Err(stop),
            },
            Err(stop) => Err(stop),
        }
    }

    // Frees the block of a name, and answers whether it has one.
    fn free(&mut self, r: &Name, x: &Name) -> bool
        requires stands { StandsSoFar state self.old }
        ensures answer { free_found (trace_state self.old) r.now x.now
            (find_live x.now (trace_state self.old).table)
            ≡ (if result then Goes (trace_state self.new) else Outside) }
        ensures same { result ≡ false → trace_state self.new ≡ trace_state self.old }
        ensures stands { StandsSoFar state self.new }
        ensures keeps { KeepsWays true (all_holdings state self.old.regions)
            (all_holdings state self.new.regions) }
    {
        let live = match self.found(x) {
            None => return false,
            Some(live) => live,
        };
        self.regions.free(&live);
        self.blocks.swap_remove(x);
        self.region = Some(*r);
        self.live = self.live.saturating_sub(live.size as u64);
        self.tally = self.tally.with(self.live, self.extents);
        true
    }

    /// Runs a command, and answers whether it belongs to a trace: it is `alloc`, `resize` with `move`, or `free`, it names
    /// the region of the first one, it gives a block 1 to 16,777,216 bytes, it puts a block under a name that has none,
    /// where there are fewer than 1,000,000, and else names a live one. The ways run in the order best, last, pools, and
    /// the first that can't stops it. After a stop the trace can only be closed.
    pub fn run(&mut self, command: &Command) -> Result<bool, Stop>
        requires stands { StandsSoFar state self.old }
        ensures answer { AnswersCommand (trace_step (terms_of state self.old.regions) (trace_state self.old) command.now)
            result (trace_state self.new) }
        ensures leaves { LeavesTrace state self.old (size_asked command.now) result self.new }
        ensures closes { CanClose state self.new }
    {
        match command {
            Command::Alloc(r, x, size, _) => {
                if self.is_region(r) && is_size(*size) && self.is_new(x) {
                    return self.put(r, x, *size);
                }
                Ok(false)
            }
            Command::Resize(r, x, size, may_move) => {
                if self.is_region(r) && is_size(*size) && *may_move {
                    return self.resize(r, x, *size);
                }
                Ok(false)
            }
            Command::Free(r, x) => {
                if self.is_region(r) {
                    return Ok(self.free(r, x));
                }
                Ok(false)
            }
            _ => Ok(false),
        }
    }

    /// Gives all segments back, and each discipline to its place on the shelf: that of the best region to place 1, that of
    /// the last one to 2, and those of the classes to 3 to 22.
    pub fn close(self, shelf: &mut Shelf)
        requires closes { CanClose state self }
        requires taken { AreTaken 22 (slots_on state shelf.old) }
        ensures { AreBack 0 (all_holdings state self.regions) (slots_on state shelf.old)
            (slots_on state shelf.new) }
    {
        let Trace {
            region: _,
            blocks: _,
            regions,
            extents: _,
            live: _,
            tally: _,
        } = self;
        regions.close(shelf);
    }
}
