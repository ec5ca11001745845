ghost use Rattle.std.specs.Prelude.{◌≡◌, ◌<◌, ◌+◌, length, true};
ghost use Rattle.vc_ways.specs.Answer.{GivesOutcome, KeepsWay};
ghost use Rattle.vc_ways.specs.LastWay.{drop_dead, ends_dead, last_dead, last_put, last_sized, latest_sized, without_latest};

use vc_last::Last;
use vc_seg::{RegionFault, SegDisc};

/// The way of a last region: its blocks are alive or dead, and a dead one is freed once no live one was allocated later.
#[derive(Drop)]
pub struct LastWay {
    /// The region.
    pub region: Last,
    /// For each of its blocks, in order of allocation, whether it is dead.
    pub dead: Vec<bool>,
}

impl LastWay {
    ghost use Rattle.vc_last.specs.Parts.{segments_in};
    ghost use Rattle.vc_ways.specs.LastParts.{CanAskLast, IsPaired, LeavesLast, holding_of, way_of};

    /// Puts a block of 1 to 16,777,216 bytes, and answers how many stand before it. The faults are those of the region's
    /// `alloc`; after one of them the way can only be closed.
    pub fn put(&mut self, size: u32) -> Result<usize, RegionFault>
        requires can { CanAskLast state self.old size }
        ensures answer { GivesOutcome
            (last_put (holding_of state self.old).disc.terms (way_of self.old) size)
            (λ i. i) result (way_of self.new) }
        ensures leaves { LeavesLast state self.old size result self.new }
    {
        let i = self.dead.len();
        match self.region.alloc(size, 0) {
            Ok(_) => match self.dead.push(false) {
                Ok(()) => Ok(i),
                Err(_) => Err(RegionFault::OutOfMemory),
            },
            Err(fault) => Err(fault),
        }
    }

    // Gives the latest block another size; it may move.
    fn resize_latest(&mut self, i: usize, size: u32) -> Result<usize, RegionFault>
        requires can { CanAskLast state self.old size }
        requires latest { i + 1 ≡ length self.old.dead.items }
        ensures answer { GivesOutcome
            (latest_sized (holding_of state self.old).disc.terms (way_of self.old) i size)
            (λ i. i) result (way_of self.new) }
        ensures leaves { LeavesLast state self.old size result self.new }
    {
        let at = self.region.latest;
        match self.region.resize(at, size, true) {
            Ok(_) => Ok(i),
            Err(fault) => Err(fault),
        }
    }

    /// Gives the block behind so many another size, 1 to 16,777,216 bytes, and answers how many stand before it then. The
    /// latest block stays if it can, and moves else. Of another one a block of that size is put, and it is dead. The
    /// faults are as of `put`.
    pub fn resize(&mut self, i: usize, size: u32) -> Result<usize, RegionFault>
        requires can { CanAskLast state self.old size }
        requires block { i < length self.old.dead.items }
        ensures answer { GivesOutcome
            (last_sized (holding_of state self.old).disc.terms (way_of self.old) i size)
            (λ i. i) result (way_of self.new) }
        ensures leaves { LeavesLast state self.old size result self.new }
    {
        if i + 1 == self.dead.len() {
            return self.resize_latest(i, size);
        }
        self.dead[i] = true;
        self.put(size)
    }

    /// The block behind so many is dead.
    pub fn mark_dead(&mut self, i: usize)
        requires block { i < length self.old.dead.items }
        requires paired { IsPaired self.old }
        ensures way { way_of self.new ≡ last_dead (way_of self.old) i }
        ensures paired { IsPaired self.new }
        ensures keeps { KeepsWay true (holding_of state self.old) (holding_of state self.new) }
    {
        self.dead[i] = true;
    }

    // Whether the latest block is dead.
    fn ends_dead(&self) -> bool
        ensures { result ≡ ends_dead self.now.dead.items }
    {
        let n = self.dead.len();
        n > 0 && self.dead[n - 1]
    }

    // Frees the latest block.
    fn drop_latest(&mut self)
        requires paired { IsPaired self.old }
        requires some { 0 < length self.old.dead.items }
        ensures way { way_of self.new ≡ without_latest (way_of self.old) }
        ensures paired { IsPaired self.new }
        ensures keeps { KeepsWay true (holding_of state self.old) (holding_of state self.new) }
        ensures segments { segments_in self.new.region ≡ segments_in self.old.region }
    {
        let _ = self.dead.pop();
        let at = self.region.latest;
        let _ = self.region.free(at);
    }

    /// While the latest block is dead, frees it.
    pub fn drop_dead(&mut self)
        requires paired { IsPaired self.old }
        ensures way { way_of self.new ≡ drop_dead (way_of self.old) }
        ensures paired { IsPaired self.new }
        ensures keeps { KeepsWay true (holding_of state self.old) (holding_of state self.new) }
        ensures segments { segments_in self.new.region ≡ segments_in self.old.region }
    {
        while self.ends_dead() {
            self.drop_latest();
        }
    }
}
