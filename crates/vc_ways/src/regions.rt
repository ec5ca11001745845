ghost use Rattle.std.specs.Prelude.{◌≡◌, IfOk, true};
ghost use Rattle.vc_ways.specs.Answer.{KeepsWays};
ghost use Rattle.vc_ways.specs.Regions.{free_in_each, put_block, size_block};

use crate::pool_way::{free_cell, put_cell, resize_cell};
use crate::{LastWay, Live, Way};
use vc_base::Steps;
use vc_best::Best;
use vc_pool::Pool;
use vc_seg::RegionFault;

// Marks the steps of calls that nobody counts.
struct Uncounted;

/// The regions of the three ways.
#[derive(Drop)]
pub struct Regions {
    /// The region by exact best fit.
    pub best: Best,
    /// The last region, with its dead blocks.
    pub last: LastWay,
    /// The pool of each class, from 32 bytes on.
    pub pools: Vec<Pool>,
}

/// Which way can't do a command, and why.
#[derive(Clone, Copy, Debug, PartialEq, Eq)]
pub struct Stop {
    /// The first way that can't.
    pub way: Way,
    /// What its region answered.
    pub fault: RegionFault,
}

impl Regions {
    ghost use Rattle.vc_ways.specs.RegionsParts.{AnswersInAllWays, CanAskWays, Comes, HasFlagsAndPools, IsLiveIn, LeavesWays, StandApart, all_holdings, live_of, regions_of, terms_of};

    /// Puts a block of 1 to 16,777,216 bytes in each way, in the order best, last, pools. After a stop the regions can
    /// only be closed.
    pub fn put(&mut self, size: u32) -> Result<Live, Stop>
        requires can { CanAskWays state self.old size }
        ensures answer { AnswersInAllWays (put_block (terms_of state self.old) (regions_of self.old) size)
            result (regions_of self.new) }
        ensures leaves { LeavesWays state self.old size result self.new }
        ensures comes { IfOk result (λ l. Comes (λ _. Unit {0}) (regions_of self.old) l
            (regions_of self.new)) }
    {
        let mut steps: Steps<Uncounted> = Steps::new(self.best.alloc);
        let best = match self.best.alloc(size, 32, 0, &mut steps) {
            Ok(best) => best,
            Err(fault) => return Err(Stop {
                way: Way::Best,
                fault,
            }),
        };
        let last = match self.last.put(size) {
            Ok(last) => last,
            Err(fault) => return Err(Stop {
                way: Way::Last,
                fault,
            }),
        };
        let cell = match put_cell(&mut self.pools, size) {
            Ok(cell) => cell,
            Err(fault) => return Err(Stop {
                way: Way::Pool,
                fault,
            }),
        };
        self.last.drop_dead();
        Ok(Live {
            size,
            best,
            last,
            cell,
        })
    }

    /// Gives a live block another size, 1 to 16,777,216 bytes, in each way, in the order best, last, pools; it may move.
    /// After a stop the regions can only be closed.
    pub fn resize(&mut self, live: &Live, size: u32) -> Result<Live, Stop>
        requires can { CanAskWays state self.old size }
        requires live { IsLiveIn (regions_of self.old) live.now }
        ensures answer { AnswersInAllWays
            (size_block (terms_of state self.old) (regions_of self.old) (live_of live.now) size)
            result (regions_of self.new) }
        ensures leaves { LeavesWays state self.old size result self.new }
        ensures comes { IfOk result (λ l. Comes (λ k. StandApart k live.now) (regions_of self.old) l
            (regions_of self.new)) }
    {
        let mut steps: Steps<Uncounted> = Steps::new(self.best.alloc);
        let best = match self.best.resize(live.best, size, true, &mut steps) {
            Ok(best) => best,
            Err(fault) => return Err(Stop {
                way: Way::Best,
                fault,
            }),
        };
        let last = match self.last.resize(live.last, size) {
            Ok(last) => last,
            Err(fault) => return Err(Stop {
                way: Way::Last,
                fault,
            }),
        };
        let cell = match resize_cell(&mut self.pools, live.size, live.cell, size) {
            Ok(cell) => cell,
            Err(fault) => return Err(Stop {
                way: Way::Pool,
                fault,
            }),
        };
        self.last.drop_dead();
        Ok(Live {
            size,
            best,
            last,
            cell,
        })
    }

    /// Frees a live block in each way.
    pub fn free(&mut self, live: &Live)
        requires whole { HasFlagsAndPools self.old }
        requires live { IsLiveIn (regions_of self.old) live.now }
        ensures regions { regions_of self.new ≡ free_in_each (regions_of self.old) (live_of live.now) }
        ensures whole { HasFlagsAndPools self.new }
        ensures keeps { KeepsWays true (all_holdings state self.old) (all_holdings state self.new) }
        ensures others { (k : Live) → IsLiveIn (regions_of self.old) k → StandApart k live.now
            → IsLiveIn (regions_of self.new) k }
    {
        let mut steps: Steps<Uncounted> = Steps::new(self.best.alloc);
        self.best.free(live.best, &mut steps);
        self.last.mark_dead(live.last);
        free_cell(&mut self.pools, live.size, live.cell);
        self.last.drop_dead();
    }
}
