ghost use Rattle.std.specs.Prelude.{◌≡◌, ◌+◌, ◌≤◌, All, length};
ghost use Rattle.vc_ways.specs.Answer.{HasOwnSegmentsOut};
ghost use Rattle.vc_ways.specs.PoolParts.{holdings};
ghost use Rattle.vc_ways.specs.Settled.{AreBack, AreTaken, slots_on};

use crate::{LastWay, Regions};
use vc_pool::Pool;
use vc_seg::Shelf;

// Closes the pools, at most 20, the last one first, and gives their disciplines to the places from 3 on.
pub(crate) fn close_pools(mut pools: Vec<Pool>, shelf: &mut Shelf)
    requires classes { length pools.items ≤ 20 }
    requires lent { All HasOwnSegmentsOut (holdings state pools.items) }
    requires taken { AreTaken (length pools.items + 2) (slots_on state shelf.old) }
    ensures { AreBack 2 (holdings state pools.items) (slots_on state shelf.old)
        (slots_on state shelf.new) }
{
    while let Some(pool) = pools.pop() {
        let n = pools.len() as u32 + 3;
        let (disc, _) = pool.close();
        shelf.give_back(n, disc);
    }
}

impl Regions {
    ghost use Rattle.vc_ways.specs.RegionsParts.{all_holdings};

    /// Gives the segments of all ways back, and each discipline to its place on the shelf: that of the best region to place
    /// 1, that of the last one to 2, and those of the classes to 3 to 22.
    pub fn close(self, shelf: &mut Shelf)
        requires classes { length self.pools.items ≡ 20 }
        requires lent { All HasOwnSegmentsOut (all_holdings state self) }
        requires taken { AreTaken 22 (slots_on state shelf.old) }
        ensures { AreBack 0 (all_holdings state self) (slots_on state shelf.old)
            (slots_on state shelf.new) }
    {
        let Regions { best, last, pools } = self;
        close_pools(pools, shelf);
        let LastWay { region, dead: _ } = last;
        let (second, _) = region.close();
        shelf.give_back(2, second);
        let (first, _) = best.close();
        shelf.give_back(1, first);
    }
}
