ghost use Rattle.std.specs.Prelude.{◌≡◌, ◌+◌, ◌<◌, IfSome, length, map};
ghost use Rattle.vc_ways.specs.Extents.{bytes_behind, newest_in, newest_of, with_extents, with_newest};
ghost use Rattle.vc_ways.specs.RegionsParts.{regions_of};

use crate::{Each, Regions};
use vc_seg::Numbered;

/// The newest segment of a region, which alone may get longer; both numbers are 0 where there is none.
#[derive(Clone, Copy)]
pub struct Newest {
    /// How many segments stand before it.
    pub before: usize,
    /// Its size in bytes.
    pub bytes: u64,
}

/// The newest segments of the best region and of the last region, and of the pool of one class.
#[derive(Clone, Copy)]
pub struct Newests {
    /// Of the best region.
    pub best: Newest,
    /// Of the last region.
    pub last: Newest,
    /// Of the pool.
    pub pool: Newest,
}

// The newest of segments.
fn newest_in<T: Numbered>(segs: &[T]) -> Newest
    ensures { result ≡ newest_in (map T.pair segs.now) }
{
    if segs.is_empty() {
        return Newest {
            before: 0,
            bytes: 0,
        };
    }
    let before = segs.len() - 1;
    Newest {
        before,
        bytes: segs[before].size() as u64,
    }
}

// A sum with the sizes of the segments behind the first ones, where it is a u64.
fn with_sizes<T: Numbered>(segs: &[T], first: usize, before: u64) -> Option<u64>
    ensures { IfSome result (λ n. n ≡ before + bytes_behind first (map T.pair segs.now)) }
{
    let mut sum = before;
    let mut i = first;
    while i < segs.len() {
        match sum.checked_add(segs[i].size() as u64) {
            Some(more) => sum = more,
            None => return None,
        }
        i += 1;
    }
    Some(sum)
}

// An extent with the segments that stand now from where that one was the newest.
fn with_newest<T: Numbered>(segs: &[T], newest: Newest, extent: u64) -> Option<u64>
    ensures { IfSome result (λ n. n ≡ with_newest extent newest (map T.pair segs.now)) }
{
    with_sizes(segs, newest.before, extent.saturating_sub(newest.bytes))
}

impl Regions {
    /// The newest segments of the regions, and of the pool of that class, below 20.
    pub fn newest(&self, class: usize) -> Newests
        requires classes { length self.now.pools.items ≡ 20 }
        requires class { class < 20 }
        ensures { result ≡ newest_of (regions_of self.now) class }
    {
        Newests {
            best: newest_in(&self.best.extents.segs),
            last: newest_in(&self.last.region.segs),
            pool: newest_in(&self.pools[class].segs),
        }
    }

    /// Extents with what the regions and the pool of that class, below 20, have now, by the segments that were their newest.
    /// None where one of them is no u64.
    pub fn add(&self, class: usize, newest: Newests, extents: Each) -> Option<Each>
        requires classes { length self.now.pools.items ≡ 20 }
        requires class { class < 20 }
        ensures { IfSome result (λ new. new ≡ with_extents (regions_of self.now) class newest extents) }
    {
        let best = with_newest(&self.best.extents.segs, newest.best, extents.best)?;
        let last = with_newest(&self.last.region.segs, newest.last, extents.last)?;
        let pool = with_newest(&self.pools[class].segs, newest.pool, extents.pool)?;
        Some(Each { best, last, pool })
    }
}
