#![tactic(auto, using(crate::proofs::WalkStarts::changed_steps))]

ghost use Rattle.std.specs.Prelude.{◌≡◌, ◌+◌, ◌<◌, ◌≤◌, ◌==◌, IfSome, IsSomeAnd, if◌then◌else◌, length, map, take};
ghost use Rattle.vc_base.specs.Prelude.{address, place_of, span};
ghost use Rattle.vc_extent.specs.Change.{shrink, stretch};
ghost use Rattle.vc_extent.specs.Tiling.{IsBusy, IsExtentChanged, extent_behind, extent_named, rest_behind, tiling};

use crate::edit::{shrink_in, stretch_in};
use crate::extents::Extents;
use crate::near::joined;
use crate::read::span_in;
use vc_base::Addr;
use vc_seg::span_of;

impl Extents {
    /// Gives a busy extent a size that wants a larger span, of which the free extent behind it has enough. Its bytes stay,
    /// and what the bytes behind them are isn't said. It answers the address of the rest of the free extent, or `NONE`
    /// where that is used up.
    pub fn stretch(&mut self, a: Addr, size: u32) -> Addr
        requires busy { IsBusy (tiling self.old.segs.items) a.0 }
        requires next { IsSomeAnd (extent_behind self.old.segs.items a.0) (λ e. e.size ≡ 0) }
        requires above { (extent_named self.old.segs.items a.0).span < span size }
        requires fits { IfSome (extent_behind self.old.segs.items a.0)
            (λ e. span size ≤ (extent_named self.old.segs.items a.0).span + e.span) }
        ensures changed { IsExtentChanged self.old.segs.items self.new.segs.items a.0
            (stretch size (extent_named self.new.segs.items a.0).body) }
        ensures len { length (extent_named self.new.segs.items a.0).body ≡ size }
        ensures kept { take (extent_named self.old.segs.items a.0).size
            (extent_named self.new.segs.items a.0).body
            ≡ (extent_named self.old.segs.items a.0).body }
        ensures rest { IfSome (extent_behind self.old.segs.items a.0)
            (λ e. result.0 ≡ rest_behind size self.old.segs.items a.0 e) }
    {
        let (place, at) = self.find(a);
        let bytes = span_in(&self.segs[place], at);
        self.near = joined(self.near, a, bytes);
        let left = stretch_in(&mut self.segs[place], at, size);
        if left == 0 {
            return Addr::NONE;
        }
        Addr::new(a.seg(), at + 16 + span_of(size))
    }

    /// Gives a busy extent a size from 1 on that wants a lesser span. Its bytes up to that size stay. It answers the address
    /// of the free extent that its tail becomes.
    pub fn shrink(&mut self, a: Addr, size: u32) -> Addr
        requires busy { IsBusy (tiling self.old.segs.items) a.0 }
        requires some { 1 ≤ size }
        requires below { span size < (extent_named self.old.segs.items a.0).span }
        ensures changed { IsExtentChanged self.old.segs.items self.new.segs.items a.0
            (shrink size) }
        ensures rest { result.0 ≡ address ((place_of a.0).0, (place_of a.0).1 + span size) }
    {
        let (place, at) = self.find(a);
        shrink_in(&mut self.segs[place], at, size);
        Addr::new(a.seg(), at + 16 + span_of(size))
    }
}
