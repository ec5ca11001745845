#![tactic(auto, using(crate::proofs::WalkStarts::changed_steps))]

ghost use Rattle.std.specs.Prelude.{◌≡◌, ℕ, ◌+◌, ◌%◌, ◌<◌, ◌≤◌, IfSome, IsSome, IsSomeAnd, length, map, take};
ghost use Rattle.vc_base.specs.Prelude.{address, place_of, span};
ghost use Rattle.vc_extent.specs.Change.{join, mark_busy, mark_free, set_size, split};
ghost use Rattle.vc_extent.specs.Tiling.{IsBusy, IsFree, IsNamed, IsExtentChanged, extent_of, next_of, tiling};

use crate::edit::{join_in, mark_busy_in, mark_free_in, set_size_in, split_in};
use crate::extents::Extents;
use crate::near::joined;
use crate::read::span_in;
use vc_base::Addr;

impl Extents {
    /// Splits a free extent in two free ones, the first of that many bytes, a multiple of 32 from 32 on and below its span.
    /// It answers the address of the second.
    pub fn split(&mut self, a: Addr, span: u32) -> Addr
        requires free { IsFree (tiling self.old.segs.items) a.0 }
        requires larger { span < (extent_of (tiling self.old.segs.items) a.0).span }
        requires least { 32 ≤ span }
        requires multiple { span % 32 ≡ 0 }
        ensures changed { IsExtentChanged self.old.segs.items self.new.segs.items a.0
            (split span) }
        ensures rest { result.0 ≡ address ((place_of a.0).0, (place_of a.0).1 + span) }
    {
        let (place, at) = self.find(a);
        split_in(&mut self.segs[place], at, span);
        Addr::new(a.seg(), at + 16 + span)
    }

    /// Makes a free extent and the free one behind it one.
    pub fn join(&mut self, a: Addr)
        requires free { IsFree (tiling self.old.segs.items) a.0 }
        requires next { IsSomeAnd (next_of (tiling self.old.segs.items) a.0) (λ e. e.size ≡ 0) }
        ensures { IsExtentChanged self.old.segs.items self.new.segs.items a.0
            join }
    {
        let (place, at) = self.find(a);
        let bytes = span_in(&self.segs[place], at);
        self.near = joined(self.near, a, bytes);
        join_in(&mut self.segs[place], at);
    }

    /// Makes a free extent busy with a block of a size whose span it has, and a tag. What the block's bytes are isn't said.
    pub fn mark_busy(&mut self, a: Addr, size: u32, tag: u32)
        requires free { IsFree (tiling self.old.segs.items) a.0 }
        requires some { 1 ≤ size }
        requires span { span size ≡ (extent_of (tiling self.old.segs.items) a.0).span }
        ensures changed { IsExtentChanged self.old.segs.items self.new.segs.items a.0
            (mark_busy size tag (extent_of (tiling self.new.segs.items) a.0).body) }
        ensures len { length (extent_of (tiling self.new.segs.items) a.0).body ≡ size }
    {
        let (place, at) = self.find(a);
        mark_busy_in(&mut self.segs[place], at, size, tag);
    }

    /// Makes a busy extent free.
    pub fn mark_free(&mut self, a: Addr)
        requires { IsBusy (tiling self.old.segs.items) a.0 }
        ensures { IsExtentChanged self.old.segs.items self.new.segs.items a.0
            mark_free }
    {
        let (place, at) = self.find(a);
        mark_free_in(&mut self.segs[place], at);
    }

    /// Gives a busy extent another size with the same span. Its bytes up to the lesser size stay, and what the others are
    /// isn't said.
    pub fn set_size(&mut self, a: Addr, size: u32)
        requires busy { IsBusy (tiling self.old.segs.items) a.0 }
        requires some { 1 ≤ size }
        requires span { span size ≡ (extent_of (tiling self.old.segs.items) a.0).span }
        ensures changed { IsExtentChanged self.old.segs.items self.new.segs.items a.0
            (set_size size (extent_of (tiling self.new.segs.items) a.0).body) }
        ensures len { length (extent_of (tiling self.new.segs.items) a.0).body ≡ size }
        ensures kept { (k : ℕ) → k ≤ size → k ≤ (extent_of (tiling self.old.segs.items) a.0).size
            → take k (extent_of (tiling self.new.segs.items) a.0).body
            ≡ take k (extent_of (tiling self.old.segs.items) a.0).body }
    {
        let (place, at) = self.find(a);
        set_size_in(&mut self.segs[place], at, size);
    }
}
