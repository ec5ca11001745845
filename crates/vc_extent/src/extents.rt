ghost use Rattle.std.specs.Prelude.{◌≡◌, ℕ, ◌+◌, ◌≤◌, ◌<◌, ◌/◌, ◌-◌, ◌↔◌, ◌≢◌, ◌++◌, [], ◌∷◌, All, Contains, IfOk, IfSome, IsNone, IsTrue, None, Some, filter, length, map, not, option_map, slice_index, ◌==◌, vec_capacity, vec_len};
ghost use Rattle.std.specs.List.{HoldsAt};
ghost use Rattle.vc_base.specs.Prelude.{address, place_of};
ghost use Rattle.vc_model.specs.Segments.{lowest_unused, numbers};
ghost use Rattle.vc_seg.specs.Back.{has_other_number};
ghost use Rattle.vc_seg.specs.Segment.{pair_of};
ghost use Rattle.vc_extent.specs.Extent.{extents, free_extent, no_links};
ghost use Rattle.vc_extent.specs.Change.{IsOneFree, first_of, one_free};
ghost use Rattle.vc_extent.specs.Tiles.{IsTiled};
ghost use Rattle.vc_extent.specs.Tiling.{AreExtents, IsFound, change_in, closed_up, IsNamed, IsPlace, IsThere, extent_of, extents_of, next_of, previous_of, size_of, tiling};

use crate::lay::format;
use crate::near::outside;
use crate::next::{next_in, previous_in};
use crate::read::{size_in, span_in, tag_in};
use std::alloc::Global;
use vc_base::{Addr, OutOfMemory, Steps};
use vc_seg::{Segment, lowest_unused};

// Lessens each number of an index that is above a place by one.
fn close_up(index: &mut Vec<u32>, place: u32)
    ensures len { length index.new.items ≡ length index.old.items }
    ensures numbers { (k : ℕ) → slice_index index.new.items k
        ≡ closed_up place (slice_index index.old.items k) }
{
    for k in 0..index.len() {
        if index[k] > place {
            index[k] -= 1;
        }
    }
}

/// At most 1,023 numbered segments, each tiled by extents between its first and its last 16 bytes. An extent is free or
/// busy, and is named by the address 16 bytes behind its start. Its head of 16 bytes, the span of the extent before it
/// among them, and the three links of a free one lie in the segment's bytes.
#[derive(Drop)]
pub struct Extents {
    /// The segments in order of adding.
    pub segs: Vec<Segment>,
    /// By a segment's number, 0 where it isn't there, else one more than its place in `segs`: 1,024 numbers.
    pub index: Vec<u32>,
    // Where `widen` begins its walk to the last extent of a segment: at the extent that it made when it was called
    // before, or at the one that this was joined into; `NONE` where there is none. So it passes each extent about once.
    pub(crate) near: Addr,
    /// Extents tile each segment, each has a number of its own, and the index has its place.
    pub ghost kept: { ∥ AreExtents segs.items index.items ∥₁ },
    /// Each segment that can be added has room.
    pub ghost reserved: { 1023 ≤ vec_capacity segs },
    /// Where a walk begins, there is an extent.
    pub ghost named: { 0 < near.0 → IsNamed (tiling segs.items) near.0 },
}

impl Extents {
    /// With no segment. It takes the memory of 1,023 slots and of the index, and no other call but `widen` takes any.
    pub fn new(alloc: Global) -> Result<Extents, OutOfMemory>
        ensures { IfOk result (λ e. e.segs.items ≡ []) }
    {
        let segs = Vec::with_capacity(alloc, 1023)?;
        let index = vec![in alloc; 0u32; 1024]?;
        let near = Addr::NONE;
        Ok(Extents { segs, index, near })
    }

    /// The size of the segment of that number in bytes, where it is there.
    pub fn has(&self, n: u32) -> Option<u32>
        ensures { result ≡ size_of n (map pair_of self.now.segs.items) }
    {
        if n >= 1024 {
            return None;
        }
        let next = self.index[n as usize] as usize;
        if next == 0 {
            return None;
        }
        Some(self.segs[next - 1].size())
    }

    /// The least number from 1 on that no segment has. None where there are 1,023.
    pub fn lowest_unused(&self) -> Option<u32>
        ensures value { IfSome result (λ n. n
            ≡ lowest_unused (numbers (map pair_of self.now.segs.items))) }
        ensures unused { IfSome result (λ n. ¬ IsThere n self.now.segs.items) }
        ensures first { IfSome result (λ n. 1 ≤ n) }
        ensures last { IfSome result (λ n. n ≤ 1023) }
        ensures none { IsNone result ↔ (length self.now.segs.items ≡ 1023) }
    {
        if self.segs.len() >= 1023 {
            return None;
        }
        Some(lowest_unused(&self.segs))
    }

    // The place of the segment of that number, which is there.
    #[inline(always)]
    pub(crate) fn place(&self, number: u32) -> usize
        requires { IsThere number self.now.segs.items }
        ensures place { IsPlace number self.now.segs.items result }
        ensures tiled { HoldsAt (λ s. IsTiled s.bytes) self.now.segs.items result }
        ensures first { 1 ≤ number }
        ensures last { number ≤ 1023 }
    {
        self.index[number as usize] as usize - 1
    }

    // The place of the segment of an address that names an extent, and where its head lies there.
    #[inline(always)]
    pub(crate) fn find(&self, a: Addr) -> (usize, u32)
        requires { IsNamed (tiling self.now.segs.items) a.0 }
        ensures found { IsFound a.0 self.now.segs.items result.0 result.1 }
        ensures first { 1 ≤ a.0 / 1048576 }
        ensures last { a.0 / 1048576 ≤ 1023 }
    {
        (self.place(a.seg()), a.off() - 16)
    }

    /// The address of the first extent of segment n, which is there.
    pub fn first(&self, n: u32) -> Addr
        requires { IsThere n self.now.segs.items }
        ensures { Some result.0
            ≡ option_map (λ e. address (n, e.off)) (first_of (extents_of n (tiling self.now.segs.items))) }
    {
        let _place = self.place(n);
        Addr::new(n, 32)
    }

    /// Puts a segment behind the others, as one free extent, and answers its address. Its number, from 1 to 1,023, isn't
    /// used. What lies in its bytes doesn't matter.
    pub fn add(&mut self, seg: Segment) -> Addr
        requires first { 1 ≤ seg.number }
        requires last { seg.number ≤ 1023 }
        requires unused { ¬ IsThere seg.number self.old.segs.items }
        ensures tiling { tiling self.new.segs.items ≡ tiling self.old.segs.items
            ++ (seg.number, free_extent 32 (length seg.bytes - 32) no_links ∷ []) ∷ [] }
        ensures pairs { map pair_of self.new.segs.items
            ≡ map pair_of self.old.segs.items ++ pair_of seg ∷ [] }
        ensures value { result.0 ≡ address (seg.number, 32) }
    {
        let mut added = seg;
        format(&mut added);
        let number = added.number();
        self.adopt(added);
        Addr::new(number, 32)
    }

    /// Takes the segment of a number out, which is one free extent. The others keep their order.
    pub fn remove(&mut self, n: u32) -> Segment
        requires there { IsThere n self.old.segs.items }
        requires free { IsOneFree (extents_of n (tiling self.old.segs.items)) }
        ensures segs { self.new.segs.items ≡ filter (has_other_number n) self.old.segs.items }
        ensures tiling { tiling self.new.segs.items
            ≡ filter (λ s. not (s.0 == n)) (tiling self.old.segs.items) }
        ensures pairs { map pair_of self.new.segs.items
            ≡ filter (λ s. not (s.0 == n)) (map pair_of self.old.segs.items) }
        ensures number { result.number ≡ n }
        ensures size { Some (length result.bytes) ≡ size_of n (map pair_of self.old.segs.items) }
        ensures contains { Contains self.old.segs.items result }
    {
        let place = self.place(n);
        self.near = outside(self.near, n);
        self.index[n as usize] = 0;
        close_up(&mut self.index, place as u32 + 1);
        self.segs.remove(place)
    }

    /// Makes the segment of a number, which is there, one free extent again, without reading what lies in it, and answers
    /// its address.
    pub fn reset(&mut self, n: u32) -> Addr
        requires { IsThere n self.old.segs.items }
        ensures tiling { tiling self.new.segs.items
            ≡ change_in n one_free (tiling self.old.segs.items) }
        ensures pairs { map pair_of self.new.segs.items ≡ map pair_of self.old.segs.items }
        ensures value { result.0 ≡ address (n, 32) }
    {
        let place = self.place(n);
        self.near = outside(self.near, n);
        format(&mut self.segs[place]);
        Addr::new(n, 32)
    }

    /// The address of the extent before one in its segment, where there is one.
    pub fn before(&self, a: Addr) -> Option<Addr>
        requires { IsNamed (tiling self.now.segs.items) a.0 }
        ensures value { option_map (λ r. r.0) result
            ≡ option_map (λ e. address ((place_of a.0).0, e.off))
            (previous_of (tiling self.now.segs.items) a.0) }
        ensures named { IfSome result (λ r. IsNamed (tiling self.now.segs.items) r.0) }
    {
        let (place, at) = self.find(a);
        let off = previous_in(&self.segs[place], at)?;
        Some(Addr::new(a.seg(), off))
    }

    /// The address of the extent behind one in its segment, where there is one.
    pub fn after(&self, a: Addr) -> Option<Addr>
        requires { IsNamed (tiling self.now.segs.items) a.0 }
        ensures value { option_map (λ r. r.0) result
            ≡ option_map (λ e. address ((place_of a.0).0, e.off))
            (next_of (tiling self.now.segs.items) a.0) }
        ensures named { IfSome result (λ r. IsNamed (tiling self.now.segs.items) r.0) }
    {
        let (place, at) = self.find(a);
        let off = next_in(&self.segs[place], at)?;
        Some(Addr::new(a.seg(), off))
    }

    /// The bytes of an extent from its start on, a multiple of 32. It is one step.
    #[inline(always)]
    pub fn span_at<L>(&self, a: Addr, steps: &mut Steps<L>) -> u32
        requires { IsNamed (tiling self.now.segs.items) a.0 }
        ensures value { result ≡ (extent_of (tiling self.now.segs.items) a.0).span }
        ensures counter { steps.new ≡ steps.old + 1 }
    {
        steps.tick();
        let (place, at) = self.find(a);
        span_in(&self.segs[place], at)
    }

    /// Whether an extent is busy.
    #[inline(always)]
    pub fn is_busy(&self, a: Addr) -> bool
        requires { IsNamed (tiling self.now.segs.items) a.0 }
        ensures { IsTrue result ↔ (0 < (extent_of (tiling self.now.segs.items) a.0).size) }
    {
        self.size_at(a) > 0
    }

    /// The size of an extent in bytes, 0 where it is free.
    #[inline(always)]
    pub fn size_at(&self, a: Addr) -> u32
        requires { IsNamed (tiling self.now.segs.items) a.0 }
        ensures { result ≡ (extent_of (tiling self.now.segs.items) a.0).size }
    {
        let (place, at) = self.find(a);
        size_in(&self.segs[place], at)
    }

    /// The tag of an extent, 0 where it is free.
    #[inline(always)]
    pub fn tag_at(&self, a: Addr) -> u32
        requires { IsNamed (tiling self.now.segs.items) a.0 }
        ensures { result ≡ (extent_of (tiling self.now.segs.items) a.0).tag }
    {
        let (place, at) = self.find(a);
        tag_in(&self.segs[place], at)
    }
}
