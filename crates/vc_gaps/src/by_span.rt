use crate::Gaps;
use std::cmp::Ordering;
use vc_base::{Addr, Steps};
use vc_splay::Guide;

/// Seeks the free extents of this span and this address, among others by span and then by address.
#[derive(Clone, Copy, Debug)]
pub struct BySpan {
    /// The span, in bytes.
    pub span: u32,
    /// The address.
    pub at: u32,
}

impl<'a> Guide<Gaps<'a>> for BySpan {
    ghost use Rattle.vc_extent.specs.Tiling.{tiling};
    ghost use Rattle.vc_gaps.specs.GapStore.{gap_side};
    ghost use Rattle.vc_gaps.specs.GapLaws.{side_stays};

    ghost side_of = { λ g s n. gap_side (tiling s.extents.now.segs.items) g.span g.at n };

    #[inline(always)]
    fn side<L>(&self, nodes: &Gaps<'a>, n: u32, steps: &mut Steps<L>) -> Ordering {
        let span = nodes.extents.span_at(Addr(n), steps);
        let key = span as u64 * 4_294_967_296 + n as u64;
        key.cmp(&(self.span as u64 * 4_294_967_296 + self.at as u64))
    }

    ghost no_links = { λ g a b n h.
        side_stays a.extents.now.segs.items b.extents.now.segs.items g.span g.at n h.1 };
}
