use vc_base::Addr;
use vc_extent::Extents;
use vc_splay::Nodes;

/// The free extents of a tiling as a store of nodes: a node's name is its address, and its left child, right child and
/// parent are its three links.
#[derive(Drop)]
pub struct Gaps<'a> {
    /// The extents, which are lent.
    pub extents: &'a mut Extents,
}

impl<'a> Nodes for Gaps<'a> {
    ghost use Rattle.std.specs.Prelude.{◌≡◌, refl};
    ghost use Rattle.vc_extent.specs.Tiling.{tiling};
    ghost use Rattle.vc_gaps.specs.ButLinks.{StaysButLinks};
    ghost use Rattle.vc_gaps.specs.GapStore.{gap_store};
    ghost use Rattle.vc_gaps.specs.GapLaws.{but_links_none, but_links_twice, gap_fits, gap_none, name_twice, names_stay};

    ghost store = { λ s. gap_store (tiling s.extents.now.segs.items) };

    ghost stays = { λ s t. (t.extents.ghost_name ≡ s.extents.ghost_name)
        × StaysButLinks s.extents.now.segs.items t.extents.now.segs.items };

    #[inline(always)]
    fn left(&self, n: u32) -> u32 {
        self.extents.link(Addr(n), 0).0
    }

    #[inline(always)]
    fn right(&self, n: u32) -> u32 {
        self.extents.link(Addr(n), 1).0
    }

    #[inline(always)]
    fn up(&self, n: u32) -> u32 {
        self.extents.link(Addr(n), 2).0
    }

    #[inline(always)]
    fn set_left(&mut self, n: u32, v: u32) {
        self.extents.set_link(Addr(n), 0, Addr(v));
    }

    #[inline(always)]
    fn set_right(&mut self, n: u32, v: u32) {
        self.extents.set_link(Addr(n), 1, Addr(v));
    }

    #[inline(always)]
    fn set_up(&mut self, n: u32, v: u32) {
        self.extents.set_link(Addr(n), 2, Addr(v));
    }

    ghost none = { λ s. gap_none s.extents.now.segs.items s.extents.now.index.items s.extents.now.kept };

    ghost fits = { λ s n h.
        gap_fits s.extents.now.segs.items s.extents.now.index.items s.extents.now.kept n h };

    ghost reflexive = { λ s. (refl, but_links_none s.extents.now.segs.items) };

    ghost transitive = { λ a b c h k. (
      name_twice h.0 k.0,
      but_links_twice a.extents.now.segs.items b.extents.now.segs.items c.extents.now.segs.items h.1 k.1,
    ) };

    ghost names = { λ a b h. names_stay (tiling a.extents.now.segs.items)
        (tiling b.extents.now.segs.items) h.1.extents };
}
