use crate::words::{link_at, write_word};
use vc_base::{Addr, Cells};
use vc_splay::Nodes;

/// The holders in cells that are lent, as a store of nodes: a node's name is its address, and its left child, its right
/// child and its parent are its words 0, 1 and 2. A holder at `mark` is there besides each of them, so that a guide may
/// read its key. This project's own.
#[derive(Drop)]
pub struct Holders<'a, C: Cells> {
    /// The cells.
    pub cells: &'a mut C,
    /// The address of that holder.
    pub mark: Addr,
}

impl<'a, C: Cells> Nodes for Holders<'a, C> {
    ghost use Rattle.std.specs.Prelude.{◌≡◌, refl};
    ghost use Rattle.vc_dtord.specs.Nodes.{StaysButLinks, beside, node_store};
    ghost use Rattle.vc_dtord.specs.NodeLaws.{beside-fits, beside-none, beside-stays, links_none, links_twice, same_through};

    ghost store = { λ s. beside s.mark.0 (node_store (C.blocks s.cells.now)) };

    ghost stays = { λ s t. (t.cells.ghost_name ≡ s.cells.ghost_name)
        × (t.mark ≡ s.mark)
        × C.RestStays s.cells.now t.cells.now
        × StaysButLinks (C.blocks s.cells.now) (C.blocks t.cells.now) };

    #[inline(always)]
    fn left(&self, n: u32) -> u32 {
        link_at(self.cells, n, 0)
    }

    #[inline(always)]
    fn right(&self, n: u32) -> u32 {
        link_at(self.cells, n, 1)
    }

    #[inline(always)]
    fn up(&self, n: u32) -> u32 {
        link_at(self.cells, n, 2)
    }

    #[inline(always)]
    fn set_left(&mut self, n: u32, v: u32) {
        write_word(self.cells, Addr(n), 0, v);
    }

    #[inline(always)]
    fn set_right(&mut self, n: u32, v: u32) {
        write_word(self.cells, Addr(n), 1, v);
    }

    #[inline(always)]
    fn set_up(&mut self, n: u32, v: u32) {
        write_word(self.cells, Addr(n), 2, v);
    }

    ghost none = { λ s. beside-none (C.blocks s.cells.now) s.mark.0 };

    ghost fits = { λ s n h. beside-fits (C.blocks s.cells.now) s.mark.0 n h };

    ghost reflexive = { λ s. (
      refl,
      refl,
      C.reflexive s.cells.now,
      links_none (C.blocks s.cells.now),
    ) };

    ghost transitive = { λ a b c h k. (
      same_through h.0 k.0,
      same_through h.1 k.1,
      C.transitive a.cells.now b.cells.now c.cells.now h.2 k.2,
      links_twice (C.blocks a.cells.now) (C.blocks b.cells.now) (C.blocks c.cells.now) h.3 k.3,
    ) };

    ghost names = { λ a b h.
        beside-stays (C.blocks a.cells.now) (C.blocks b.cells.now) a.mark b.mark h.1 h.3 };
}
