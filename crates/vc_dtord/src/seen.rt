use crate::words::link_at;
use vc_base::Cells;
use vc_splay::Links;

// The holders in cells that are lent for reading, as a store of nodes.
#[derive(Drop)]
pub(crate) struct Seen<'a, C: Cells> {
    // The cells.
    pub(crate) cells: &'a C,
}

impl<'a, C: Cells> Links for Seen<'a, C> {
    ghost use Rattle.vc_dtord.specs.Nodes.{node_store};
    ghost use Rattle.vc_dtord.specs.NodeLaws.{node-none, node-fits};

    ghost store = { λ s. node_store (C.blocks s.cells.now) };

    #[inline(always)]
    fn left(&self, n: u32) -> u32 {
        link_at(self.cells, n, 0)
    }

    #[inline(always)]
    fn right(&self, n: u32) -> u32 {
        link_at(self.cells, n, 1)
    }

    #[inline(always)]
    fn up(&self, n: u32) -> u32 {
        link_at(self.cells, n, 2)
    }

    ghost none = { λ s. node-none (C.blocks s.cells.now) };

    ghost fits = { λ s n h. node-fits (C.blocks s.cells.now) n h };
}
