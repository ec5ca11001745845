use crate::holders::Holders;
use std::cmp::Ordering;
use vc_base::{Addr, Cells, Steps};
use vc_dtdisc::DictDisc;
use vc_splay::{Guide, Nodes};

/// Seeks the holders whose objects have this key. This project's own.
#[derive(Drop)]
pub struct ByKey<'k, D: DictDisc> {
    /// The kind, which orders keys.
    pub kind: &'k D,
    /// The key.
    pub key: &'k [u8],
}

impl<'a, 'k, C: Cells, D: DictDisc> Guide<Holders<'a, C>> for ByKey<'k, D> {
    ghost use Rattle.vc_dtord.specs.Nodes.{stands_to};
    ghost use Rattle.vc_dtord.specs.NodeLaws.{stands_to-stays};

    ghost side_of = { λ g s n. stands_to (D.rules g.kind.now) (C.blocks s.cells.now) g.key.now n };

    #[inline(always)]
    fn side<L>(&self, nodes: &Holders<'a, C>, n: u32, steps: &mut Steps<L>) -> Ordering {
        let key = self.kind.key(nodes.cells.body(Addr(n)));
        self.kind.compare(key, self.key, steps)
    }

    ghost no_links = { λ g a b n h.
        stands_to-stays (D.rules g.kind.now) (C.blocks a.cells.now) (C.blocks b.cells.now) g.key.now n h.3 };
}

// Seeks the holders whose objects have the key of the one at the mark.
#[derive(Drop)]
pub(crate) struct ByMark<'k, D: DictDisc> {
    // The kind, which orders keys.
    pub(crate) kind: &'k D,
}

impl<'a, 'k, C: Cells, D: DictDisc> Guide<Holders<'a, C>> for ByMark<'k, D> {
    ghost use Rattle.vc_dtord.specs.Nodes.{stands_to_holder};
    ghost use Rattle.vc_dtord.specs.NodeLaws.{stands_to_holder-stays};

    ghost side_of = { λ g s n.
        stands_to_holder (D.rules g.kind.now) (C.blocks s.cells.now) s.mark.0 n };

    #[inline(always)]
    fn side<L>(&self, nodes: &Holders<'a, C>, n: u32, steps: &mut Steps<L>) -> Ordering {
        let key = self.kind.key(nodes.cells.body(Addr(n)));
        let sought = self.kind.key(nodes.cells.body(nodes.mark));
        self.kind.compare(key, sought, steps)
    }

    ghost no_links = { λ g a b n h.
        stands_to_holder-stays (D.rules g.kind.now) (C.blocks a.cells.now) (C.blocks b.cells.now) a.mark b.mark n h.1 h.3 };
}

// Seeks what is behind all that another guide seeks.
#[derive(Drop)]
pub(crate) struct Past<'g, G> {
    // That guide.
    pub(crate) guide: &'g G,
}

impl<'g, N: Nodes, G: Guide<N>> Guide<N> for Past<'g, G> {
    ghost use Rattle.vc_dtord.specs.Seeking.{past, past-same};

    ghost side_of = { λ p s n. past (G.side_of p.guide.now s n) };

    #[inline(always)]
    fn side<L>(&self, nodes: &N, n: u32, steps: &mut Steps<L>) -> Ordering {
        match self.guide.side(nodes, n, steps) {
            Ordering::Less => Ordering::Less,
            Ordering::Equal => Ordering::Less,
            Ordering::Greater => Ordering::Greater,
        }
    }

    ghost no_links = { λ p a b n h. past-same (G.no_links p.guide.now a b n h) };
}
