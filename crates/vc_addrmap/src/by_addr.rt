use crate::entries::Entries;
use std::cmp::Ordering;
use vc_base::Steps;
use vc_splay::Guide;

/// Seeks the entry of this address.
#[derive(Clone, Copy)]
pub struct ByAddr {
    /// The address.
    pub at: u32,
}

impl Guide<Entries> for ByAddr {
    ghost use Rattle.vc_addrmap.specs.Entries.{entry_side};
    ghost use Rattle.vc_addrmap.specs.EntryLaws.{side_stays};

    ghost side_of = { λ g s n. entry_side s.slab g.at n };

    #[inline(always)]
    fn side<L>(&self, nodes: &Entries, n: u32, steps: &mut Steps<L>) -> Ordering {
        steps.tick();
        nodes.entry(n).at.cmp(&self.at)
    }

    ghost no_links = { λ g a b n h. side_stays a.slab b.slab g.at n h };
}
