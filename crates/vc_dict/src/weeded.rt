ghost use Rattle.std.specs.Prelude.{◌≡◌, ℕ, List, false};
ghost use Rattle.vc_base.specs.Prelude.{contains};
ghost use Rattle.vc_dtlist.specs.TableWrites.{ChangesIn};
ghost use Rattle.vc_dict.specs.Weeding.{Added, CanAddPart, Parts};

use vc_base::{Addr, Cells};
use vc_dtlist::DtList;

// The holders that a method keeps, by their ends and their count, and the list of those that it drops.
#[derive(Drop)]
pub(crate) struct Weeded {
    pub(crate) kept: DtList,
    pub(crate) dropped: DtList,
    pub(crate) count: u64,
}

impl Weeded {
    // Puts a holder behind those that are dropped, or those that are kept, which are a list.
    pub(crate) fn add<C: Cells>(&mut self, cells: &mut C, at: Addr, drop: bool)
        requires { CanAddPart self.old (C.blocks cells.old) at.0 }
        ensures { ChangesIn C.blocks C.RestStays cells.old cells.new
            (λ old new. (done gone : List ℕ) → Parts self.old old done gone
            → contains done at.0 ≡ false → contains gone at.0 ≡ false
            → Added at.0 drop done gone old self.new new) }
    {
        if drop {
            self.dropped.push_back(cells, at);
        } else {
            self.kept.push_back(cells, at);
            self.count += 1;
        }
    }
}
