ghost use Rattle.std.specs.Prelude.{◌≡◌, ℕ, List, true};
ghost use Rattle.vc_base.specs.Prelude.{is_ordered};
ghost use Rattle.vc_dtlist.specs.Sought.{Seeks, stands_so};
ghost use Rattle.vc_dtord.specs.Seeking.{SeeksLast, is_below};
ghost use Rattle.vc_dict.specs.Stands.{Became, IsDict, Stands};

use crate::Dict;
use crate::form::Form;
use vc_base::{Addr, Cells, Steps};
use vc_dtdisc::DictDisc;
use vc_dtlist::Sought;

impl Dict {
    /// The first holder of an ordered set or bag whose object's key isn't less than that one, by at most as many compares as
    /// there are holders; none where every key is less. It isn't made current. This project's own.
    pub fn at_least<C: Cells, D: DictDisc, L>(
        &mut self,
        cells: &mut C,
        kind: &D,
        key: &[u8],
        steps: &mut Steps<L>,
    ) -> Option<Addr>
        requires dict { IsDict (D.rules kind.now) self.old (C.blocks cells.old) }
        requires ordered { is_ordered self.old.method ≡ true }
        ensures found { (holders : List ℕ)
            → Stands (D.rules kind.now) self.old (C.blocks cells.old) holders
            → Seeks (stands_so Sought.NotLess (D.rules kind.now) (C.blocks cells.old) key.now)
            holders result steps.old steps.new }
        ensures dict { (holders : List ℕ)
            → Stands (D.rules kind.now) self.old (C.blocks cells.old) holders
            → Became (D.rules kind.now) holders self.old (C.blocks cells.old) self.new
            (C.blocks cells.new) holders self.old.current.0 }
        ensures rest { C.RestStays cells.old cells.new }
    {
        match &mut self.heads {
            Form::Order(ord) => ord.at_least(cells, kind, key, steps),
            _ => unreachable!(),
        }
    }

    /// The first holder of an ordered set or bag whose object's key is greater than that one, by at most as many compares
    /// as there are holders; none where no key is greater. It isn't made current. This project's own.
    pub fn behind<C: Cells, D: DictDisc, L>(
        &mut self,
        cells: &mut C,
        kind: &D,
        key: &[u8],
        steps: &mut Steps<L>,
    ) -> Option<Addr>
        requires dict { IsDict (D.rules kind.now) self.old (C.blocks cells.old) }
        requires ordered { is_ordered self.old.method ≡ true }
        ensures found { (holders : List ℕ)
            → Stands (D.rules kind.now) self.old (C.blocks cells.old) holders
            → Seeks (stands_so Sought.Greater (D.rules kind.now) (C.blocks cells.old) key.now)
            holders result steps.old steps.new }
        ensures dict { (holders : List ℕ)
            → Stands (D.rules kind.now) self.old (C.blocks cells.old) holders
            → Became (D.rules kind.now) holders self.old (C.blocks cells.old) self.new
            (C.blocks cells.new) holders self.old.current.0 }
        ensures rest { C.RestStays cells.old cells.new }
    {
        match &mut self.heads {
            Form::Order(ord) => ord.behind(cells, kind, key, steps),
            _ => unreachable!(),
        }
    }

    /// The last holder of an ordered set or bag whose object's key is less than that one, by at most as many compares as
    /// there are holders; none where no key is less. It isn't made current. This project's own.
    pub fn before<C: Cells, D: DictDisc, L>(
        &mut self,
        cells: &mut C,
        kind: &D,
        key: &[u8],
        steps: &mut Steps<L>,
    ) -> Option<Addr>
        requires dict { IsDict (D.rules kind.now) self.old (C.blocks cells.old) }
        requires ordered { is_ordered self.old.method ≡ true }
        ensures found { (holders : List ℕ)
            → Stands (D.rules kind.now) self.old (C.blocks cells.old) holders
            → SeeksLast (is_below (D.rules kind.now) (C.blocks cells.old) key.now)
            holders result steps.old steps.new }
        ensures dict { (holders : List ℕ)
            → Stands (D.rules kind.now) self.old (C.blocks cells.old) holders
            → Became (D.rules kind.now) holders self.old (C.blocks cells.old) self.new
            (C.blocks cells.new) holders self.old.current.0 }
        ensures rest { C.RestStays cells.old cells.new }
    {
        match &mut self.heads {
            Form::Order(ord) => ord.before(cells, kind, key, steps),
            _ => unreachable!(),
        }
    }
}
