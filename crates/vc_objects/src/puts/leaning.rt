ghost use Rattle.std.specs.Prelude.{◌≡◌, ◌≢◌, ℕ, List};
ghost use Rattle.vc_dict.specs.Stands.{Became, Stands};
ghost use Rattle.vc_dict.specs.declared.form.Form.TheVariants.{Order};
ghost use Rattle.vc_dtdisc.specs.Rules.{Rules};
ghost use Rattle.vc_dtord.specs.Ordered.{IsLinked};

use vc_base::{Addr, Cells};
use vc_dict::{Dict, Form};
use vc_dtord::{DtOrd, Holders};
use vc_splay::splay;

// Makes a holder of an ordered dictionary the root of its tree, and changes nothing else: what was read down to it is so
// paid for.
pub(crate) fn lean<C: Cells>(cells: &mut C, dict: &mut Dict, ord: DtOrd, at: u32)
    requires form { dict.old.heads ≡ Order ord }
    requires within { IsLinked ord (C.blocks cells.old) at }
    ensures dict { (rules : Rules) (holders : List ℕ)
        → Stands rules dict.old (C.blocks cells.old) holders
        → Became rules holders dict.old (C.blocks cells.old) dict.new (C.blocks cells.new) holders
        dict.old.current.0 }
    ensures rest { C.RestStays cells.old cells.new }
{
    let mark = Addr(at);
    let root = splay(&mut Holders { cells, mark }, ord.root.0, at);
    dict.heads = Form::Order(DtOrd { root: Addr(root) });
}

// So where there is a holder at all.
pub(crate) fn lean_above<C: Cells>(cells: &mut C, dict: &mut Dict, ord: DtOrd, above: u32)
    requires form { dict.old.heads ≡ Order ord }
    requires within { above ≢ 0 → IsLinked ord (C.blocks cells.old) above }
    ensures dict { (rules : Rules) (holders : List ℕ)
        → Stands rules dict.old (C.blocks cells.old) holders
        → Became rules holders dict.old (C.blocks cells.old) dict.new (C.blocks cells.new) holders
        dict.old.current.0 }
    ensures rest { C.RestStays cells.old cells.new }
{
    if above != 0 {
        lean(cells, dict, ord, above);
    }
}
