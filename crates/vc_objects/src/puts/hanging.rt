ghost use Rattle.std.specs.Prelude.{◌≡◌, ℕ, List, ◌∷◌, Bool, true, false};
ghost use Rattle.std.specs.declared.cmp.Ordering.{Ordering as Answer};
ghost use Rattle.vc_base.specs.Prelude.{contains};
ghost use Rattle.vc_dict.specs.Changes.{order_by_link};
ghost use Rattle.vc_dict.specs.Stands.{Became, Stands};
ghost use Rattle.vc_dict.specs.declared.form.Form.TheVariants.{Order};
ghost use Rattle.vc_dtdisc.specs.Rules.{Rules};
ghost use Rattle.vc_dtlist.specs.TableWrites.{ChangesIn};
ghost use Rattle.vc_dtord.specs.Ordered.{OrdTurned, order_with};
ghost use Rattle.vc_dtord.specs.declared.dt_ord.DtOrd.{DtOrd as Ord};
ghost use Rattle.vc_splay.specs.Guide.{order_with_name};
ghost use Rattle.vc_splay.specs.Searches.{Gap};
ghost use Rattle.vc_splay.specs.Stands.{IsTree, TreeAfter};
ghost use Rattle.vc_splay.specs.Tree.{Tree, names};
ghost use Rattle.vc_objects.specs.Puts.Joins.{CanJoin, CanJoinDict, Joins};
ghost use Rattle.vc_objects.specs.Puts.Places.{CanHang};

use vc_base::{Addr, Cells};
use vc_dict::{Dict, Form};
use vc_dtord::{DtOrd, Holders, clear_words};
use vc_splay::{Nodes, Rising, rise, set_kid_of};

// Hangs a node as a leaf into a place that was read down to, and makes it the root, by no step. What its links were counts
// for nothing.
#[inline(always)]
pub(crate) fn hang_leaf<N: Nodes>(nodes: &mut N, at: u32, above: u32, left: bool)
    requires { CanHang (N.store nodes.old) at above left }
    ensures tree { (root : ℕ) (tree : Tree) (side : ℕ → Answer) (start now : ℕ)
        → IsTree (N.store nodes.old) root tree → contains (names tree) at ≡ false
        → Gap side tree above left start now
        → TreeAfter (N.store nodes.old) (N.store nodes.new) (at ∷ names tree) at
        (order_with_name side at (names tree)) }
    ensures rest { N.stays nodes.old nodes.new }
{
    set_kid_of(nodes, left, above, at);
    rise(
        nodes,
        at,
        Rising {
            below: at,
            above,
            left: 0,
            right: 0,
        },
    );
}

// Hangs the holder at the mark into its place in an ordered list, whose root it is then, by no compare.
#[inline(always)]
fn hang_in<'a, C: Cells>(nodes: &mut Holders<'a, C>, above: u32, left: bool)
    requires { CanJoin (C.blocks nodes.old.cells.now) nodes.old.mark.0 above left }
    ensures list { ChangesIn C.blocks C.RestStays nodes.old.cells.now nodes.new.cells.now
        (λ old new. (rules : Rules) (ord : Ord) (holders : List ℕ)
        → Joins rules ord old nodes.old.mark.0 above left holders
        → OrdTurned rules (nodes.old.mark.0 ∷ holders) old (record { root = nodes.old.mark }) new
        (order_with rules old nodes.old.mark.0 holders)) }
    ensures same { nodes.new.cells.ghost_name ≡ nodes.old.cells.ghost_name }
{
    let at = nodes.mark;
    clear_words(nodes.cells, at);
    hang_leaf(nodes, at.0, above, left);
}

// Hangs a holder into its place in an ordered dictionary, and makes it current, by no compare.
pub(crate) fn link_below<C: Cells>(cells: &mut C, dict: &mut Dict, at: Addr, above: u32, left: bool)
    requires { CanJoinDict dict.old (C.blocks cells.old) at.0 above left }
    ensures dict { (rules : Rules) (ord : Ord) (holders : List ℕ)
        → Stands rules dict.old (C.blocks cells.old) holders → dict.old.heads ≡ Order ord
        → Joins rules ord (C.blocks cells.old) at.0 above left holders
        → Became rules (at.0 ∷ holders) dict.old (C.blocks cells.old) dict.new (C.blocks cells.new)
        (order_by_link false dict.old.method rules (C.blocks cells.old) dict.old.current.0 at.0
        holders)
        at.0 }
    ensures rest { C.RestStays cells.old cells.new }
{
    hang_in(&mut Holders { cells, mark: at }, above, left);
    dict.heads = Form::Order(DtOrd { root: at });
    dict.count += 1;
    dict.current = at;
}
