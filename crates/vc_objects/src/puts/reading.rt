ghost use Rattle.std.specs.Prelude.{◌≡◌, ℕ, List};
ghost use Rattle.vc_dtord.specs.Ordered.{IsOrd, OrdFor};
ghost use Rattle.vc_splay.specs.Guide.{CanFind};
ghost use Rattle.vc_splay.specs.Stands.{IsTree};
ghost use Rattle.vc_splay.specs.Tree.{Tree};
ghost use Rattle.vc_objects.specs.Puts.Joins.{LeadsTo};
ghost use Rattle.vc_objects.specs.Puts.Places.{EndsAt};

use crate::puts::place::Place;
use vc_base::{Cells, Steps};
use vc_dtdisc::DictDisc;
use vc_dtord::{ByKey, DtOrd, Holders};
use vc_splay::{Guide, Nodes, kid};

// Reads down to the first node met that is what is sought, or to the place right behind the last node that isn't behind
// it. It takes one step for each node that it asks the guide of.
#[inline(always)]
pub(crate) fn read_down<N: Nodes, G: Guide<N>, L>(
    nodes: &N,
    root: u32,
    guide: &G,
    steps: &mut Steps<L>,
) -> Place
    requires { CanFind (N.store nodes.now) (G.side_of guide.now nodes.now) root }
    ensures { (tree : Tree) → IsTree (N.store nodes.now) root tree
        → EndsAt result (G.side_of guide.now nodes.now) tree steps.old steps.new }
{
    let mut above = 0;
    let mut left = false;
    let mut at = root;
    while at != 0 {
        let answer = guide.side(nodes, at, steps);
        if answer.is_eq() {
            return Place::Taken(at);
        }
        above = at;
        left = answer.is_gt();
        at = kid(nodes, left, at);
    }
    Place::Free(above, left)
}

// Reads an ordered list down once with a key: to a holder whose object has it, or to the place of a new one. It makes at
// most as many compares as there are holders, and changes nothing.
pub(crate) fn place_for<C: Cells, D: DictDisc, L>(
    cells: &mut C,
    ord: DtOrd,
    kind: &D,
    key: &[u8],
    steps: &mut Steps<L>,
) -> Place
    requires { IsOrd (D.rules kind.now) ord (C.blocks cells.old) }
    ensures place { (holders : List ℕ) → OrdFor (D.rules kind.now) ord (C.blocks cells.old) holders
        → LeadsTo result (D.rules kind.now) ord (C.blocks cells.old) key.now holders steps.old
        steps.new }
    ensures same { cells.new ≡ cells.old }
{
    let nodes = Holders {
        cells,
        mark: ord.root,
    };
    read_down(&nodes, ord.root.0, &ByKey { kind, key }, steps)
}
