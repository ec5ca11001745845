ghost use Rattle.std.specs.Prelude.{◌≡◌, ◌≢◌, ℕ, true};
ghost use Rattle.vc_base.specs.Prelude.{contains};
ghost use Rattle.vc_extent.specs.Tiling.{tiling};
ghost use Rattle.vc_gaps.specs.ButLinks.{StaysButLinks};
ghost use Rattle.vc_gaps.specs.GapStore.{gap_store, is_free};
ghost use Rattle.vc_gaps.specs.GapTree.{IsAmongGaps};
ghost use Rattle.vc_splay.specs.Moves.{Context, plug, tally};
ghost use Rattle.vc_splay.specs.Puts.{WasPut};
ghost use Rattle.vc_splay.specs.Seats.{IsSeat, Seated};
ghost use Rattle.vc_splay.specs.Stands.{IsTree};
ghost use Rattle.vc_splay.specs.Tree.{Node, Tree, names};
ghost use Rattle.vc_splay.specs.Writes.{CanSettleNode};

use crate::Gaps;
use vc_base::Addr;
use vc_extent::Extents;
use vc_splay::{Seat, seat_of, take_seat};

/// The place of a gap in the tree that it is in.
pub fn gap_seat(extents: &mut Extents, a: Addr) -> Seat
    requires { IsAmongGaps (tiling extents.old.segs.items) a.0 }
    ensures seat { (root : ℕ) (tree : Tree) → IsTree (gap_store (tiling extents.old.segs.items)) root tree
        → contains (names tree) a.0 ≡ true
        → Seated (gap_store (tiling extents.old.segs.items)) root a.0
        result.above result.side result.left result.right tree }
    ensures same { extents.new ≡ extents.old }
{
    seat_of(&Gaps { extents }, a.0)
}

/// Puts a free extent that is in no tree at the place of another one, which may be gone, and answers the root: no gap's
/// place changes. Its place in the order has to be that of the other one.
pub fn take_gap_seat(extents: &mut Extents, root: Addr, seat: Seat, by: Addr) -> Addr
    requires node { CanSettleNode (gap_store (tiling extents.old.segs.items)) by.0 seat.left seat.right }
    requires above { seat.above ≢ 0 → is_free (tiling extents.old.segs.items) seat.above ≡ true }
    ensures tree { (at : ℕ) (context : Context) (left right : Tree)
        → IsSeat (gap_store (tiling extents.old.segs.items)) root.0 at
        seat.above seat.side seat.left seat.right context left right
        → tally by.0 (plug context (Node left at right)) ≡ 0
        → WasPut (gap_store (tiling extents.old.segs.items))
        (gap_store (tiling extents.new.segs.items)) context (Node left by.0 right) result.0 }
    ensures rest { StaysButLinks extents.old.segs.items extents.new.segs.items }
{
    Addr(take_seat(&mut Gaps { extents }, root.0, seat, by.0))
}
