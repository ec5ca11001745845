ghost use Rattle.std.specs.Prelude.{◌≡◌, ℕ, [], ◌∷◌, ◌++◌};
ghost use Rattle.vc_base.specs.Prelude.{place_of, without_block_at};
ghost use Rattle.vc_extent.specs.Tiling.{IsBusy, IsFree, IsExtentChanged, tiling};
ghost use Rattle.vc_best.specs.Beside.{IsMergedBut, free_before, free_next};
ghost use Rattle.vc_best.specs.GapsChange.{GapsChange};
ghost use Rattle.vc_best.specs.Blocks.{layout_by};
ghost use Rattle.vc_best.specs.Changes.{absorb};
ghost use Rattle.vc_best.specs.Free.{IsMerged};
ghost use Rattle.vc_best.specs.Standing.{IsOnlyHolding};

use vc_base::Addr;
use vc_extent::Extents;

// Makes a free extent and the one behind it one, where that is free.
pub(crate) fn absorb_next(extents: &mut Extents, a: Addr)
    requires free { IsFree (tiling extents.old.segs.items) a.0 }
    ensures changed { IsExtentChanged extents.old.segs.items extents.new.segs.items a.0 absorb }
    ensures gaps { GapsChange (tiling extents.old.segs.items) (tiling extents.new.segs.items)
        (a.0 ∷ free_next (tiling extents.old.segs.items) a.0) (a.0 ∷ []) }
    ensures free { IsFree (tiling extents.new.segs.items) a.0 }
{
    let Some(next) = extents.after(a) else {
        return;
    };
    if !extents.is_busy(next) {
        extents.join(a);
    }
}

// Makes a free extent and the one before it one, where that is free. It answers the address of what it is then.
pub(crate) fn absorb_before(extents: &mut Extents, a: Addr) -> Addr
    requires free { IsFree (tiling extents.old.segs.items) a.0 }
    ensures layout { layout_by extents.new.segs.items ≡ layout_by extents.old.segs.items }
    ensures merged { IsMergedBut (tiling extents.old.segs.items) a.0
        → IsMerged (tiling extents.new.segs.items) }
    ensures free { IsFree (tiling extents.new.segs.items) result.0 }
    ensures gaps { GapsChange (tiling extents.old.segs.items) (tiling extents.new.segs.items)
        (free_before (tiling extents.old.segs.items) a.0 ++ a.0 ∷ []) (result.0 ∷ []) }
    ensures only { (size align : ℕ) → IsOnlyHolding (tiling extents.old.segs.items) size align a.0
        → IsOnlyHolding (tiling extents.new.segs.items) size align result.0 }
{
    let Some(first) = extents.before(a) else {
        return a;
    };
    if extents.is_busy(first) {
        return a;
    }
    absorb_next(extents, first);
    first
}

// Frees the block at an address. Its extent becomes one with the free ones before and behind it. It answers the address
// of that.
pub(crate) fn release(extents: &mut Extents, a: Addr) -> Addr
    requires busy { IsBusy (tiling extents.old.segs.items) a.0 }
    requires merged { IsMerged (tiling extents.old.segs.items) }
    ensures layout { layout_by extents.new.segs.items
        ≡ without_block_at (layout_by extents.old.segs.items) (place_of a.0) }
    ensures merged { IsMerged (tiling extents.new.segs.items) }
    ensures free { IsFree (tiling extents.new.segs.items) result.0 }
    ensures gaps { GapsChange (tiling extents.old.segs.items) (tiling extents.new.segs.items)
        (free_before (tiling extents.old.segs.items) a.0
        ++ free_next (tiling extents.old.segs.items) a.0) (result.0 ∷ []) }
{
    extents.mark_free(a);
    absorb_next(extents, a);
    absorb_before(extents, a)
}
