ghost use Rattle.std.specs.Prelude.{◌≡◌, ◌+◌, ◌<◌, ◌≤◌, ◌%◌, IfSome, [], ◌∷◌};
ghost use Rattle.vc_base.specs.Prelude.{address, place_of, span};
ghost use Rattle.vc_extent.specs.Tiling.{IsFree, IsExtentChanged, extent_of, tiling};
ghost use Rattle.vc_best.specs.Beside.{some_name};
ghost use Rattle.vc_best.specs.Changes.{cut_back, cut_front, lay_zeros};
ghost use Rattle.vc_best.specs.GapsChange.{GapsChange};

use vc_base::{Addr, Steps};
use vc_extent::Extents;

// Splits what lies before an offset from a free extent. It answers the address of that, where anything does, and the
// address of the rest.
pub(crate) fn cut_front(extents: &mut Extents, a: Addr, off: u32) -> (Option<Addr>, Addr)
    requires free { IsFree (tiling extents.old.segs.items) a.0 }
    requires first { (place_of a.0).1 ≤ off }
    requires multiple { off % 32 ≡ 0 }
    requires within { off < (place_of a.0).1 + (extent_of (tiling extents.old.segs.items) a.0).span }
    ensures changed { IsExtentChanged extents.old.segs.items extents.new.segs.items a.0 (cut_front off) }
    ensures front { IfSome result.0 (λ f. (f.0 ≡ a.0) × ((place_of a.0).1 < off)) }
    ensures rest { result.1.0 ≡ address ((place_of a.0).0, off) }
    ensures gaps { GapsChange (tiling extents.old.segs.items) (tiling extents.new.segs.items)
        (a.0 ∷ []) (result.1.0 ∷ some_name result.0) }
{
    if a.off() < off {
        let rest = extents.split(a, off - a.off());
        (Some(a), rest)
    } else {
        (None, a)
    }
}

// Splits what is behind its first bytes from a free extent. It answers the address of that, where anything is.
pub(crate) fn cut_back<L>(
    extents: &mut Extents,
    a: Addr,
    bytes: u32,
    steps: &mut Steps<L>,
) -> Option<Addr>
    requires free { IsFree (tiling extents.old.segs.items) a.0 }
    requires least { 32 ≤ bytes }
    requires multiple { bytes % 32 ≡ 0 }
    ensures changed { IsExtentChanged extents.old.segs.items extents.new.segs.items a.0 (cut_back bytes) }
    ensures rest { IfSome result (λ b. (b.0 ≡ address ((place_of a.0).0, (place_of a.0).1 + bytes))
        × (bytes < (extent_of (tiling extents.old.segs.items) a.0).span)) }
    ensures gaps { GapsChange (tiling extents.old.segs.items) (tiling extents.new.segs.items)
        (a.0 ∷ []) (a.0 ∷ some_name result) }
    ensures counter { steps.new ≡ steps.old + 1 }
{
    if bytes < extents.span_at(a, steps) {
        Some(extents.split(a, bytes))
    } else {
        None
    }
}

// Makes a free extent a block of zeros of a size whose span it has.
pub(crate) fn lay_zeros(extents: &mut Extents, a: Addr, size: u32, tag: u32)
    requires free { IsFree (tiling extents.old.segs.items) a.0 }
    requires some { 1 ≤ size }
    requires span { span size ≡ (extent_of (tiling extents.old.segs.items) a.0).span }
    ensures changed { IsExtentChanged extents.old.segs.items extents.new.segs.items a.0 (lay_zeros size tag) }
    ensures gaps { GapsChange (tiling extents.old.segs.items) (tiling extents.new.segs.items)
        (a.0 ∷ []) [] }
{
    extents.mark_busy(a, size, tag);
    extents.fill(a, 0, size, 0);
}
