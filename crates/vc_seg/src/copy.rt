ghost use Rattle.std.specs.Prelude.{◌≡◌, ℕ, ◌+◌, ◌<◌, ◌≤◌, length, slice_set, slice_index_or};
ghost use Rattle.std.specs.List.{HoldsAt};
ghost use Rattle.vc_seg.specs.Memory.{with_copy_of};
ghost use Rattle.vc_seg.specs.Segment.{Bytes};

use crate::Segment;

/// Copies a range of the segment at one place into that at another, which may be the same.
pub fn copy_between(
    segs: &mut [Segment],
    source: usize,
    from: u32,
    target: usize,
    to: u32,
    len: u32,
)
    requires source { source < length segs.old }
    requires target { target < length segs.old }
    requires from { HoldsAt (λ s. from + len ≤ length s.bytes) segs.old source }
    requires to { HoldsAt (λ s. to + len ≤ length s.bytes) segs.old target }
    ensures { (d : Bytes) → segs.new ≡ slice_set segs.old target
        (with_copy_of (slice_index_or segs.old source d) from len to (slice_index_or segs.old target d)) }
{
    if source == target {
        segs[target].shift(from, to, len);
    } else if source < target {
        let (front, back) = segs.split_at_mut(target);
        back[0].carry(to, &front[source], from, len);
    } else {
        let (front, back) = segs.split_at_mut(source);
        front[target].carry(to, &back[0], from, len);
    }
}
