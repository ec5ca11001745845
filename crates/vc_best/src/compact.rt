ghost use Rattle.std.specs.Prelude.{◌≡◌, ℕ, ◌+◌, ◌*◌, ◌<◌, ◌≤◌, ◌↔◌, [], All, IsTrue, Some, length, map, true};
ghost use Rattle.vc_base.specs.Prelude.{cleared_layout, compact_count, compacted_layout, HasOut, TookBack};
ghost use Rattle.vc_model.specs.Compact.{is_occupied};
ghost use Rattle.vc_seg.specs.Back.{is_marked, stays_from};
ghost use Rattle.vc_seg.specs.Segment.{pair_of};
ghost use Rattle.vc_extent.specs.Change.{IsOneFree, one_free};
ghost use Rattle.vc_extent.specs.Tiling.{IsThere, change_in, extents_of, size_of, tiling};
ghost use Rattle.vc_gaps.specs.ButLinks.{plain};
ghost use Rattle.vc_gaps.specs.Cost.{GapsCost};
ghost use Rattle.vc_best.specs.Blocks.{layout_by};
ghost use Rattle.vc_best.specs.Free.{IsMerged};
ghost use Rattle.vc_best.specs.GapsChange.{HasGapsBelow};
ghost use Rattle.vc_best.specs.Made.{MadeCost, count_below};
ghost use Rattle.vc_best.specs.Standing.{AreKept, AreMarked, IsGivenBack};

use vc_base::{Addr, Steps};
use vc_extent::Extents;
use vc_gaps::{link_gap, unlink_gap};
use vc_seg::{SegDisc, give_back_all, give_back_one};

// Whether a segment of that many bytes is one free extent.
fn is_one_free<L>(extents: &Extents, seg: u32, size: u32, steps: &mut Steps<L>) -> bool
    requires { size_of seg (map pair_of extents.now.segs.items) ≡ Some size }
    ensures value { IsTrue result ↔ IsOneFree (extents_of seg (tiling extents.now.segs.items)) }
    ensures most_steps { steps.new ≤ steps.old + 1 }
{
    let first = extents.first(seg);
    !extents.is_busy(first) && extents.span_at(first, steps) + 32 == size
}

// Whether the segment of a number, where there is one, has a block.
fn has_block<L>(extents: &Extents, number: u32, steps: &mut Steps<L>) -> bool
    requires { IsMerged (tiling extents.now.segs.items) }
    ensures value { IsThere number extents.now.segs.items
        → result ≡ is_occupied (layout_by extents.now.segs.items).blocks number }
    ensures most_steps { steps.new + count_below number (map pair_of extents.now.segs.items)
        ≤ steps.old + count_below (number + 1) (map pair_of extents.now.segs.items) }
{
    match extents.has(number) {
        Some(size) => !is_one_free(extents, number, size, steps),
        None => false,
    }
}

// Marks the number of each segment that has a block.
fn mark_occupied<L>(extents: &Extents, marks: &mut [bool], steps: &mut Steps<L>)
    requires long { length marks.old ≡ 1024 }
    requires merged { IsMerged (tiling extents.now.segs.items) }
    ensures long { length marks.new ≡ 1024 }
    ensures marks { AreMarked marks.new extents.now.segs.items }
    ensures most_steps { steps.new ≤ steps.old + length (map pair_of extents.now.segs.items) }
{
    for number in 1..1024 {
        marks[number as usize] = has_block(extents, number, steps);
    }
}

// The discipline takes back the segment of a number, where there is one and the number isn't marked; of those of lesser
// numbers none is left but marked ones. It answers how many those were, 0 or 1.
fn give_back_unless(
    extents: &mut Extents,
    root: &mut Addr,
    disc: &mut Box<dyn SegDisc>,
    marks: &[bool],
    number: u32,
) -> u32
    requires number { number < length marks.now }
    requires kept { AreKept extents.old.segs.items root.old.0 }
    requires out { HasOut (state disc.old) (map pair_of extents.old.segs.items) }
    requires marks { AreMarked marks.now extents.old.segs.items }
    requires ascending { All (λ s. stays_from (is_marked marks.now) number s.0 ≡ true)
        (map pair_of extents.old.segs.items) }
    ensures given { IsGivenBack extents.old.segs.items extents.new.segs.items
        (is_marked marks.now) number result }
    ensures kept { AreKept extents.new.segs.items root.new.0 }
    ensures disc { TookBack (state disc.old) (state disc.new)
        (map pair_of extents.old.segs.items) (map pair_of extents.new.segs.items) }
    ensures cost { GapsCost (tiling extents.old.segs.items) (tiling extents.new.segs.items)
        root.old.0 root.new.0 0 0 (12 * result) 0 0 }
{
    if marks[number as usize] {
        return 0;
    }
    if extents.has(number).is_none() {
        return 0;
    }
    let first = extents.first(number);
    *root = unlink_gap(extents, *root, first);
    let segment = extents.remove(number);
    give_back_one(segment, &extents.segs, marks, disc);
    1
}

// The discipline takes back each segment whose number isn't marked, in ascending order of number, and they are counted.
fn give_back_unmarked(
    extents: &mut Extents,
    root: &mut Addr,
    disc: &mut Box<dyn SegDisc>,
    marks: &[bool],
) -> u32
    requires long { length marks.now ≡ 1024 }
    requires kept { AreKept extents.old.segs.items root.old.0 }
    requires out { HasOut (state disc.old) (map pair_of extents.old.segs.items) }
    requires marks { AreMarked marks.now extents.old.segs.items }
    ensures layout { layout_by extents.new.segs.items
        ≡ compacted_layout (layout_by extents.old.segs.items) }
    ensures kept { AreKept extents.new.segs.items root.new.0 }
    ensures count { result ≡ compact_count (layout_by extents.old.segs.items) }
    ensures disc { TookBack (state disc.old) (state disc.new)
        (map pair_of extents.old.segs.items) (map pair_of extents.new.segs.items) }
    ensures few { result ≤ length (map pair_of extents.old.segs.items) }
    ensures cost { GapsCost (tiling extents.old.segs.items) (tiling extents.new.segs.items)
        root.old.0 root.new.0 0 0 (12 * result) 0 0 }
{
    let mut count = 0;
    for number in 1..1024 {
        count += give_back_unless(extents, root, disc, marks, number);
    }
    count
}

// The discipline takes back each segment without a block, in ascending order of number, and they are counted.
pub(crate) fn compact<L>(
    extents: &mut Extents,
    root: &mut Addr,
    disc: &mut Box<dyn SegDisc>,
    steps: &mut Steps<L>,
) -> u32
    requires kept { AreKept extents.old.segs.items root.old.0 }
    requires out { HasOut (state disc.old) (map pair_of extents.old.segs.items) }
    ensures layout { layout_by extents.new.segs.items
        ≡ compacted_layout (layout_by extents.old.segs.items) }
    ensures kept { AreKept extents.new.segs.items root.new.0 }
    ensures count { result ≡ compact_count (layout_by extents.old.segs.items) }
    ensures disc { TookBack (state disc.old) (state disc.new)
        (map pair_of extents.old.segs.items) (map pair_of extents.new.segs.items) }
    ensures few { result ≤ length (map pair_of extents.old.segs.items) }
    ensures cost { GapsCost (tiling extents.old.segs.items) (tiling extents.new.segs.items)
        root.old.0 root.new.0 steps.old steps.new
        (12 * result) (length (map pair_of extents.old.segs.items)) 0 }
{
    let mut marks = [false; 1024];
    mark_occupied(extents, &mut marks, steps);
    give_back_unmarked(extents, root, disc, &marks)
}

// Makes the segment of a number, where there is one, one free extent, without reading what lies in it, and puts that into
// the tree of those of the lesser numbers.
fn clear_one<L>(extents: &mut Extents, root: &mut Addr, number: u32, steps: &mut Steps<L>)
    requires gaps { HasGapsBelow number (tiling extents.old.segs.items) root.old.0 }
    ensures plain { plain (tiling extents.new.segs.items)
        ≡ plain (change_in number one_free (tiling extents.old.segs.items)) }
    ensures pairs { map pair_of extents.new.segs.items ≡ map pair_of extents.old.segs.items }
    ensures gaps { HasGapsBelow (number + 1) (tiling extents.new.segs.items) root.new.0 }
    ensures cost { (start : ℕ) → MadeCost (tiling extents.old.segs.items) root.old.0
        start steps.old (count_below number (map pair_of extents.old.segs.items))
        → MadeCost (tiling extents.new.segs.items) root.new.0
        start steps.new (count_below (number + 1) (map pair_of extents.old.segs.items)) }
{
    if extents.has(number).is_some() {
        let a = extents.reset(number);
        *root = link_gap(extents, *root, a, steps);
    }
}

// Makes each segment one free extent.
pub(crate) fn clear<L>(extents: &mut Extents, root: &mut Addr, steps: &mut Steps<L>)
    ensures layout { layout_by extents.new.segs.items ≡ cleared_layout (layout_by extents.old.segs.items) }
    ensures kept { AreKept extents.new.segs.items root.new.0 }
    ensures cost { MadeCost (tiling extents.new.segs.items) root.new.0
        steps.old steps.new (length (map pair_of extents.old.segs.items)) }
{
    *root = Addr::NONE;
    for number in 1..1024 {
        clear_one(extents, root, number, steps);
    }
}

// The discipline takes all segments back, in ascending order of number, and they are counted.
pub(crate) fn close(extents: Extents, disc: &mut Box<dyn SegDisc>) -> u32
    requires { HasOut (state disc.old) (map pair_of extents.segs.items) }
    ensures count { result ≡ length (map pair_of extents.segs.items) }
    ensures disc { TookBack (state disc.old) (state disc.new) (map pair_of extents.segs.items) [] }
{
    let Extents { mut segs, .. } = extents;
    give_back_all(&mut segs, disc)
}
