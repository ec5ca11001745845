ghost use Rattle.std.specs.Prelude.{◌≡◌, ◌↔◌, ℕ, List, [], true, IfOk, IfSome, IfNone, IsTrue, ◌==◌, if◌then◌else◌};
ghost use Rattle.vc_base.specs.Holders.{contains};
ghost use Rattle.vc_extent.specs.Tiling.{tiling};
ghost use Rattle.vc_gaps.specs.GapStore.{gap_store, is_free, key_of};
ghost use Rattle.vc_gaps.specs.GapTree.{AscendFrom, HasGapTree, HasGaps};
ghost use Rattle.vc_splay.specs.Stands.{IsTree};
ghost use Rattle.vc_image_check.specs.Bytes.Contents.{contents_of_image};
ghost use Rattle.vc_image_check.specs.Gaps.Known.{AreExtentMarks, AreFree};
ghost use Rattle.vc_image_check.specs.Marks.Mark.{ChangesMarks, mark_in};

use crate::bytes::word;
use crate::gaps::free_extents::FreeExtents;
use crate::marks::Marks;
use crate::walks::in_order;
use std::alloc::Global;
use vc_base::OutOfMemory;

// Whether free extents stand in order, by span and then by address.
fn ascend(nodes: &FreeExtents, names: &[u32]) -> bool
    requires { AreFree (tiling (contents_of_image nodes.now.image.now).segs) names.now }
    ensures { IsTrue result ↔ AscendFrom (key_of (tiling (contents_of_image nodes.now.image.now).segs)) 0 names.now }
{
    let mut low = 0u64;
    for name in names {
        let key = nodes.span(*name) as u64 * 4_294_967_296 + *name as u64;
        if key < low {
            return false;
        }
        low = key + 1;
    }
    true
}

// The names of the tree of free extents at the image's root, where there is one.
fn names_of(alloc: Global, image: &[u8], marks: &Marks) -> Result<Option<Vec<u32>>, OutOfMemory>
    requires { AreExtentMarks image.now marks.now }
    ensures some { IfOk result (λ o. IfSome o (λ names.
        HasGapTree (tiling (contents_of_image image.now).segs) (contents_of_image image.now).root names.items)) }
    ensures none { IfOk result (λ o. IfNone o ((xs : List ℕ)
        → ¬ HasGapTree (tiling (contents_of_image image.now).segs) (contents_of_image image.now).root xs)) }
{
    let nodes = FreeExtents { image, marks };
    match in_order(alloc, &nodes, word(image, 12), 4_294_967_296)? {
        Some(names) => {
            if ascend(&nodes, &names) {
                Ok(Some(names))
            } else {
                Ok(None)
            }
        }
        None => Ok(None),
    }
}

// Takes the mark of an address away, where it has one.
fn take_one(marks: &mut Marks, name: u32)
    ensures { ChangesMarks marks.old marks.new (λ a. if a == name then 0 else mark_in marks.old a) }
{
    if marks.get(name) == 0 {
        return;
    }
    marks.set(name, 0);
}

// Takes the marks of these addresses away.
fn take_out(marks: &mut Marks, names: &[u32])
    ensures { ChangesMarks marks.old marks.new (λ a. if contains names.now a then 0 else mark_in marks.old a) }
{
    for name in names {
        take_one(marks, *name);
    }
}

/// Whether the tree at an image's root names each free extent once, by span and then by address, and each node's link to its
/// parent is right; whatever the links are, no node is met twice. Where it is sound, the free extents have no marks
/// afterwards. This project's own.
pub fn is_sound_tree(alloc: Global, image: &[u8], marks: &mut Marks) -> Result<bool, OutOfMemory>
    requires { AreExtentMarks image.now marks.old }
    ensures sound { IfOk result (λ b. IsTrue b
        ↔ HasGaps (tiling (contents_of_image image.now).segs) (contents_of_image image.now).root []) }
    ensures marks { IfOk result (λ b. IsTrue b → (a : ℕ) → mark_in marks.new a
        ≡ (if mark_in marks.old a == 1 then 0 else mark_in marks.old a)) }
    ensures places { marks.new.places.items ≡ marks.old.places.items }
{
    match names_of(alloc, image, marks)? {
        Some(names) => {
            take_out(marks, &names);
            Ok(!marks.has(1))
        }
        None => Ok(false),
    }
}
