ghost use Rattle.std.specs.Prelude.{◌≡◌, length};
ghost use Rattle.vc_best.specs.Blocks.{layout_by};
ghost use Rattle.vc_best.specs.Standing.{AreWhole};

use crate::best::Best;
use std::alloc::Global;
use vc_base::Addr;
use vc_extent::Extents;
use vc_seg::SegDisc;

impl Best {
    /// A region over segments that are tiled already: no two free extents stand beside each other, the tree with this root
    /// names each of them, no block has more than 16,777,264 bytes, and these are all blocks. What the discipline has lent
    /// isn't looked at: a call that asks it for a segment, or gives some back, has a condition of its own. This project's
    /// own.
    pub fn over(
        extents: Extents,
        root: Addr,
        busy: u32,
        disc: Box<dyn SegDisc>,
        alloc: Global,
    ) -> Best
        requires whole { AreWhole extents.segs.items root.0 }
        requires counted { busy ≡ length (layout_by extents.segs.items).blocks }
        ensures extents { result.extents ≡ extents }
        ensures root { result.root ≡ root }
        ensures busy { result.busy ≡ busy }
        ensures disc { result.disc ≡ disc }
        ensures alloc { result.alloc ≡ alloc }
    {
        Best {
            extents,
            root,
            busy,
            disc,
            alloc,
        }
    }
}
