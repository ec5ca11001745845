ghost use Rattle.std.specs.Prelude.{IsSome};
ghost use Rattle.vc_base.specs.Prelude.{HasOut};
ghost use Rattle.vc_seg.specs.OneBlock.{IsSize};
ghost use Rattle.vc_best.specs.Cells.{cells_in};
ghost use Rattle.vc_best.specs.Parts.{disc_in, segments_in};
ghost use Rattle.vc_objects.specs.Unlabelled.{FreesCell, PutsCell};

use vc_base::{Addr, Steps};
use vc_best::Best;
use vc_seg::{BoxedDisc, RegionFault, SegDisc};

// Marks a counter of steps that no one reads.
struct Uncounted;

/// An unlabelled block of zeros, of 1 to 16,777,216 bytes. The region's segments are out of its discipline. Refused as
/// `Best::alloc` tells.
pub fn alloc_cell(best: &mut Best, size: u32) -> Result<Addr, RegionFault>
    requires size { IsSize size }
    requires lent { HasOut (disc_in state best.old) (segments_in best.old) }
    ensures puts { PutsCell state result best.old size best.new }
{
    let mut steps = Steps::<Uncounted>::new(best.alloc);
    best.alloc(size, 32, 0, &mut steps)
}

// Frees an unlabelled block.
pub(crate) fn free_cell(best: &mut Best, at: Addr)
    requires { IsSome (cells_in best.old at.0) }
    ensures frees { FreesCell state best.old at.0 best.new }
{
    let mut steps = Steps::<Uncounted>::new(best.alloc);
    best.free(at, &mut steps);
}
