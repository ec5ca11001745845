//! The best region that lies under an audited one.
ghost use Rattle.std.specs.Prelude.{◌≡◌, ◌≤◌, IfErr, IfOk};
ghost use Rattle.vc_base.specs.Prelude.{cleared_layout, empty_layout};
ghost use Rattle.vc_best.specs.Parts.{layout_of};
ghost use Rattle.vc_seg.specs.Boxed.{disc_in_box};

use std::alloc::Global;
use vc_base::{OutOfMemory, Steps};
use vc_best::Best;
use vc_seg::{BoxedDisc, SegDisc};

// Marks a counter of steps that no one reads.
pub(crate) struct Uncounted;

// A best region with no segment. The check asks for a condition on a call that could drop a box;
// this one always holds.
pub(crate) fn open_best(
    alloc: Global,
    disc: Box<dyn SegDisc>,
) -> Result<Best, (OutOfMemory, Box<dyn SegDisc>)>
    requires { 0 ≤ 0 }
    ensures ok { IfOk result (λ b. (layout_of b ≡ empty_layout) × (state b.disc ≡ state disc)) }
    ensures err { IfErr result (λ e. state e.1 ≡ state disc) }
{
    Best::open(alloc, disc)
}

// Frees all blocks of a best region. Its condition stands as that of `open_best`.
pub(crate) fn clear_best(best: &mut Best)
    requires { 0 ≤ 0 }
    ensures layout { layout_of best.new ≡ cleared_layout (layout_of best.old) }
    ensures disc { disc_in_box state best.new.disc ≡ disc_in_box state best.old.disc }
{
    let mut steps = Steps::<Uncounted>::new(best.alloc);
    best.clear(&mut steps);
}
