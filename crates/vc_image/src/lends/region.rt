ghost use Rattle.std.specs.Prelude.{◌≡◌, None, IfErr, IfOk, map};
ghost use Rattle.vc_model.specs.Discipline.{Kept};
ghost use Rattle.vc_seg.specs.Segment.{pair_of};
ghost use Rattle.vc_image_check.specs.Bytes.Contents.{contents_of_image};
ghost use Rattle.vc_image_check.specs.Parts.Front.{IsSoundFront};
ghost use Rattle.vc_image.specs.Lends.Lends.{AreLent};
ghost use Rattle.vc_image.specs.Lends.Regions.{IsLoadFault};
ghost use Rattle.vc_image.specs.Lends.Terms.{terms_fault};

use crate::lends::ImageLendFault;
use crate::lends::blocks::count_blocks;
use crate::lends::lend::lend_image;
use crate::lends::terms::terms_fault;
use std::alloc::Global;
use vc_base::Addr;
use vc_best::Best;
use vc_image_check::word;
use vc_seg::SegDisc;

/// A best region over an image's segments, obtained from a discipline and filled with the image's bytes, all of them
/// and unchanged. `Round` and `Grows` come exactly where `terms_fault` tells them, and nothing is lent; then
/// `NoSegment` tells the number of the segment that was refused, and `OutOfMemory` want of memory. With each of them
/// the discipline comes back, and what it has out is what it had out before. The image's head, its segments and the
/// tree of its free extents are sound; its dictionaries aren't looked at. This project's own.
pub fn region_of_image(
    alloc: Global,
    image: &[u8],
    disc: Box<dyn SegDisc>,
) -> Result<Best, (ImageLendFault, Box<dyn SegDisc>)>
    requires { IsSoundFront image.now }

    ensures segments { IfOk result (λ b. b.extents.segs.items ≡ (contents_of_image image.now).segs) }
    ensures root { IfOk result (λ b. b.root.0 ≡ (contents_of_image image.now).root) }
    ensures lent { IfOk result (λ b. AreLent (state disc) (state b.disc)
        (map pair_of (contents_of_image image.now).segs)) }
    ensures allowed { IfOk result (λ _. terms_fault (state disc).terms
        (map pair_of (contents_of_image image.now).segs) ≡ None) }

    ensures fault { IfErr result (λ e. IsLoadFault (state disc) (state e.1)
        (map pair_of (contents_of_image image.now).segs) e.0) }
    ensures out { IfErr result (λ e. (state e.1).out ≡ (state disc).out) }
    ensures kept { IfErr result (λ e. Kept (state disc) (state e.1)) }
{
    if let Some(fault) = terms_fault(image, &disc) {
        return Err((fault, disc));
    }
    let mut disc = disc;
    match lend_image(alloc, image, &mut disc) {
        Ok(extents) => {
            let busy = count_blocks(&extents.segs);
            Ok(Best::over(extents, Addr(word(image, 12)), busy, disc, alloc))
        }
        Err(fault) => Err((fault, disc)),
    }
}
