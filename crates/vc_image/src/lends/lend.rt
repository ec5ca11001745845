ghost use Rattle.std.specs.Prelude.{◌≡◌, ◌%◌, ◌≤◌, [], None, All, IfErr, IfOk, IsErrOf, OnErr, OnOk, length, map};
ghost use Rattle.vc_base.specs.Prelude.{HasOut, IsSegmentSize, Lent, LentNothing, TookBack, Unserved};
ghost use Rattle.vc_model.specs.Discipline.{Kept};
ghost use Rattle.vc_seg.specs.Segment.{pair_of};
ghost use Rattle.vc_extent.specs.Tiles.{IsTiled};
ghost use Rattle.vc_image_check.specs.Bytes.Contents.{contents_of_image};
ghost use Rattle.vc_image_check.specs.Bytes.Header.{IsHeader};
ghost use Rattle.vc_image.specs.Lends.Lends.{AreLent, IsLendFault};
ghost use Rattle.vc_image.specs.Lends.Terms.{first_uneven};

use crate::lends::ImageLendFault;
use std::alloc::Global;
use vc_extent::Extents;
use vc_image_check::word;
use vc_seg::{LendFault, SegDisc, Segment, give_back_all, obtain};

// A segment that a discipline lends under that number, with these bytes.
fn lend_copy(
    alloc: Global,
    disc: &mut Box<dyn SegDisc>,
    number: u32,
    bytes: &[u8],
) -> Result<Segment, LendFault>
    requires size { IsSegmentSize (length bytes.now) }
    requires multiple { length bytes.now % (state disc.old).terms.round ≡ 0 }
    ensures segment { IfOk result (λ s. s ≡ record { number = number; bytes = bytes.now }) }
    ensures lent { OnOk result (Lent (state disc.old) (state disc.new) number (length bytes.now)) }
    ensures refused { IsErrOf result LendFault.Refused
        → Unserved (state disc.old) (state disc.new) (length bytes.now) }
    ensures no_memory { IsErrOf result LendFault.OutOfMemory
        → LentNothing (state disc.old) (state disc.new) }
{
    match obtain(disc, alloc, number, bytes.len() as u32) {
        Ok(mut segment) => {
            segment.put(0, bytes);
            Ok(segment)
        }
        Err(fault) => Err(fault),
    }
}

// The discipline takes these segments back, in ascending order of number. Without any it isn't asked.
fn give_up(extents: Extents, disc: &mut Box<dyn SegDisc>)
    requires { HasOut (state disc.old) (map pair_of extents.segs.items) }
    ensures back { TookBack (state disc.old) (state disc.new) (map pair_of extents.segs.items) [] }
    ensures nothing { extents.segs.items ≡ [] → state disc.new ≡ state disc.old }
{
    let Extents { mut segs, .. } = extents;
    if segs.is_empty() {
        return;
    }
    give_back_all(&mut segs, disc);
}

/// Obtains an image's segments from a discipline, each under its number in the image's order, and puts the image's
/// bytes into them, all of them and unchanged. `NoSegment` tells the number of the one that the discipline refused, and
/// `OutOfMemory` want of memory, for a segment or for the places of 1,023; then the discipline has taken back what was
/// lent. The image has the head of one, extents tile its segments, and the discipline's round divides their sizes. This
/// project's own.
pub fn lend_image(
    alloc: Global,
    image: &[u8],
    disc: &mut Box<dyn SegDisc>,
) -> Result<Extents, ImageLendFault>
    requires head { IsHeader image.now }
    requires tiled { All (λ s. IsTiled s.bytes) (contents_of_image image.now).segs }
    requires even { first_uneven (state disc.old).terms.round (map pair_of (contents_of_image image.now).segs)
        ≡ None }

    ensures segments { IfOk result (λ e. e.segs.items ≡ (contents_of_image image.now).segs) }
    ensures lent { OnOk result (AreLent (state disc.old) (state disc.new)
        (map pair_of (contents_of_image image.now).segs)) }

    ensures fault { IfErr result (IsLendFault (state disc.old) (state disc.new)
        (map pair_of (contents_of_image image.now).segs)) }
    ensures out { OnErr result ((state disc.new).out ≡ (state disc.old).out) }
    ensures kept { Kept (state disc.old) (state disc.new) }
{
    let mut extents = match Extents::new(alloc) {
        Ok(extents) => extents,
        Err(_) => return Err(ImageLendFault::OutOfMemory),
    };
    let segments = word(image, 8) as usize;
    let mut at = 20 + 8 * segments + 36 * word(image, 16) as usize;
    for i in 0..segments {
        let number = word(image, 20 + 8 * i);
        let size = word(image, 24 + 8 * i) as usize;
        match lend_copy(alloc, disc, number, &image[at..at + size]) {
            Ok(segment) => extents.adopt(segment),
            Err(LendFault::Refused) => {
                give_up(extents, disc);
                return Err(ImageLendFault::NoSegment(number));
            }
            Err(LendFault::OutOfMemory) => {
                give_up(extents, disc);
                return Err(ImageLendFault::OutOfMemory);
            }
        }
        at += size;
    }
    Ok(extents)
}
