ghost use Rattle.std.specs.Prelude.{◌≡◌, IfNone, IfOk, IfSome};
ghost use Rattle.vc_image_check.specs.Parts.Front.{IsFirstUnsound, IsSoundFront};

use crate::bytes::is_header;
use crate::gaps::is_sound_tree;
use crate::marks::Marks;
use crate::parts::Part;
use crate::segments::unsound_segment;
use std::alloc::Global;
use vc_base::OutOfMemory;

/// The first part of an image that isn't sound among its head, its segments in order of lending, and the tree of its free
/// extents; none where all are. Whatever the bytes are, it takes a byte for each 32 bytes of the segments and what a walk of the
/// tree holds. The dictionaries aren't looked at. This project's own.
pub fn unsound_front(alloc: Global, image: &[u8]) -> Result<Option<Part>, OutOfMemory>
    ensures none { IfOk result (λ o. IfNone o (IsSoundFront image.now)) }
    ensures some { IfOk result (λ o. IfSome o (λ part. IsFirstUnsound image.now part)) }
{
    if !is_header(image) {
        return Ok(Some(Part::Header));
    }
    if let Some(number) = unsound_segment(image) {
        return Ok(Some(Part::Segment(number)));
    }
    let mut marks = Marks::of(alloc, image)?;
    if !is_sound_tree(alloc, image, &mut marks)? {
        return Ok(Some(Part::Tree));
    }
    Ok(None)
}
