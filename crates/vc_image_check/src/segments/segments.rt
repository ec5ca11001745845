ghost use Rattle.std.specs.Prelude.{IfNone, IfSome};
ghost use Rattle.vc_image_check.specs.Bytes.Contents.{contents_of_image};
ghost use Rattle.vc_image_check.specs.Bytes.Header.{IsHeader};
ghost use Rattle.vc_image_check.specs.Segments.Sound.{AreSoundSegments, IsFirstUnsoundSegment};

use crate::bytes::{part, word};
use crate::segments::segment::is_sound_segment;

/// The number of the first segment of an image, in order of lending, whose bytes aren't sound as `is_sound_segment` says;
/// none where all are. The image has the head of one, as `is_header` tells. This project's own.
pub fn unsound_segment(image: &[u8]) -> Option<u32>
    requires { IsHeader image.now }
    ensures none { IfNone result (AreSoundSegments (contents_of_image image.now).segs) }
    ensures some { IfSome result (λ n. IsFirstUnsoundSegment n (contents_of_image image.now).segs) }
{
    let segments = word(image, 8) as usize;
    let mut at = 20 + 8 * segments + 36 * word(image, 16) as usize;
    for i in 0..segments {
        let size = word(image, 24 + 8 * i) as usize;
        if !is_sound_segment(part(image, at, size)) {
            return Some(word(image, 20 + 8 * i));
        }
        at += size;
    }
    None
}
