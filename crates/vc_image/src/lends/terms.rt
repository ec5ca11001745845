ghost use Rattle.std.specs.Prelude.{◌≡◌, ◌≤◌, map};
ghost use Rattle.vc_seg.specs.Segment.{pair_of};
ghost use Rattle.vc_image_check.specs.Bytes.Contents.{contents_of_image};
ghost use Rattle.vc_image_check.specs.Bytes.Header.{IsHeader};
ghost use Rattle.vc_image.specs.Lends.Terms.{first_uneven, has_too_many, terms_fault};

use crate::lends::ImageLendFault;
use vc_image_check::word;
use vc_seg::{SegDisc, grows_of, round_of};

// The number of an image's first segment, in order of lending, whose size a round doesn't divide.
fn uneven_segment(image: &[u8], round: u32) -> Option<u32>
    requires head { IsHeader image.now }
    requires some { 1 ≤ round }
    ensures { result ≡ first_uneven round (map pair_of (contents_of_image image.now).segs) }
{
    for i in 0..word(image, 8) as usize {
        if word(image, 24 + 8 * i) % round != 0 {
            return Some(word(image, 20 + 8 * i));
        }
    }
    None
}

// Whether a discipline makes segments longer where an image has more than one.
fn has_too_many(image: &[u8], disc: &Box<dyn SegDisc>) -> bool
    requires { IsHeader image.now }
    ensures { result ≡ has_too_many (state disc.now).terms (map pair_of (contents_of_image image.now).segs) }
{
    word(image, 8) > 1 && grows_of(disc)
}

/// What a discipline's terms don't allow of an image's segments: `Round` with the number of the first, in order of
/// lending, whose size the round doesn't divide; else `Grows`, where the discipline makes segments longer and the image
/// has more than one. None exactly where neither comes. The image has the head of one. Nothing is lent. This project's
/// own.
pub fn terms_fault(image: &[u8], disc: &Box<dyn SegDisc>) -> Option<ImageLendFault>
    requires { IsHeader image.now }
    ensures { result ≡ terms_fault (state disc.now).terms (map pair_of (contents_of_image image.now).segs) }
{
    if let Some(number) = uneven_segment(image, round_of(disc)) {
        return Some(ImageLendFault::Round(number));
    }
    if has_too_many(image, disc) {
        return Some(ImageLendFault::Grows);
    }
    None
}
