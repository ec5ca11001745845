ghost use Rattle.std.specs.Prelude.{◌≡◌, [], IfNone, IfOk, IfSome, map};
ghost use Rattle.vc_image_check.specs.Blocks.Blocks.{AreBlockMarks, image_blocks};
ghost use Rattle.vc_image_check.specs.Bytes.Contents.{rows_of_image};
ghost use Rattle.vc_image_check.specs.Dicts.Taken.{HaveTaken, IsFirstUnsoundDict, taken_by};
ghost use Rattle.vc_image_check.specs.Dicts.Whole.{AreSoundDicts};

use crate::bytes::word;
use crate::dicts::dict::is_sound_dict;
use crate::marks::Marks;
use std::alloc::Global;
use vc_base::{OutOfMemory, Steps};
use vc_dtdisc::DictDisc;

// The number of the first dictionary of an image, from 0 on, that isn't sound or has a block of one before it; none
// where there is none, and then their blocks are taken.
pub(crate) fn unsound_dict<D: DictDisc, L>(
    alloc: Global,
    image: &[u8],
    kinds: &Vec<D>,
    marks: &mut Marks,
    steps: &mut Steps<L>,
) -> Result<Option<u32>, OutOfMemory>
    requires known { AreBlockMarks image.now marks.old }
    requires free { HaveTaken marks.old [] }
    ensures some { IfOk result (λ o. IfSome o (λ n.
        IsFirstUnsoundDict (map D.rules kinds.now.items) (image_blocks image.now) (rows_of_image image.now) n)) }
    ensures none { IfOk result (λ o. IfNone o (AreSoundDicts (map D.rules kinds.now.items) image.now)) }
    ensures taken { IfOk result (λ o. IfNone o
        (HaveTaken marks.new (taken_by (image_blocks image.now) (rows_of_image image.now)))) }
    ensures known { IfOk result (λ o. AreBlockMarks image.now marks.new) }
{
    let first = 20 + 8 * word(image, 8) as usize;
    let dicts = word(image, 16);
    for i in 0..dicts {
        if !is_sound_dict(alloc, image, kinds, first + 36 * i as usize, marks, steps)? {
            return Ok(Some(i));
        }
    }
    Ok(None)
}
