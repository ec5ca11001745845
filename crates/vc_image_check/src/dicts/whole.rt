ghost use Rattle.std.specs.Prelude.{◌≡◌, ◌↔◌, IfNone, IfOk, IfSome, IsTrue, map};
ghost use Rattle.vc_image_check.specs.Blocks.Blocks.{AreBlockMarks, image_blocks};
ghost use Rattle.vc_image_check.specs.Bytes.Contents.{rows_of_image};
ghost use Rattle.vc_image_check.specs.Parts.Front.{IsSoundFront};
ghost use Rattle.vc_image_check.specs.Dicts.Taken.{HaveTaken, taken_by};
ghost use Rattle.vc_image_check.specs.Dicts.Whole.{AreSoundDicts, HasNoRest, IsFirstUnsoundPart, IsSoundImage};

use crate::dicts::dicts::unsound_dict;
use crate::marks::Marks;
use crate::parts::{Part, unsound_front};
use std::alloc::Global;
use vc_base::{OutOfMemory, Steps};
use vc_dtdisc::DictDisc;

// Marks the steps of the compares, which no one reads.
struct Compares;

// Whether an unlabelled block is left that no dictionary took.
fn has_rest(image: &[u8], marks: &Marks) -> bool
    requires known { AreBlockMarks image.now marks.now }
    requires taken { HaveTaken marks.now (taken_by (image_blocks image.now) (rows_of_image image.now)) }
    ensures { IsTrue result ↔ (¬ HasNoRest image.now) }
{
    marks.has(3)
}

// The first part that isn't sound behind a sound front: a dictionary or the rest.
fn unsound_back<D: DictDisc>(
    alloc: Global,
    image: &[u8],
    kinds: &Vec<D>,
) -> Result<Option<Part>, OutOfMemory>
    requires { IsSoundFront image.now }
    ensures none { IfOk result (λ o. IfNone o (IsSoundImage (map D.rules kinds.now.items) image.now)) }
    ensures some { IfOk result (λ o. IfSome o (λ part.
        IsFirstUnsoundPart (map D.rules kinds.now.items) image.now part)) }
{
    let mut marks = Marks::of(alloc, image)?;
    let mut steps: Steps<Compares> = Steps::new(alloc);
    if let Some(i) = unsound_dict(alloc, image, kinds, &mut marks, &mut steps)? {
        return Ok(Some(Part::Dictionary(i)));
    }
    if has_rest(image, &marks) {
        return Ok(Some(Part::Rest));
    }
    Ok(None)
}

/// The first part of an image that isn't sound: its head, a segment in order of lending, the tree of free extents, a
/// dictionary, or the rest, unlabelled blocks that no dictionary has; none where all are. A dictionary is sound where
/// its method and its kind, from 1 on, are there; its holders, of 33 to 1,056 bytes, and its table are unlabelled
/// blocks that no dictionary before it has, and tell of each other as its method wants for so many objects; heads
/// that it has no use for are 0; no two objects of a set match; and its current holder is none or one of its own.
/// Whatever the bytes are, no link is trusted. A call takes time in proportion to the image, but for objects of one
/// slot in a set, and memory of a byte for each 32 bytes of the segments, besides 8 for each slot of one table, 4 for
/// each holder of one dictionary, and what a walk of a tree holds. This project's own.
pub fn unsound_part<D: DictDisc>(
    alloc: Global,
    image: &[u8],
    kinds: &Vec<D>,
) -> Result<Option<Part>, OutOfMemory>
    ensures none { IfOk result (λ o. IfNone o (IsSoundImage (map D.rules kinds.now.items) image.now)) }
    ensures some { IfOk result (λ o. IfSome o (λ part.
        IsFirstUnsoundPart (map D.rules kinds.now.items) image.now part)) }
{
    match unsound_front(alloc, image)? {
        Some(part) => Ok(Some(part)),
        None => unsound_back(alloc, image, kinds),
    }
}
