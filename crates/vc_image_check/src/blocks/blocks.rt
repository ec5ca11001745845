ghost use Rattle.std.specs.Prelude.{◌≡◌, ℕ, ◌+◌, ◌-◌, ◌*◌, ◌≤◌, drop, length, take};
ghost use Rattle.std.specs.Int.{w64, from_le_bytes};
ghost use Rattle.vc_base.specs.Cells.{HasBytes, bytes_at};
ghost use Rattle.vc_seg.specs.Field.{field_at};
ghost use Rattle.vc_image_check.specs.Blocks.Blocks.{AreBlockMarks, image_blocks};
ghost use Rattle.vc_image_check.specs.Bytes.Header.{AreBytes};
ghost use Rattle.vc_image_check.specs.Marks.Mark.{mark_in};

use crate::bytes::word;
use crate::lists::Holders;
use crate::marks::Marks;

/// The unlabelled blocks of an image, whose bytes may be any. This project's own.
#[derive(Drop)]
pub struct ImageBlocks<'a> {
    /// The image.
    pub image: &'a [u8],
    /// Its marks.
    pub marks: &'a Marks,
    /// The image has a head, extents tile its segments, and marks from 3 on are those of its unlabelled blocks.
    pub ghost known: { ∥ AreBlockMarks image.now marks.now ∥₁ },
    /// Each byte of the image is one.
    pub ghost small: { AreBytes image.now },
}

impl<'a> ImageBlocks<'a> {
    /// The unlabelled blocks of an image of which the head and the segments are sound, by marks of them.
    pub fn new(image: &'a [u8], marks: &'a Marks) -> ImageBlocks<'a>
        requires { AreBlockMarks image.now marks.now }
        ensures { result.image.now ≡ image.now }
    {
        ImageBlocks { image, marks }
    }
}

// Where the block at an address begins.
fn start<'a>(blocks: &ImageBlocks<'a>, a: u32) -> usize
    requires { 3 ≤ mark_in blocks.now.marks.now a }
    ensures bytes { take (field_at (result - 12) blocks.now.image.now) (drop result blocks.now.image.now)
        ≡ bytes_at (image_blocks blocks.now.image.now) a }
    ensures low { 12 ≤ result }
    ensures within { result + field_at (result - 12) blocks.now.image.now ≤ length blocks.now.image.now }
    ensures most { field_at (result - 12) blocks.now.image.now ≤ 33554432 }
    ensures all { length blocks.now.image.now ≤ 68719476736 }
{
    blocks.marks.start(a)
}

// The bytes of the block at an address, none where there is none.
fn bytes_of<'a>(blocks: &ImageBlocks<'a>, a: u32) -> &'a [u8]
    ensures bytes { result.now ≡ bytes_at (image_blocks blocks.now.image.now) a }
    ensures most { length result.now ≤ 33554432 }
{
    if blocks.marks.get(a) < 3 {
        return &blocks.image[..0];
    }
    let at = start(blocks, a);
    let size = word(blocks.image, at - 12) as usize;
    &blocks.image[at..at + size]
}

// Eight bytes from a place on as a number.
fn number(bytes: &[u8], at: usize) -> u64
    requires { at + 8 ≤ length bytes.now }
    ensures { result ≡ from_le_bytes w64 (take 8 (drop at bytes.now)) }
{
    let mut eight = [0u8; 8];
    eight.copy_from_slice(&bytes[at..at + 8]);
    u64::from_le_bytes(eight)
}

impl<'a> Holders for ImageBlocks<'a> {
    ghost use Rattle.vc_image_check.specs.Laws.BlockLaws.{bytes-small};
    ghost use Rattle.vc_image_check.specs.Blocks.Blocks.{image_blocks};
    ghost use Rattle.vc_image_check.specs.Marks.Mark.{lists};

    ghost blocks = { λ s. image_blocks s.image.now };

    fn size(&self, a: u32) -> u32 {
        bytes_of(self, a).len() as u32
    }

    fn word(&self, a: u32, k: u32) -> u64 {
        number(bytes_of(self, a), 8 * k as usize)
    }

    fn object(&self, a: u32) -> &[u8] {
        &bytes_of(self, a)[32..]
    }

    ghost small = { λ s a i. bytes-small s.image.now (lists s.marks.now.rows.items) s.marks.now.places.items s.known s.small a i };
}
