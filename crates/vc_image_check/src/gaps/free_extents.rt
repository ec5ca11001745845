ghost use Rattle.std.specs.Prelude.{◌≡◌, ℕ, ◌+◌, ◌≤◌, true, length};
ghost use Rattle.vc_extent.specs.Tiling.{extent_of, tiling};
ghost use Rattle.vc_gaps.specs.GapStore.{is_free};
ghost use Rattle.vc_image_check.specs.Bytes.Contents.{contents_of_image};
ghost use Rattle.vc_image_check.specs.Gaps.Known.{AreExtentMarks};
ghost use Rattle.vc_image_check.specs.Marks.Mark.{start_of};

use crate::bytes::word;
use crate::marks::Marks;
use crate::walks::Known;
use vc_splay::Links;

// The free extents of an image as nodes, whose links lie in its bytes and may be any.
#[derive(Drop)]
pub(crate) struct FreeExtents<'a> {
    pub(crate) image: &'a [u8],
    pub(crate) marks: &'a Marks,
    // The image has a head, extents tile its segments, and these are their marks.
    pub(crate) ghost known: { ∥ AreExtentMarks image.now marks.now ∥₁ },
}

impl<'a> FreeExtents<'a> {
    // Where the links of a free extent begin.
    fn start(&self, a: u32) -> usize
        requires { is_free (tiling (contents_of_image self.now.image.now).segs) a ≡ true }
        ensures value { result ≡ start_of self.now.marks.now.places.items a }
        ensures low { 16 ≤ result }
        ensures within { result + 16 ≤ length self.now.image.now }
    {
        self.marks.start(a)
    }

    // The span of a free extent.
    pub(crate) fn span(&self, a: u32) -> u32
        requires { is_free (tiling (contents_of_image self.now.image.now).segs) a ≡ true }
        ensures value { result ≡ (extent_of (tiling (contents_of_image self.now.image.now).segs) a).span }
        ensures most { result ≤ 33554432 }
    {
        word(self.image, self.start(a) - 16)
    }
}

impl<'a> Links for FreeExtents<'a> {
    ghost use Rattle.std.specs.Prelude.{ℕ};
    ghost use Rattle.vc_extent.specs.Tiling.{tiling};
    ghost use Rattle.vc_gaps.specs.GapStore.{gap_store};
    ghost use Rattle.vc_image_check.specs.Bytes.Contents.{contents_of_image};
    ghost use Rattle.vc_image_check.specs.Gaps.Known.{known_fits, known_none};
    ghost use Rattle.vc_image_check.specs.Marks.Mark.{lists};

    ghost store = { λ s. gap_store (tiling (contents_of_image s.image.now).segs) };

    fn left(&self, n: u32) -> u32 {
        word(self.image, self.start(n))
    }

    fn right(&self, n: u32) -> u32 {
        word(self.image, self.start(n) + 4)
    }

    fn up(&self, n: u32) -> u32 {
        word(self.image, self.start(n) + 8)
    }

    ghost none = { λ s. known_none s.image.now (lists s.marks.now.rows.items) s.marks.now.places.items s.known };

    ghost fits = { λ s n h. known_fits s.image.now (lists s.marks.now.rows.items) s.marks.now.places.items s.known n h };
}

impl<'a> Known for FreeExtents<'a> {
    fn has(&self, n: u32) -> bool {
        self.marks.get(n) == 1
    }
}
