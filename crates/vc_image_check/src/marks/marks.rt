ghost use Rattle.std.specs.Prelude.{◌≡◌, ◌≢◌, ◌+◌, ◌/◌, ◌≤◌, ◌==◌, if◌then◌else◌, All, IfOk, length};
ghost use Rattle.vc_extent.specs.Tiles.{IsTiled};
ghost use Rattle.vc_image_check.specs.Bytes.Contents.{contents_of_image};
ghost use Rattle.vc_image_check.specs.Bytes.Header.{IsHeader};

use crate::bytes::{part, word};
use crate::marks::row::{marks_of, no_rows};
use std::alloc::Global;
use vc_base::OutOfMemory;

/// A mark for each 32 bytes of the segments of an image. This project's own.
#[derive(Drop)]
pub struct Marks {
    /// By a segment's number from 0 to 1,023, the marks of its bytes, none where it isn't there.
    pub rows: Vec<Vec<u8>>,
    /// By a segment's number, where its bytes begin in the image, 0 where it isn't there.
    pub places: Vec<usize>,
    /// There are 1,024 numbers.
    pub ghost many: { length rows.items ≡ 1024 },
    pub ghost all: { length places.items ≡ 1024 },
}

impl Marks {
    ghost use Rattle.vc_image_check.specs.Marks.Mark.{ChangesMarks, IsMarked, lists, mark_in, start_of};

    /// The marks of an image's extents: 1 where a free one is named, 2 a busy one with a label, 3 a busy one with none, and 0
    /// where none is. The image has a head, and extents tile its segments. It takes a byte for each 32 bytes of these, and
    /// reads each head once.
    pub fn of(alloc: Global, image: &[u8]) -> Result<Marks, OutOfMemory>
        requires head { IsHeader image.now }
        requires tiled { All (λ s. IsTiled s.bytes) (contents_of_image image.now).segs }
        ensures { IfOk result (λ m. IsMarked image.now (lists m.rows.items) m.places.items) }
    {
        let segments = word(image, 8) as usize;
        let mut at = 20 + 8 * segments + 36 * word(image, 16) as usize;
        let mut rows = no_rows(alloc)?;
        let mut places = vec![in alloc; 0usize; 1024]?;
        for i in 0..segments {
            let number = word(image, 20 + 8 * i) as usize;
            let size = word(image, 24 + 8 * i) as usize;
            rows[number] = marks_of(alloc, part(image, at, size))?;
            places[number] = at;
            at += size;
        }
        Ok(Marks { rows, places })
    }

    /// The mark of an address, 0 where no segment has it.
    pub fn get(&self, a: u32) -> u8
        ensures { result ≡ mark_in self.now a }
    {
        let number = (a / 1_048_576) as usize;
        if number >= 1024 {
            return 0;
        }
        let row = &self.rows[number];
        let k = (a % 1_048_576) as usize;
        if k >= row.len() {
            return 0;
        }
        row[k]
    }

    /// Where the bytes that an address names begin in the image. A segment can have that number, and an image that place.
    pub fn start(&self, a: u32) -> usize
        requires number { a / 1048576 ≤ 1023 }
        requires most { start_of self.now.places.items a ≤ 68719476736 }
        ensures { result ≡ start_of self.now.places.items a }
    {
        self.places[(a / 1_048_576) as usize] + 32 * (a % 1_048_576) as usize
    }

    /// Gives an address that has a mark another one.
    pub fn set(&mut self, a: u32, mark: u8)
        requires { mark_in self.old a ≢ 0 }
        ensures { ChangesMarks self.old self.new (λ b. if b == a then mark else mark_in self.old b) }
    {
        let row = &mut self.rows[(a / 1_048_576) as usize];
        row[(a % 1_048_576) as usize] = mark;
    }
}
