ghost use Rattle.std.specs.Prelude.{◌≡◌, ◌≤◌, [], ◌∷◌, ◌++◌, option_map, slice_get};
ghost use Rattle.vc_seg.specs.Memory.{bytes_of_number};
ghost use Rattle.vc_extent.specs.Tiles.{IsTiled};
ghost use Rattle.vc_extent.specs.Tiling.{IsThere};

use crate::Extents;
use vc_seg::Segment;

impl Extents {
    /// All bytes of segment n, which is there, its first and its last 16 among them. This project's own.
    pub fn whole(&self, n: u32) -> &[u8]
        requires { IsThere n self.now.segs.items }
        ensures { result.now ≡ bytes_of_number n self.now.segs.items }
    {
        let seg = &self.segs[self.place(n)];
        seg.bytes(0, seg.size())
    }

    /// The number of the segment that was added so many segments behind the first, None exactly past the last. This
    /// project's own.
    pub fn lent(&self, i: u32) -> Option<u32>
        ensures { result ≡ option_map (λ s. s.number) (slice_get self.now.segs.items i) }
    {
        match self.segs.get(i as usize) {
            Some(seg) => Some(seg.number()),
            None => None,
        }
    }

    /// Puts a segment that is tiled already behind the others, and changes none of its bytes. Its number, from 1 to 1,023,
    /// isn't used. This project's own.
    pub fn adopt(&mut self, seg: Segment)
        requires first { 1 ≤ seg.number }
        requires last { seg.number ≤ 1023 }
        requires unused { ¬ IsThere seg.number self.old.segs.items }
        requires tiled { IsTiled seg.bytes }
        ensures { self.new.segs.items ≡ self.old.segs.items ++ seg ∷ [] }
    {
        let number = seg.number();
        self.index[number as usize] = self.segs.len() as u32 + 1;
        self.segs.push_reserved(seg);
    }
}
