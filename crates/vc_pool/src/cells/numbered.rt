ghost use Rattle.vc_pool.specs.Cells.Place.{pair_in};

use crate::cells::PoolSegment;
use vc_seg::{Numbered, Segment};

impl Numbered for PoolSegment {
    ghost pair = { pair_in };

    fn number(&self) -> u32 {
        self.seg.number()
    }

    fn size(&self) -> u32 {
        self.seg.size()
    }

    fn into_segment(self) -> Segment {
        let PoolSegment {
            seg,
            carved: _,
            cells: _,
        } = self;
        seg
    }
}
