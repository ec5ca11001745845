ghost use Rattle.std.specs.Prelude.{◌≡◌, ◌≤◌, All, if◌then◌else◌, length, nat_lt};
ghost use Rattle.vc_extent.specs.Extent.{extents};
ghost use Rattle.vc_extent.specs.Tiles.{IsTiled};
ghost use Rattle.vc_extent.specs.Tiling.{tiling};
ghost use Rattle.vc_best.specs.Counts.{all_extents};
ghost use Rattle.vc_image.specs.Lends.Regions.{busy_count};

use vc_image_check::word;
use vc_seg::Segment;

// One for an extent of that size that has a block.
fn one_if_busy(size: u32) -> u32
    ensures { result ≡ (if nat_lt 0 size then 1 else 0) }
{
    if size > 0 { 1 } else { 0 }
}

// How many blocks there are among the extents of a segment's bytes.
fn count_in(bytes: &[u8]) -> u32
    requires { IsTiled bytes.now }
    ensures value { result ≡ busy_count (extents bytes.now) }
    ensures few { result ≤ 1048576 }
{
    let stop = bytes.len() - 16;
    let mut at = 16;
    let mut count = 0;
    while at < stop {
        count += one_if_busy(word(bytes, at + 4));
        at += word(bytes, at) as usize;
    }
    count
}

// How many blocks there are in these segments.
pub(crate) fn count_blocks(segs: &[Segment]) -> u32
    requires tiled { All (λ s. IsTiled s.bytes) segs.now }
    requires few { length segs.now ≤ 1023 }
    ensures { result ≡ busy_count (all_extents (tiling segs.now)) }
{
    let mut count = 0;
    for segment in segs {
        count += count_in(segment.bytes(0, segment.size()));
    }
    count
}
