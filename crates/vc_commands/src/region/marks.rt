ghost use Rattle.std.specs.Prelude.{◌≡◌};
ghost use Rattle.vc_base.specs.Prelude.{place_of, HasBlock};
ghost use Rattle.vc_region.specs.Cells.{rest_in};
ghost use Rattle.vc_region.specs.Parts.{blocks_in};
ghost use Rattle.vc_region.specs.Region.{aligns, is_debug, is_profile, keeps_freed, watch_at};

use vc_base::Addr;
use vc_region::Region;

// Whether its method aligns blocks.
pub(crate) fn aligns(region: &Region) -> bool
    ensures { result ≡ aligns (rest_in region.now) }
{
    match region {
        Region::Best(_) | Region::Profile(_) => true,
        Region::Pool(_) | Region::Last(_) | Region::Debug(_) => false,
    }
}

// Whether it is a debug region.
pub(crate) fn is_debug(region: &Region) -> bool
    ensures { result ≡ is_debug (rest_in region.now) }
{
    match region {
        Region::Debug(_) => true,
        _ => false,
    }
}

// Whether it is a profile region.
pub(crate) fn is_profile(region: &Region) -> bool
    ensures { result ≡ is_profile (rest_in region.now) }
{
    match region {
        Region::Profile(_) => true,
        _ => false,
    }
}

// Whether the names of freed blocks are kept.
pub(crate) fn keeps_freed(region: &Region) -> bool
    ensures { result ≡ keeps_freed (rest_in region.now) }
{
    is_debug(region)
}

// The line of the watch on the block at that address, where it is watched.
pub(crate) fn watch_line(region: &Region, a: Addr) -> Option<u32>
    requires { HasBlock (blocks_in region.now) a.0 }
    ensures { result ≡ watch_at (rest_in region.now) (place_of a.0) }
{
    match region {
        Region::Debug(_) => region.watched(a),
        _ => None,
    }
}
