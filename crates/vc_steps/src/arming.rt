ghost use Rattle.std.specs.Prelude.{◌≡◌, ◌≤◌};
ghost use Rattle.vc_model.specs.Discipline.{armed_as};
ghost use Rattle.vc_region.specs.Parts.{disc_in, region_of};
ghost use Rattle.vc_steps.specs.Arms.{ArmsHome};

use vc_commands::HomeEntry;
use vc_region::Region;
use vc_seg::{BoxedDisc, SegDisc};

// Arms the discipline of a region, or unarms it. The check asks for a condition on a call that could put another
// discipline there; this one always holds.
fn arm_in(region: &mut Region, on: bool)
    requires { 0 ≤ 0 }
    ensures disc { disc_in state region.new ≡ armed_as on (disc_in state region.old) }
    ensures region { region_of region.new ≡ region_of region.old }
{
    match region {
        Region::Best(best) => best.disc.arm(on),
        Region::Pool(pool) => pool.disc.arm(on),
        Region::Last(last) => last.disc.arm(on),
        Region::Debug(debug) => debug.best.disc.arm(on),
        Region::Profile(profile) => profile.best.disc.arm(on),
    }
}

// Arms the discipline of an open region, or unarms it.
pub(crate) fn arm(home: &mut HomeEntry, on: bool)
    requires { 0 ≤ 0 }
    ensures { ArmsHome state on home.old home.new }
{
    arm_in(&mut home.region, on);
}
