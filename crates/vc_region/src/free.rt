ghost use Rattle.std.specs.Prelude.{◌≡◌, ◌≤◌, IsErrOf, OnOk};
ghost use Rattle.vc_base.specs.Prelude.{place_of, cleared_layout, HasOut, TookBack, HasBlock};
ghost use Rattle.vc_model.specs.Pool.{pool_clear};
ghost use Rattle.vc_audit.specs.Debug.{debug_clear};
ghost use Rattle.vc_audit.specs.DebugParts.{debug_of};
ghost use Rattle.vc_audit.specs.Profile.{profile_clear};
ghost use Rattle.vc_audit.specs.ProfileParts.{profile_of};
ghost use Rattle.vc_region.specs.Region.{region_clear, region_compact, region_compact_count, region_free};
ghost use Rattle.vc_seg.specs.Answer.{Frees};
ghost use Rattle.vc_best.specs.Parts.{layout_of};
ghost use Rattle.vc_last.specs.Parts.{layout_of as last_of};
ghost use Rattle.vc_pool.specs.Parts.{pool_of};
ghost use Rattle.vc_seg.specs.Boxed.{disc_in_box};
ghost use Rattle.vc_seg.specs.OneBlock.{IsBlockFreed};
ghost use Rattle.vc_region.specs.Parts.{blocks_in, disc_in, region_of, segments_in};

use crate::region::{Region, Uncounted};
use vc_audit::{Debug, Profile};
use vc_base::{Addr, Steps};
use vc_best::Best;
use vc_last::Last;
use vc_pool::Pool;
use vc_seg::{BoxedDisc, RegionFault, SegDisc};

// Frees all blocks of a best region. The check asks for a condition on a call that could drop a box;
// this one always holds.
fn clear_best(best: &mut Best)
    requires { 0 ≤ 0 }
    ensures layout { layout_of best.new ≡ cleared_layout (layout_of best.old) }
    ensures disc { disc_in_box state best.new.disc ≡ disc_in_box state best.old.disc }
{
    let mut steps = Steps::<Uncounted>::new(best.alloc);
    best.clear(&mut steps);
}

// The same of a pool.
fn clear_pool(pool: &mut Pool)
    requires { 0 ≤ 0 }
    ensures pool { pool_of pool.new ≡ pool_clear (pool_of pool.old) }
    ensures disc { disc_in_box state pool.new.disc ≡ disc_in_box state pool.old.disc }
{
    pool.clear();
}

// The same of a last region.
fn clear_last(last: &mut Last)
    requires { 0 ≤ 0 }
    ensures layout { last_of last.new ≡ cleared_layout (last_of last.old) }
    ensures disc { disc_in_box state last.new.disc ≡ disc_in_box state last.old.disc }
{
    last.clear();
}

// The same of a debug region.
fn clear_debug(debug: &mut Debug)
    requires { 0 ≤ 0 }
    ensures debug { debug_of debug.new ≡ debug_clear (debug_of debug.old) }
    ensures disc { disc_in_box state debug.new.best.disc ≡ disc_in_box state debug.old.best.disc }
{
    debug.clear();
}

// The same of a profile region.
fn clear_profile(profile: &mut Profile)
    requires { 0 ≤ 0 }
    ensures profile { profile_of profile.new ≡ profile_clear (profile_of profile.old) }
    ensures disc { disc_in_box state profile.new.best.disc ≡ disc_in_box state profile.old.best.disc }
{
    profile.clear();
}

/// The calls that make room. None takes memory.
impl Region {
    /// Frees the block at that address. `NotLast` comes exactly in a last region, where the block isn't the one allocated
    /// latest.
    pub fn free(&mut self, a: Addr) -> Result<(), RegionFault>
        requires { HasBlock (blocks_in self.old) a.0 }
        ensures answer { Frees (region_free (region_of self.old) (place_of a.0)) result
            (region_of self.old) (region_of self.new) }
        ensures disc { disc_in state self.new ≡ disc_in state self.old }
        ensures memory { ¬ IsErrOf result RegionFault.OutOfMemory }

        // It is the one block at that address that goes.
        ensures freed { OnOk result
            (IsBlockFreed a.0 (blocks_in self.old) (blocks_in self.new)) }
    {
        match self {
            Region::Best(best) => {
                let mut steps = Steps::<Uncounted>::new(best.alloc);
                best.free(a, &mut steps);
                Ok(())
            }
            Region::Pool(pool) => {
                pool.free(a);
                Ok(())
            }
            Region::Last(last) => last.free(a),
            Region::Debug(debug) => {
                debug.free(a);
                Ok(())
            }
            Region::Profile(profile) => {
                profile.free(a);
                Ok(())
            }
        }
    }

    /// Frees all its blocks, and keeps its segments.
    pub fn clear(&mut self)
        ensures region { region_of self.new ≡ region_clear (region_of self.old) }
        ensures disc { disc_in state self.new ≡ disc_in state self.old }
    {
        match self {
            Region::Best(best) => clear_best(best),
            Region::Pool(pool) => clear_pool(pool),
            Region::Last(last) => clear_last(last),
            Region::Debug(debug) => clear_debug(debug),
            Region::Profile(profile) => clear_profile(profile),
        }
    }

    /// Gives back each segment without a block, in ascending order of number, and answers how many those were.
    pub fn compact(&mut self) -> u32
        requires { HasOut (disc_in state self.old) (segments_in self.old) }
        ensures region { region_of self.new ≡ region_compact (region_of self.old) }
        ensures count { result ≡ region_compact_count (region_of self.old) }
        ensures disc { TookBack (disc_in state self.old) (disc_in state self.new)
            (segments_in self.old) (segments_in self.new) }
    {
        match self {
            Region::Best(best) => {
                let mut steps = Steps::<Uncounted>::new(best.alloc);
                best.compact(&mut steps)
            }
            Region::Pool(pool) => pool.compact(),
            Region::Last(last) => last.compact(),
            Region::Debug(debug) => debug.compact(),
            Region::Profile(profile) => profile.compact(),
        }
    }
}
