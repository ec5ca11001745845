ghost use Rattle.std.specs.Prelude.{◌≡◌, ◌≤◌, [], IfOk, IfErr, length};
ghost use Rattle.vc_base.specs.Prelude.{HasOut, TookBack};
ghost use Rattle.vc_region.specs.Stat.{method_of, opened_region};
ghost use Rattle.vc_region.specs.Parts.{disc_of, region_of, segments_in};

use std::alloc::Global;
use vc_audit::{Debug, Profile};
use vc_base::OutOfMemory;
use vc_best::Best;
use vc_last::Last;
use vc_pool::Pool;
use vc_seg::{BoxedDisc, Method, SegDisc};

// Marks a counter of steps that no one reads.
pub(crate) struct Uncounted;

/// A region of one of the methods over the segments of a discipline. Its lists of segments and blocks are those of the
/// region that it holds.
#[derive(Drop)]
pub enum Region {
    /// Of the method `VmBest`.
    Best(Best),
    /// Of the method `VmPool`.
    Pool(Pool),
    /// Of the method `VmLast`.
    Last(Last),
    /// Of the method `VmDebug`.
    Debug(Debug),
    /// Of the method `VmProfile`.
    Profile(Profile),
}

// A region of that method. The check asks for a condition on a call that could drop a box;
// this one always holds.
fn open_by(
    alloc: Global,
    method: Method,
    disc: Box<dyn SegDisc>,
) -> Result<Region, (OutOfMemory, Box<dyn SegDisc>)>
    requires { 0 ≤ 0 }
    ensures ok { IfOk result (λ r. (region_of r ≡ opened_region method)
        × (state (disc_of r) ≡ state disc)) }
    ensures err { IfErr result (λ e. state e.1 ≡ state disc) }
{
    match method {
        Method::VmPool => match Pool::open(alloc, disc) {
            Ok(pool) => Ok(Region::Pool(pool)),
            Err(failed) => Err(failed),
        },
        Method::VmLast => match Last::open(alloc, disc) {
            Ok(last) => Ok(Region::Last(last)),
            Err(failed) => Err(failed),
        },
        Method::VmDebug => match Debug::open(alloc, disc) {
            Ok(debug) => Ok(Region::Debug(debug)),
            Err(failed) => Err(failed),
        },
        Method::VmProfile => match Profile::open(alloc, disc) {
            Ok(profile) => Ok(Region::Profile(profile)),
            Err(failed) => Err(failed),
        },
        Method::VmBest => match Best::open(alloc, disc) {
            Ok(best) => Ok(Region::Best(best)),
            Err(failed) => Err(failed),
        },
    }
}

impl Region {
    /// A region of that method, with no segment. It takes none before the first block. With no memory the discipline
    /// comes back.
    pub fn open(
        alloc: Global,
        method: Method,
        disc: Box<dyn SegDisc>,
    ) -> Result<Region, (OutOfMemory, Box<dyn SegDisc>)>
        ensures ok { IfOk result (λ r. (region_of r ≡ opened_region method)
            × (state (disc_of r) ≡ state disc)) }
        ensures err { IfErr result (λ e. state e.1 ≡ state disc) }
    {
        open_by(alloc, method, disc)
    }

    /// Its method.
    pub fn method(&self) -> Method
        ensures { result ≡ method_of (region_of self.now) }
    {
        match self {
            Region::Best(_) => Method::VmBest,
            Region::Pool(_) => Method::VmPool,
            Region::Last(_) => Method::VmLast,
            Region::Debug(_) => Method::VmDebug,
            Region::Profile(_) => Method::VmProfile,
        }
    }

    /// Gives all its segments back, in ascending order of number, and answers with the discipline and how many there
    /// were.
    pub fn close(self) -> (Box<dyn SegDisc>, u32)
        requires { HasOut (state (disc_of self)) (segments_in self) }
        ensures disc { TookBack (state (disc_of self)) (state result.0) (segments_in self) [] }
        ensures count { result.1 ≡ length (segments_in self) }
    {
        match self {
            Region::Best(best) => best.close(),
            Region::Pool(pool) => pool.close(),
            Region::Last(last) => last.close(),
            Region::Debug(debug) => debug.close(),
            Region::Profile(profile) => profile.close(),
        }
    }
}
