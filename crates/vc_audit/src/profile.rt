mod alloc;
mod block;
mod free;
mod resize;
mod row;
mod rows;
mod walk;

ghost use Rattle.std.specs.Prelude.{◌≡◌, IfErr, IfOk};
ghost use Rattle.std.proofs.Props.{props};
ghost use Rattle.vc_best.specs.Parts.{layout_of};
ghost use Rattle.vc_addrmap.specs.Parts.{numbers_of};
ghost use Rattle.vc_audit.specs.ProfileSums.{IsCounted, sites_by};

use crate::plain::open_best;
use indexmap::IndexMap;
use rows::Row;
use std::alloc::Global;
use vc_addrmap::AddrMap;
use vc_base::{Name, OutOfMemory};
use vc_best::Best;
use vc_seg::{BoxedDisc, SegDisc};

/// A region by exact best fit in which each block has a site, after Vmalloc's `Vmprofile`. For each site it counts the
/// blocks, their bytes, and the greatest number of bytes after a call.
#[derive(Drop)]
pub struct Profile {
    /// The region, whose blocks are those of the profile.
    pub best: Best,
    // What is counted for each site, in order of first use.
    pub(crate) rows: IndexMap<Name, Row>,
    // The index of the row of each block's site, by the block's address.
    pub(crate) sites: AddrMap,
    ghost counted: { IsCounted (layout_of best) (sites_by (numbers_of sites) rows.entries) rows.entries } by { Prim.hlevel props },
}

impl Profile {
    ghost use Rattle.std.specs.Prelude.{[], length};
    ghost use Rattle.vc_base.specs.Prelude.{HasOut, TookBack};
    ghost use Rattle.vc_audit.specs.Profile.{empty_profile};
    ghost use Rattle.vc_audit.specs.ProfileParts.{profile_of, segments_in};

    /// A region with no segment and no site. It takes no segment before the first block. With no memory the discipline
    /// comes back.
    pub fn open(
        alloc: Global,
        disc: Box<dyn SegDisc>,
    ) -> Result<Profile, (OutOfMemory, Box<dyn SegDisc>)>
        ensures ok { IfOk result (λ p. (profile_of p ≡ empty_profile)
            × (state p.best.disc ≡ state disc)) }
        ensures err { IfErr result (λ e. state e.1 ≡ state disc) }
    {
        match open_best(alloc, disc) {
            Ok(best) => Ok(Profile {
                best,
                rows: IndexMap::new(alloc),
                sites: AddrMap::new(alloc),
            }),
            Err(failed) => Err(failed),
        }
    }

    /// Gives all its segments back, in ascending order of number, and answers with the discipline and how many there
    /// were.
    pub fn close(self) -> (Box<dyn SegDisc>, u32)
        requires { HasOut (state self.best.disc) (segments_in self) }
        ensures disc { TookBack (state self.best.disc) (state result.0) (segments_in self) [] }
        ensures count { result.1 ≡ length (segments_in self) }
    {
        let Profile {
            best,
            rows: _,
            sites: _,
        } = self;
        best.close()
    }
}
