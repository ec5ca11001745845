ghost use Rattle.std.specs.Prelude.{◌≡◌, [], IfOk, IfErr, length};
ghost use Rattle.vc_base.specs.Prelude.{HasOut, TookBack};
ghost use Rattle.vc_audit.specs.Debug.{empty_debug};
ghost use Rattle.vc_audit.specs.DebugParts.{debug_of, segments_in};

use crate::debug::Debug;
use crate::plain::open_best;
use std::alloc::Global;
use vc_addrmap::AddrMap;
use vc_base::OutOfMemory;
use vc_seg::{BoxedDisc, SegDisc};

impl Debug {
    /// A region with no segment. It takes none before the first block. With no memory the discipline comes back.
    pub fn open(
        alloc: Global,
        disc: Box<dyn SegDisc>,
    ) -> Result<Debug, (OutOfMemory, Box<dyn SegDisc>)>
        ensures ok { IfOk result (λ d. (debug_of d ≡ empty_debug)
            × (state d.best.disc ≡ state disc)) }
        ensures err { IfErr result (λ e. state e.1 ≡ state disc) }
    {
        match open_best(alloc, disc) {
            Ok(best) => Ok(Debug {
                best,
                marks: AddrMap::new(alloc),
            }),
            Err(failed) => Err(failed),
        }
    }

    /// Gives all its segments back, in ascending order of number, and answers with the discipline and how many there
    /// were.
    pub fn close(self) -> (Box<dyn SegDisc>, u32)
        requires { HasOut (state self.best.disc) (segments_in self) }
        ensures disc { TookBack (state self.best.disc) (state result.0) (segments_in self) [] }
        ensures count { result.1 ≡ length (segments_in self) }
    {
        let Debug { best, marks: _ } = self;
        best.close()
    }
}
