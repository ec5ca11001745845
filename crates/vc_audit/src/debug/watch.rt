ghost use Rattle.std.specs.Prelude.{◌≡◌, OnErr, OnOk};
ghost use Rattle.vc_base.specs.Prelude.{place_of, HasBlock};
ghost use Rattle.vc_audit.specs.Debug.{watched_at, with_watch};
ghost use Rattle.vc_audit.specs.DebugParts.{blocks_in, debug_of, disc_in};

use crate::debug::Debug;
use vc_base::{Addr, OutOfMemory};
use vc_seg::{BoxedDisc, SegDisc};

/// Marks of blocks, which last until the block is freed.
impl Debug {
    /// Marks the block at that address with a line, in place of the mark that it has.
    pub fn watch(&mut self, a: Addr, line: u32) -> Result<(), OutOfMemory>
        requires { HasBlock (blocks_in self.old) a.0 }
        ensures ok { OnOk result (debug_of self.new
            ≡ with_watch (debug_of self.old) (place_of a.0) line) }
        ensures err { OnErr result (debug_of self.new ≡ debug_of self.old) }
        ensures disc { disc_in state self.new ≡ disc_in state self.old }
    {
        self.marks.reserve()?;
        self.marks.put(a, line);
        Ok(())
    }

    /// The line of the block at that address. None where it is not marked. It changes nothing, and so a look-up alone may
    /// take as many steps as there are marks; `resize`, `free`, `write` and `poke` of a block that was looked up pay for
    /// it, so that a run of both takes a time that is logarithmic in the marks for each, amortised.
    pub fn watched(&self, a: Addr) -> Option<u32>
        requires { HasBlock (blocks_in self.now) a.0 }
        ensures { result ≡ watched_at (debug_of self.now) (place_of a.0) }
    {
        self.marks.peek(a)
    }
}
