ghost use Rattle.vc_best.specs.Parts.{layout_of};
ghost use Rattle.vc_audit.specs.DebugGuard.{HasGuards};

mod alloc;
mod block;
mod check;
mod free;
mod guard;
mod open;
mod resize;
mod rows;
mod walk;
mod watch;

pub use rows::{debug_damage, debug_marks, debug_places, debug_resizing};
use vc_addrmap::AddrMap;
use vc_best::Best;

/// A region by exact best fit that finds damage around its blocks, after Vmalloc's `Vmdebug`. In front of the user's
/// bytes of each block stand 32 bytes of guard, and 16 bytes behind them. Addresses, sizes and bytes are the user's.
#[derive(Drop)]
pub struct Debug {
    /// The region whose blocks hold the guards and the user's bytes.
    pub best: Best,
    // The line of each block that is watched, by the address of the user's bytes.
    marks: AddrMap,
    /// Each block has room for its guards.
    pub ghost guarded: { HasGuards (layout_of best).blocks },
}
