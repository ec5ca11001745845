ghost use Rattle.std.specs.Prelude.{◌↔◌, IsTrue};
ghost use Rattle.vc_dthash.specs.Slots.{IsSlots};
ghost use Rattle.vc_image_check.specs.Lists.Tables.{IsSoundTable};

use crate::lists::Holders;
use vc_base::Addr;

// Whether a table may have so many slots: 16, doubled at most 17 times.
fn is_slots(slots: u32) -> bool
    ensures { IsTrue result ↔ IsSlots slots }
{
    let mut next = 16u32;
    for _k in 0..18u32 {
        if next == slots {
            return true;
        }
        next *= 2;
    }
    false
}

/// Whether a block is the table of a set or bag of so many objects: it has 8 bytes for each of its slots, which are 16, doubled at
/// most 17 times, and at least one for two objects where there can be more. This project's own.
pub fn is_sound_table<N: Holders>(nodes: &N, count: u32, table: Addr, slots: u32) -> bool
    ensures { IsTrue result ↔ IsSoundTable (N.blocks nodes.now) count table.0 slots }
{
    if table.0 == 0 || !is_slots(slots) {
        return false;
    }
    if nodes.size(table.0) as u64 != 8 * slots as u64 {
        return false;
    }
    slots >= 2_097_152 || count as u64 <= 2 * slots as u64
}
