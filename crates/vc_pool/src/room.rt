ghost use Rattle.std.specs.Prelude.{◌≡◌, ◌+◌, ◌≤◌, IfErr, IfOk, OnOk, replicate, vec_capacity, vec_len};

use std::alloc::Global;
use vc_seg::RegionFault;

// Room for so many more.
pub(crate) fn reserve<T>(list: &mut Vec<T>, more: usize) -> Result<(), RegionFault>
    ensures items { list.new.items ≡ list.old.items }
    ensures ok { OnOk result (vec_len list.new + more ≤ vec_capacity list.new) }
    ensures only { IfErr result (λ e. e ≡ RegionFault.OutOfMemory) }
{
    list.reserve(more).map_err(|_| RegionFault::OutOfMemory)
}

// A table with a pair (0, 0) for each of that many cells.
pub(crate) fn table_of(alloc: Global, cells: u32) -> Result<Vec<(u32, u32)>, RegionFault>
    ensures items { IfOk result (λ table. table.items ≡ replicate cells (0, 0)) }
    ensures only { IfErr result (λ e. e ≡ RegionFault.OutOfMemory) }
{
    vec![in alloc; (0u32, 0u32); cells as usize].map_err(|_| RegionFault::OutOfMemory)
}
