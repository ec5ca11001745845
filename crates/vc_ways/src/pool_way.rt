ghost use Rattle.std.specs.Prelude.{◌≡◌, ◌≢◌, ℕ, IfOk, ◌<◌, ◌≤◌, length, true};
ghost use Rattle.vc_base.specs.Prelude.{place_of, HasBlock};
ghost use Rattle.vc_seg.specs.OneBlock.{IsSize};
ghost use Rattle.vc_ways.specs.Answer.{GivesOutcome, KeepsWays};
ghost use Rattle.vc_ways.specs.PoolParts.{CanAskPools, CellComes, HasCell, LeavesPools, class_blocks, holdings, pools_of, terms_in};
ghost use Rattle.vc_ways.specs.PoolWay.{cell_free, cell_put, cell_sized, class_of};

use vc_base::Addr;
use vc_pool::Pool;
use vc_seg::RegionFault;

// The bytes of each class.
const CLASSES: [u32; 20] = [
    32, 64, 128, 256, 512, 1024, 2048, 4096, 8192, 16384, 32768, 65536, 131072, 262144, 524288,
    1048576, 2097152, 4194304, 8388608, 16777216,
];

// How many classes are smaller than a block.
fn smaller_classes(size: u32) -> usize
    ensures { result ≡ class_of size }
{
    CLASSES.iter().filter(|bytes| **bytes < size).count()
}

// The least class that holds a block.
pub(crate) fn class_of(size: u32) -> usize
    requires { size ≤ 16777216 }
    ensures value { result ≡ class_of size }
    ensures few { result < 20 }
{
    smaller_classes(size)
}

// Puts a block into a cell of its class. The faults are those of the pool's `alloc`.
pub(crate) fn put_cell(pools: &mut Vec<Pool>, size: u32) -> Result<Addr, RegionFault>
    requires can { CanAskPools state pools.old.items size }
    ensures answer { GivesOutcome
        (cell_put (terms_in (holdings state pools.old.items)) (pools_of pools.old.items) size)
        (λ a. place_of a.0) result (pools_of pools.new.items) }
    ensures leaves { LeavesPools state pools.old.items size result pools.new.items }
    ensures others { (class : ℕ) → class ≢ class_of size
        → class_blocks (pools_of pools.new.items) class ≡ class_blocks (pools_of pools.old.items) class }
    ensures comes { IfOk result (λ a. CellComes (λ _ _. Unit {0}) (pools_of pools.old.items)
        (class_of size) a.0 (pools_of pools.new.items)) }
{
    let class = class_of(size);
    let bytes = CLASSES[class];
    pools[class].alloc(bytes, 0)
}

// Frees the cell at an address of the class of a size.
pub(crate) fn free_cell(pools: &mut Vec<Pool>, size: u32, at: Addr)
    requires size { IsSize size }
    requires classes { length pools.old.items ≡ 20 }
    requires block { HasCell (pools_of pools.old.items) size at.0 }
    ensures pools { pools_of pools.new.items
        ≡ cell_free (pools_of pools.old.items) size (place_of at.0) }
    ensures keeps { KeepsWays true (holdings state pools.old.items) (holdings state pools.new.items) }
    ensures classes { length pools.new.items ≡ 20 }
    ensures others { (class a : ℕ) → HasBlock (class_blocks (pools_of pools.old.items) class) a
        → (class ≡ class_of size → a ≢ at.0)
        → HasBlock (class_blocks (pools_of pools.new.items) class) a }
{
    let class = class_of(size);
    pools[class].free(at);
}

// Gives the block of a size at an address another size, and answers where it is then. Within its class nothing changes;
// into another class it is put first, and then its old cell is free.
pub(crate) fn resize_cell(
    pools: &mut Vec<Pool>,
    old: u32,
    at: Addr,
    size: u32,
) -> Result<Addr, RegionFault>
    requires can { CanAskPools state pools.old.items size }
    requires old { IsSize old }
    requires block { HasCell (pools_of pools.old.items) old at.0 }
    ensures answer { GivesOutcome
        (cell_sized (terms_in (holdings state pools.old.items)) (pools_of pools.old.items) old
        (place_of at.0) size)
        (λ a. place_of a.0) result (pools_of pools.new.items) }
    ensures leaves { LeavesPools state pools.old.items size result pools.new.items }
    ensures comes { IfOk result (λ to. CellComes
        (λ class a. class ≡ class_of old → a ≢ at.0) (pools_of pools.old.items)
        (class_of size) to.0 (pools_of pools.new.items)) }
{
    if class_of(size) == class_of(old) {
        return Ok(at);
    }
    match put_cell(pools, size) {
        Ok(to) => {
            free_cell(pools, old, at);
            Ok(to)
        }
        Err(fault) => Err(fault),
    }
}
