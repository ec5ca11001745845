ghost use Rattle.std.specs.Prelude.{◌≡◌, ◌+◌, ◌<◌, ◌≤◌, [], ◌∷◌, ◌++◌, Ok, map, vec_capacity, vec_len};
ghost use Rattle.vc_base.specs.Address.{number_of};
ghost use Rattle.vc_base.specs.Prelude.{HasOut};
ghost use Rattle.vc_best.specs.Parts.{blocks_in, disc_in, segments_in};
ghost use Rattle.vc_seg.specs.OneBlock.{IsSize};
ghost use Rattle.vc_cost.specs.BestCalls.{AreLive, HasSize};
ghost use Rattle.vc_cost.specs.BestCosts.{MakesBest};
ghost use Rattle.vc_cost.specs.declared.best_call.BestCall.TheVariants.{Alloc, Resize, Free};

use crate::BestCall;
use vc_base::{Addr, Steps};
use vc_best::Best;
use vc_seg::{RegionFault, SegDisc};

// Puts an address behind the others, where there is room for it.
fn put_behind(live: &mut Vec<Addr>, at: Addr)
    requires { vec_len live.old < vec_capacity live.old }
    ensures items { live.new.items ≡ live.old.items ++ at ∷ [] }
    ensures capacity { vec_capacity live.old ≤ vec_capacity live.new }
{
    // There is room, so this takes no memory and can't fail.
    let _ = live.push(at);
}

// Puts a block, which is the last live one then.
fn alloc_last<L>(
    best: &mut Best,
    live: &mut Vec<Addr>,
    size: u32,
    steps: &mut Steps<L>,
) -> Result<(), RegionFault>
    requires live { AreLive (blocks_in best.old) (map number_of live.old.items) }
    requires size { IsSize size }
    requires lent { HasOut (disc_in state best.old) (segments_in best.old) }
    requires room { vec_len live.old < vec_capacity live.old }
    ensures made { MakesBest state (Alloc size) best.old best.new live.old.items live.new.items
        steps.old steps.new result }
    ensures few { vec_len live.new ≤ vec_len live.old + 1 }
    ensures capacity { vec_capacity live.old ≤ vec_capacity live.new }
{
    match best.alloc(size, 32, 0, steps) {
        Ok(at) => {
            put_behind(live, at);
            Ok(())
        }
        Err(fault) => Err(fault),
    }
}

// Gives the n-th live block another size, where there is one.
fn resize_nth<L>(
    best: &mut Best,
    live: &mut Vec<Addr>,
    n: u32,
    size: u32,
    steps: &mut Steps<L>,
) -> Result<(), RegionFault>
    requires live { AreLive (blocks_in best.old) (map number_of live.old.items) }
    requires size { IsSize size }
    requires lent { HasOut (disc_in state best.old) (segments_in best.old) }
    ensures made { MakesBest state (Resize n size) best.old best.new live.old.items live.new.items
        steps.old steps.new result }
    ensures few { vec_len live.new ≡ vec_len live.old }
    ensures capacity { vec_capacity live.old ≤ vec_capacity live.new }
{
    if n as usize >= live.len() {
        return Ok(());
    }
    match best.resize(live[n as usize], size, true, steps) {
        Ok(to) => {
            live[n as usize] = to;
            Ok(())
        }
        Err(fault) => Err(fault),
    }
}

// Frees the n-th live block, where there is one.
fn free_nth<L>(best: &mut Best, live: &mut Vec<Addr>, n: u32, steps: &mut Steps<L>)
    requires live { AreLive (blocks_in best.old) (map number_of live.old.items) }
    requires lent { HasOut (disc_in state best.old) (segments_in best.old) }
    ensures made { MakesBest state (Free n) best.old best.new live.old.items live.new.items
        steps.old steps.new (Ok result) }
    ensures few { vec_len live.new ≤ vec_len live.old }
    ensures capacity { vec_capacity live.old ≤ vec_capacity live.new }
{
    if n as usize >= live.len() {
        return;
    }
    let at = live.remove(n as usize);
    best.free(at, steps);
}

// Makes one call on a best region whose live blocks are in the list, which has room for one more.
pub(crate) fn make_best<L>(
    best: &mut Best,
    live: &mut Vec<Addr>,
    call: &BestCall,
    steps: &mut Steps<L>,
) -> Result<(), RegionFault>
    requires live { AreLive (blocks_in best.old) (map number_of live.old.items) }
    requires size { HasSize call.now }
    requires lent { HasOut (disc_in state best.old) (segments_in best.old) }
    requires room { vec_len live.old < vec_capacity live.old }
    ensures made { MakesBest state call.now best.old best.new live.old.items live.new.items
        steps.old steps.new result }
    ensures few { vec_len live.new ≤ vec_len live.old + 1 }
    ensures capacity { vec_capacity live.old ≤ vec_capacity live.new }
{
    match call {
        BestCall::Alloc(size) => alloc_last(best, live, *size, steps),
        BestCall::Resize(n, size) => resize_nth(best, live, *n, *size, steps),
        BestCall::Free(n) => {
            free_nth(best, live, *n, steps);
            Ok(())
        }
        BestCall::Clear => {
            best.clear(steps);
            live.clear();
            Ok(())
        }
        BestCall::Compact => {
            best.compact(steps);
            Ok(())
        }
    }
}
