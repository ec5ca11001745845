ghost use Rattle.std.specs.Prelude.{◌≡◌, ◌-◌, ◌≤◌, List, Option, [], ◌∷◌, All, IfOk, replicate};
ghost use Rattle.vc_model.specs.Layout.{empty_layout};
ghost use Rattle.vc_model.specs.Pool.{empty_pool};
ghost use Rattle.vc_last.specs.Parts as last;
ghost use Rattle.vc_best.specs.Parts as best;
ghost use Rattle.vc_pool.specs.Parts.{pool_of};
ghost use Rattle.vc_ways.specs.Answer.{HasOwnSegmentsOut};
ghost use Rattle.vc_ways.specs.LastParts.{last_holding};
ghost use Rattle.vc_ways.specs.Lends.{HasAllBack, HasLent, HasOpened, Lends, OpensMore};
ghost use Rattle.vc_ways.specs.PoolParts.{holding_in, holdings, pools_of};
ghost use Rattle.vc_ways.specs.Regions.{new_regions};
ghost use Rattle.vc_ways.specs.RegionsParts.{all_holdings, best_holding, regions_of};
ghost use Rattle.vc_ways.specs.Settled.{slots_on};
ghost use Rattle.vc_model.specs.Discipline.{Discipline};

use crate::close::close_pools;
use crate::{LastWay, Regions};
use std::alloc::Global;
use vc_base::OutOfMemory;
use vc_best::Best;
use vc_last::Last;
use vc_pool::Pool;
use vc_seg::{SegDisc, Shelf};

// A best region over the discipline of place 1. With no memory the discipline stands there again. Where none stands there
// the answer is the same. The check asks for a condition on a call that could drop a box; this one always holds.
fn open_best(alloc: Global, shelf: &mut Shelf) -> Result<Best, OutOfMemory>
    requires { 0 ≤ 0 }
    ensures lends { OpensMore (λ b. best_holding state b ∷ []) 0 result
        (slots_on state shelf.old) (slots_on state shelf.new) }
    ensures opened { IfOk result (λ b. best.layout_of b ≡ empty_layout) }
{
    let Some(disc) = shelf.take(1) else {
        return Err(OutOfMemory);
    };
    match Best::open(alloc, disc) {
        Ok(best) => Ok(best),
        Err((fault, disc)) => {
            shelf.give_back(1, disc);
            Err(fault)
        }
    }
}

// A last region over the discipline of place 2, likewise.
fn open_last(alloc: Global, shelf: &mut Shelf) -> Result<Last, OutOfMemory>
    requires { 0 ≤ 0 }
    ensures lends { OpensMore (λ l. last_holding state l ∷ []) 1 result
        (slots_on state shelf.old) (slots_on state shelf.new) }
    ensures opened { IfOk result (λ l. last.layout_of l ≡ empty_layout) }
{
    let Some(disc) = shelf.take(2) else {
        return Err(OutOfMemory);
    };
    match Last::open(alloc, disc) {
        Ok(last) => Ok(last),
        Err((fault, disc)) => {
            shelf.give_back(2, disc);
            Err(fault)
        }
    }
}

// A pool over the discipline of a place, likewise.
fn open_pool(alloc: Global, shelf: &mut Shelf, n: u32) -> Result<Pool, OutOfMemory>
    requires { 1 ≤ n }
    ensures lends { OpensMore (λ p. holding_in state p ∷ []) (n - 1) result
        (slots_on state shelf.old) (slots_on state shelf.new) }
    ensures opened { IfOk result (λ p. pool_of p ≡ empty_pool) }
{
    let Some(disc) = shelf.take(n) else {
        return Err(OutOfMemory);
    };
    match Pool::open(alloc, disc) {
        Ok(pool) => Ok(pool),
        Err((fault, disc)) => {
            shelf.give_back(n, disc);
            Err(fault)
        }
    }
}

// A pool for each class, over the disciplines of places 3 to 22, likewise.
fn open_pools(alloc: Global, shelf: &mut Shelf) -> Result<Vec<Pool>, OutOfMemory>
    requires { HasOpened 2 (slots_on state shelf.old) }
    ensures lends { OpensMore (λ pools. holdings state pools.items) 2 result
        (slots_on state shelf.old) (slots_on state shelf.new) }
    ensures opened { IfOk result (λ pools. pools_of pools.items ≡ replicate 20 empty_pool) }
    ensures lent { IfOk result (λ pools. All HasOwnSegmentsOut (holdings state pools.items)) }
{
    let mut pools = Vec::with_capacity(alloc, 20)?;
    while pools.len() < 20 {
        match open_pool(alloc, shelf, pools.len() as u32 + 3) {
            Ok(pool) => pools.push_reserved(pool),
            Err(fault) => {
                close_pools(pools, shelf);
                return Err(fault);
            }
        }
    }
    Ok(pools)
}

// Gives the discipline of a best region back to place 1.
fn close_best(best: Best, shelf: &mut Shelf)
    requires lent { HasOwnSegmentsOut (best_holding state best) }
    requires taken { HasLent 1 (slots_on state shelf.old) }
    ensures { (old : List (Option Discipline)) → Lends (best_holding state best ∷ []) old (slots_on state shelf.old)
        → HasAllBack old (slots_on state shelf.new) }
{
    let (disc, _) = best.close();
    shelf.give_back(1, disc);
}

impl Regions {
    /// Regions without a block, over the disciplines of a shelf: the best region over that of place 1, the last one over that
    /// of place 2, and the classes over those of 3 to 22. With no memory, or where a place has no discipline, all are back.
    pub fn open(alloc: Global, shelf: &mut Shelf) -> Result<Regions, OutOfMemory>
        ensures lends { OpensMore (all_holdings state) 0 result
            (slots_on state shelf.old) (slots_on state shelf.new) }
        ensures none { IfOk result (λ r. regions_of r ≡ new_regions) }
        ensures lent { IfOk result (λ r. All HasOwnSegmentsOut (all_holdings state r)) }
    {
        let best = match open_best(alloc, shelf) {
            Ok(best) => best,
            Err(fault) => return Err(fault),
        };
        let last = match open_last(alloc, shelf) {
            Ok(last) => last,
            Err(fault) => {
                close_best(best, shelf);
                return Err(fault);
            }
        };
        match open_pools(alloc, shelf) {
            Ok(pools) => Ok(Regions {
                best,
                last: LastWay {
                    region: last,
                    dead: Vec::new(alloc),
                },
                pools,
            }),
            Err(fault) => {
                let (disc, _) = last.close();
                shelf.give_back(2, disc);
                close_best(best, shelf);
                Err(fault)
            }
        }
    }
}
