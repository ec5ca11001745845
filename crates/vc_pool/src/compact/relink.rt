ghost use Rattle.std.specs.Prelude.{◌≡◌, ℕ, ◌<◌, ◌≤◌, List, ◌∷◌, false, filter, length, slice_index_or};
ghost use Rattle.vc_base.specs.Prelude.{place_of, cell_for};
ghost use Rattle.vc_pool.specs.Cells.Blocks.{carved_by, layout_by};
ghost use Rattle.vc_pool.specs.Cells.Freed.{freed_cells, freed_link};
ghost use Rattle.vc_pool.specs.Cells.Kept.{AreCellular, IsPool};
ghost use Rattle.vc_pool.specs.Cells.Place.{IsListed, cells_in};
ghost use Rattle.vc_pool.specs.Relink.{HasSplit, IsRelinked, IsSifted, IsSplit, KeepsAll};

use crate::cells::{PoolSegment, find_cell};
use vc_base::Addr;
use vc_seg::rounded_up;

// The address that the cell at one names.
fn link_of(segs: &[PoolSegment], element: u32, a: Addr) -> Addr
    requires kept { AreCellular element (cells_in segs.now) }
    requires listed { IsListed (cell_for element) (cells_in segs.now) (place_of a.0) }
    requires fits { freed_link (cells_in segs.now) a.0 < 4294967296 }
    ensures { result.0 ≡ freed_link (cells_in segs.now) a.0 }
{
    let cell = rounded_up(element, 32);
    let (place, index) = find_cell(segs, element, a);
    segs[place].link(cell, index)
}

// The cell at an address, in which no block is, names another.
fn set_link(segs: &mut [PoolSegment], element: u32, a: Addr, link: Addr)
    requires kept { AreCellular element (cells_in segs.old) }
    requires listed { IsListed (cell_for element) (cells_in segs.old) (place_of a.0) }
    ensures { IsRelinked (cell_for element) (cells_in segs.old) (cells_in segs.new) a.0 link.0 }
{
    let cell = rounded_up(element, 32);
    let (place, index) = find_cell(segs, element, a);
    segs[place].release(cell, index, link);
}

// The freed cell behind one, or the one freed last where that is none, leaves the chain, and the one at another address
// stands in its place.
fn leave_out(
    segs: &mut [PoolSegment],
    freed: &mut Addr,
    element: u32,
    last: Addr,
    at: Addr,
    next: Addr,
)
    requires split { HasSplit element (cells_in segs.old) freed.old.0 last.0 at.0 }
    requires some { 1 ≤ at.0 }
    requires next { next.0 ≡ freed_link (cells_in segs.old) at.0 }
    ensures split { (kept rest : List (ℕ × ℕ)) → (p : ℕ × ℕ)
        → IsSplit element (cells_in segs.old) freed.old.0 last.0 at.0 kept (p ∷ rest)
        → IsSplit element (cells_in segs.new) freed.new.0 last.0 next.0 kept rest }
    ensures keeps { KeepsAll (cell_for element) (cells_in segs.old) (cells_in segs.new) }
{
    if last.0 == 0 {
        *freed = next;
    } else {
        set_link(segs, element, last, next);
    }
}

// Goes on by one freed cell, which stays in the chain where its segment's number is marked. Answers the last cell that
// stays and the next one to be looked at.
fn sift(
    segs: &mut [PoolSegment],
    freed: &mut Addr,
    element: u32,
    marks: &[bool],
    last: Addr,
    at: Addr,
) -> (Addr, Addr)
    requires split { HasSplit element (cells_in segs.old) freed.old.0 last.0 at.0 }
    requires some { 1 ≤ at.0 }
    requires marks { length marks.now ≡ 1024 }
    ensures sifted { (all : List (ℕ × ℕ))
        → IsSifted element (λ n. slice_index_or marks.now n false) all (cells_in segs.old) freed.old.0 last.0 at.0
        → IsSifted element (λ n. slice_index_or marks.now n false) all (cells_in segs.new) freed.new.0 result.0.0 result.1.0 }
    ensures less { length (freed_cells (cells_in segs.new) result.1.0) < length (freed_cells (cells_in segs.old) at.0) }
    ensures keeps { KeepsAll (cell_for element) (cells_in segs.old) (cells_in segs.new) }
{
    let next = link_of(segs, element, at);
    if marks[at.seg() as usize] {
        return (at, next);
    }
    leave_out(segs, freed, element, last, at, next);
    (last, next)
}

// The freed cells whose segment's number isn't marked leave the chain. The order of the others stays.
pub(crate) fn relink(segs: &mut [PoolSegment], freed: &mut Addr, element: u32, marks: &[bool])
    requires kept { IsPool element (cells_in segs.old) freed.old.0 }
    requires marks { length marks.now ≡ 1024 }
    ensures kept { IsPool element (cells_in segs.new) freed.new.0 }
    ensures freed { freed_cells (cells_in segs.new) freed.new.0
        ≡ filter (λ p. slice_index_or marks.now p.0 false) (freed_cells (cells_in segs.old) freed.old.0) }
    ensures keeps { KeepsAll (cell_for element) (cells_in segs.old) (cells_in segs.new) }
{
    let mut last = Addr::NONE;
    let mut at = *freed;
    while at.0 != 0 {
        let (kept, next) = sift(segs, freed, element, marks, last, at);
        last = kept;
        at = next;
    }
}
