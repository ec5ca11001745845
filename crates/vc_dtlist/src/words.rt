ghost use Rattle.std.specs.Prelude.{◌≡◌, ◌<◌, ◌^◌, ◌==◌, if◌then◌else◌};
ghost use Rattle.std.specs.Option.{option_map};
ghost use Rattle.vc_base.specs.Prelude.{some_address, HasBytes, word_at};
ghost use Rattle.vc_base.specs.Cells.{WordWritten};
ghost use Rattle.vc_dtlist.specs.Linked.{HasWords};
ghost use Rattle.vc_dtlist.specs.TableWrites.{ChangesIn, EndsWritten, PlainWritten};

use vc_base::{Addr, Cells};

/// Writes word k, from 0 to 3, of a holder. Which blocks there are, their sizes and the bytes behind their words stay.
pub fn set_word<C: Cells>(cells: &mut C, at: Addr, k: u32, value: u64)
    requires word { k < 4 }
    requires holder { HasBytes (C.blocks cells.old) at.0 32 }
    ensures { ChangesIn C.blocks C.RestStays cells.old cells.new
        (λ old new. WordWritten old new at.0 k value) }
{
    cells.store(at, k, value);
}

// Writes the words of a holder that name its neighbours.
pub(crate) fn set_ends<C: Cells>(cells: &mut C, at: Addr, before: Addr, behind: Addr)
    requires { HasBytes (C.blocks cells.old) at.0 32 }
    ensures { ChangesIn C.blocks C.RestStays cells.old cells.new
        (EndsWritten at.0 before.0 behind.0) }
{
    set_word(cells, at, 0, before.0 as u64);
    set_word(cells, at, 1, behind.0 as u64);
}

// Writes the other two words of a holder: 0 into each.
pub(crate) fn set_plain<C: Cells>(cells: &mut C, at: Addr)
    requires { HasBytes (C.blocks cells.old) at.0 32 }
    ensures { ChangesIn C.blocks C.RestStays cells.old cells.new (PlainWritten at.0) }
{
    set_word(cells, at, 2, 0);
    set_word(cells, at, 3, 0);
}

// Writes one word of a holder, where there is one.
pub(crate) fn set_link<C: Cells>(cells: &mut C, at: Addr, k: u32, to: Addr)
    requires word { k < 4 }
    requires holder { HasWords (C.blocks cells.old) at.0 }
    ensures { ChangesIn C.blocks C.RestStays cells.old cells.new
        (λ old new. WordWritten old new at.0 k to.0) }
{
    if at != Addr::NONE {
        set_word(cells, at, k, to.0 as u64);
    }
}

/// The address in word k, from 0 to 3, of a holder. The word is below 2^32.
pub fn neighbour<C: Cells>(cells: &C, at: Addr, k: u32) -> Addr
    requires word { k < 4 }
    requires holder { HasBytes (C.blocks cells.now) at.0 32 }
    requires fits { word_at (C.blocks cells.now) at.0 k < 2 ^ 32 }
    ensures { result.0 ≡ word_at (C.blocks cells.now) at.0 k }
{
    Addr(cells.load(at, k) as u32)
}

// One address where there is none, and another where there is one.
pub(crate) fn end_of(at: Addr, none: Addr, some: Addr) -> Addr
    ensures { result.0 ≡ (if at.0 == 0 then none.0 else some.0) }
{
    if at == Addr::NONE { none } else { some }
}

/// An address, or none where it is `Addr::NONE`.
pub fn found(at: Addr) -> Option<Addr>
    ensures { option_map (λ a. a.0) result ≡ some_address at.0 }
{
    if at == Addr::NONE { None } else { Some(at) }
}
