ghost use Rattle.std.specs.Prelude.{◌≡◌, ◌<◌, true};
ghost use Rattle.vc_base.specs.Prelude.{HasBytes, IsHolder, word_at};
ghost use Rattle.vc_dtlist.specs.TableWrites.{ChangesIn};
ghost use Rattle.vc_dtord.specs.Nodes.{is_node};
ghost use Rattle.vc_dtord.specs.WordWrites.{IsHolderCleared, NumberWritten};

use vc_base::{Addr, Cells};
use vc_dtlist::neighbour;

// Word k of a node, from 0 to 2: its left child, its right child or its parent.
#[inline(always)]
pub(crate) fn link_at<C: Cells>(cells: &C, n: u32, k: u32) -> u32
    requires word { k < 3 }
    requires node { is_node (C.blocks cells.now) n ≡ true }
    ensures { result ≡ word_at (C.blocks cells.now) n k }
{
    neighbour(cells, Addr(n), k).0
}

// Writes a number below 2^32 into word k of a holder, from 0 to 3.
#[inline(always)]
pub(crate) fn write_word<C: Cells>(cells: &mut C, at: Addr, k: u32, value: u32)
    requires word { k < 4 }
    requires holder { HasBytes (C.blocks cells.old) at.0 32 }
    ensures { ChangesIn C.blocks C.RestStays cells.old cells.new
        (λ old new. NumberWritten old new at.0 k value) }
{
    cells.store(at, k, value as u64);
}

/// Makes the four words of a holder 0, whatever they were. The block has 33 bytes at least.
pub fn clear_words<C: Cells>(cells: &mut C, at: Addr)
    requires { IsHolder (C.blocks cells.old) at.0 }
    ensures { ChangesIn C.blocks C.RestStays cells.old cells.new
        (λ old new. IsHolderCleared old new at.0) }
{
    write_word(cells, at, 0, 0);
    write_word(cells, at, 1, 0);
    write_word(cells, at, 2, 0);
    write_word(cells, at, 3, 0);
}
