ghost use Rattle.std.specs.Prelude.{◌≡◌, ◌≢◌, ℕ, Some, IsSome, OnErr, OnOk};
ghost use Rattle.vc_base.specs.Prelude.{HasOut};
ghost use Rattle.vc_best.specs.Cells.{cells_in, rest_in};
ghost use Rattle.vc_best.specs.Parts.{disc_in, segments_in};
ghost use Rattle.vc_objects.specs.Unlabelled.{StaysAround};
ghost use Rattle.vc_objects.specs.Insert.{without_table};
ghost use Rattle.vc_objects.specs.Leaves.{Leaves};
ghost use Rattle.vc_objects.specs.Objects.{own_blocks};
ghost use Rattle.vc_objects.specs.Parts.{CanGrow, IsWhole, dictionary_in, table_of};
ghost use Rattle.vc_objects.specs.Promises.{Grows, table_in};

use crate::cells::{alloc_cell, free_cell};
use vc_base::Addr;
use vc_best::Best;
use vc_dict::Dict;
use vc_dtdisc::DictDisc;
use vc_seg::{BoxedDisc, RegionFault, SegDisc};

// Frees a table, where there is one.
pub(crate) fn free_table(best: &mut Best, at: Addr)
    requires there { at.0 ≢ 0 → IsSome (cells_in best.old at.0) }

    ensures rest { (slots : ℕ) → rest_in best.new
        ≡ without_table (rest_in best.old) (table_of at.0 slots) }
    ensures others { (a : ℕ) → a ≢ at.0 → cells_in best.new a ≡ cells_in best.old a }
    ensures around { StaysAround state best.old best.new }
{
    if at != Addr::NONE {
        free_cell(best, at);
    }
}

// A block becomes the table of a set or bag, and the table before it goes.
pub(crate) fn put_table<D: DictDisc>(
    best: &mut Best,
    dict: &mut Dict,
    kind: &D,
    slots: u32,
) -> Result<(), RegionFault>
    requires grows { CanGrow (D.rules kind.now) dict.old (cells_in best.old) slots }
    requires lent { HasOut (disc_in state best.old) (segments_in best.old) }

    ensures grows { Grows state result (table_in state best.old dict.old slots) (Some slots)
        best.old dict.old best.new dict.new }
    ensures whole { OnOk result (IsWhole (D.rules kind.now) dict.new (cells_in best.new)) }
    ensures kind { dict.new.kind ≡ dict.old.kind }
    ensures leaves { Leaves state best.old best.new
        (own_blocks (dictionary_in dict.old best.old)) (own_blocks (dictionary_in dict.new best.new)) }

    // With no block for it nothing changed.
    ensures err { OnErr result ((cells_in best.new ≡ cells_in best.old) × (dict.new ≡ dict.old)) }
{
    match alloc_cell(best, 8 * slots) {
        Ok(table) => {
            let old = dict.adopt_table(best, kind, table, slots);
            free_table(best, old);
            Ok(())
        }
        Err(fault) => Err(fault),
    }
}
