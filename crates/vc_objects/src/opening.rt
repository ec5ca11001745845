ghost use Rattle.std.specs.Prelude.{Some, IfOk, IfErr};
ghost use Rattle.vc_base.specs.Prelude.{HasOut};
ghost use Rattle.vc_dtdisc.specs.Rules.{Rules};
ghost use Rattle.vc_best.specs.Parts.{disc_in, segments_in};
ghost use Rattle.vc_seg.specs.Answer.{IsRefusal};
ghost use Rattle.vc_objects.specs.Leaves.{AskedTable};
ghost use Rattle.vc_objects.specs.Promises.{Opens, StaysAll, opening_in};

use crate::tables::put_table;
use vc_base::DictMethod;
use vc_best::Best;
use vc_dict::Dict;
use vc_dtdisc::DictDisc;
use vc_seg::{BoxedDisc, RegionFault, SegDisc};

/// A dictionary with no object in a best region, of a method, by the kind of that number. A set or bag gets a table of 16
/// slots; where no block is put for it, `TooManySegments`, `NoSegment` or `OutOfMemory` comes, and the region stays. The
/// region's segments are out of its discipline.
pub fn open<D: DictDisc>(
    best: &mut Best,
    method: DictMethod,
    kind: u32,
    rules: &D,
) -> Result<Dict, RegionFault>
    requires lent { HasOut (disc_in state best.old) (segments_in best.old) }

    ensures ok { IfOk result (λ dict. Opens state (D.rules rules.now) method kind
        best.old dict best.new) }
    ensures err { IfErr result (λ why. IsRefusal (opening_in state best.old method) why
        × StaysAll state best.old best.new) }
    ensures asked { AskedTable result (Some 16)
        (disc_in state best.old) (disc_in state best.new) }
{
    let mut dict = Dict::new(method, kind);
    match dict.wants_table(1) {
        None => Ok(dict),
        Some(slots) => match put_table(best, &mut dict, rules, slots) {
            Ok(()) => Ok(dict),
            Err(fault) => Err(fault),
        },
    }
}
