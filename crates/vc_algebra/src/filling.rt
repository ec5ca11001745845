ghost use Rattle.vc_best.specs.Cells.{rest_in};
ghost use Rattle.vc_best.specs.Parts.{disc_in};
ghost use Rattle.vc_dtdisc.specs.Rules.{IsObject};
ghost use Rattle.vc_objects.specs.Leaves.{LeavesRest};
ghost use Rattle.vc_objects.specs.Parts.{dictionary_in};
ghost use Rattle.vc_objects.specs.Promises.{CanAsk};
ghost use Rattle.vc_algebra.specs.Filling.{IsPutOrMatched};

use vc_base::{OutOfMemory, Steps};
use vc_best::Best;
use vc_dict::Dict;
use vc_dtdisc::DictDisc;
use vc_objects::Fate;
use vc_seg::{BoxedDisc, SegDisc};

// Puts an object into a dictionary, unless one of a set matches it.
pub(crate) fn put<D: DictDisc, L>(
    best: &mut Best,
    dict: &mut Dict,
    kind: &D,
    object: &[u8],
    steps: &mut Steps<L>,
) -> Result<Option<Fate>, OutOfMemory>
    requires ask { CanAsk state (D.rules kind.now) best.old dict.old }
    requires object { IsObject object.now }
    ensures put { IsPutOrMatched result (disc_in state best.old).terms (D.rules kind.now) object.now
        (rest_in best.old) (dictionary_in dict.old best.old)
        (rest_in best.new) (dictionary_in dict.new best.new) }
    ensures leaves { LeavesRest state (D.rules kind.now) best.old dict.old best.new dict.new }
{
    vc_objects::put(best, dict, kind, object, steps).transpose()
}
