ghost use Rattle.std.specs.Prelude.{◌≡◌, ◌+◌, ◌≤◌, option_map};
ghost use Rattle.vc_dict.specs.Listed.{holders_of};
ghost use Rattle.vc_dict.specs.Stands.{compares_by};
ghost use Rattle.vc_dtdisc.specs.Objects.{address_of, bytes_of, first_with};
ghost use Rattle.vc_dtlist.specs.Linked.{number_of};
ghost use Rattle.vc_best.specs.Cells.{cells_in, rest_in};
ghost use Rattle.vc_objects.specs.Leaves.{Looks};
ghost use Rattle.vc_objects.specs.Parts.{IsWhole, dictionary_in};

use vc_base::{Addr, Steps};
use vc_best::Best;
use vc_dict::Dict;
use vc_dtdisc::DictDisc;
use vc_seg::{BoxedDisc, SegDisc};

/// The holder of the first object that has a key. In a set or bag it compares at most as many times as there are holders
/// whose hash belongs to the key's slot, by any other method at most as many times as there are holders.
pub fn find<D: DictDisc, L>(
    best: &mut Best,
    dict: &mut Dict,
    kind: &D,
    key: &[u8],
    steps: &mut Steps<L>,
) -> Option<Addr>
    requires whole { IsWhole (D.rules kind.now) dict.old (cells_in best.old) }
    ensures found { option_map number_of result ≡ option_map address_of
        (first_with bytes_of (D.rules kind.now) key.now (dictionary_in dict.old best.old).objects) }
    ensures compares { steps.new ≤ steps.old + compares_by (D.rules kind.now)
        dict.old (cells_in best.old) key.now (holders_of dict.old (cells_in best.old)) }
    ensures looks { Looks state (D.rules kind.now) best.old dict.old best.new dict.new }
{
    dict.find(best, kind, key, steps)
}
