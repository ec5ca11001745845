ghost use Rattle.std.specs.Prelude.{◌≡◌, ◌↔◌, IsTrue, true, false};
ghost use Rattle.vc_base.specs.Methods.{has_table, is_ordered};
ghost use Rattle.vc_dict.specs.Parts.{HasNoEnds, HasNoOtherHeads, HasNoTable};

use vc_base::DictMethod;
use vc_dict::Heads;

// Whether heads have neither a first nor a last holder.
fn has_no_ends(heads: &Heads) -> bool
    ensures { IsTrue result ↔ HasNoEnds heads.now }
{
    heads.first.0 == 0 && heads.last.0 == 0
}

// Whether heads have no table.
fn has_no_table(heads: &Heads) -> bool
    ensures { IsTrue result ↔ HasNoTable heads.now }
{
    heads.table.0 == 0 && heads.slots == 0
}

// Whether the heads that a method has no use for are 0.
pub(crate) fn has_no_other_heads(method: DictMethod, heads: &Heads) -> bool
    ensures { IsTrue result ↔ HasNoOtherHeads method heads.now }
{
    if method.is_ordered() {
        if !has_no_ends(heads) {
            return false;
        }
    } else if heads.root.0 != 0 {
        return false;
    }
    if method.has_table() {
        return true;
    }
    has_no_table(heads)
}
