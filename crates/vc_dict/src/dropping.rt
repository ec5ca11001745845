ghost use Rattle.std.specs.Prelude.{ℕ, List, [], true};
ghost use Rattle.vc_dtlist.specs.Linked.{StandsFor};
ghost use Rattle.vc_dtlist.specs.TableWrites.{ChangesIn};
ghost use Rattle.vc_dthash.specs.Hashed.{CanChain, list_of};
ghost use Rattle.vc_dict.specs.Weeding.{CanSettle, IsSettled, Settled};

use crate::chained::weed_chains;
use crate::neighbours::weed_neighbours;
use crate::weeded::Weeded;
use vc_base::{Cells, DictMethod, Steps};
use vc_dtdisc::DictDisc;
use vc_dthash::DtHash;
use vc_dtlist::DtList;

// All holders of a list, put into the chains of a table.
fn chain_all<C: Cells, D: DictDisc>(hash: DtHash, cells: &mut C, kind: &D) -> Weeded
    requires { CanChain hash (C.blocks cells.old) }
    ensures { ChangesIn C.blocks C.RestStays cells.old cells.new
        (λ old new. (holders : List ℕ) → StandsFor (list_of hash) old holders
        → IsSettled true (D.rules kind.now) hash holders holders [] old result new) }
{
    hash.chain_up(cells, kind);
    Weeded {
        kept: DtList {
            first: hash.first,
            last: hash.last,
        },
        dropped: DtList::new(),
        count: hash.count,
    }
}

// The holders of a list that a method keeps, in its form, and those that it drops. The list's ends and count are those of
// a hash, which has the table of a set or bag.
pub(crate) fn weed_by<C: Cells, D: DictDisc, L>(
    method: DictMethod,
    hash: DtHash,
    cells: &mut C,
    kind: &D,
    steps: &mut Steps<L>,
) -> Weeded
    requires { CanSettle (D.rules kind.now) method hash (C.blocks cells.old) }
    ensures { ChangesIn C.blocks C.RestStays cells.old cells.new
        (λ old new. (holders : List ℕ) → StandsFor (list_of hash) old holders
        → Settled (D.rules kind.now) method hash holders old result new) }
{
    let list = DtList {
        first: hash.first,
        last: hash.last,
    };
    if method.has_table() {
        if method.is_set() {
            weed_chains(hash, cells, kind, steps)
        } else {
            chain_all(hash, cells, kind)
        }
    } else if method.is_set() {
        weed_neighbours(list, hash.count, cells, kind, steps)
    } else {
        Weeded {
            kept: list,
            dropped: DtList::new(),
            count: hash.count,
        }
    }
}
