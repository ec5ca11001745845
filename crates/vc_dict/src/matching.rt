ghost use Rattle.std.specs.Prelude.{◌≡◌, ℕ, ◌+◌, ◌≤◌, List, Some, length, if◌then◌else◌};
ghost use Rattle.vc_base.specs.Prelude.{HasBytes};
ghost use Rattle.vc_dtdisc.specs.Finds.{has_key, object_at};
ghost use Rattle.vc_dtlist.specs.Linked.{IsIn, StandsFor};
ghost use Rattle.vc_dtord.specs.Seeking.{SeeksLast, matches};
ghost use Rattle.vc_dict.specs.Stands.{Became, IsMember, Stands, compares_by};

use crate::Dict;
use crate::form::Form;
use vc_base::{Addr, Cells, Steps};
use vc_dtdisc::DictDisc;
use vc_dtlist::DtList;

// The second of two holders where its object has that key, and else the first, by one compare.
fn if_match<C: Cells, D: DictDisc, L>(
    cells: &C,
    kind: &D,
    last: Addr,
    at: Addr,
    key: &[u8],
    steps: &mut Steps<L>,
) -> Addr
    requires { HasBytes (C.blocks cells.now) at.0 32 }
    ensures value { result.0
        ≡ (if has_key (D.rules kind.now) (C.blocks cells.now) key.now at.0 then at.0
        else last.0) }
    ensures step { steps.new ≡ steps.old + 1 }
{
    if kind.compare(kind.key(cells.body(at)), key, steps).is_eq() {
        at
    } else {
        last
    }
}

// The last holder of a list, of at most so many, whose object matches that of one of it: that one, or one behind it. It
// makes one compare for each holder behind it.
fn last_in_list<C: Cells, D: DictDisc, L>(
    list: &DtList,
    count: u64,
    cells: &C,
    kind: &D,
    at: Addr,
    steps: &mut Steps<L>,
) -> Addr
    requires within { IsIn list.now (C.blocks cells.now) at.0 }
    requires count { (holders : List ℕ) → StandsFor list.now (C.blocks cells.now) holders
        → length holders ≤ count }
    ensures { (holders : List ℕ) → StandsFor list.now (C.blocks cells.now) holders
        → SeeksLast (matches (D.rules kind.now) (C.blocks cells.now) at.0) holders (Some result)
        steps.old steps.new }
{
    let key = kind.key(cells.body(at));
    let mut last = at;
    let mut next = list.next(cells, at);
    for _passed in 0..count {
        let Some(other) = next else {
            return last;
        };
        last = if_match(cells, kind, last, other, key, steps);
        next = list.next(cells, other);
    }
    last
}

impl Dict {
    /// The last holder whose object matches that of a holder of the dictionary: that one itself, where no other behind it
    /// does. A set or bag makes at most as many compares as there are holders whose hash belongs to the key's slot, any
    /// other at most as many as there are holders. It isn't made current. This project's own.
    pub fn last_like<C: Cells, D: DictDisc, L>(
        &mut self,
        cells: &mut C,
        kind: &D,
        at: Addr,
        steps: &mut Steps<L>,
    ) -> Addr
        requires { IsMember (D.rules kind.now) self.old (C.blocks cells.old) at.0 }
        ensures found { (holders : List ℕ)
            → Stands (D.rules kind.now) self.old (C.blocks cells.old) holders
            → SeeksLast (matches (D.rules kind.now) (C.blocks cells.old) at.0) holders
            (Some result) steps.old steps.new }
        ensures compares { (holders : List ℕ)
            → Stands (D.rules kind.now) self.old (C.blocks cells.old) holders
            → steps.new ≤ steps.old
            + compares_by (D.rules kind.now) self.old (C.blocks cells.old)
            ((D.rules kind.now).key (object_at (C.blocks cells.old) at.0)) holders }
        ensures dict { (holders : List ℕ)
            → Stands (D.rules kind.now) self.old (C.blocks cells.old) holders
            → Became (D.rules kind.now) holders self.old (C.blocks cells.old) self.new
            (C.blocks cells.new) holders self.old.current.0 }
        ensures rest { C.RestStays cells.old cells.new }
    {
        let count = self.count;
        match &mut self.heads {
            Form::Hash(hash) => hash.last_like(cells, kind, at, steps),
            Form::Order(ord) => ord.last_like(cells, kind, at, steps),
            Form::Links(list) => last_in_list(list, count, cells, kind, at, steps),
        }
    }
}
