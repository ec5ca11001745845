ghost use Rattle.std.specs.Prelude.{◌≡◌, ℕ, ◌+◌, ◌≤◌, List, [], ◌∷◌, None, length};
ghost use Rattle.std.specs.Option.{option_map};
ghost use Rattle.vc_base.specs.Prelude.{Blocks, first_in, last_in, next_in, previous_in, without};
ghost use Rattle.vc_dtdisc.specs.Rules.{Rules};
ghost use Rattle.vc_dtlist.specs.Linked.{Finds, number_of};
ghost use Rattle.vc_dtlist.specs.TableWrites.{ChangesIn};
ghost use Rattle.vc_dthash.specs.Hashed.{Listed};
ghost use Rattle.vc_dthash.specs.Slots.{wanted_slots};
ghost use Rattle.vc_dict.specs.Changes.{order_by_link};
ghost use Rattle.vc_dict.specs.Stands.{AreHeads, CanJoin, HasHolder, HeadsFor, HeadsTurned, IsForm, IsHeads, heads_compares, slots_at, table_at};

use crate::flat::flatten;
use crate::heads::Heads;
use crate::places::put_linked;
use vc_base::{Addr, Cells, DictMethod, Steps};
use vc_dtdisc::DictDisc;
use vc_dthash::DtHash;
use vc_dtlist::DtList;
use vc_dtord::DtOrd;

/// The heads of a dictionary in the form that its method has. This project's own.
#[derive(Clone, Copy, Debug)]
pub enum Form {
    /// Of a set or bag.
    Hash(DtHash),
    /// Of an ordered set or bag.
    Order(DtOrd),
    /// Of a list, stack or queue.
    Links(DtList),
}

impl Form {
    ghost use Rattle.vc_dict.specs.Parts.{form_by, heads_at};

    // Those of a method and no holders.
    pub(crate) fn new(method: DictMethod) -> Form
        ensures form { IsForm method result }
        ensures stands { (rules : Rules) (blocks : Blocks) → HeadsFor rules result blocks [] }
        ensures table { table_at result ≡ record { 0 = 0 } }
        ensures slots { slots_at result ≡ 0 }
    {
        if method.has_table() {
            Form::Hash(DtHash {
                first: Addr::NONE,
                last: Addr::NONE,
                table: Addr::NONE,
                slots: 0,
                count: 0,
            })
        } else if method.is_ordered() {
            Form::Order(DtOrd::new())
        } else {
            Form::Links(DtList::new())
        }
    }

    // That of a method and a count with those of these numbers that it has a use for.
    pub(crate) fn of(method: DictMethod, count: u64, heads: Heads) -> Form
        ensures { result ≡ form_by method count heads }
    {
        if method.has_table() {
            Form::Hash(DtHash {
                first: heads.first,
                last: heads.last,
                table: heads.table,
                slots: heads.slots,
                count,
            })
        } else if method.is_ordered() {
            Form::Order(DtOrd { root: heads.root })
        } else {
            Form::Links(DtList {
                first: heads.first,
                last: heads.last,
            })
        }
    }

    // Its numbers.
    pub(crate) fn heads(&self) -> Heads
        ensures { result ≡ heads_at self.now }
    {
        match self {
            Form::Hash(hash) => Heads {
                first: hash.first,
                last: hash.last,
                table: hash.table,
                root: Addr::NONE,
                slots: hash.slots,
            },
            Form::Order(ord) => Heads {
                first: Addr::NONE,
                last: Addr::NONE,
                table: Addr::NONE,
                root: ord.root,
                slots: 0,
            },
            Form::Links(list) => Heads {
                first: list.first,
                last: list.last,
                table: Addr::NONE,
                root: Addr::NONE,
                slots: 0,
            },
        }
    }

    // The table of a set or bag, or none.
    pub(crate) fn table(&self) -> Addr
        ensures { result ≡ table_at self.now }
    {
        match self {
            Form::Hash(hash) => hash.table(),
            _ => Addr::NONE,
        }
    }

    // How many slots it has.
    pub(crate) fn slots(&self) -> u32
        ensures { result ≡ slots_at self.now }
    {
        match self {
            Form::Hash(hash) => hash.slots(),
            _ => 0,
        }
    }

    // The slots that a table is to have before so many more holders come, where there are so many.
    pub(crate) fn wants_table(&self, count: u64, more: u64) -> Option<u32>
        ensures { result ≡ wanted_slots (slots_at self.now) count more }
    {
        let hash = DtHash {
            first: Addr::NONE,
            last: Addr::NONE,
            table: Addr::NONE,
            slots: self.slots(),
            count,
        };
        hash.wants_table(more)
    }

    // Puts a holder where `insert` or `append` of a method does, whose form this is.
    pub(crate) fn link<C: Cells, D: DictDisc, L>(
        &mut self,
        cells: &mut C,
        kind: &D,
        method: DictMethod,
        current: Addr,
        at: Addr,
        append: bool,
        steps: &mut Steps<L>,
    )
        requires { CanJoin (D.rules kind.now) method self.old (C.blocks cells.old) current.0 at.0 append }
        ensures heads { ChangesIn C.blocks C.RestStays cells.old cells.new
            (λ old new. (holders : List ℕ) → HeadsFor (D.rules kind.now) self.old old holders
            → HeadsTurned (D.rules kind.now) (at.0 ∷ holders) self.old old self.new new
            (order_by_link append method (D.rules kind.now) old current.0 at.0 holders)) }
        ensures steps { (holders : List ℕ)
            → HeadsFor (D.rules kind.now) self.old (C.blocks cells.old) holders
            → steps.new ≤ steps.old + length holders }
    {
        match self {
            Form::Hash(hash) => hash.link(cells, kind, at),
            Form::Order(ord) => ord.link(cells, kind, at, steps),
            Form::Links(list) => put_linked(list, cells, append, method, current, at),
        }
    }

    // The first holder whose object has a key, for a caller that unlinks it or not. A search in a tree turns it.
    pub(crate) fn find<C: Cells, D: DictDisc, L>(
        &mut self,
        cells: &mut C,
        kind: &D,
        key: &[u8],
        unlinks: bool,
        steps: &mut Steps<L>,
    ) -> Option<Addr>
        requires { IsHeads (D.rules kind.now) self.old (C.blocks cells.old) }
        ensures found { (holders : List ℕ)
            → HeadsFor (D.rules kind.now) self.old (C.blocks cells.old) holders
            → Finds (D.rules kind.now) (C.blocks cells.old) key.now holders result
            steps.old steps.new }
        ensures compares { (holders : List ℕ)
            → HeadsFor (D.rules kind.now) self.old (C.blocks cells.old) holders
            → steps.new ≤ steps.old
            + heads_compares (D.rules kind.now) self.old (C.blocks cells.old) key.now holders }
        ensures heads { ChangesIn C.blocks C.RestStays cells.old cells.new
            (λ old new. (holders : List ℕ) → HeadsFor (D.rules kind.now) self.old old holders
            → HeadsTurned (D.rules kind.now) holders self.old old self.new new holders) }
    {
        match self {
            Form::Hash(hash) => hash.find(cells, kind, key, steps),
            Form::Order(ord) => ord.find(cells, kind, key, unlinks, steps),
            Form::Links(list) => list.find(cells, kind, key, steps),
        }
    }

    // Takes a holder out.
    pub(crate) fn unlink<C: Cells, D: DictDisc>(&mut self, cells: &mut C, kind: &D, at: Addr)
        requires { HasHolder self.old (C.blocks cells.old) at.0 }
        ensures { ChangesIn C.blocks C.RestStays cells.old cells.new
            (λ old new. (holders : List ℕ) → HeadsFor (D.rules kind.now) self.old old holders
            → HeadsTurned (D.rules kind.now) (at.0 ∷ holders) self.old old self.new new
            (without at.0 holders)) }
    {
        match self {
            Form::Hash(hash) => hash.unlink(cells, kind, at),
            Form::Order(ord) => ord.unlink(cells, at),
            Form::Links(list) => list.unlink(cells, at),
        }
    }

    // The first holder, or none where there are none.
    pub(crate) fn first<C: Cells>(&self, cells: &C) -> Option<Addr>
        requires { (rules : Rules) × IsHeads rules self.now (C.blocks cells.now) }
        ensures { (rules : Rules) (holders : List ℕ)
            → HeadsFor rules self.now (C.blocks cells.now) holders
            → option_map number_of result ≡ first_in holders }
    {
        match self {
            Form::Hash(hash) => hash.first(),
            Form::Order(ord) => ord.first(cells),
            Form::Links(list) => list.first(),
        }
    }

    // The last holder, or none where there are none.
    pub(crate) fn last<C: Cells>(&self, cells: &C) -> Option<Addr>
        requires { (rules : Rules) × IsHeads rules self.now (C.blocks cells.now) }
        ensures { (rules : Rules) (holders : List ℕ)
            → HeadsFor rules self.now (C.blocks cells.now) holders
            → option_map number_of result ≡ last_in holders }
    {
        match self {
            Form::Hash(hash) => hash.last(),
            Form::Order(ord) => ord.last(cells),
            Form::Links(list) => list.last(),
        }
    }

    // The holder behind one, or none behind the last.
    pub(crate) fn next<C: Cells>(&self, cells: &C, at: Addr) -> Option<Addr>
        requires { HasHolder self.now (C.blocks cells.now) at.0 }
        ensures { (rules : Rules) (holders : List ℕ)
            → HeadsFor rules self.now (C.blocks cells.now) holders
            → option_map number_of result ≡ next_in at.0 holders }
    {
        match self {
            Form::Hash(hash) => hash.next(cells, at),
            Form::Order(ord) => ord.next(cells, at),
            Form::Links(list) => list.next(cells, at),
        }
    }

    // The holder before one, or none before the first.
    pub(crate) fn prev<C: Cells>(&self, cells: &C, at: Addr) -> Option<Addr>
        requires { HasHolder self.now (C.blocks cells.now) at.0 }
        ensures { (rules : Rules) (holders : List ℕ)
            → HeadsFor rules self.now (C.blocks cells.now) holders
            → option_map number_of result ≡ previous_in None at.0 holders }
    {
        match self {
            Form::Hash(hash) => hash.prev(cells, at),
            Form::Order(ord) => ord.prev(cells, at),
            Form::Links(list) => list.prev(cells, at),
        }
    }

    // Their holders, of which there are so many, as a list.
    pub(crate) fn into_list<C: Cells>(self, count: u64, cells: &mut C) -> DtList
        requires { AreHeads self (C.blocks cells.old) count }
        ensures { ChangesIn C.blocks C.RestStays cells.old cells.new
            (λ old new. (rules : Rules) (holders : List ℕ) → HeadsFor rules self old holders
            → Listed holders old result new) }
    {
        match self {
            Form::Hash(hash) => hash.into_list(cells),
            Form::Order(ord) => flatten(ord, count, cells),
            Form::Links(list) => list,
        }
    }
}
