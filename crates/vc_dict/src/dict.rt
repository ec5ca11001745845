ghost use Rattle.std.specs.Prelude.{◌≡◌, ℕ, ◌+◌, ◌<◌, ◌≤◌, List, [], ◌∷◌, ◌++◌, None, Some, true, false, Bool, length};
ghost use Rattle.std.specs.Option.{option_map};
ghost use Rattle.vc_base.specs.Prelude.{Blocks, IsHolder, contains, first_in, last_in, next_in, previous_in, without};
ghost use Rattle.vc_dtdisc.specs.Finds.{find_key};
ghost use Rattle.vc_dtdisc.specs.Rules.{Rules};
ghost use Rattle.vc_dtlist.specs.Linked.{Finds, number_of};
ghost use Rattle.vc_dtlist.specs.TableWrites.{ChangesIn};
ghost use Rattle.vc_dict.specs.Methods.{wanted_by};
ghost use Rattle.vc_dict.specs.Changes.{current_without, order_by_link, order_without};
ghost use Rattle.vc_dict.specs.Turned.{behind_dropped};
ghost use Rattle.vc_dict.specs.Stands.{Adopted, Became, CanAdopt, CanLink, IsDict, IsIn, IsKept, IsMember, Stands, compares_by, slots_in, table_in};

use crate::form::Form;
use vc_base::{Addr, Cells, DictMethod, Steps};
use vc_dtdisc::DictDisc;

/// A dictionary of holders by one of seven methods, and which of them is current. It allocates nothing, and none of its
/// calls can fail. After Cdt's dictionaries; that it stands over holders is this project's own.
#[derive(Debug, Drop)]
pub struct Dict {
    /// Its method.
    pub method: DictMethod,
    /// The number of its kind, by the caller's own count.
    pub kind: u32,
    /// How many holders there are, as Cdt's dtsize tells.
    pub count: u64,
    /// The current holder, or `Addr::NONE`.
    pub current: Addr,
    /// What leads to its holders.
    pub heads: Form,
}

/// What a change of method leaves over for the caller to free. This project's own.
#[derive(Clone, Copy, Debug, PartialEq, Eq)]
pub struct Dropped {
    /// The first of the holders that were dropped, or `Addr::NONE`; `after_dropped` tells the others.
    pub first: Addr,
    /// The table that is no longer used, or `Addr::NONE`.
    pub table: Addr,
}

impl Dict {
    /// A dictionary of no holders, with no current one and no table, for a set or bag too. After Cdt's dtopen.
    pub fn new(method: DictMethod, kind: u32) -> Dict
        ensures dict { (rules : Rules) (blocks : Blocks) → Stands rules result blocks [] }
        ensures method { result.method ≡ method }
        ensures kind { result.kind ≡ kind }
        ensures current { result.current.0 ≡ 0 }
        ensures table { (table_in result).0 ≡ 0 }
        ensures slots { slots_in result ≡ 0 }
    {
        Dict {
            method,
            kind,
            count: 0,
            current: Addr::NONE,
            heads: Form::new(method),
        }
    }

    /// How many slots the table has: 16, doubled at most 17 times, or 0 without one, as in every method but sets and
    /// bags. This project's own.
    pub fn slots(&self) -> u32
        ensures { result ≡ slots_in self.now }
    {
        self.heads.slots()
    }

    /// The table, a block of 8 bytes for each slot, or `Addr::NONE` without one, as in every method but sets and bags.
    /// This project's own.
    pub fn table(&self) -> Addr
        ensures { result ≡ table_in self.now }
    {
        self.heads.table()
    }

    /// The slots wanted before so many more objects are added, as `DtHash` tells: those of a first table for these, or
    /// twice those that are there. None where they are enough, where there are 2,097,152, or where the method has no
    /// table. This project's own.
    pub fn wants_table(&self, more: u64) -> Option<u32>
        ensures { result ≡ wanted_by self.now.method (slots_in self.now) self.now.count more }
    {
        if self.method.has_table() {
            self.heads.wants_table(self.count, more)
        } else {
            None
        }
    }

    /// Takes a block as the table of a set or bag, and answers the table before, or `Addr::NONE` where there was none.
    /// The block has 8 bytes for each slot and is neither a holder nor the table; there are 16 slots, doubled at most
    /// 17 times, and at most two objects for each, unless there are 2,097,152. This project's own.
    pub fn adopt_table<C: Cells, D: DictDisc>(
        &mut self,
        cells: &mut C,
        kind: &D,
        table: Addr,
        slots: u32,
    ) -> Addr
        requires { CanAdopt (D.rules kind.now) self.old (C.blocks cells.old) table.0 slots }
        ensures old { result ≡ table_in self.old }
        ensures dict { (holders : List ℕ)
            → Stands (D.rules kind.now) self.old (C.blocks cells.old) holders
            → Adopted (D.rules kind.now) table.0 slots holders self.old (C.blocks cells.old)
            self.new (C.blocks cells.new) }
        ensures rest { C.RestStays cells.old cells.new }
    {
        match &mut self.heads {
            Form::Hash(hash) => hash.adopt_table(cells, kind, table, slots),
            _ => unreachable!(),
        }
    }

    /// Puts a holder where `insert` does, or `append`, which is for lists, and makes it current. It has at least 33
    /// bytes and is neither in the dictionary nor its table; the current one is none or in it. A set or bag has a table,
    /// and `wants_table(1)` is none; in a set or ordered set no object matches. It compares at most as many times as there
    /// are holders. After Cdt's dtinsert and dtappend.
    pub fn link<C: Cells, D: DictDisc, L>(
        &mut self,
        cells: &mut C,
        kind: &D,
        at: Addr,
        append: bool,
        steps: &mut Steps<L>,
    )
        requires { CanLink (D.rules kind.now) self.old (C.blocks cells.old) at.0 append }
        ensures dict { (holders : List ℕ)
            → Stands (D.rules kind.now) self.old (C.blocks cells.old) holders
            → Became (D.rules kind.now) (at.0 ∷ holders) self.old (C.blocks cells.old) self.new
            (C.blocks cells.new)
            (order_by_link append self.old.method (D.rules kind.now) (C.blocks cells.old)
            self.old.current.0 at.0 holders)
            at.0 }
        ensures steps { (holders : List ℕ)
            → Stands (D.rules kind.now) self.old (C.blocks cells.old) holders
            → steps.new ≤ steps.old + length holders }
        ensures rest { C.RestStays cells.old cells.new }
    {
        self.heads
            .link(cells, kind, self.method, self.current, at, append, steps);
        self.count += 1;
        self.current = at;
    }

    /// The first holder whose object has that key, or none where no object has it. A set or bag makes at most as many
    /// compares as there are holders whose hash belongs to the key's slot, any other at most as many as there are holders.
    /// It isn't made current. After Cdt's dtsearch and dtmatch.
    pub fn find<C: Cells, D: DictDisc, L>(
        &mut self,
        cells: &mut C,
        kind: &D,
        key: &[u8],
        steps: &mut Steps<L>,
    ) -> Option<Addr>
        requires { IsDict (D.rules kind.now) self.old (C.blocks cells.old) }
        ensures found { (holders : List ℕ)
            → Stands (D.rules kind.now) self.old (C.blocks cells.old) holders
            → Finds (D.rules kind.now) (C.blocks cells.old) key.now holders result
            steps.old steps.new }
        ensures compares { (holders : List ℕ)
            → Stands (D.rules kind.now) self.old (C.blocks cells.old) holders
            → steps.new ≤ steps.old
            + compares_by (D.rules kind.now) self.old (C.blocks cells.old) key.now holders }
        ensures dict { (holders : List ℕ)
            → Stands (D.rules kind.now) self.old (C.blocks cells.old) holders
            → Became (D.rules kind.now) holders self.old (C.blocks cells.old) self.new
            (C.blocks cells.new) holders self.old.current.0 }
        ensures rest { C.RestStays cells.old cells.new }
    {
        self.look(cells, kind, key, false, steps)
    }

    // The same, for a caller that unlinks what is found or not.
    fn look<C: Cells, D: DictDisc, L>(
        &mut self,
        cells: &mut C,
        kind: &D,
        key: &[u8],
        unlinks: bool,
        steps: &mut Steps<L>,
    ) -> Option<Addr>
        requires { IsDict (D.rules kind.now) self.old (C.blocks cells.old) }
        ensures found { (holders : List ℕ)
            → Stands (D.rules kind.now) self.old (C.blocks cells.old) holders
            → Finds (D.rules kind.now) (C.blocks cells.old) key.now holders result
            steps.old steps.new }
        ensures compares { (holders : List ℕ)
            → Stands (D.rules kind.now) self.old (C.blocks cells.old) holders
            → steps.new ≤ steps.old
            + compares_by (D.rules kind.now) self.old (C.blocks cells.old) key.now holders }
        ensures dict { (holders : List ℕ)
            → Stands (D.rules kind.now) self.old (C.blocks cells.old) holders
            → Became (D.rules kind.now) holders self.old (C.blocks cells.old) self.new
            (C.blocks cells.new) holders self.old.current.0 }
        ensures rest { C.RestStays cells.old cells.new }
    {
        self.heads.find(cells, kind, key, unlinks, steps)
    }

    /// The first holder, or none where there are none. It isn't made current. After Cdt's dtfirst.
    pub fn first<C: Cells>(&self, cells: &C) -> Option<Addr>
        requires { IsKept self.now (C.blocks cells.now) }
        ensures { (rules : Rules) (holders : List ℕ)
            → Stands rules self.now (C.blocks cells.now) holders
            → option_map number_of result ≡ first_in holders }
    {
        self.heads.first(cells)
    }

    /// The last holder, or none where there are none. It isn't made current. After Cdt's dtlast.
    pub fn last<C: Cells>(&self, cells: &C) -> Option<Addr>
        requires { IsKept self.now (C.blocks cells.now) }
        ensures { (rules : Rules) (holders : List ℕ)
            → Stands rules self.now (C.blocks cells.now) holders
            → option_map number_of result ≡ last_in holders }
    {
        self.heads.last(cells)
    }

    /// The holder behind one of the dictionary, or none behind the last. It isn't made current. After Cdt's dtnext.
    pub fn next<C: Cells>(&self, cells: &C, at: Addr) -> Option<Addr>
        requires { IsIn self.now (C.blocks cells.now) at.0 }
        ensures { (rules : Rules) (holders : List ℕ)
            → Stands rules self.now (C.blocks cells.now) holders
            → option_map number_of result ≡ next_in at.0 holders }
    {
        self.heads.next(cells, at)
    }

    /// The holder before one of the dictionary, or none before the first. It isn't made current. After Cdt's dtprev.
    pub fn prev<C: Cells>(&self, cells: &C, at: Addr) -> Option<Addr>
        requires { IsIn self.now (C.blocks cells.now) at.0 }
        ensures { (rules : Rules) (holders : List ℕ)
            → Stands rules self.now (C.blocks cells.now) holders
            → option_map number_of result ≡ previous_in None at.0 holders }
    {
        self.heads.prev(cells, at)
    }

    // Makes the one behind a holder current, or none, where that holder is.
    fn leave<C: Cells>(&mut self, cells: &C, at: Addr)
        requires { IsIn self.old (C.blocks cells.now) at.0 }
        ensures current { (rules : Rules) (holders : List ℕ)
            → Stands rules self.old (C.blocks cells.now) holders
            → self.new.current.0 ≡ current_without (Some at.0) self.old.current.0 holders }
        ensures same { self.new ≡ record self.old { current = self.new.current } }
    {
        if self.current == at {
            self.current = self.next(cells, at).unwrap_or(Addr::NONE);
        }
    }

    // Takes a holder out, and leaves the current one.
    fn unlink_heads<C: Cells, D: DictDisc>(&mut self, cells: &mut C, kind: &D, at: Addr)
        requires { IsMember (D.rules kind.now) self.old (C.blocks cells.old) at.0 }
        ensures { ChangesIn C.blocks C.RestStays cells.old cells.new
            (λ old new. (holders : List ℕ) → Stands (D.rules kind.now) self.old old holders
            → Became (D.rules kind.now) holders self.old old self.new new (without at.0 holders)
            self.old.current.0) }
    {
        self.heads.unlink(cells, kind, at);
        self.count -= 1;
    }

    // Takes out the holder that was found, if any.
    fn remove<C: Cells, D: DictDisc>(&mut self, cells: &mut C, kind: &D, found: Option<Addr>)
        requires dict { IsDict (D.rules kind.now) self.old (C.blocks cells.old) }
        requires found { (at : ℕ) → option_map number_of found ≡ Some at
            → IsMember (D.rules kind.now) self.old (C.blocks cells.old) at }
        ensures { ChangesIn C.blocks C.RestStays cells.old cells.new
            (λ old new. (holders : List ℕ) → Stands (D.rules kind.now) self.old old holders
            → Became (D.rules kind.now) holders self.old old self.new new
            (order_without (option_map number_of found) holders)
            (current_without (option_map number_of found) self.old.current.0 holders)) }
    {
        if let Some(at) = found {
            self.leave(cells, at);
            self.unlink_heads(cells, kind, at);
        }
    }

    /// Takes out the first holder whose object has that key, and answers it, by at most as many compares as `find`; none
    /// where no object has it, and nothing changes. Where it was current, the one behind it is, or none. It keeps its bytes
    /// behind the words. After Cdt's dtdelete and dtdetach.
    pub fn unlink<C: Cells, D: DictDisc, L>(
        &mut self,
        cells: &mut C,
        kind: &D,
        key: &[u8],
        steps: &mut Steps<L>,
    ) -> Option<Addr>
        requires { IsDict (D.rules kind.now) self.old (C.blocks cells.old) }
        ensures found { (holders : List ℕ)
            → Stands (D.rules kind.now) self.old (C.blocks cells.old) holders
            → Finds (D.rules kind.now) (C.blocks cells.old) key.now holders result
            steps.old steps.new }
        ensures compares { (holders : List ℕ)
            → Stands (D.rules kind.now) self.old (C.blocks cells.old) holders
            → steps.new ≤ steps.old
            + compares_by (D.rules kind.now) self.old (C.blocks cells.old) key.now holders }
        ensures dict { (holders : List ℕ)
            → Stands (D.rules kind.now) self.old (C.blocks cells.old) holders
            → Became (D.rules kind.now) holders self.old (C.blocks cells.old) self.new
            (C.blocks cells.new) (order_without (option_map number_of result) holders)
            (current_without (option_map number_of result) self.old.current.0 holders) }
        ensures rest { C.RestStays cells.old cells.new }
    {
        let found = self.look(cells, kind, key, true, steps);
        self.remove(cells, kind, found);
        found
    }

    /// Takes out the first holder in every method, and answers it, or none where there are none. Where it was current,
    /// the one behind it is, or none. After Cdt's dtdelete without an object, and dtclear.
    pub fn take_first<C: Cells, D: DictDisc>(&mut self, cells: &mut C, kind: &D) -> Option<Addr>
        requires { IsDict (D.rules kind.now) self.old (C.blocks cells.old) }
        ensures first { (holders : List ℕ)
            → Stands (D.rules kind.now) self.old (C.blocks cells.old) holders
            → option_map number_of result ≡ first_in holders }
        ensures dict { (holders : List ℕ)
            → Stands (D.rules kind.now) self.old (C.blocks cells.old) holders
            → Became (D.rules kind.now) holders self.old (C.blocks cells.old) self.new
            (C.blocks cells.new) (order_without (option_map number_of result) holders)
            (current_without (option_map number_of result) self.old.current.0 holders) }
        ensures rest { C.RestStays cells.old cells.new }
    {
        let found = self.first(cells);
        self.remove(cells, kind, found);
        found
    }
}

/// The holder that was dropped behind one, or `Addr::NONE` behind the last: the lower 32 bits of its word 1. It has at
/// least 33 bytes. This project's own.
pub fn after_dropped<C: Cells>(cells: &C, a: Addr) -> Addr
    requires { IsHolder (C.blocks cells.now) a.0 }
    ensures { result.0 ≡ behind_dropped (C.blocks cells.now) a.0 }
{
    Addr((cells.load(a, 1) % 4_294_967_296) as u32)
}
