ghost use Rattle.std.specs.Prelude.{◌≡◌, ℕ, ◌<◌, List, [], ◌∷◌, ◌++◌, None};
ghost use Rattle.std.specs.Option.{option_map};
ghost use Rattle.vc_base.specs.Holders.{last_of};
ghost use Rattle.vc_base.specs.Prelude.{Blocks, first_in, last_in, next_in, previous_in, without};
ghost use Rattle.vc_dtdisc.specs.Rules.{Rules};
ghost use Rattle.vc_dtlist.specs.Linked.{StandsFor, number_of};
ghost use Rattle.vc_dtlist.specs.TableWrites.{ChangesIn};
ghost use Rattle.vc_dthash.specs.Chained.{FindsInSlot, FindsLast, chain_of, hash_at};
ghost use Rattle.vc_dthash.specs.Hashed.{Adopts, CanAdopt, CanChain, CanLink, ChainedUp, HashFor, HashTurns, IsHash, IsKept, IsLinked, Listed, list_of};
ghost use Rattle.vc_dthash.specs.Slots.{most_slots, slots_for, wanted_slots};

use crate::chains::{
    clear, fill, free_all, hash_all, head, if_found, is_found, point, seek_before, slot_of,
};
use vc_base::{Addr, Cells, Steps};
use vc_dtdisc::DictDisc;
use vc_dtlist::{DtList, found, neighbour, set_word};

// The most slots of a table.
const MOST_SLOTS: u32 = 2_097_152;

/// A set or bag of holders in order of insertion, and its table: a block of 8 bytes for each slot, or `Addr::NONE` with
/// no slots. Words 0 and 1 of each holder are the addresses of those before and behind it, `Addr::NONE` at the ends. Word
/// 3 is the hash of its key, and the hash modulo the number of slots is its slot. A slot is the address of the first
/// holder of its chain, or `Addr::NONE`, and word 2 of a holder that of the next one there; a chain stands in order of
/// insertion. It allocates nothing, and none of its calls can fail. This project's own layout.
#[derive(Clone, Copy, Debug, PartialEq, Eq)]
pub struct DtHash {
    /// The first holder.
    pub first: Addr,
    /// The last holder.
    pub last: Addr,
    /// The table.
    pub table: Addr,
    /// How many slots the table has: 16, doubled at most 17 times, or 0 without a table.
    pub slots: u32,
    /// How many holders there are.
    pub count: u64,
}

// The slots of a first table for so many objects.
fn slots_for(objects: u64) -> u32
    ensures { result ≡ slots_for objects }
{
    let mut slots = 16;
    for _doubled in 0..17u32 {
        if objects <= 2 * slots as u64 {
            return slots;
        }
        slots *= 2;
    }
    slots
}

impl DtHash {
    /// No holders and no table.
    pub fn new() -> DtHash
        ensures { (rules : Rules) (blocks : Blocks) → HashFor rules result blocks [] }
    {
        DtHash {
            first: Addr::NONE,
            last: Addr::NONE,
            table: Addr::NONE,
            slots: 0,
            count: 0,
        }
    }

    /// How many slots the table has, or 0 without one.
    pub fn slots(&self) -> u32
        ensures { result ≡ self.now.slots }
    {
        self.slots
    }

    /// The table, or `Addr::NONE` without one.
    pub fn table(&self) -> Addr
        ensures { result ≡ self.now.table }
    {
        self.table
    }

    /// The slots wanted before so many more objects are added. Without a table they are 16, doubled until two objects for
    /// each are enough for these, at most 17 times; with one twice as many where two for each aren't enough for all. None
    /// where they are enough, or where there are 2,097,152.
    pub fn wants_table(&self, more: u64) -> Option<u32>
        ensures { result ≡ wanted_slots self.now.slots self.now.count more }
    {
        if self.slots == 0 {
            Some(slots_for(more))
        } else if self.count.saturating_add(more) > 2 * self.slots as u64
            && self.slots < MOST_SLOTS
        {
            Some(2 * self.slots)
        } else {
            None
        }
    }

    /// Takes a block as the table, and answers the table before, or `Addr::NONE` where there was none. The block has 8
    /// bytes for each slot and is neither a holder nor the table; there are 16 slots, doubled at most 17 times, and at
    /// most two objects for each, unless there are 2,097,152.
    pub fn adopt_table<C: Cells, D: DictDisc>(
        &mut self,
        cells: &mut C,
        kind: &D,
        table: Addr,
        slots: u32,
    ) -> Addr
        requires { CanAdopt (D.rules kind.now) self.old (C.blocks cells.old) table.0 slots }
        ensures old { result ≡ self.old.table }
        ensures hash { ChangesIn C.blocks C.RestStays cells.old cells.new
            (λ old new. Adopts (D.rules kind.now) table.0 slots self.old old self.new new) }
    {
        let old = self.table;
        clear(cells, table, slots);
        fill(self.list(), self.count, cells, table, slots);
        self.table = table;
        self.slots = slots;
        old
    }

    // Its holders.
    fn list(&self) -> DtList
        ensures { result ≡ list_of self.now }
    {
        DtList {
            first: self.first,
            last: self.last,
        }
    }

    /// Its holders as a list: words 2 and 3 of each are 0 then, and its table no longer leads to them.
    pub fn into_list<C: Cells>(self, cells: &mut C) -> DtList
        requires { IsKept self (C.blocks cells.old) }
        ensures { ChangesIn C.blocks C.RestStays cells.old cells.new
            (λ old new. (rules : Rules) (holders : List ℕ) → HashFor rules self old holders
            → Listed holders old result new) }
    {
        free_all(self.list(), self.count, cells);
        self.list()
    }

    /// Puts the holders of a list that has these ends into the chains of this table, of which it may find anything. The
    /// table has room for them as in `adopt_table`, or there is none of either.
    pub fn chain_up<C: Cells, D: DictDisc>(self, cells: &mut C, kind: &D)
        requires { CanChain self (C.blocks cells.old) }
        ensures { ChangesIn C.blocks C.RestStays cells.old cells.new
            (λ old new. (holders : List ℕ) → StandsFor (list_of self) old holders
            → ChainedUp (D.rules kind.now) self holders old new) }
    {
        hash_all(self.list(), self.count, cells, kind);
        if self.table == Addr::NONE {
            return;
        }
        clear(cells, self.table, self.slots);
        fill(self.list(), self.count, cells, self.table, self.slots);
    }

    // The last holder of a slot's chain, or none where it is empty. The list's last one is also that of its own chain, so
    // that no walk is made where it belongs to the slot.
    fn chain_end<C: Cells>(&self, cells: &C, k: u32) -> Addr
        requires kept { IsKept self.now (C.blocks cells.now) }
        requires slot { k < self.now.slots }
        ensures { (rules : Rules) (holders : List ℕ)
            → HashFor rules self.now (C.blocks cells.now) holders
            → result.0
            ≡ last_of 0 (chain_of (hash_at rules (C.blocks cells.now)) self.now.slots k holders) }
    {
        if self.last != Addr::NONE && slot_of(cells.load(self.last, 3), self.slots) == k {
            return self.last;
        }
        seek_before(cells, self.table, k, self.count, Addr::NONE)
    }

    /// Puts a holder at the end. It has at least 33 bytes and is neither in the list nor the table, and `wants_table(1)`
    /// is none.
    pub fn link<C: Cells, D: DictDisc>(&mut self, cells: &mut C, kind: &D, at: Addr)
        requires { CanLink (D.rules kind.now) self.old (C.blocks cells.old) at.0 }
        ensures { ChangesIn C.blocks C.RestStays cells.old cells.new
            (λ old new. HashTurns (D.rules kind.now) at.0 self.old old self.new new
            (λ xs. xs ++ at.0 ∷ [])) }
    {
        let hash = kind.hash(kind.key(cells.body(at)));
        let k = slot_of(hash, self.slots);
        let before = self.chain_end(cells, k);
        set_word(cells, at, 2, 0);
        set_word(cells, at, 3, hash);
        point(cells, self.table, k, before, at);
        let mut list = self.list();
        list.join_back(cells, at);
        self.first = list.first;
        self.last = list.last;
        self.count += 1;
    }

    /// Takes a holder of the list out. It keeps its bytes behind the words.
    pub fn unlink<C: Cells, D: DictDisc>(&mut self, cells: &mut C, kind: &D, at: Addr)
        requires { IsLinked self.old (C.blocks cells.old) at.0 }
        ensures { ChangesIn C.blocks C.RestStays cells.old cells.new
            (λ old new. HashTurns (D.rules kind.now) at.0 self.old old self.new new (without at.0)) }
    {
        let k = slot_of(cells.load(at, 3), self.slots);
        let behind = neighbour(cells, at, 2);
        let before = seek_before(cells, self.table, k, self.count, at);
        point(cells, self.table, k, before, behind);
        let mut list = self.list();
        list.part(cells, at);
        self.first = list.first;
        self.last = list.last;
        self.count -= 1;
    }

    /// The first holder whose object has that key, or none where no object has it, by at most as many compares as there
    /// are holders whose hash belongs to the key's slot: the hash modulo the number of slots.
    pub fn find<C: Cells, D: DictDisc, L>(
        &self,
        cells: &C,
        kind: &D,
        key: &[u8],
        steps: &mut Steps<L>,
    ) -> Option<Addr>
        requires { IsHash (D.rules kind.now) self.now (C.blocks cells.now) }
        ensures { (holders : List ℕ)
            → HashFor (D.rules kind.now) self.now (C.blocks cells.now) holders
            → FindsInSlot (D.rules kind.now) self.now.slots (C.blocks cells.now) key.now holders
            result steps.old steps.new }
    {
        if self.slots == 0 {
            return None;
        }
        let hash = kind.hash(key);
        let mut at = head(cells, self.table, slot_of(hash, self.slots));
        for _passed in 0..self.count {
            if at == Addr::NONE {
                return None;
            }
            if is_found(cells, kind, at, hash, key, steps) {
                return Some(at);
            }
            at = neighbour(cells, at, 2);
        }
        None
    }

    /// The last holder whose object matches that of one of the list, `at`: that one, or one behind it in its chain. It makes
    /// at most as many compares as there are holders whose hash belongs to its slot, and at most one for each holder behind
    /// it that has its hash.
    pub fn last_like<C: Cells, D: DictDisc, L>(
        &self,
        cells: &C,
        kind: &D,
        at: Addr,
        steps: &mut Steps<L>,
    ) -> Addr
        requires hash { IsHash (D.rules kind.now) self.now (C.blocks cells.now) }
        requires within { IsLinked self.now (C.blocks cells.now) at.0 }
        ensures { (holders : List ℕ)
            → HashFor (D.rules kind.now) self.now (C.blocks cells.now) holders
            → FindsLast (D.rules kind.now) self.now.slots (C.blocks cells.now) at.0 holders
            result.0 steps.old steps.new }
    {
        let hash = cells.load(at, 3);
        let key = kind.key(cells.body(at));
        let mut last = at;
        let mut next = neighbour(cells, at, 2);
        for _passed in 0..self.count {
            if next == Addr::NONE {
                return last;
            }
            last = if_found(cells, kind, last, next, hash, key, steps);
            next = neighbour(cells, next, 2);
        }
        last
    }

    /// The first holder, or none where there are none.
    pub fn first(&self) -> Option<Addr>
        ensures { (rules : Rules) (blocks : Blocks) (holders : List ℕ)
            → HashFor rules self.now blocks holders
            → option_map number_of result ≡ first_in holders }
    {
        found(self.first)
    }

    /// The last holder, or none where there are none.
    pub fn last(&self) -> Option<Addr>
        ensures { (rules : Rules) (blocks : Blocks) (holders : List ℕ)
            → HashFor rules self.now blocks holders
            → option_map number_of result ≡ last_in holders }
    {
        found(self.last)
    }

    /// The holder behind one of the list, or none behind the last.
    pub fn next<C: Cells>(&self, cells: &C, at: Addr) -> Option<Addr>
        requires { IsLinked self.now (C.blocks cells.now) at.0 }
        ensures { (rules : Rules) (holders : List ℕ)
            → HashFor rules self.now (C.blocks cells.now) holders
            → option_map number_of result ≡ next_in at.0 holders }
    {
        found(neighbour(cells, at, 1))
    }

    /// The holder before one of the list, or none before the first.
    pub fn prev<C: Cells>(&self, cells: &C, at: Addr) -> Option<Addr>
        requires { IsLinked self.now (C.blocks cells.now) at.0 }
        ensures { (rules : Rules) (holders : List ℕ)
            → HashFor rules self.now (C.blocks cells.now) holders
            → option_map number_of result ≡ previous_in None at.0 holders }
    {
        found(neighbour(cells, at, 0))
    }
}
