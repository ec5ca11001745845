ghost use Rattle.std.specs.Prelude.{◌≡◌, ◌≢◌, ℕ, ◌+◌, ◌*◌, ◌%◌, ◌<◌, ◌≤◌, ◌^◌, List, if◌then◌else◌};
ghost use Rattle.vc_base.specs.Prelude.{HasBytes, word_at};
ghost use Rattle.vc_base.specs.Holders.{last_of};
ghost use Rattle.vc_dtdisc.specs.Finds.{has_key};
ghost use Rattle.vc_dtlist.specs.Linked.{IsPlain, LinksFor};
ghost use Rattle.vc_dtlist.specs.TableWrites.{ChangesIn};
ghost use Rattle.vc_dthash.specs.Chained.{HasChainPlace, IsChainPlace, IsHashed};
ghost use Rattle.vc_dthash.specs.ChainWrites.{CanFill, CanFront, CanPoint, Cleared, Filled, Fronted, IsLinkedBy, Marked, Pointed, SlotWritten};

use vc_base::{Addr, Cells, Steps};
use vc_dtdisc::DictDisc;
use vc_dtlist::{DtList, neighbour, set_word};

// The slot that a hash belongs to.
pub(crate) fn slot_of(hash: u64, slots: u32) -> u32
    requires { 1 ≤ slots }
    ensures value { result ≡ hash % slots }
    ensures below { result < slots }
{
    (hash % slots as u64) as u32
}

// Writes one slot of a table.
fn set_slot<C: Cells>(cells: &mut C, table: Addr, k: u32, to: u64)
    requires { HasBytes (C.blocks cells.old) table.0 (8 * k + 8) }
    ensures { ChangesIn C.blocks C.RestStays cells.old cells.new
        (λ old new. SlotWritten old new table.0 k to) }
{
    cells.set_slot(table, k, to);
}

// The first holder of a chain, or none.
pub(crate) fn head<C: Cells>(cells: &C, table: Addr, k: u32) -> Addr
    requires place { HasBytes (C.blocks cells.now) table.0 (8 * k + 8) }
    requires fits { word_at (C.blocks cells.now) table.0 k < 2 ^ 32 }
    ensures { result.0 ≡ word_at (C.blocks cells.now) table.0 k }
{
    Addr(cells.slot(table, k) as u32)
}

// Whether a holder's object has that key, by at most one compare: by none where its hash is another one.
pub(crate) fn is_found<C: Cells, D: DictDisc, L>(
    cells: &C,
    kind: &D,
    at: Addr,
    hash: u64,
    key: &[u8],
    steps: &mut Steps<L>,
) -> bool
    requires holder { HasBytes (C.blocks cells.now) at.0 32 }
    requires hashed { IsHashed (D.rules kind.now) (C.blocks cells.now) at.0 }
    requires hash { hash ≡ (D.rules kind.now).hash key.now }
    ensures value { result ≡ has_key (D.rules kind.now) (C.blocks cells.now) key.now at.0 }
    ensures steps { steps.new ≤ steps.old + 1 }
    ensures none { word_at (C.blocks cells.now) at.0 3 ≢ hash → steps.new ≡ steps.old }
{
    if cells.load(at, 3) != hash {
        return false;
    }
    kind.compare(kind.key(cells.body(at)), key, steps).is_eq()
}

// The second of two holders where its object has that key, and else the first, by at most one compare: by none where the
// second has another hash.
pub(crate) fn if_found<C: Cells, D: DictDisc, L>(
    cells: &C,
    kind: &D,
    last: Addr,
    at: Addr,
    hash: u64,
    key: &[u8],
    steps: &mut Steps<L>,
) -> Addr
    requires holder { HasBytes (C.blocks cells.now) at.0 32 }
    requires hashed { IsHashed (D.rules kind.now) (C.blocks cells.now) at.0 }
    requires hash { hash ≡ (D.rules kind.now).hash key.now }
    ensures value { result.0
        ≡ (if has_key (D.rules kind.now) (C.blocks cells.now) key.now at.0 then at.0
        else last.0) }
    ensures steps { steps.new ≤ steps.old + 1 }
    ensures none { word_at (C.blocks cells.now) at.0 3 ≢ hash → steps.new ≡ steps.old }
{
    if is_found(cells, kind, at, hash, key, steps) {
        at
    } else {
        last
    }
}

// The holder of a chain that stands before one of it, or before its end where none is named; none where that is first.
pub(crate) fn seek_before<C: Cells>(cells: &C, table: Addr, k: u32, count: u64, stop: Addr) -> Addr
    requires { HasChainPlace (C.blocks cells.now) table.0 k count stop.0 }
    ensures { (front rest : List ℕ)
        → IsChainPlace (C.blocks cells.now) table.0 k count stop.0 front rest
        → result.0 ≡ last_of 0 front }
{
    let mut behind = Addr::NONE;
    let mut at = head(cells, table, k);
    for _passed in 0..count {
        if at == stop {
            return behind;
        }
        behind = at;
        at = neighbour(cells, at, 2);
    }
    behind
}

// Lets a chain go on at an address behind one of its holders, or begin there where none is named.
pub(crate) fn point<C: Cells>(cells: &mut C, table: Addr, k: u32, before: Addr, to: Addr)
    requires { CanPoint (C.blocks cells.old) table.0 k before.0 }
    ensures { ChangesIn C.blocks C.RestStays cells.old cells.new
        (λ old new. Pointed old new table.0 k before.0 to.0) }
{
    if before == Addr::NONE {
        set_slot(cells, table, k, to.0 as u64);
    } else {
        set_word(cells, before, 2, to.0 as u64);
    }
}

// Writes 0 into each slot of a table.
pub(crate) fn clear<C: Cells>(cells: &mut C, table: Addr, slots: u32)
    requires { HasBytes (C.blocks cells.old) table.0 (8 * slots) }
    ensures { ChangesIn C.blocks C.RestStays cells.old cells.new
        (λ old new. Cleared old new table.0 slots) }
{
    for k in 0..slots {
        set_slot(cells, table, k, 0);
    }
}

// Puts a holder at the front of its chain.
fn put_front<C: Cells>(cells: &mut C, table: Addr, slots: u32, at: Addr)
    requires { CanFront (C.blocks cells.old) table.0 slots at.0 }
    ensures { ChangesIn C.blocks C.RestStays cells.old cells.new
        (λ old new. Fronted old new table.0 (word_at old at.0 3 % slots) at.0) }
{
    let k = slot_of(cells.load(at, 3), slots);
    let first = cells.slot(table, k);
    set_word(cells, at, 2, first);
    set_slot(cells, table, k, at.0 as u64);
}

// Puts holders into the chains of a table of zeros, from the last one to the first, by the hashes in their words 3.
pub(crate) fn fill<C: Cells>(list: DtList, count: u64, cells: &mut C, table: Addr, slots: u32)
    requires { CanFill list (C.blocks cells.old) table.0 slots count }
    ensures { ChangesIn C.blocks C.RestStays cells.old cells.new
        (λ old new. (holders : List ℕ) → LinksFor list old holders
        → Filled table.0 slots holders old new) }
{
    let mut at = list.last;
    for _passed in 0..count {
        put_front(cells, table, slots, at);
        at = neighbour(cells, at, 0);
    }
}

// Writes 0 into words 2 and 3 of each holder.
pub(crate) fn free_all<C: Cells>(list: DtList, count: u64, cells: &mut C)
    requires { IsLinkedBy list (C.blocks cells.old) count }
    ensures { ChangesIn C.blocks C.RestStays cells.old cells.new
        (λ old new. (holders : List ℕ) → LinksFor list old holders
        → Marked IsPlain list holders old new) }
{
    let mut at = list.first;
    for _passed in 0..count {
        set_word(cells, at, 2, 0);
        set_word(cells, at, 3, 0);
        at = neighbour(cells, at, 1);
    }
}

// Writes the hash of its key into word 3 of each holder.
pub(crate) fn hash_all<C: Cells, D: DictDisc>(list: DtList, count: u64, cells: &mut C, kind: &D)
    requires { IsLinkedBy list (C.blocks cells.old) count }
    ensures { ChangesIn C.blocks C.RestStays cells.old cells.new
        (λ old new. (holders : List ℕ) → LinksFor list old holders
        → Marked (IsHashed (D.rules kind.now)) list holders old new) }
{
    let mut at = list.first;
    for _passed in 0..count {
        let hash = kind.hash(kind.key(cells.body(at)));
        set_word(cells, at, 3, hash);
        at = neighbour(cells, at, 1);
    }
}
