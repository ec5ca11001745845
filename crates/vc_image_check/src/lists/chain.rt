ghost use Rattle.std.specs.Prelude.{◌≡◌, ◌↔◌, ◌≢◌, ℕ, ◌+◌, ◌*◌, ◌≤◌, ◌<◌, true, false, IfOk, IfSome, IfNone, IsTrue, length, slice_index};
ghost use Rattle.vc_base.specs.Cells.{HasBytes, word_at};
ghost use Rattle.vc_dthash.specs.Chained.{hash_at};
ghost use Rattle.vc_image_check.specs.Lists.Chained.{IsKnot, IsSoundChain};

use crate::lists::Holders;
use std::alloc::Global;
use vc_base::{Addr, OutOfMemory};
use vc_dtdisc::DictDisc;

// The hash of a holder's key, where it may be linked behind another one in a set or bag with that table.
fn hash_of<N: Holders, D: DictDisc>(
    nodes: &N,
    kind: &D,
    table: u32,
    before: u32,
    at: u32,
) -> Option<u64>
    ensures some { IfSome result (λ hash. IsKnot (D.rules kind.now) (N.blocks nodes.now) table before at
        × (hash_at (D.rules kind.now) (N.blocks nodes.now) at ≡ hash)) }
    ensures none { IfNone result (¬ IsKnot (D.rules kind.now) (N.blocks nodes.now) table before at) }
{
    let size = nodes.size(at);
    if at == 0 || at == table || size < 33 || size > 1056 {
        return None;
    }
    let hash = kind.hash(kind.key(nodes.object(at)));
    if nodes.word(at, 0) != before as u64
        || nodes.word(at, 3) != hash
        || nodes.word(at, 1) > 4_294_967_295
    {
        return None;
    }
    Some(hash)
}

// What each slot of a table tells.
fn slots_of<N: Holders>(
    alloc: Global,
    nodes: &N,
    table: u32,
    slots: u32,
) -> Result<Vec<u64>, OutOfMemory>
    requires { HasBytes (N.blocks nodes.now) table (8 * slots) }
    ensures len { IfOk result (λ told. length told.items ≡ slots) }
    ensures each { IfOk result (λ told. (k : ℕ) → k < slots
        → slice_index told.items k ≡ word_at (N.blocks nodes.now) table k) }
{
    let mut told = Vec::new(alloc);
    for k in 0..slots {
        told.push(nodes.word(table, k))?;
    }
    Ok(told)
}

// Whether none of these numbers is another one than 0.
fn are_none(told: &Vec<u64>) -> bool
    ensures yes { result ≡ true → (k : ℕ) → slice_index told.now.items k ≡ 0 }
    ensures no { result ≡ false → ¬ ((k : ℕ) → slice_index told.now.items k ≡ 0) }
{
    for k in 0..told.len() {
        if told[k] != 0 {
            return false;
        }
    }
    true
}

/// Whether so many holders from the first on are a set or bag by a kind's hash that ends with the last, but for what is asked
/// of its table, a block of 8 bytes for each of its slots: each tells of its neighbours, has the hash of its key in its fourth
/// word, has 33 to 1,056 bytes and isn't the table; and each slot leads through its holders in their order. Whatever the
/// blocks' bytes are, no holder is read twice. It takes the memory of a number for each slot. This project's own.
pub fn is_sound_chain<N: Holders, D: DictDisc>(
    alloc: Global,
    nodes: &N,
    kind: &D,
    count: u32,
    table: Addr,
    slots: u32,
    first: Addr,
    last: Addr,
) -> Result<bool, OutOfMemory>
    requires table { HasBytes (N.blocks nodes.now) table.0 (8 * slots) }
    requires slots { 1 ≤ slots }
    ensures { IfOk result (λ b. IsTrue b
        ↔ IsSoundChain (D.rules kind.now) (N.blocks nodes.now) count table.0 slots first last) }
{
    let mut told = slots_of(alloc, nodes, table.0, slots)?;
    let mut before = 0;
    let mut at = first.0;
    let mut left = count;
    while left > 0 {
        let hash = match hash_of(nodes, kind, table.0, before, at) {
            Some(hash) => hash,
            None => return Ok(false),
        };
        let k = (hash % slots as u64) as usize;
        if told[k] != at as u64 {
            return Ok(false);
        }
        told[k] = nodes.word(at, 2);
        before = at;
        at = nodes.word(at, 1) as u32;
        left -= 1;
    }
    if at != 0 || before != last.0 {
        return Ok(false);
    }
    Ok(are_none(&told))
}
