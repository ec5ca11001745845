ghost use Rattle.std.specs.Prelude.{◌≡◌, ◌↔◌, ◌≤◌, ◌+◌, ℕ, IfOk, IfSome, IfNone, IsTrue, true};
ghost use Rattle.vc_base.specs.Cells.{IsHolder, bytes_at};
ghost use Rattle.vc_base.specs.Holders.{contains};
ghost use Rattle.vc_image_check.specs.Orders.Sound.{ArePlain, IsPlainNode, IsSoundOrder};

use crate::lists::{Holders, is_ascending};
use crate::orders::nodes::TreeNodes;
use crate::walks::in_order;
use std::alloc::Global;
use vc_base::{Addr, OutOfMemory, Steps};
use vc_dtdisc::DictDisc;

// Whether a holder has 0 in its fourth word and at most 1,056 bytes.
fn is_plain<N: Holders>(holders: &N, name: u32) -> bool
    requires { IsHolder (N.blocks holders.now) name }
    ensures { IsTrue result ↔ IsPlainNode (N.blocks holders.now) name }
{
    holders.size(name) <= 1056 && holders.word(name, 3) == 0
}

// Whether each of these holders has 0 in its fourth word and at most 1,056 bytes.
fn are_plain<N: Holders>(holders: &N, names: &[u32]) -> bool
    requires { (a : ℕ) → contains names.now a ≡ true → IsHolder (N.blocks holders.now) a }
    ensures { IsTrue result ↔ ArePlain (N.blocks holders.now) names.now }
{
    for name in names {
        if !is_plain(holders, *name) {
            return false;
        }
    }
    true
}

/// The holders of an ordered dictionary with that root, by a kind's order of keys, in order; none where they aren't
/// sound: so many nodes of a tree, in order of their keys, of which no two are equal where `alone` is true; each
/// once, with 0 in its fourth word and with at most 1,056 bytes. Whatever the blocks' bytes are, no node is met
/// twice. `steps` counts the compares. This project's own.
pub fn sound_order<N: Holders, D: DictDisc, L>(
    alloc: Global,
    holders: &N,
    kind: &D,
    alone: bool,
    count: u32,
    root: Addr,
    steps: &mut Steps<L>,
) -> Result<Option<Vec<u32>>, OutOfMemory>
    ensures some { IfOk result (λ o. IfSome o (λ names.
        (h : IsSoundOrder (D.rules kind.now) (N.blocks holders.now) alone count root) × (h.names ≡ names.items))) }
    ensures none { IfOk result (λ o. IfNone o
        (¬ IsSoundOrder (D.rules kind.now) (N.blocks holders.now) alone count root)) }
{
    let nodes = TreeNodes { holders };
    let names = match in_order(alloc, &nodes, root.0, count as usize)? {
        Some(names) => names,
        None => return Ok(None),
    };
    if names.len() != count as usize {
        return Ok(None);
    }
    if !are_plain(holders, &names) {
        return Ok(None);
    }
    if !is_ascending(holders, kind, alone, &names, steps) {
        return Ok(None);
    }
    Ok(Some(names))
}
