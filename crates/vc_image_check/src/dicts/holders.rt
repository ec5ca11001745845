ghost use Rattle.std.specs.Prelude.{◌≡◌, IfNone, IfOk, IfSome};
ghost use Rattle.vc_dict.specs.Listed.{holders_from};
ghost use Rattle.vc_dtlist.specs.Linked.{Chain};
ghost use Rattle.vc_image_check.specs.Lists.Sound.{IsSoundList};
ghost use Rattle.vc_image_check.specs.Dicts.Sound.{AreSoundHolders, IsSoundHash, holders_in};

use crate::dicts::alone::are_alone;
use crate::lists::{Holders, is_sound_chain, is_sound_list, is_sound_table};
use crate::orders::sound_order;
use std::alloc::Global;
use vc_base::{Addr, DictMethod, OutOfMemory, Steps};
use vc_dict::Heads;
use vc_dtdisc::DictDisc;

// So many holders from the first on, which are linked.
fn listed<N: Holders>(
    alloc: Global,
    nodes: &N,
    count: u32,
    first: Addr,
) -> Result<Vec<u32>, OutOfMemory>
    requires { Chain (N.blocks nodes.now) 0 (holders_from (N.blocks nodes.now) count first.0) 0 }
    ensures { IfOk result (λ v. v.items ≡ holders_from (N.blocks nodes.now) count first.0) }
{
    let mut holders = Vec::new(alloc);
    let mut at = first.0;
    let mut left = count;
    while left > 0 {
        holders.push(at)?;
        at = nodes.word(at, 1) as u32;
        left -= 1;
    }
    Ok(holders)
}

// The holders of a list, stack or queue; none where they aren't sound.
fn list_holders<N: Holders>(
    alloc: Global,
    nodes: &N,
    count: u32,
    heads: &Heads,
) -> Result<Option<Vec<u32>>, OutOfMemory>
    ensures some { IfOk result (λ o. IfSome o (λ v.
        IsSoundList (N.blocks nodes.now) count heads.now.first heads.now.last
        × (v.items ≡ holders_from (N.blocks nodes.now) count heads.now.first.0))) }
    ensures none { IfOk result (λ o. IfNone o
        (¬ IsSoundList (N.blocks nodes.now) count heads.now.first heads.now.last)) }
{
    if !is_sound_list(nodes, count, heads.first, heads.last) {
        return Ok(None);
    }
    let holders = listed(alloc, nodes, count, heads.first)?;
    Ok(Some(holders))
}

// The holders of a set, in which no two match, or of a bag; none where they or their table aren't sound.
fn hash_holders<N: Holders, D: DictDisc, L>(
    alloc: Global,
    nodes: &N,
    kind: &D,
    alone: bool,
    count: u32,
    heads: &Heads,
    steps: &mut Steps<L>,
) -> Result<Option<Vec<u32>>, OutOfMemory>
    ensures some { IfOk result (λ o. IfSome o (λ v.
        IsSoundHash (D.rules kind.now) (N.blocks nodes.now) alone count heads.now
        × (v.items ≡ holders_from (N.blocks nodes.now) count heads.now.first.0))) }
    ensures none { IfOk result (λ o. IfNone o
        (¬ IsSoundHash (D.rules kind.now) (N.blocks nodes.now) alone count heads.now)) }
{
    if !is_sound_table(nodes, count, heads.table, heads.slots) {
        return Ok(None);
    }
    if !is_sound_chain(
        alloc,
        nodes,
        kind,
        count,
        heads.table,
        heads.slots,
        heads.first,
        heads.last,
    )? {
        return Ok(None);
    }
    let holders = listed(alloc, nodes, count, heads.first)?;
    if !alone {
        return Ok(Some(holders));
    }
    if !are_alone(nodes, kind, count, &holders, steps) {
        return Ok(None);
    }
    Ok(Some(holders))
}

// The holders of a dictionary of a method, in order; none where they aren't sound.
pub(crate) fn sound_holders<N: Holders, D: DictDisc, L>(
    alloc: Global,
    nodes: &N,
    kind: &D,
    method: DictMethod,
    count: u32,
    heads: &Heads,
    steps: &mut Steps<L>,
) -> Result<Option<Vec<u32>>, OutOfMemory>
    ensures some { IfOk result (λ o. IfSome o (λ v.
        AreSoundHolders method (D.rules kind.now) (N.blocks nodes.now) count heads.now
        × (v.items ≡ holders_in method (N.blocks nodes.now) count heads.now))) }
    ensures none { IfOk result (λ o. IfNone o
        (¬ AreSoundHolders method (D.rules kind.now) (N.blocks nodes.now) count heads.now)) }
{
    if method.has_table() {
        return match hash_holders(alloc, nodes, kind, method.is_set(), count, heads, steps)? {
            Some(holders) => Ok(Some(holders)),
            None => Ok(None),
        };
    }
    if method.is_ordered() {
        return match sound_order(
            alloc,
            nodes,
            kind,
            method.is_set(),
            count,
            heads.root,
            steps,
        )? {
            Some(holders) => Ok(Some(holders)),
            None => Ok(None),
        };
    }
    match list_holders(alloc, nodes, count, heads)? {
        Some(holders) => Ok(Some(holders)),
        None => Ok(None),
    }
}
