ghost use Rattle.std.specs.Prelude.{◌≡◌, ◌↔◌, ◌+◌, ◌++◌, ◌∷◌, ◌≤◌, ℕ, List, IfNone, IfOk, IfSome, IsTrue, length, map};
ghost use Rattle.vc_base.specs.Holders.{AreDistinct, contains};
ghost use Rattle.vc_image_check.specs.Blocks.Blocks.{AreBlockMarks, image_blocks};
ghost use Rattle.vc_image_check.specs.Bytes.Contents.{dict_row_at};
ghost use Rattle.vc_image_check.specs.Dicts.Sound.{IsSoundBy, IsSoundDict, IsSoundRow, own_in, own_of};
ghost use Rattle.vc_image_check.specs.Dicts.Taken.{HaveTaken};

use crate::blocks::ImageBlocks;
use crate::bytes::word;
use crate::dicts::holders::sound_holders;
use crate::dicts::numbers::{heads_of, kind_of, method_of};
use crate::dicts::others::has_no_other_heads;
use crate::dicts::taking::take_blocks;
use crate::lists::Holders;
use crate::marks::Marks;
use std::alloc::Global;
use vc_base::{DictMethod, OutOfMemory, Steps};
use vc_dict::Heads;
use vc_dtdisc::DictDisc;

// Whether a dictionary's current holder is none or one of its own.
fn is_current(current: u32, holders: &[u32]) -> bool
    ensures { result ≡ contains (0 ∷ holders.now) current }
{
    current == 0 || holders.contains(&current)
}

// The holders of a dictionary, and behind them its table where it has one; none where they, its heads or its current
// holder aren't sound.
fn sound_own<N: Holders, D: DictDisc, L>(
    alloc: Global,
    nodes: &N,
    kind: &D,
    method: DictMethod,
    count: u32,
    current: u32,
    heads: &Heads,
    steps: &mut Steps<L>,
) -> Result<Option<Vec<u32>>, OutOfMemory>
    ensures some { IfOk result (λ o. IfSome o (λ v.
        IsSoundBy method (D.rules kind.now) (N.blocks nodes.now) count current heads.now
        × (v.items ≡ own_in method (N.blocks nodes.now) count heads.now))) }
    ensures none { IfOk result (λ o. IfNone o
        (¬ IsSoundBy method (D.rules kind.now) (N.blocks nodes.now) count current heads.now)) }
{
    if !has_no_other_heads(method, heads) {
        return Ok(None);
    }
    let mut own = match sound_holders(alloc, nodes, kind, method, count, heads, steps)? {
        Some(holders) => holders,
        None => return Ok(None),
    };
    if !is_current(current, &own) {
        return Ok(None);
    }
    if method.has_table() {
        own.push(heads.table.0)?;
        return Ok(Some(own));
    }
    Ok(Some(own))
}

// The holders of the dictionary whose nine numbers lie from a place of an image on, and behind them its table where
// it has one; none where it isn't sound by itself.
fn sound_row<D: DictDisc, L>(
    alloc: Global,
    image: &[u8],
    kinds: &Vec<D>,
    at: usize,
    marks: &Marks,
    steps: &mut Steps<L>,
) -> Result<Option<Vec<u32>>, OutOfMemory>
    requires within { at + 36 ≤ length image.now }
    requires known { AreBlockMarks image.now marks.now }
    ensures some { IfOk result (λ o. IfSome o (λ v.
        IsSoundRow (map D.rules kinds.now.items) (image_blocks image.now) (dict_row_at at image.now)
        × (v.items ≡ own_of (image_blocks image.now) (dict_row_at at image.now)))) }
    ensures none { IfOk result (λ o. IfNone o
        (¬ IsSoundRow (map D.rules kinds.now.items) (image_blocks image.now) (dict_row_at at image.now))) }
{
    let method = match method_of(word(image, at)) {
        Some(method) => method,
        None => return Ok(None),
    };
    let kind = match kind_of(kinds, word(image, at + 4)) {
        Some(kind) => kind,
        None => return Ok(None),
    };
    let nodes = ImageBlocks::new(image, marks);
    let count = word(image, at + 8);
    let current = word(image, at + 12);
    let heads = heads_of(image, at);
    match sound_own(alloc, &nodes, kind, method, count, current, &heads, steps)? {
        Some(own) => Ok(Some(own)),
        None => Ok(None),
    }
}

// Whether the dictionary whose nine numbers lie from a place of an image on is sound, and has no block that was taken
// before. Where it is, its blocks are taken.
pub(crate) fn is_sound_dict<D: DictDisc, L>(
    alloc: Global,
    image: &[u8],
    kinds: &Vec<D>,
    at: usize,
    marks: &mut Marks,
    steps: &mut Steps<L>,
) -> Result<bool, OutOfMemory>
    requires within { at + 36 ≤ length image.now }
    requires known { AreBlockMarks image.now marks.old }
    ensures sound { IfOk result (λ b. (taken : List ℕ) → HaveTaken marks.old taken
        → (IsTrue b ↔ IsSoundDict (map D.rules kinds.now.items) (image_blocks image.now) taken
        (dict_row_at at image.now))) }
    ensures taken { IfOk result (λ b. IsTrue b → (taken : List ℕ) → HaveTaken marks.old taken
        → HaveTaken marks.new (taken ++ own_of (image_blocks image.now) (dict_row_at at image.now))) }
    ensures known { IfOk result (λ b. AreBlockMarks image.now marks.new) }
{
    match sound_row(alloc, image, kinds, at, marks, steps)? {
        Some(own) => Ok(take_blocks(marks, &own)),
        None => Ok(false),
    }
}
