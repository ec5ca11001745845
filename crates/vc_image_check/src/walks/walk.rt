ghost use Rattle.std.specs.Prelude.{◌≡◌, ◌≢◌, ◌<◌, ◌+◌, ◌++◌, [], ◌∷◌, ℕ, List, true, false, IfOk, IfSome, IfNone, length};
ghost use Rattle.vc_base.specs.Holders.{AreDistinct};
ghost use Rattle.vc_image_check.specs.Walks.Spelled.{IsChild, IsSpelled};
ghost use Rattle.vc_image_check.specs.declared.walks.walk.Item.{Item};
ghost use Rattle.vc_image_check.specs.declared.walks.walk.Item.TheVariants.{Name, Part};

use crate::walks::Known;
use std::alloc::Global;
use vc_base::OutOfMemory;

// What of a tree is still to be walked: the tree at a name below another one, or a name.
#[derive(Clone, Copy)]
enum Item {
    Part(u32, u32),
    Name(u32),
}

// The two children of a node below another one; none where it isn't there, or has another parent, or has one node as both
// children.
fn children<N: Known>(nodes: &N, up: u32, at: u32) -> Option<(u32, u32)>
    ensures some { IfSome result (λ p. IsChild (N.store nodes.now) up at p.0 p.1) }
    ensures none { IfNone result ((left right : ℕ) → ¬ IsChild (N.store nodes.now) up at left right) }
{
    if !nodes.has(at) || nodes.up(at) != up {
        return None;
    }
    let left = nodes.left(at);
    let right = nodes.right(at);
    if left == right && left != 0 {
        return None;
    }
    Some((left, right))
}

// Puts a node and its two children there, what comes first last.
fn put(pending: &mut Vec<Item>, at: u32, left: u32, right: u32) -> Result<(), OutOfMemory>
    ensures { IfOk result (λ _. pending.new.items ≡ pending.old.items ++ Part at right ∷ Name at ∷ Part at left ∷ []) }
{
    pending.push(Item::Part(at, right))?;
    pending.push(Item::Name(at))?;
    pending.push(Item::Part(at, left))?;
    Ok(())
}

/// The names of the tree at a root, in order, where there is such a tree of at most so many nodes, each once; whatever the
/// links are, no node is met twice. This project's own.
pub fn in_order<N: Known>(
    alloc: Global,
    nodes: &N,
    root: u32,
    most: usize,
) -> Result<Option<Vec<u32>>, OutOfMemory>
    ensures some { IfOk result (λ o. IfSome o (λ names. IsSpelled (N.store nodes.now) 0 root names.items)) }
    ensures distinct { IfOk result (λ o. IfSome o (λ names. AreDistinct names.items)) }
    ensures none { IfOk result (λ o. IfNone o ((zs : List ℕ) → IsSpelled (N.store nodes.now) 0 root zs → AreDistinct zs → most < length zs)) }
{
    let mut names = Vec::new(alloc);
    let mut pending = Vec::new(alloc);
    pending.push(Item::Part(0, root))?;
    let mut left_over = most;
    while let Some(item) = pending.pop() {
        match item {
            Item::Name(name) => names.push(name)?,
            Item::Part(up, at) => {
                if at != 0 {
                    if left_over == 0 {
                        return Ok(None);
                    }
                    left_over -= 1;
                    match children(nodes, up, at) {
                        Some((left, right)) => put(&mut pending, at, left, right)?,
                        None => return Ok(None),
                    }
                }
            }
        }
    }
    Ok(Some(names))
}
