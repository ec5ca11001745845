ghost use Rattle.std.specs.Prelude.{◌≡◌, ◌↔◌, ◌≤◌, ◌+◌, ℕ, IsTrue, length, true};
ghost use Rattle.vc_base.specs.Cells.{IsHolder};
ghost use Rattle.vc_base.specs.Holders.{contains};
ghost use Rattle.vc_image_check.specs.Lists.Ascending.{IsAscending, is_against};

use crate::lists::Holders;
use std::cmp::Ordering;
use vc_base::Steps;
use vc_dtdisc::DictDisc;

// Whether an answer of a comparison goes against the order, in which keys may be equal or not.
fn goes_against(alone: bool, answer: Ordering) -> bool
    ensures { result ≡ is_against alone answer }
{
    match answer {
        Ordering::Less => false,
        Ordering::Equal => alone,
        Ordering::Greater => true,
    }
}

/// Whether holders stand in order of their objects' keys by a kind, with no two equal keys where `alone` is true. Each is
/// compared with the one before it, in at most one step for each. This project's own.
pub fn is_ascending<N: Holders, D: DictDisc, L>(
    nodes: &N,
    kind: &D,
    alone: bool,
    names: &[u32],
    steps: &mut Steps<L>,
) -> bool
    requires { (a : ℕ) → contains names.now a ≡ true → IsHolder (N.blocks nodes.now) a }
    ensures order { IsTrue result ↔ IsAscending (D.rules kind.now) (N.blocks nodes.now) alone names.now }
    ensures steps { steps.new ≤ steps.old + length names.now }
{
    if names.is_empty() {
        return true;
    }
    for i in 1..names.len() {
        let before = kind.key(nodes.object(names[i - 1]));
        let here = kind.key(nodes.object(names[i]));
        if goes_against(alone, kind.compare(before, here, steps)) {
            return false;
        }
    }
    true
}
