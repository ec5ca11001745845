ghost use Rattle.std.specs.Prelude.{◌≡◌, ◌↔◌, ◌≤◌, ◌∷◌, ℕ, IsTrue, is_some, length, true};
ghost use Rattle.vc_base.specs.Cells.{IsHolder, word_at};
ghost use Rattle.vc_base.specs.Holders.{contains};
ghost use Rattle.vc_dtdisc.specs.Finds.{find_key, has_key, object_at};
ghost use Rattle.vc_dthash.specs.Chained.{IsHashed};
ghost use Rattle.vc_image_check.specs.Dicts.Alone.{AreAlone, AreHung, IsHung, chained_from};

use crate::lists::Holders;
use vc_base::Steps;
use vc_dtdisc::DictDisc;

// Whether a holder's object has that key. One with another hash in its fourth word has another key.
fn is_found<N: Holders, D: DictDisc, L>(
    nodes: &N,
    kind: &D,
    at: u32,
    hash: u64,
    key: &[u8],
    steps: &mut Steps<L>,
) -> bool
    requires holder { IsHolder (N.blocks nodes.now) at }
    requires hashed { IsHashed (D.rules kind.now) (N.blocks nodes.now) at }
    requires hash { hash ≡ (D.rules kind.now).hash key.now }
    ensures { result ≡ has_key (D.rules kind.now) (N.blocks nodes.now) key.now at }
{
    if nodes.word(at, 3) != hash {
        return false;
    }
    kind.compare(kind.key(nodes.object(at)), key, steps).is_eq()
}

// Whether one of at most so many holders that stand behind another one in its chain matches it.
fn has_match_behind<N: Holders, D: DictDisc, L>(
    nodes: &N,
    kind: &D,
    at: u32,
    most: u32,
    steps: &mut Steps<L>,
) -> bool
    requires here { IsHung (D.rules kind.now) (N.blocks nodes.now) at }
    requires behind { (a : ℕ)
        → contains (chained_from (N.blocks nodes.now) most (word_at (N.blocks nodes.now) at 2)) a ≡ true
        → IsHung (D.rules kind.now) (N.blocks nodes.now) a }
    ensures { result ≡ is_some (find_key (D.rules kind.now) (N.blocks nodes.now)
        ((D.rules kind.now).key (object_at (N.blocks nodes.now) at))
        (chained_from (N.blocks nodes.now) most (word_at (N.blocks nodes.now) at 2))) }
{
    let key = kind.key(nodes.object(at));
    let hash = kind.hash(key);
    let mut other = nodes.word(at, 2) as u32;
    let mut left = most;
    while left > 0 {
        if other == 0 {
            return false;
        }
        if is_found(nodes, kind, other, hash, key, steps) {
            return true;
        }
        other = nodes.word(other, 2) as u32;
        left -= 1;
    }
    false
}

// Whether no two of these holders match, which the chains of a table lead through: each is compared with those behind
// it in its chain that have its hash.
pub(crate) fn are_alone<N: Holders, D: DictDisc, L>(
    nodes: &N,
    kind: &D,
    count: u32,
    holders: &[u32],
    steps: &mut Steps<L>,
) -> bool
    requires many { length holders.now ≤ count }
    requires hung { AreHung (D.rules kind.now) (N.blocks nodes.now) holders.now }
    ensures { IsTrue result ↔ AreAlone (D.rules kind.now) (N.blocks nodes.now) holders.now }
{
    for holder in holders {
        if has_match_behind(nodes, kind, *holder, count, steps) {
            return false;
        }
    }
    true
}
