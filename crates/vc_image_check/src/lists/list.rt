ghost use Rattle.std.specs.Prelude.{◌≡◌, ◌↔◌, IfSome, IfNone, IsTrue};
ghost use Rattle.vc_base.specs.Cells.{word_at};
ghost use Rattle.vc_image_check.specs.Lists.Sound.{IsLink, IsSoundList};

use crate::lists::Holders;
use vc_base::Addr;

// The address that a holder of a list tells to be behind it, 0 for none; none where the one before it is another one, or a
// size or a word can't be that of such a holder.
fn behind<N: Holders>(nodes: &N, before: u32, at: u32) -> Option<u32>
    ensures some { IfSome result (λ next. IsLink (N.blocks nodes.now) before at
        × (word_at (N.blocks nodes.now) at 1 ≡ next)) }
    ensures none { IfNone result (¬ IsLink (N.blocks nodes.now) before at) }
{
    let size = nodes.size(at);
    if at == 0 || size < 33 || size > 1056 {
        return None;
    }
    if nodes.word(at, 0) != before as u64 || nodes.word(at, 2) != 0 || nodes.word(at, 3) != 0 {
        return None;
    }
    let next = nodes.word(at, 1);
    if next > 4_294_967_295 {
        return None;
    }
    Some(next as u32)
}

/// Whether so many holders from the first on are a list that ends with the last: each tells of its neighbours, has 0 in its
/// other two words, and has 33 to 1,056 bytes. Whatever the blocks' bytes are, no holder is read twice. This project's own.
pub fn is_sound_list<N: Holders>(nodes: &N, count: u32, first: Addr, last: Addr) -> bool
    ensures { IsTrue result ↔ IsSoundList (N.blocks nodes.now) count first last }
{
    let mut before = 0;
    let mut at = first.0;
    let mut left = count;
    while left > 0 {
        let next = match behind(nodes, before, at) {
            Some(next) => next,
            None => return false,
        };
        before = at;
        at = next;
        left -= 1;
    }
    at == 0 && before == last.0
}
