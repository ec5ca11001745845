ghost use Rattle.std.specs.Prelude.{◌≡◌, ◌+◌, ◌*◌, ◌<◌, ◌&&◌};
ghost use Rattle.vc_base.specs.Cells.{HasBytes, bytes_at};
ghost use Rattle.vc_dtord.specs.Nodes.{is_link};

use crate::lists::Holders;
use crate::walks::Known;
use vc_splay::Links;

// Holders as the nodes of a tree, whose links may be any.
#[derive(Drop)]
pub(crate) struct TreeNodes<'a, N> {
    pub(crate) holders: &'a N,
}

// Whether a word of a block is a number below 2^32.
fn is_short<N: Holders>(holders: &N, n: u32, k: u32) -> bool
    requires { HasBytes (N.blocks holders.now) n (8 * k + 8) }
    ensures { result ≡ is_link k (bytes_at (N.blocks holders.now) n) }
{
    holders.word(n, k) < 4_294_967_296
}

// Whether the first three words of a block are.
fn are_short<N: Holders>(holders: &N, n: u32) -> bool
    requires { HasBytes (N.blocks holders.now) n 33 }
    ensures { result ≡ (is_link 0 (bytes_at (N.blocks holders.now) n)
        && (is_link 1 (bytes_at (N.blocks holders.now) n)
        && is_link 2 (bytes_at (N.blocks holders.now) n))) }
{
    if !is_short(holders, n, 0) {
        return false;
    }
    if !is_short(holders, n, 1) {
        return false;
    }
    is_short(holders, n, 2)
}

impl<'a, N: Holders> Links for TreeNodes<'a, N> {
    ghost use Rattle.vc_dtord.specs.NodeLaws.{node-fits, node-none};
    ghost use Rattle.vc_dtord.specs.Nodes.{node_store};

    ghost store = { λ s. node_store (N.blocks s.holders.now) };

    fn left(&self, n: u32) -> u32 {
        self.holders.word(n, 0) as u32
    }

    fn right(&self, n: u32) -> u32 {
        self.holders.word(n, 1) as u32
    }

    fn up(&self, n: u32) -> u32 {
        self.holders.word(n, 2) as u32
    }

    ghost none = { λ s. node-none (N.blocks s.holders.now) };

    ghost fits = { λ s n h. node-fits (N.blocks s.holders.now) n h };
}

impl<'a, N: Holders> Known for TreeNodes<'a, N> {
    fn has(&self, n: u32) -> bool {
        if n == 0 {
            return false;
        }
        if self.holders.size(n) < 33 {
            return false;
        }
        are_short(self.holders, n)
    }
}
