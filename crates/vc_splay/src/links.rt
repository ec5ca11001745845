ghost use Rattle.std.specs.Prelude.{◌≡◌, ℕ, ◌<◌, ◌^◌, true, false};
ghost use Rattle.vc_splay.specs.Store.{Store};

use crate::Nodes;

/// A store of nodes whose links can only be read; each store of nodes is one. Condition of each call: the name is there.
/// This project's own.
pub trait Links {
    /// Which names there are, and their links.
    ghost store: { Self → Store };

    /// The left child.
    fn left(&self, n: u32) -> u32
        requires { (store self.now).has n ≡ true }
        ensures { result ≡ (store self.now).kid true n };

    /// The right child.
    fn right(&self, n: u32) -> u32
        requires { (store self.now).has n ≡ true }
        ensures { result ≡ (store self.now).kid false n };

    /// The parent.
    fn up(&self, n: u32) -> u32
        requires { (store self.now).has n ≡ true }
        ensures { result ≡ (store self.now).parent n };

    /// No node has the name 0, and each name is below 2^32.
    ghost none: { (nodes : Self) → (store nodes).has 0 ≡ false };

    ghost fits: { (nodes : Self) (n : ℕ) → (store nodes).has n ≡ true → n < 2 ^ 32 };
}

impl<N: Nodes> Links for N {
    ghost store = { λ s. N.store s };

    #[inline(always)]
    fn left(&self, n: u32) -> u32 {
        Nodes::left(self, n)
    }

    #[inline(always)]
    fn right(&self, n: u32) -> u32 {
        Nodes::right(self, n)
    }

    #[inline(always)]
    fn up(&self, n: u32) -> u32 {
        Nodes::up(self, n)
    }

    ghost none = { λ s. N.none s };

    ghost fits = { λ s n h. N.fits s n h };
}
