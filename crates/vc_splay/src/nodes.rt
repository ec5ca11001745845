ghost use Rattle.std.specs.Prelude.{◌≡◌, ℕ, ◌<◌, ◌^◌, true, false};
ghost use Rattle.vc_splay.specs.Store.{Store, with_kid, with_parent};

/// A store of nodes. A node has a name, a number from 1 to 2^32 - 1, and three links: its left and its right child and
/// its parent, each a name, or 0 for none. Condition of each call: the name is there. Which names there are stays, and so
/// does all but the one link; none can fail, and none needs memory. This project's own.
pub trait Nodes {
    /// Which names there are, and their links.
    ghost store: { Self → Store };

    /// All but the links stayed the same.
    ghost stays: { Self → Self → Type 0 };

    /// The left child.
    fn left(&self, n: u32) -> u32
        requires { (store self.now).has n ≡ true }
        ensures { result ≡ (store self.now).kid true n };

    /// The right child.
    fn right(&self, n: u32) -> u32
        requires { (store self.now).has n ≡ true }
        ensures { result ≡ (store self.now).kid false n };

    /// The parent.
    fn up(&self, n: u32) -> u32
        requires { (store self.now).has n ≡ true }
        ensures { result ≡ (store self.now).parent n };

    /// Gives a node another left child.
    fn set_left(&mut self, n: u32, v: u32)
        requires { (store self.old).has n ≡ true }
        ensures store { store self.new ≡ with_kid true n v (store self.old) }
        ensures rest { stays self.old self.new };

    /// Gives a node another right child.
    fn set_right(&mut self, n: u32, v: u32)
        requires { (store self.old).has n ≡ true }
        ensures store { store self.new ≡ with_kid false n v (store self.old) }
        ensures rest { stays self.old self.new };

    /// Gives a node another parent.
    fn set_up(&mut self, n: u32, v: u32)
        requires { (store self.old).has n ≡ true }
        ensures store { store self.new ≡ with_parent n v (store self.old) }
        ensures rest { stays self.old self.new };

    /// No node has the name 0, and each name is below 2^32.
    ghost none: { (nodes : Self) → (store nodes).has 0 ≡ false };

    ghost fits: { (nodes : Self) (n : ℕ) → (store nodes).has n ≡ true → n < 2 ^ 32 };

    /// The rest stays where nothing is done, and over two calls where it stays over each; the names stay with it.
    ghost reflexive: { (nodes : Self) → stays nodes nodes };

    ghost transitive: { (a b c : Self) → stays a b → stays b c → stays a c };

    ghost names: { (a b : Self) → stays a b → (store b).has ≡ (store a).has };
}
