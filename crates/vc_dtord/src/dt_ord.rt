ghost use Rattle.std.specs.Prelude.{◌≡◌, ℕ, ◌+◌, ◌≤◌, List, [], ◌∷◌, None, Some, length};
ghost use Rattle.std.specs.Option.{option_map};
ghost use Rattle.vc_base.specs.Prelude.{Blocks, first_in, last_in, next_in, previous_in, without};
ghost use Rattle.vc_dtdisc.specs.Rules.{Rules};
ghost use Rattle.vc_dtlist.specs.Linked.{Finds, number_of};
ghost use Rattle.vc_dtlist.specs.TableWrites.{ChangesIn};
ghost use Rattle.vc_dtlist.specs.Sought.{Seeks, stands_so};
ghost use Rattle.vc_dtord.specs.Cost.{CallCosts};
ghost use Rattle.vc_dtord.specs.Ordered.{CanLink, IsLinked, IsOrd, IsOrdered, OrdFor, OrdTurned, order_with};
ghost use Rattle.vc_dtord.specs.Seeking.{SeeksLast, is_below, matches};

use crate::calls::{at_least_in, find_in, link_in, unlink_in};
use crate::holders::Holders;
use crate::seeking::{before_in, behind_in, last_like_in};
use crate::seen::Seen;
use vc_base::{Addr, Cells, Steps};
use vc_dtdisc::DictDisc;
use vc_dtlist::{Sought, found};
use vc_splay::{first, last, next, prev};

/// A set or bag of holders in order of their objects' keys; those that match stand in order of insertion. The holders are
/// the nodes of a splay tree: words 0, 1 and 2 of each are the addresses of its left child, its right child and its
/// parent, `Addr::NONE` where there is none, and word 3 is 0. It allocates nothing, and none of its calls can fail. This
/// project's own layout.
#[derive(Clone, Copy, Debug, PartialEq, Eq)]
pub struct DtOrd {
    /// The holder at the root, or `Addr::NONE` where there are no holders.
    pub root: Addr,
}

impl DtOrd {
    /// No holders.
    pub fn new() -> DtOrd
        ensures { (rules : Rules) (blocks : Blocks) → OrdFor rules result blocks [] }
    {
        DtOrd { root: Addr::NONE }
    }

    /// Puts a holder behind the last one that isn't greater, or at the front, by at most as many compares as there are
    /// holders. It has at least 33 bytes and isn't in the list.
    pub fn link<C: Cells, D: DictDisc, L>(
        &mut self,
        cells: &mut C,
        kind: &D,
        at: Addr,
        steps: &mut Steps<L>,
    )
        requires { CanLink (D.rules kind.now) self.old (C.blocks cells.old) at.0 }
        ensures list { ChangesIn C.blocks C.RestStays cells.old cells.new
            (λ old new. (holders : List ℕ) → OrdFor (D.rules kind.now) self.old old holders
            → OrdTurned (D.rules kind.now) (at.0 ∷ holders) old self.new new
            (order_with (D.rules kind.now) old at.0 holders)) }
        ensures steps { (holders : List ℕ)
            → OrdFor (D.rules kind.now) self.old (C.blocks cells.old) holders
            → steps.new ≤ steps.old + length holders }
        ensures cost { CallCosts self.old (C.blocks cells.old) self.new (C.blocks cells.new) 1 steps.old
            steps.new }
    {
        *self = link_in(&mut Holders { cells, mark: at }, *self, kind, steps);
    }

    /// Takes a holder of the list out. It keeps its bytes behind the words.
    pub fn unlink<C: Cells>(&mut self, cells: &mut C, at: Addr)
        requires { IsLinked self.old (C.blocks cells.old) at.0 }
        ensures list { ChangesIn C.blocks C.RestStays cells.old cells.new
            (λ old new. (rules : Rules) (holders : List ℕ) → OrdFor rules self.old old holders
            → OrdTurned rules holders old self.new new (without at.0 holders)) }
        ensures cost { CallCosts self.old (C.blocks cells.old) self.new (C.blocks cells.new) 0 0 0 }
    {
        *self = unlink_in(&mut Holders { cells, mark: at }, *self);
    }

    /// The first holder whose object has that key, by at most as many compares as there are holders; none where no
    /// object has it. A caller that unlinks it tells so: a short way down is left as it is then.
    pub fn find<C: Cells, D: DictDisc, L>(
        &mut self,
        cells: &mut C,
        kind: &D,
        key: &[u8],
        unlinks: bool,
        steps: &mut Steps<L>,
    ) -> Option<Addr>
        requires { IsOrd (D.rules kind.now) self.old (C.blocks cells.old) }
        ensures found { (holders : List ℕ)
            → OrdFor (D.rules kind.now) self.old (C.blocks cells.old) holders
            → Finds (D.rules kind.now) (C.blocks cells.old) key.now holders result
            steps.old steps.new }
        ensures list { ChangesIn C.blocks C.RestStays cells.old cells.new
            (λ old new. (holders : List ℕ) → OrdFor (D.rules kind.now) self.old old holders
            → OrdTurned (D.rules kind.now) holders old self.new new holders) }
        ensures cost { CallCosts self.old (C.blocks cells.old) self.new (C.blocks cells.new) 0 steps.old
            steps.new }
    {
        let mark = self.root;
        let (ord, at) = find_in(
            &mut Holders { cells, mark },
            *self,
            kind,
            key,
            unlinks,
            steps,
        );
        *self = ord;
        at
    }

    /// The first holder whose object's key isn't less than that one, by at most as many compares as there are holders;
    /// none where every key is less.
    pub fn at_least<C: Cells, D: DictDisc, L>(
        &mut self,
        cells: &mut C,
        kind: &D,
        key: &[u8],
        steps: &mut Steps<L>,
    ) -> Option<Addr>
        requires { IsOrd (D.rules kind.now) self.old (C.blocks cells.old) }
        ensures found { (holders : List ℕ)
            → OrdFor (D.rules kind.now) self.old (C.blocks cells.old) holders
            → Seeks (stands_so Sought.NotLess (D.rules kind.now) (C.blocks cells.old) key.now)
            holders result steps.old steps.new }
        ensures list { ChangesIn C.blocks C.RestStays cells.old cells.new
            (λ old new. (holders : List ℕ) → OrdFor (D.rules kind.now) self.old old holders
            → OrdTurned (D.rules kind.now) holders old self.new new holders) }
        ensures cost { CallCosts self.old (C.blocks cells.old) self.new (C.blocks cells.new) 0 steps.old
            steps.new }
    {
        let mark = self.root;
        let (ord, at) = at_least_in(&mut Holders { cells, mark }, *self, kind, key, steps);
        *self = ord;
        at
    }

    /// The first holder whose object's key is greater than that one, by at most as many compares as there are holders;
    /// none where no key is greater.
    pub fn behind<C: Cells, D: DictDisc, L>(
        &mut self,
        cells: &mut C,
        kind: &D,
        key: &[u8],
        steps: &mut Steps<L>,
    ) -> Option<Addr>
        requires { IsOrd (D.rules kind.now) self.old (C.blocks cells.old) }
        ensures found { (holders : List ℕ)
            → OrdFor (D.rules kind.now) self.old (C.blocks cells.old) holders
            → Seeks (stands_so Sought.Greater (D.rules kind.now) (C.blocks cells.old) key.now)
            holders result steps.old steps.new }
        ensures list { ChangesIn C.blocks C.RestStays cells.old cells.new
            (λ old new. (holders : List ℕ) → OrdFor (D.rules kind.now) self.old old holders
            → OrdTurned (D.rules kind.now) holders old self.new new holders) }
        ensures cost { CallCosts self.old (C.blocks cells.old) self.new (C.blocks cells.new) 0 steps.old
            steps.new }
    {
        let mark = self.root;
        let (ord, at) = behind_in(&mut Holders { cells, mark }, *self, kind, key, steps);
        *self = ord;
        at
    }

    /// The last holder whose object's key is less than that one, by at most as many compares as there are holders; none
    /// where no key is less.
    pub fn before<C: Cells, D: DictDisc, L>(
        &mut self,
        cells: &mut C,
        kind: &D,
        key: &[u8],
        steps: &mut Steps<L>,
    ) -> Option<Addr>
        requires { IsOrd (D.rules kind.now) self.old (C.blocks cells.old) }
        ensures found { (holders : List ℕ)
            → OrdFor (D.rules kind.now) self.old (C.blocks cells.old) holders
            → SeeksLast (is_below (D.rules kind.now) (C.blocks cells.old) key.now)
            holders result steps.old steps.new }
        ensures list { ChangesIn C.blocks C.RestStays cells.old cells.new
            (λ old new. (holders : List ℕ) → OrdFor (D.rules kind.now) self.old old holders
            → OrdTurned (D.rules kind.now) holders old self.new new holders) }
        ensures cost { CallCosts self.old (C.blocks cells.old) self.new (C.blocks cells.new) 0 steps.old
            steps.new }
    {
        let mark = self.root;
        let (ord, at) = before_in(&mut Holders { cells, mark }, *self, kind, key, steps);
        *self = ord;
        at
    }

    /// The last holder whose object matches that of a holder of the list, by at most as many compares as there are
    /// holders: that one itself, where no other behind it does.
    pub fn last_like<C: Cells, D: DictDisc, L>(
        &mut self,
        cells: &mut C,
        kind: &D,
        at: Addr,
        steps: &mut Steps<L>,
    ) -> Addr
        requires ord { IsOrd (D.rules kind.now) self.old (C.blocks cells.old) }
        requires within { IsLinked self.old (C.blocks cells.old) at.0 }
        ensures found { (holders : List ℕ)
            → OrdFor (D.rules kind.now) self.old (C.blocks cells.old) holders
            → SeeksLast (matches (D.rules kind.now) (C.blocks cells.old) at.0)
            holders (Some result) steps.old steps.new }
        ensures list { ChangesIn C.blocks C.RestStays cells.old cells.new
            (λ old new. (holders : List ℕ) → OrdFor (D.rules kind.now) self.old old holders
            → OrdTurned (D.rules kind.now) holders old self.new new holders) }
        ensures cost { CallCosts self.old (C.blocks cells.old) self.new (C.blocks cells.new) 0 steps.old
            steps.new }
    {
        let (ord, last) = last_like_in(&mut Holders { cells, mark: at }, *self, kind, steps);
        *self = ord;
        last
    }

    /// The first holder, or none where there are none.
    pub fn first<C: Cells>(&self, cells: &C) -> Option<Addr>
        requires { IsOrdered self.now (C.blocks cells.now) }
        ensures { (rules : Rules) (holders : List ℕ)
            → OrdFor rules self.now (C.blocks cells.now) holders
            → option_map number_of result ≡ first_in holders }
    {
        found(Addr(first(&Seen { cells }, self.root.0)))
    }

    /// The last holder, or none where there are none.
    pub fn last<C: Cells>(&self, cells: &C) -> Option<Addr>
        requires { IsOrdered self.now (C.blocks cells.now) }
        ensures { (rules : Rules) (holders : List ℕ)
            → OrdFor rules self.now (C.blocks cells.now) holders
            → option_map number_of result ≡ last_in holders }
    {
        found(Addr(last(&Seen { cells }, self.root.0)))
    }

    /// The holder behind one of the list, or none behind the last.
    pub fn next<C: Cells>(&self, cells: &C, at: Addr) -> Option<Addr>
        requires { IsLinked self.now (C.blocks cells.now) at.0 }
        ensures { (rules : Rules) (holders : List ℕ)
            → OrdFor rules self.now (C.blocks cells.now) holders
            → option_map number_of result ≡ next_in at.0 holders }
    {
        found(Addr(next(&Seen { cells }, at.0)))
    }

    /// The holder before one of the list, or none before the first.
    pub fn prev<C: Cells>(&self, cells: &C, at: Addr) -> Option<Addr>
        requires { IsLinked self.now (C.blocks cells.now) at.0 }
        ensures { (rules : Rules) (holders : List ℕ)
            → OrdFor rules self.now (C.blocks cells.now) holders
            → option_map number_of result ≡ previous_in None at.0 holders }
    {
        found(Addr(prev(&Seen { cells }, at.0)))
    }
}
