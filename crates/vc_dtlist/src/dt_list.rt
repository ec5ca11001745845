ghost use Rattle.std.specs.Prelude.{◌≡◌, ℕ, List, [], ◌∷◌, ◌++◌, None};
ghost use Rattle.std.specs.Option.{option_map};
ghost use Rattle.vc_base.specs.Prelude.{Blocks, first_in, last_in, next_in, previous_in, without};
ghost use Rattle.vc_base.specs.Holders.{inserted_after, inserted_before};
ghost use Rattle.vc_dtlist.specs.Linked.{CanAdd, CanJoin, CanPlace, Finds, IsIn, IsJoined, IsList, JoinsBetween, LinksBetween, Relinks, StandsFor, TurnsIn, number_of};
ghost use Rattle.vc_dtlist.specs.TableWrites.{ChangesIn};
ghost use Rattle.vc_dtlist.specs.Sought.{Seeks, stands_so};

use crate::Sought;
use crate::words::{end_of, found, neighbour, set_ends, set_link, set_plain};
use vc_base::{Addr, Cells, Steps};
use vc_dtdisc::DictDisc;

/// A list of holders: its first and its last one, or `Addr::NONE` where it has none. Word 0 of each holder is the
/// address of the one before it and word 1 that of the one behind it, `Addr::NONE` at the ends; words 2 and 3 are 0.
/// It allocates nothing, and none of its calls can fail. This project's own layout.
#[derive(Clone, Copy, Debug, PartialEq, Eq)]
pub struct DtList {
    /// The first holder.
    pub first: Addr,
    /// The last holder.
    pub last: Addr,
}

impl DtList {
    /// A list of no holders.
    pub fn new() -> DtList
        ensures { (blocks : Blocks) → StandsFor result blocks [] }
    {
        DtList {
            first: Addr::NONE,
            last: Addr::NONE,
        }
    }

    /// Puts a holder at the front. It has at least 33 bytes and isn't in the list.
    pub fn push_front<C: Cells>(&mut self, cells: &mut C, at: Addr)
        requires { CanAdd self.old (C.blocks cells.old) at.0 }
        ensures { TurnsIn C.blocks C.RestStays at.0 self.old cells.old self.new cells.new
            (λ xs. at.0 ∷ xs) }
    {
        let first = self.first;
        self.link(cells, Addr::NONE, at, first);
    }

    /// Puts a holder at the end. It has at least 33 bytes and isn't in the list.
    pub fn push_back<C: Cells>(&mut self, cells: &mut C, at: Addr)
        requires { CanAdd self.old (C.blocks cells.old) at.0 }
        ensures { TurnsIn C.blocks C.RestStays at.0 self.old cells.old self.new cells.new
            (λ xs. xs ++ at.0 ∷ []) }
    {
        let last = self.last;
        self.link(cells, last, at, Addr::NONE);
    }

    // Puts a holder between two neighbours, either of which may be none, and keeps its other words.
    fn join<C: Cells>(&mut self, cells: &mut C, before: Addr, at: Addr, behind: Addr)
        requires { CanPlace self.old (C.blocks cells.old) before.0 at.0 behind.0 }
        ensures { ChangesIn C.blocks C.RestStays cells.old cells.new
            (λ old new. JoinsBetween before.0 at.0 behind.0 self.old old self.new new) }
    {
        set_ends(cells, at, before, behind);
        set_link(cells, before, 1, at);
        set_link(cells, behind, 0, at);
        self.first = end_of(before, at, self.first);
        self.last = end_of(behind, at, self.last);
    }

    // Puts a holder between two neighbours, either of which may be none.
    fn link<C: Cells>(&mut self, cells: &mut C, before: Addr, at: Addr, behind: Addr)
        requires { CanPlace self.old (C.blocks cells.old) before.0 at.0 behind.0 }
        ensures { ChangesIn C.blocks C.RestStays cells.old cells.new
            (λ old new. LinksBetween before.0 at.0 behind.0 self.old old self.new new) }
    {
        set_plain(cells, at);
        self.join(cells, before, at, behind);
    }

    /// Puts a holder at the end of holders that are linked by words 0 and 1, as those of a set or bag are, and keeps
    /// words 2 and 3 of each. It has at least 33 bytes and isn't one of them.
    pub fn join_back<C: Cells>(&mut self, cells: &mut C, at: Addr)
        requires { CanJoin self.old (C.blocks cells.old) at.0 }
        ensures { ChangesIn C.blocks C.RestStays cells.old cells.new
            (λ old new. Relinks at.0 self.old old self.new new (λ xs. xs ++ at.0 ∷ [])) }
    {
        let last = self.last;
        self.join(cells, last, at, Addr::NONE);
    }

    /// Takes one out of holders that are linked by words 0 and 1, as those of a set or bag are, and keeps words 2 and 3
    /// of each.
    pub fn part<C: Cells>(&mut self, cells: &mut C, at: Addr)
        requires { IsJoined self.old (C.blocks cells.old) at.0 }
        ensures { ChangesIn C.blocks C.RestStays cells.old cells.new
            (λ old new. Relinks at.0 self.old old self.new new (without at.0)) }
    {
        let before = neighbour(cells, at, 0);
        let behind = neighbour(cells, at, 1);
        set_link(cells, before, 1, behind);
        set_link(cells, behind, 0, before);
        self.first = end_of(before, behind, self.first);
        self.last = end_of(behind, before, self.last);
    }

    /// Takes a holder of the list out. It keeps its bytes behind the words.
    pub fn unlink<C: Cells>(&mut self, cells: &mut C, at: Addr)
        requires { IsIn self.old (C.blocks cells.old) at.0 }
        ensures { TurnsIn C.blocks C.RestStays at.0 self.old cells.old self.new cells.new
            (without at.0) }
    {
        self.part(cells, at);
    }

    /// Puts a holder directly before another one of the list. It has at least 33 bytes and isn't in the list.
    pub fn before<C: Cells>(&mut self, cells: &mut C, mark: Addr, at: Addr)
        requires mark { IsIn self.old (C.blocks cells.old) mark.0 }
        requires at { CanAdd self.old (C.blocks cells.old) at.0 }
        ensures { TurnsIn C.blocks C.RestStays at.0 self.old cells.old self.new cells.new
            (inserted_before mark.0 at.0) }
    {
        let previous = neighbour(cells, mark, 0);
        self.link(cells, previous, at, mark);
    }

    /// Puts a holder directly behind another one of the list. It has at least 33 bytes and isn't in the list.
    pub fn after<C: Cells>(&mut self, cells: &mut C, mark: Addr, at: Addr)
        requires mark { IsIn self.old (C.blocks cells.old) mark.0 }
        requires at { CanAdd self.old (C.blocks cells.old) at.0 }
        ensures { TurnsIn C.blocks C.RestStays at.0 self.old cells.old self.new cells.new
            (inserted_after mark.0 at.0) }
    {
        let next = neighbour(cells, mark, 1);
        self.link(cells, mark, at, next);
    }

    /// The first holder whose object has that key, by at most as many compares as the list has holders; none where no
    /// object has it.
    pub fn find<C: Cells, D: DictDisc, L>(
        &self,
        cells: &C,
        kind: &D,
        key: &[u8],
        steps: &mut Steps<L>,
    ) -> Option<Addr>
        requires { IsList self.now (C.blocks cells.now) }
        ensures { (holders : List ℕ) → StandsFor self.now (C.blocks cells.now) holders
            → Finds (D.rules kind.now) (C.blocks cells.now) key.now holders result
            steps.old steps.new }
    {
        self.seek(cells, kind, key, Sought::Equal, steps)
    }

    /// The first holder whose object's key stands so to that one, by at most as many compares as the list has holders;
    /// none where no key does.
    pub fn seek<C: Cells, D: DictDisc, L>(
        &self,
        cells: &C,
        kind: &D,
        key: &[u8],
        sought: Sought,
        steps: &mut Steps<L>,
    ) -> Option<Addr>
        requires { IsList self.now (C.blocks cells.now) }
        ensures { (holders : List ℕ) → StandsFor self.now (C.blocks cells.now) holders
            → Seeks (stands_so sought (D.rules kind.now) (C.blocks cells.now) key.now) holders
            result steps.old steps.new }
    {
        let mut at = self.first;
        // A list has fewer than 2^32 holders, since each has an address of its own.
        for _passed in 0..u32::MAX {
            if at == Addr::NONE {
                return None;
            }
            if sought.is_in(kind.compare(kind.key(cells.body(at)), key, steps)) {
                return Some(at);
            }
            at = neighbour(cells, at, 1);
        }
        None
    }

    /// The first holder, or none where there are none.
    pub fn first(&self) -> Option<Addr>
        ensures { (blocks : Blocks) (holders : List ℕ) → StandsFor self.now blocks holders
            → option_map number_of result ≡ first_in holders }
    {
        found(self.first)
    }

    /// The last holder, or none where there are none.
    pub fn last(&self) -> Option<Addr>
        ensures { (blocks : Blocks) (holders : List ℕ) → StandsFor self.now blocks holders
            → option_map number_of result ≡ last_in holders }
    {
        found(self.last)
    }

    /// The holder behind one of the list, or none behind the last.
    pub fn next<C: Cells>(&self, cells: &C, at: Addr) -> Option<Addr>
        requires { IsIn self.now (C.blocks cells.now) at.0 }
        ensures { (holders : List ℕ) → StandsFor self.now (C.blocks cells.now) holders
            → option_map number_of result ≡ next_in at.0 holders }
    {
        found(neighbour(cells, at, 1))
    }

    /// The holder before one of the list, or none before the first.
    pub fn prev<C: Cells>(&self, cells: &C, at: Addr) -> Option<Addr>
        requires { IsIn self.now (C.blocks cells.now) at.0 }
        ensures { (holders : List ℕ) → StandsFor self.now (C.blocks cells.now) holders
            → option_map number_of result ≡ previous_in None at.0 holders }
    {
        found(neighbour(cells, at, 0))
    }
}
