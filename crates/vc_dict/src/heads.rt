ghost use Rattle.std.specs.Prelude.{◌≡◌, ℕ, List};
ghost use Rattle.vc_base.specs.Prelude.{Blocks};
ghost use Rattle.vc_dtdisc.specs.Rules.{Rules};
ghost use Rattle.vc_dict.specs.Stands.{Stands};

use crate::dict::Dict;
use crate::form::Form;
use vc_base::{Addr, DictMethod};

/// The numbers that lead to the holders of a dictionary. Those that its method has no use for are `Addr::NONE` and 0.
/// This project's own.
#[derive(Clone, Copy, Debug, PartialEq, Eq)]
pub struct Heads {
    /// The first holder, but in an ordered set or bag.
    pub first: Addr,
    /// The last holder, but in an ordered set or bag.
    pub last: Addr,
    /// The table of a set or bag.
    pub table: Addr,
    /// The holder at the root of the tree of an ordered set or bag.
    pub root: Addr,
    /// How many slots the table has.
    pub slots: u32,
}

impl Dict {
    ghost use Rattle.vc_dict.specs.Parts.{HasNoOtherHeads, dict_by, heads_in};

    /// The numbers that lead to its holders. This project's own.
    pub fn heads(&self) -> Heads
        ensures heads { result ≡ heads_in self.now }
        ensures others { (rules : Rules) (blocks : Blocks) (holders : List ℕ)
            → Stands rules self.now blocks holders → HasNoOtherHeads self.now.method result }
        ensures same { (rules : Rules) (blocks : Blocks) (holders : List ℕ)
            → Stands rules self.now blocks holders
            → dict_by self.now.method self.now.kind self.now.count self.now.current result
            ≡ self.now }
    {
        self.heads.heads()
    }

    /// A dictionary of these numbers. Those of `heads` that its method has no use for aren't read. It stands for holders
    /// where these numbers and the holders' words say so, which isn't looked at. This project's own.
    pub fn from_parts(
        method: DictMethod,
        kind: u32,
        count: u64,
        current: Addr,
        heads: Heads,
    ) -> Dict
        ensures { result ≡ dict_by method kind count current heads }
    {
        Dict {
            method,
            kind,
            count,
            current,
            heads: Form::of(method, count, heads),
        }
    }
}
