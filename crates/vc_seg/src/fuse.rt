ghost use Rattle.std.specs.Prelude.{◌≡◌, ℕ, ◌%◌, ◌<◌, ◌≤◌, ◌↔◌, List, [], ◌∷◌, ◌++◌, None, false, length, Contains, IfSome, IfOk, OnOk, OnErr, IsErrOf};
ghost use Rattle.vc_base.specs.Prelude.{Rose, Discipline, IsRound, IsSegmentSize};
ghost use Rattle.vc_model.specs.Count.{next_count};
ghost use Rattle.vc_model.specs.Discipline.{Excepted, LentAtOnce, RefusedAtOnce, armed_as, no_exceptions, pleaded};
ghost use Rattle.vc_seg.specs.Returned.{Returned};
ghost use Rattle.vc_seg.specs.Segment.{zero_segment, pair_of};

use crate::excuses::Excuses;
use crate::out_list::OutList;
use crate::{LendFault, SegDisc, Segment};
use std::alloc::Global;
use std::marker::Model;
use vc_base::one_more;

/// A discipline that refuses the calls of `lend` whose numbers it was given, and no other; it tells no room. Calls are
/// counted from 1, also those that are refused or find no memory, and the count stays at the greatest u64 once there.
#[derive(Drop)]
pub struct FuseDisc {
    lent: OutList,
    excuses: Excuses,
    unit: u32,
    fails: Vec<u64>,
    calls: u64,
    refusals: u64,
}

impl Model for FuseDisc {
    ghost use Rattle.std.specs.Prelude.{None, false};
    ghost use Rattle.vc_base.specs.Prelude.{IsRound};
    ghost use Rattle.vc_seg.specs.Fuse.{Fuse};

    ghost Value = { Fuse };

    ghost view = { λ d. record {
      discipline = record {
        out = d.lent;
        faults = d.refusals;
        terms = record { round = d.unit; grows = false };
        room = None;
        exceptions = d.excuses;
      };
      fails = d.fails.items;
      calls = d.calls;
    } };

    ghost invariant = { λ d. IsRound d.unit };
}

impl FuseDisc {
    /// A discipline that refuses these calls, and rounds sizes up to a multiple of `round` bytes, a multiple of 32 from
    /// 32 to 65,536.
    pub fn new(round: u32, fails: Vec<u64>) -> FuseDisc
        requires { IsRound round }
        ensures meaning { result.discipline
            ≡ record { out = []; faults = 0; terms = record { round = round; grows = false }; room = None; exceptions = no_exceptions } }
        ensures fails { result.fails ≡ fails.items }
        ensures calls { result.calls ≡ 0 }
    {
        FuseDisc {
            lent: OutList::new(),
            excuses: Excuses::new(),
            unit: round,
            fails,
            calls: 0,
            refusals: 0,
        }
    }
}

impl SegDisc for FuseDisc {
    ghost state = { λ d. d.discipline };

    fn round(&self) -> u32 {
        self.unit
    }

    fn grows(&self) -> bool {
        // A look at a field shows what every value has.
        let _ = &self.unit;
        false
    }

    fn faults(&self) -> u64 {
        self.refusals
    }

    fn room(&self) -> Option<u64>
        ensures value { result ≡ self.now.discipline.room }
        ensures untold { result ≡ None }
    {
        let _ = &self.unit;
        None
    }

    fn armed(&self) -> bool {
        self.excuses.armed()
    }

    fn told(&self) -> u64 {
        self.excuses.told()
    }

    fn yes(&self) -> u64 {
        self.excuses.yes()
    }

    fn arm(&mut self, on: bool)
        ensures armed { self.new.discipline ≡ armed_as on self.old.discipline }
        ensures fails { self.new.fails ≡ self.old.fails }
        ensures calls { self.new.calls ≡ self.old.calls }
    {
        self.excuses.arm(on);
    }

    // It makes no exception.
    fn exception(&mut self, _: u32) -> bool
        ensures excepted { Excepted self.old.discipline self.new.discipline result }
        ensures never { result ≡ false }
        ensures pleaded { self.new.discipline ≡ record self.old.discipline {
          exceptions = pleaded self.old.discipline.exceptions;
        } }
        ensures fails { self.new.fails ≡ self.old.fails }
        ensures calls { self.new.calls ≡ self.old.calls }
    {
        self.excuses.refuse();
        false
    }

    fn lend(&mut self, alloc: Global, number: u32, size: u32) -> Result<Segment, LendFault>
        requires size { IsSegmentSize size }
        requires multiple { size % self.old.discipline.terms.round ≡ 0 }

        ensures refuses { IsErrOf result LendFault.Refused
            ↔ Contains self.old.fails (next_count self.old.calls) }
        ensures counts { self.new.calls ≡ next_count self.old.calls }
        ensures fails { self.new.fails ≡ self.old.fails }
        ensures fault { IsErrOf result LendFault.Refused → self.new.discipline.faults
            ≡ next_count self.old.discipline.faults }

        // The trait's clauses.
        ensures segment { IfOk result (λ segment. segment ≡ zero_segment number size) }
        ensures lent { OnOk result (LentAtOnce self.old.discipline self.new.discipline number size) }
        ensures refused { IsErrOf result LendFault.Refused
            → RefusedAtOnce self.old.discipline self.new.discipline size }
        ensures no_memory { IsErrOf result LendFault.OutOfMemory → self.new.discipline
            ≡ self.old.discipline }
    {
        self.calls = one_more(self.calls);
        if self.fails.contains(&self.calls) {
            self.refusals = one_more(self.refusals);
            return Err(LendFault::Refused);
        }
        Ok(self.lent.lend(alloc, number, size)?)
    }

    // It doesn't grow, so nothing meets the condition.
    fn extend(&mut self, _: Global, _: &mut Segment, _: u32) -> Result<(), LendFault> {
        let _ = &self.unit;
        unreachable!()
    }

    fn take_back(&mut self, seg: Segment)
        requires { Contains self.old.discipline.out (pair_of seg) }
        ensures returned { Returned self.old.discipline self.new.discipline (pair_of seg) }
        ensures room { self.new.discipline.room ≡ self.old.discipline.room }
        ensures fails { self.new.fails ≡ self.old.fails }
        ensures calls { self.new.calls ≡ self.old.calls }
    {
        self.lent.take_back(seg);
    }
}
