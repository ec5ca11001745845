ghost use Rattle.std.specs.Prelude.{◌≡◌, ℕ, ◌%◌, ◌<◌, ◌≤◌, List, [], ◌∷◌, ◌++◌, None, false, length, Contains, IfSome, IfOk, OnOk, OnErr, IsErrOf};
ghost use Rattle.vc_base.specs.Prelude.{Rose, Discipline, IsRound, IsSegmentSize};
ghost use Rattle.vc_model.specs.Discipline.{Excepted, LentAtOnce, RefusedAtOnce, no_exceptions, pleaded};
ghost use Rattle.vc_seg.specs.Returned.{Returned};
ghost use Rattle.vc_seg.specs.Segment.{zero_segment, pair_of};

use crate::excuses::Excuses;
use crate::out_list::OutList;
use crate::{LendFault, SegDisc, Segment};
use std::alloc::Global;
use std::marker::Model;

/// A discipline that lends from the heap: it never refuses, and tells no room.
#[derive(Drop)]
pub struct HeapDisc {
    lent: OutList,
    excuses: Excuses,
    unit: u32,
}

impl Model for HeapDisc {
    ghost use Rattle.std.specs.Prelude.{None, false};
    ghost use Rattle.vc_base.specs.Prelude.{Discipline, IsRound};

    ghost Value = { Discipline };

    ghost view = { λ d. record {
      out = d.lent;
      faults = 0;
      terms = record { round = d.unit; grows = false };
      room = None;
      exceptions = d.excuses;
    } };

    ghost invariant = { λ d. IsRound d.unit };
}

impl HeapDisc {
    /// A discipline that rounds sizes up to a multiple of `round` bytes, a multiple of 32 from 32 to 65,536.
    pub fn new(round: u32) -> HeapDisc
        requires { IsRound round }
        ensures { result ≡ record {
          out = [];
          faults = 0;
          terms = record { round = round; grows = false };
          room = None;
          exceptions = no_exceptions;
        } }
    {
        HeapDisc {
            lent: OutList::new(),
            excuses: Excuses::new(),
            unit: round,
        }
    }
}

impl SegDisc for HeapDisc {
    ghost state = { λ d. d };

    fn round(&self) -> u32 {
        self.unit
    }

    fn grows(&self) -> bool {
        // A look at a field shows what every value has.
        let _ = &self.unit;
        false
    }

    fn faults(&self) -> u64
        ensures value { result ≡ self.now.faults }
        ensures zero { result ≡ 0 }
    {
        let _ = &self.unit;
        0
    }

    fn room(&self) -> Option<u64>
        ensures value { result ≡ self.now.room }
        ensures untold { result ≡ None }
    {
        let _ = &self.unit;
        None
    }

    fn armed(&self) -> bool {
        self.excuses.armed()
    }

    fn told(&self) -> u64 {
        self.excuses.told()
    }

    fn yes(&self) -> u64 {
        self.excuses.yes()
    }

    fn arm(&mut self, on: bool) {
        self.excuses.arm(on);
    }

    // It makes no exception.
    fn exception(&mut self, _: u32) -> bool
        ensures excepted { Excepted self.old self.new result }
        ensures never { result ≡ false }
        ensures pleaded { self.new ≡ record self.old { exceptions = pleaded self.old.exceptions } }
    {
        self.excuses.refuse();
        false
    }

    fn lend(&mut self, alloc: Global, number: u32, size: u32) -> Result<Segment, LendFault>
        requires size { IsSegmentSize size }
        requires multiple { size % self.old.terms.round ≡ 0 }

        ensures never_refused { ¬ IsErrOf result LendFault.Refused }
        ensures segment { IfOk result (λ segment. segment ≡ zero_segment number size) }
        ensures lent { OnOk result (LentAtOnce self.old self.new number size) }
        ensures refused { IsErrOf result LendFault.Refused → RefusedAtOnce self.old self.new size }
        ensures no_memory { IsErrOf result LendFault.OutOfMemory → self.new ≡ self.old }
    {
        Ok(self.lent.lend(alloc, number, size)?)
    }

    // It doesn't grow, so nothing meets the condition.
    fn extend(&mut self, _: Global, _: &mut Segment, _: u32) -> Result<(), LendFault> {
        let _ = &self.unit;
        unreachable!()
    }

    fn take_back(&mut self, seg: Segment)
        requires { Contains self.old.out (pair_of seg) }
        ensures returned { Returned self.old self.new (pair_of seg) }
        ensures room { self.new.room ≡ self.old.room }
    {
        self.lent.take_back(seg);
    }
}
