ghost use Rattle.std.specs.Prelude.{◌≡◌, ◌+◌, ◌%◌, ◌<◌, ◌↔◌, [], Some, false, is_some, length, Contains, IfOk, OnOk, IsErrOf};
ghost use Rattle.vc_base.specs.Prelude.{IsRound, IsSegmentSize};
ghost use Rattle.vc_model.specs.Count.{next_count};
ghost use Rattle.vc_model.specs.Discipline.{Excepted, LentAtOnce, RefusedAtOnce, no_exceptions};
ghost use Rattle.vc_seg.specs.Budget.{discipline_of, left_in_budget};
ghost use Rattle.vc_seg.specs.Relief.{relieved};
ghost use Rattle.vc_seg.specs.Returned.{Returned};
ghost use Rattle.vc_seg.specs.Segment.{zero_segment, pair_of};

use crate::{BudgetDisc, LendFault, SegDisc, Segment};
use std::alloc::Global;
use std::marker::Model;

/// A discipline that has at most a budget of bytes out at a time, as `BudgetDisc`, and makes one exception: the first time
/// that it is asked for one, its budget is raised by so many bytes. After Vmalloc's exception event.
#[derive(Drop)]
pub struct ReliefDisc {
    inner: BudgetDisc,
    relief: Option<u64>,
}

impl Model for ReliefDisc {
    ghost use Rattle.std.specs.Prelude.{◌+◌, ◌<◌, IfSome};
    ghost use Rattle.vc_seg.specs.Relief.{Relief};

    ghost Value = { Relief };

    ghost view = { λ d. record {
      budget = d.inner;
      relief = d.relief;
    } };

    ghost invariant = { λ d. IfSome d.relief (λ more. d.inner.budget + more < 9223372036854775808) };
}

impl ReliefDisc {
    /// A discipline that has at most `budget` bytes out, `relief` more from its first exception on, the sum below 2^63, and
    /// rounds sizes up to a multiple of `round` bytes, a multiple of 32 from 32 to 65,536.
    pub fn new(round: u32, budget: u64, relief: u64) -> ReliefDisc
        requires round { IsRound round }
        requires sum { budget + relief < 9223372036854775808 }
        ensures budget { result.budget ≡ record {
          budget = budget;
          out = [];
          faults = 0;
          terms = record { round = round; grows = false };
          exceptions = no_exceptions;
        } }
        ensures relief { result.relief ≡ Some relief }
    {
        ReliefDisc {
            inner: BudgetDisc::new(round, budget),
            relief: Some(relief),
        }
    }
}

impl SegDisc for ReliefDisc {
    ghost state = { λ d. discipline_of d.budget };

    fn round(&self) -> u32 {
        self.inner.round()
    }

    fn grows(&self) -> bool {
        self.inner.grows()
    }

    fn faults(&self) -> u64 {
        self.inner.faults()
    }

    fn room(&self) -> Option<u64>
        ensures { result ≡ Some (left_in_budget self.now.budget) }
    {
        self.inner.room()
    }

    fn armed(&self) -> bool {
        self.inner.armed()
    }

    fn told(&self) -> u64 {
        self.inner.told()
    }

    fn yes(&self) -> u64 {
        self.inner.yes()
    }

    fn arm(&mut self, on: bool) {
        self.inner.arm(on);
    }

    // Its first exception raises its budget, and it makes no other.
    fn exception(&mut self, size: u32) -> bool
        ensures excepted { Excepted (discipline_of self.old.budget) (discipline_of self.new.budget) result }
        ensures once { result ≡ is_some self.old.relief }
        ensures relieved { self.new ≡ relieved self.old }
    {
        match self.relief.take() {
            Some(more) => {
                self.inner.relieve(more);
                true
            }
            None => self.inner.exception(size),
        }
    }

    fn lend(&mut self, alloc: Global, number: u32, size: u32) -> Result<Segment, LendFault>
        requires size { IsSegmentSize size }
        requires multiple { size % self.old.budget.terms.round ≡ 0 }

        ensures refuses { IsErrOf result LendFault.Refused ↔ (left_in_budget self.old.budget < size) }
        ensures relief { self.new.relief ≡ self.old.relief }
        ensures spent { OnOk result (left_in_budget self.new.budget + size ≡ left_in_budget self.old.budget) }
        ensures budget { self.new.budget.budget ≡ self.old.budget.budget }
        ensures fault { IsErrOf result LendFault.Refused → self.new.budget.faults
            ≡ next_count self.old.budget.faults }

        // The trait's clauses.
        ensures segment { IfOk result (λ segment. segment ≡ zero_segment number size) }
        ensures lent { OnOk result (LentAtOnce
            (discipline_of self.old.budget) (discipline_of self.new.budget) number size) }
        ensures refused { IsErrOf result LendFault.Refused
            → RefusedAtOnce (discipline_of self.old.budget) (discipline_of self.new.budget) size }
        ensures no_memory { IsErrOf result LendFault.OutOfMemory
            → discipline_of self.new.budget ≡ discipline_of self.old.budget }
    {
        self.inner.lend(alloc, number, size)
    }

    // It doesn't grow, so nothing meets the condition.
    fn extend(&mut self, _: Global, _: &mut Segment, _: u32) -> Result<(), LendFault> {
        let _ = self.inner.grows();
        unreachable!()
    }

    fn take_back(&mut self, seg: Segment)
        requires { Contains self.old.budget.out (pair_of seg) }
        ensures returned { Returned
            (discipline_of self.old.budget) (discipline_of self.new.budget) (pair_of seg) }
        ensures back { left_in_budget self.new.budget ≡ left_in_budget self.old.budget + length seg.bytes }
        ensures budget { self.new.budget.budget ≡ self.old.budget.budget }
        ensures relief { self.new.relief ≡ self.old.relief }
    {
        self.inner.take_back(seg);
    }
}
