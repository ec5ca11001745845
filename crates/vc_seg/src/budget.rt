ghost use Rattle.std.specs.Prelude.{◌≡◌, ◌+◌, ◌%◌, ◌<◌, ◌↔◌, [], Some, false, length, Contains, IfOk, OnOk, IsErrOf};
ghost use Rattle.vc_base.specs.Prelude.{IsRound, IsSegmentSize};
ghost use Rattle.vc_model.specs.Count.{next_count};
ghost use Rattle.vc_seg.specs.Budget.{discipline_of, left_in_budget};
ghost use Rattle.vc_model.specs.Discipline.{Excepted, LentAtOnce, RefusedAtOnce, armed_as, excused, no_exceptions, pleaded};
ghost use Rattle.vc_seg.specs.Returned.{Returned};
ghost use Rattle.vc_seg.specs.Segment.{zero_segment, pair_of};

use crate::excuses::Excuses;
use crate::out_list::OutList;
use crate::{LendFault, SegDisc, Segment};
use std::alloc::Global;
use std::marker::Model;
use vc_base::one_more;

/// A discipline that has at most a budget of bytes out at a time. As its room it tells the budget less the bytes out,
/// and it refuses exactly the sizes above that.
#[derive(Drop)]
pub struct BudgetDisc {
    lent: OutList,
    excuses: Excuses,
    unit: u32,
    budget: u64,
    left: u64,
    refusals: u64,
}

impl Model for BudgetDisc {
    ghost use Rattle.std.specs.Prelude.{◌≡◌, ◌+◌, false};
    ghost use Rattle.vc_base.specs.Prelude.{IsRound};
    ghost use Rattle.vc_seg.specs.Budget.{Budget, bytes_of};

    ghost Value = { Budget };

    ghost view = { λ d. record {
      budget = d.budget;
      out = d.lent;
      faults = d.refusals;
      terms = record { round = d.unit; grows = false };
      exceptions = d.excuses;
    } };

    ghost invariant = { λ d. IsRound d.unit × (d.left + bytes_of d.lent ≡ d.budget) };
}

impl BudgetDisc {
    /// A discipline that has at most `budget` bytes out, and rounds sizes up to a multiple of `round` bytes, a multiple
    /// of 32 from 32 to 65,536.
    pub fn new(round: u32, budget: u64) -> BudgetDisc
        requires { IsRound round }
        ensures { result ≡ record {
          budget = budget;
          out = [];
          faults = 0;
          terms = record { round = round; grows = false };
          exceptions = no_exceptions;
        } }
    {
        BudgetDisc {
            lent: OutList::new(),
            excuses: Excuses::new(),
            unit: round,
            budget,
            left: budget,
            refusals: 0,
        }
    }

    // Raises the budget by so many bytes, as an exception that is made.
    pub(crate) fn relieve(&mut self, more: u64)
        requires { self.old.budget + more < 18446744073709551616 }
        ensures { self.new ≡ record self.old {
          budget = self.old.budget + more;
          exceptions = excused self.old.exceptions;
        } }
    {
        self.excuses.grant();
        self.budget += more;
        self.left += more;
    }
}

impl SegDisc for BudgetDisc {
    ghost state = { discipline_of };

    fn round(&self) -> u32 {
        self.unit
    }

    fn grows(&self) -> bool
        ensures value { result ≡ self.now.terms.grows }
        ensures no { result ≡ false }
    {
        // A look at a field shows what every value has.
        let _ = &self.unit;
        false
    }

    fn faults(&self) -> u64 {
        self.refusals
    }

    fn room(&self) -> Option<u64>
        ensures { result ≡ Some (left_in_budget self.now) }
    {
        Some(self.left)
    }

    fn armed(&self) -> bool {
        self.excuses.armed()
    }

    fn told(&self) -> u64 {
        self.excuses.told()
    }

    fn yes(&self) -> u64 {
        self.excuses.yes()
    }

    fn arm(&mut self, on: bool)
        ensures armed { discipline_of self.new ≡ armed_as on (discipline_of self.old) }
        ensures budget { self.new.budget ≡ self.old.budget }
    {
        self.excuses.arm(on);
    }

    // It makes no exception.
    fn exception(&mut self, _: u32) -> bool
        ensures excepted { Excepted (discipline_of self.old) (discipline_of self.new) result }
        ensures never { result ≡ false }
        ensures pleaded { self.new ≡ record self.old { exceptions = pleaded self.old.exceptions } }
    {
        self.excuses.refuse();
        false
    }

    fn lend(&mut self, alloc: Global, number: u32, size: u32) -> Result<Segment, LendFault>
        requires size { IsSegmentSize size }
        requires multiple { size % self.old.terms.round ≡ 0 }

        ensures refuses { IsErrOf result LendFault.Refused ↔ (left_in_budget self.old < size) }
        ensures spent { OnOk result (left_in_budget self.new + size ≡ left_in_budget self.old) }
        ensures budget { self.new.budget ≡ self.old.budget }
        ensures fault { IsErrOf result LendFault.Refused → self.new.faults
            ≡ next_count self.old.faults }

        // The trait's clauses.
        ensures segment { IfOk result (λ segment. segment ≡ zero_segment number size) }
        ensures lent { OnOk result (LentAtOnce
            (discipline_of self.old) (discipline_of self.new) number size) }
        ensures refused { IsErrOf result LendFault.Refused
            → RefusedAtOnce (discipline_of self.old) (discipline_of self.new) size }
        ensures no_memory { IsErrOf result LendFault.OutOfMemory → self.new ≡ self.old }
    {
        let bytes = u64::from(size);
        if bytes > self.left {
            self.refusals = one_more(self.refusals);
            return Err(LendFault::Refused);
        }
        let segment = self.lent.lend(alloc, number, size)?;
        self.left -= bytes;
        Ok(segment)
    }

    // It doesn't grow, so nothing meets the condition.
    fn extend(&mut self, _: Global, _: &mut Segment, _: u32) -> Result<(), LendFault> {
        let _ = &self.unit;
        unreachable!()
    }

    fn take_back(&mut self, seg: Segment)
        requires { Contains self.old.out (pair_of seg) }
        ensures returned { Returned
            (discipline_of self.old) (discipline_of self.new) (pair_of seg) }
        ensures back { left_in_budget self.new ≡ left_in_budget self.old + length seg.bytes }
        ensures budget { self.new.budget ≡ self.old.budget }
    {
        let bytes = u64::from(seg.size());
        self.lent.take_back(seg);
        self.left += bytes;
    }
}
