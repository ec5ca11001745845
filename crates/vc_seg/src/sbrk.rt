ghost use Rattle.std.specs.Prelude.{◌≡◌, ◌+◌, ◌%◌, ◌<◌, ◌↔◌, [], Some, false, true, length, Contains, IfOk, OnErr, OnOk, IsErrOf};
ghost use Rattle.vc_base.specs.Prelude.{IsRound, IsSegmentSize};
ghost use Rattle.vc_model.specs.Count.{next_count};
ghost use Rattle.vc_model.specs.Discipline.{CanExtend, Excepted, ExtendedAtOnce, LentAtOnce, RefusedAtOnce, armed_as, no_exceptions, pleaded};
ghost use Rattle.vc_seg.specs.Budget.{discipline_of, left_in_budget};
ghost use Rattle.vc_seg.specs.Returned.{Returned};
ghost use Rattle.vc_seg.specs.Segment.{grown_segment, zero_segment, pair_of};

use crate::excuses::Excuses;
use crate::out_list::OutList;
use crate::{LendFault, SegDisc, Segment};
use std::alloc::Global;
use std::marker::Model;
use vc_base::one_more;

/// A discipline that grows, after Vmalloc's `Vmdcsbrk`: it makes a segment longer where it is asked for more. It has at
/// most so many bytes out at a time. As its room it tells that limit less the bytes out, and it refuses exactly what is
/// above that.
#[derive(Drop)]
pub struct SbrkDisc {
    lent: OutList,
    excuses: Excuses,
    unit: u32,
    limit: u64,
    left: u64,
    refusals: u64,
}

impl Model for SbrkDisc {
    ghost use Rattle.std.specs.Prelude.{◌≡◌, ◌+◌, true};
    ghost use Rattle.vc_base.specs.Prelude.{IsRound};
    ghost use Rattle.vc_seg.specs.Budget.{Budget, bytes_of};

    ghost Value = { Budget };

    ghost view = { λ d. record {
      budget = d.limit;
      out = d.lent;
      faults = d.refusals;
      terms = record { round = d.unit; grows = true };
      exceptions = d.excuses;
    } };

    ghost invariant = { λ d. IsRound d.unit × (d.left + bytes_of d.lent ≡ d.limit) };
}

impl SbrkDisc {
    /// A discipline that has at most `limit` bytes out, and rounds sizes up to a multiple of `round` bytes, a multiple of 32
    /// from 32 to 65,536.
    pub fn new(round: u32, limit: u64) -> SbrkDisc
        requires { IsRound round }
        ensures { result ≡ record {
          budget = limit;
          out = [];
          faults = 0;
          terms = record { round = round; grows = true };
          exceptions = no_exceptions;
        } }
    {
        SbrkDisc {
            lent: OutList::new(),
            excuses: Excuses::new(),
            unit: round,
            limit,
            left: limit,
            refusals: 0,
        }
    }
}

impl SegDisc for SbrkDisc {
    ghost state = { discipline_of };

    fn round(&self) -> u32 {
        self.unit
    }

    fn grows(&self) -> bool
        ensures value { result ≡ self.now.terms.grows }
        ensures yes { result ≡ true }
    {
        // A look at a field shows what every value has.
        let _ = &self.unit;
        true
    }

    fn faults(&self) -> u64 {
        self.refusals
    }

    fn room(&self) -> Option<u64>
        ensures { result ≡ Some (left_in_budget self.now) }
    {
        Some(self.left)
    }

    fn armed(&self) -> bool {
        self.excuses.armed()
    }

    fn told(&self) -> u64 {
        self.excuses.told()
    }

    fn yes(&self) -> u64 {
        self.excuses.yes()
    }

    fn arm(&mut self, on: bool)
        ensures armed { discipline_of self.new ≡ armed_as on (discipline_of self.old) }
        ensures budget { self.new.budget ≡ self.old.budget }
    {
        self.excuses.arm(on);
    }

    // It makes no exception.
    fn exception(&mut self, _: u32) -> bool
        ensures excepted { Excepted (discipline_of self.old) (discipline_of self.new) result }
        ensures never { result ≡ false }
        ensures pleaded { self.new ≡ record self.old { exceptions = pleaded self.old.exceptions } }
    {
        self.excuses.refuse();
        false
    }

    fn lend(&mut self, alloc: Global, number: u32, size: u32) -> Result<Segment, LendFault>
        requires size { IsSegmentSize size }
        requires multiple { size % self.old.terms.round ≡ 0 }

        ensures refuses { IsErrOf result LendFault.Refused ↔ (left_in_budget self.old < size) }
        ensures spent { OnOk result (left_in_budget self.new + size ≡ left_in_budget self.old) }
        ensures limit { self.new.budget ≡ self.old.budget }
        ensures fault { IsErrOf result LendFault.Refused → self.new.faults
            ≡ next_count self.old.faults }

        // The trait's clauses.
        ensures segment { IfOk result (λ segment. segment ≡ zero_segment number size) }
        ensures lent { OnOk result (LentAtOnce
            (discipline_of self.old) (discipline_of self.new) number size) }
        ensures refused { IsErrOf result LendFault.Refused
            → RefusedAtOnce (discipline_of self.old) (discipline_of self.new) size }
        ensures no_memory { IsErrOf result LendFault.OutOfMemory → self.new ≡ self.old }
    {
        let bytes = u64::from(size);
        if bytes > self.left {
            self.refusals = one_more(self.refusals);
            return Err(LendFault::Refused);
        }
        let segment = self.lent.lend(alloc, number, size)?;
        self.left -= bytes;
        Ok(segment)
    }

    fn extend(&mut self, alloc: Global, seg: &mut Segment, more: u32) -> Result<(), LendFault>
        requires { CanExtend (discipline_of self.old) (pair_of seg.old) more }

        ensures refuses { IsErrOf result LendFault.Refused ↔ (left_in_budget self.old < more) }
        ensures limit { self.new.budget ≡ self.old.budget }
        ensures fault { IsErrOf result LendFault.Refused → self.new.faults
            ≡ next_count self.old.faults }

        // The trait's clauses.
        ensures segment { OnOk result (seg.new ≡ grown_segment more seg.old) }
        ensures extended { OnOk result (ExtendedAtOnce
            (discipline_of self.old) (discipline_of self.new) (pair_of seg.old) more) }
        ensures refused { IsErrOf result LendFault.Refused
            → RefusedAtOnce (discipline_of self.old) (discipline_of self.new) more }
        ensures no_memory { IsErrOf result LendFault.OutOfMemory → self.new ≡ self.old }
        ensures same { OnErr result (seg.new ≡ seg.old) }
    {
        let bytes = u64::from(more);
        if bytes > self.left {
            self.refusals = one_more(self.refusals);
            return Err(LendFault::Refused);
        }
        self.lent.extend(alloc, seg, more)?;
        self.left -= bytes;
        Ok(())
    }

    fn take_back(&mut self, seg: Segment)
        requires { Contains self.old.out (pair_of seg) }
        ensures returned { Returned
            (discipline_of self.old) (discipline_of self.new) (pair_of seg) }
        ensures back { left_in_budget self.new ≡ left_in_budget self.old + length seg.bytes }
        ensures limit { self.new.budget ≡ self.old.budget }
    {
        let bytes = u64::from(seg.size());
        self.lent.take_back(seg);
        self.left += bytes;
    }
}
