ghost use Rattle.vc_seg.specs.Budget.{discipline_of};

use std::alloc::Global;
use vc_seg::{BudgetDisc, LendFault, SegDisc, Segment};

// A discipline of which the lend of one number, from 1 on, finds no memory.
#[derive(Drop)]
pub(crate) struct ScarceDisc {
    inner: BudgetDisc,
    without_memory: u32,
    lends: u32,
}

impl ScarceDisc {
    pub fn new(bytes: u64, without_memory: u32) -> ScarceDisc {
        ScarceDisc {
            inner: BudgetDisc::new(32, bytes),
            without_memory,
            lends: 0,
        }
    }
}

impl SegDisc for ScarceDisc {
    ghost state = { λ d. discipline_of d.inner };

    fn round(&self) -> u32 {
        self.inner.round()
    }

    fn grows(&self) -> bool {
        self.inner.grows()
    }

    fn faults(&self) -> u64 {
        self.inner.faults()
    }

    fn room(&self) -> Option<u64> {
        self.inner.room()
    }

    fn armed(&self) -> bool {
        self.inner.armed()
    }

    fn told(&self) -> u64 {
        self.inner.told()
    }

    fn yes(&self) -> u64 {
        self.inner.yes()
    }

    fn arm(&mut self, on: bool) {
        self.inner.arm(on);
    }

    fn exception(&mut self, size: u32) -> bool {
        self.inner.exception(size)
    }

    fn lend(&mut self, alloc: Global, number: u32, size: u32) -> Result<Segment, LendFault> {
        self.lends = self.lends.wrapping_add(1);
        if self.lends == self.without_memory {
            return Err(LendFault::OutOfMemory);
        }
        self.inner.lend(alloc, number, size)
    }

    fn extend(&mut self, alloc: Global, seg: &mut Segment, more: u32) -> Result<(), LendFault> {
        self.inner.extend(alloc, seg, more)
    }

    fn take_back(&mut self, seg: Segment) {
        self.inner.take_back(seg);
    }
}
