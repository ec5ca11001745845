use crate::{LendFault, SegDisc, Segment};
use std::alloc::Global;

/// A discipline as regions and shelves keep it.
pub type BoxedDisc = Box<dyn SegDisc>;

// A boxed discipline means what the one in the box means, and each call goes to that one.
impl SegDisc for Box<dyn SegDisc> {
    ghost state = { λ b. (SegDisc-box b).state b.value };

    fn round(&self) -> u32 {
        (**self).round()
    }

    fn grows(&self) -> bool {
        (**self).grows()
    }

    fn faults(&self) -> u64 {
        (**self).faults()
    }

    fn room(&self) -> Option<u64> {
        (**self).room()
    }

    fn armed(&self) -> bool {
        (**self).armed()
    }

    fn told(&self) -> u64 {
        (**self).told()
    }

    fn yes(&self) -> u64 {
        (**self).yes()
    }

    fn arm(&mut self, on: bool) {
        (**self).arm(on)
    }

    fn exception(&mut self, size: u32) -> bool {
        (**self).exception(size)
    }

    fn lend(&mut self, alloc: Global, number: u32, size: u32) -> Result<Segment, LendFault> {
        (**self).lend(alloc, number, size)
    }

    fn extend(&mut self, alloc: Global, seg: &mut Segment, more: u32) -> Result<(), LendFault> {
        (**self).extend(alloc, seg, more)
    }

    fn take_back(&mut self, seg: Segment) {
        (**self).take_back(seg)
    }
}
