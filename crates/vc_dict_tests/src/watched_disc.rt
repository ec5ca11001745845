ghost use Rattle.vc_seg.specs.Budget.{discipline_of};

use std::alloc::{AllocError, Global};
use std::cell::{Cell, RefCell};
use std::rc::Rc;
use vc_seg::{LendFault, ReliefDisc, SegDisc, Segment};

/// What is seen of the disciplines of a shelf.
#[derive(Drop)]
pub struct Lends {
    /// How many lends they were asked for.
    pub count: Cell<u32>,
    /// The faults of the one that lent last.
    pub faults: Cell<u64>,
    /// Each segment that they took back, by two digits behind those of earlier ones: the discipline's own, and that of the
    /// segment's number.
    pub taken: Cell<u128>,
    /// What was asked of them, in order: they are armed (+) or unarmed (-), a lend is met (l), refused (r) or finds no
    /// memory (m), and an exception is made (y) or isn't (n).
    pub calls: RefCell<Vec<u8>>,
}

impl Lends {
    // Notes behind earlier ones, with ample memory.
    fn note(&self, call: u8) {
        if let Ok(mut calls) = self.calls.try_borrow_mut() {
            let _ = calls.push(call);
        }
    }
}

/// Nothing is seen yet.
pub fn no_lends(alloc: Global) -> Result<Rc<Lends>, AllocError> {
    let lends = Lends {
        count: Cell::new(0),
        faults: Cell::new(0),
        taken: Cell::new(0),
        calls: RefCell::new(Vec::new(alloc)),
    };
    Ok(Rc::new(alloc, lends)?)
}

/// A discipline with a budget, which its first exception raises, that is watched. The lend of one number finds no memory. For
/// tests alone.
#[derive(Drop)]
pub struct WatchedDisc {
    /// What it does else.
    pub inner: ReliefDisc,
    digit: u128,
    without_memory: u32,
    lends: Rc<Lends>,
}

impl WatchedDisc {
    /// One with a budget of so many bytes, and by so many more behind an exception, that rounds to 4,096 bytes. Its digit stands
    /// at each segment that it takes back. The lend of that number, counted from 1 among all that are seen, finds no memory;
    /// with 0 each finds it.
    pub fn new(
        budget: u32,
        relief: u32,
        digit: u128,
        without_memory: u32,
        lends: &Rc<Lends>,
    ) -> Result<WatchedDisc, AllocError> {
        Ok(WatchedDisc {
            inner: ReliefDisc::new(4096, u64::from(budget), u64::from(relief)),
            digit,
            without_memory,
            lends: lends.clone()?,
        })
    }
}

impl SegDisc for WatchedDisc {
    ghost state = { λ d. discipline_of d.inner.budget };

    fn round(&self) -> u32 {
        self.inner.round()
    }

    fn grows(&self) -> bool {
        self.inner.grows()
    }

    fn faults(&self) -> u64 {
        self.inner.faults()
    }

    fn room(&self) -> Option<u64> {
        self.inner.room()
    }

    fn armed(&self) -> bool {
        self.inner.armed()
    }

    fn told(&self) -> u64 {
        self.inner.told()
    }

    fn yes(&self) -> u64 {
        self.inner.yes()
    }

    fn arm(&mut self, on: bool) {
        self.lends.note(if on { b'+' } else { b'-' });
        self.inner.arm(on);
    }

    fn exception(&mut self, size: u32) -> bool {
        let made = self.inner.exception(size);
        self.lends.note(if made { b'y' } else { b'n' });
        made
    }

    fn lend(&mut self, alloc: Global, number: u32, size: u32) -> Result<Segment, LendFault> {
        let count = self.lends.count.get().wrapping_add(1);
        self.lends.count.set(count);
        if count == self.without_memory {
            self.lends.note(b'm');
            return Err(LendFault::OutOfMemory);
        }
        let lent = self.inner.lend(alloc, number, size);
        self.lends.note(if lent.is_ok() { b'l' } else { b'r' });
        self.lends.faults.set(self.inner.faults());
        lent
    }

    fn extend(&mut self, alloc: Global, seg: &mut Segment, more: u32) -> Result<(), LendFault> {
        self.inner.extend(alloc, seg, more)
    }

    fn take_back(&mut self, seg: Segment) {
        let note = self
            .digit
            .wrapping_mul(10)
            .wrapping_add(u128::from(seg.number()));
        let before = self.lends.taken.get();
        self.lends
            .taken
            .set(before.wrapping_mul(100).wrapping_add(note));
        self.inner.take_back(seg);
    }
}
