ghost use Rattle.std.specs.Prelude.{◌≤◌};
ghost use Rattle.vc_seg.specs.Budget.{discipline_of};

use std::alloc::{AllocError, Global};
use std::cell::Cell;
use std::process::Abort;
use std::rc::Rc;
use vc_seg::{BoxedDisc, LendFault, ReliefDisc, SegDisc, Segment, obtain};

// A discipline that notes how it is asked, by a digit behind those of earlier calls: 1 for a lend, and 2 for an exception. The
// lend of one number, counted from 1, finds no memory.
#[derive(Drop)]
struct NotingDisc {
    inner: ReliefDisc,
    lends: u32,
    without_memory: u32,
    notes: Rc<Cell<u64>>,
}

impl NotingDisc {
    fn note(&self, digit: u64) {
        let before = self.notes.get();
        self.notes.set(before.wrapping_mul(10).wrapping_add(digit));
    }
}

impl SegDisc for NotingDisc {
    ghost state = { λ d. discipline_of d.inner.budget };

    fn round(&self) -> u32 {
        self.inner.round()
    }

    fn grows(&self) -> bool {
        self.inner.grows()
    }

    fn faults(&self) -> u64 {
        self.inner.faults()
    }

    fn room(&self) -> Option<u64> {
        self.inner.room()
    }

    fn armed(&self) -> bool {
        self.inner.armed()
    }

    fn told(&self) -> u64 {
        self.inner.told()
    }

    fn yes(&self) -> u64 {
        self.inner.yes()
    }

    fn arm(&mut self, on: bool) {
        self.inner.arm(on);
    }

    fn exception(&mut self, size: u32) -> bool {
        self.note(2);
        self.inner.exception(size)
    }

    fn lend(&mut self, alloc: Global, number: u32, size: u32) -> Result<Segment, LendFault> {
        self.note(1);
        self.lends = self.lends.wrapping_add(1);
        if self.lends == self.without_memory {
            return Err(LendFault::OutOfMemory);
        }
        self.inner.lend(alloc, number, size)
    }

    fn extend(&mut self, alloc: Global, seg: &mut Segment, more: u32) -> Result<(), LendFault> {
        self.inner.extend(alloc, seg, more)
    }

    fn take_back(&mut self, seg: Segment) {
        self.inner.take_back(seg);
    }
}

// What it answers where it is asked for a segment of 4,096 bytes: 1 where it lends one, 2 where it refuses it, and 3 for
// want of memory; 0 where its round is another one.
fn answer(alloc: Global, disc: &mut BoxedDisc, number: u32) -> u32
    ensures { result ≤ 3 }
{
    if disc.round() != 4096 {
        return 0;
    }
    match obtain(disc, alloc, number, 4096) {
        Ok(_) => 1,
        Err(LendFault::Refused) => 2,
        Err(LendFault::OutOfMemory) => 3,
    }
}

// What it answers to three such calls, by a digit each.
fn answers(alloc: Global, disc: &mut BoxedDisc) -> u32 {
    let first = answer(alloc, disc, 1);
    let second = answer(alloc, disc, 2);
    let third = answer(alloc, disc, 3);
    first * 100 + second * 10 + third
}

// A discipline with a budget of 4,096 bytes, which its first exception raises by so many.
fn noting(
    alloc: Global,
    relief: u64,
    without_memory: u32,
    notes: Rc<Cell<u64>>,
) -> Result<BoxedDisc, AllocError>
    requires { relief ≤ 1048576 }
{
    let disc: BoxedDisc = Box::new(
        alloc,
        NotingDisc {
            inner: ReliefDisc::new(4096, 4096, relief),
            lends: 0,
            without_memory,
            notes,
        },
    )?;
    Ok(disc)
}

// The answers of a discipline with a budget of 4,096 bytes, which its first exception raises by so many, where it is armed
// or not; the notes; and its faults and how often it was told and made an exception.
fn asked(
    alloc: Global,
    relief: u64,
    armed: bool,
    without_memory: u32,
) -> Result<(u32, u64, u64, u64, u64), AllocError>
    requires { relief ≤ 1048576 }
{
    let notes = Rc::new(alloc, Cell::new(0))?;
    let mut disc = noting(alloc, relief, without_memory, notes.clone()?)?;
    disc.arm(armed);
    let digits = answers(alloc, &mut disc);
    Ok((digits, notes.get(), disc.faults(), disc.told(), disc.yes()))
}

#[test]
fn exceptions(rt: HostRuntime) {
    let alloc = rt.alloc();
    // One that isn't armed is never asked for an exception.
    assert_eq!(rt; asked(alloc, 4096, false, 0), Ok((122, 111, 2, 0, 0)));
    // An exception that brings nothing: the second lend is refused as well, and none is made again.
    assert_eq!(rt; asked(alloc, 0, true, 0), Ok((122, 112_112, 3, 2, 1)));
    // One that brings a segment, and then none.
    assert_eq!(rt; asked(alloc, 4096, true, 0), Ok((112, 112_112, 2, 2, 1)));
    assert_eq!(rt; asked(alloc, 8192, true, 0), Ok((111, 11_211, 1, 1, 1)));
    // No memory for the lend behind an exception, and none before a refusal.
    assert_eq!(rt; asked(alloc, 4096, true, 3), Ok((131, 11_211, 1, 1, 1)));
    assert_eq!(rt; asked(alloc, 4096, true, 1), Ok((311, 11_121, 1, 1, 1)));
}
