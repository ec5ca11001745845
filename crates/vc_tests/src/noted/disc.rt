ghost use Rattle.std.specs.Prelude.{None};
ghost use Rattle.vc_model.specs.Discipline.{Discipline};

use crate::noted::{Notes, digit, note};
use std::alloc::{AllocError, Global};
use std::cell::Cell;
use vc_base::one_more;
use vc_seg::{LendFault, SbrkDisc, SegDisc, Segment};

// Which lends and extensions a discipline refuses, by their numbers from 1 on, which one finds no memory, and how many
// exceptions it makes.
#[derive(Clone, Copy)]
pub(crate) struct Answers {
    pub refused: &'static [u64],
    pub without_memory: u64,
    pub exceptions: u64,
}

// A discipline with a budget that answers so, grows or doesn't, tells no room, and notes what is asked of it.
#[derive(Drop)]
pub(crate) struct NotedDisc {
    inner: SbrkDisc,
    is_growing: bool,
    place: u32,
    refused: Vec<u64>,
    without_memory: u64,
    exceptions: u64,
    asks: Cell<u64>,
    is_armed: bool,
    refusals: u64,
    told: u64,
    yes: u64,
    notes: Notes,
}

impl NotedDisc {
    pub fn new(
        alloc: Global,
        budget: u64,
        is_growing: bool,
        place: u32,
        answers: Answers,
        notes: &Notes,
    ) -> Result<NotedDisc, AllocError> {
        let refused = answers.refused.to_vec(alloc)?;
        Ok(NotedDisc {
            inner: SbrkDisc::new(4096, budget),
            is_growing,
            place,
            refused,
            without_memory: answers.without_memory,
            exceptions: answers.exceptions,
            asks: Cell::new(0),
            is_armed: false,
            refusals: 0,
            told: 0,
            yes: 0,
            notes: notes.clone()?,
        })
    }

    // Counts one ask more, and answers whether it is handed on.
    fn is_asked(&self) -> Result<(), LendFault> {
        let asks = self.asks.get().wrapping_add(1);
        self.asks.set(asks);
        if asks == self.without_memory {
            return Err(LendFault::OutOfMemory);
        }
        if self.refused.contains(&asks) {
            return Err(LendFault::Refused);
        }
        Ok(())
    }
}

impl SegDisc for NotedDisc {
    ghost state = { λ d. record {
      out = d.inner.out;
      faults = d.refusals;
      terms = record { round = d.inner.terms.round; grows = d.is_growing };
      room = None;
      exceptions = record { armed = d.is_armed; told = d.told; yes = d.yes };
    } };

    fn round(&self) -> u32 {
        self.inner.round()
    }

    fn grows(&self) -> bool {
        self.is_growing
    }

    fn faults(&self) -> u64 {
        self.refusals
    }

    fn room(&self) -> Option<u64> {
        let _ = &self.refusals;
        None
    }

    fn armed(&self) -> bool {
        self.is_armed
    }

    fn told(&self) -> u64 {
        self.told
    }

    fn yes(&self) -> u64 {
        self.yes
    }

    fn arm(&mut self, on: bool) {
        note(&self.notes, if on { b"a" } else { b"u" });
        self.is_armed = on;
    }

    fn exception(&mut self, _: u32) -> bool {
        self.told = one_more(self.told);
        let made = self.yes < self.exceptions;
        note(&self.notes, if made { b"y" } else { b"n" });
        if made {
            self.yes = one_more(self.yes);
        }
        made
    }

    fn lend(&mut self, alloc: Global, number: u32, size: u32) -> Result<Segment, LendFault> {
        let lent = match self.is_asked() {
            Ok(()) => self.inner.lend(alloc, number, size),
            Err(fault) => Err(fault),
        };
        match &lent {
            Ok(_) => note(&self.notes, b"l"),
            Err(LendFault::OutOfMemory) => note(&self.notes, b"m"),
            Err(LendFault::Refused) => {
                note(&self.notes, b"L");
                self.refusals = one_more(self.refusals);
            }
        }
        lent
    }

    fn extend(&mut self, alloc: Global, seg: &mut Segment, more: u32) -> Result<(), LendFault> {
        // What is under it grows.
        let _ = self.inner.grows();
        let extended = match self.is_asked() {
            Ok(()) => self.inner.extend(alloc, seg, more),
            Err(fault) => Err(fault),
        };
        match &extended {
            Ok(()) => note(&self.notes, b"x"),
            Err(LendFault::OutOfMemory) => note(&self.notes, b"m"),
            Err(LendFault::Refused) => {
                note(&self.notes, b"X");
                self.refusals = one_more(self.refusals);
            }
        }
        extended
    }

    fn take_back(&mut self, seg: Segment) {
        let back = [
            b'<',
            digit(self.place),
            digit(seg.number()),
            digit(seg.size() / 4096),
        ];
        note(&self.notes, &back);
        self.inner.take_back(seg);
    }
}
