ghost use Rattle.vc_dtdisc.specs.ShapeLaws.{rules-lawful};
ghost use Rattle.vc_dtdisc.specs.Shapes.{rules_of};

use std::alloc::{AllocError, Global};
use std::cell::{Cell, RefCell};
use std::cmp::Ordering;
use std::rc::Rc;
use vc_base::{OutOfMemory, Steps};
use vc_dtdisc::{BuiltIn, DictDisc};

/// What is seen of kinds.
#[derive(Drop)]
pub struct Calls {
    /// Each prototype that they make an object of by a plus, and each object that they are told of by a minus, behind the
    /// kind's digit.
    pub notes: RefCell<Vec<u8>>,
    /// How many compares they made; it wraps.
    pub compares: Cell<u32>,
}

/// Nothing is seen yet.
pub fn no_calls(alloc: Global) -> Result<Rc<Calls>, AllocError> {
    let calls = Calls {
        notes: RefCell::new(Vec::new(alloc)),
        compares: Cell::new(0),
    };
    Ok(Rc::new(alloc, calls)?)
}

/// A kind that is watched. For tests alone.
#[derive(Drop)]
pub struct WatchedKind {
    /// What it does else.
    pub inner: BuiltIn,
    digit: u8,
    calls: Rc<Calls>,
}

impl WatchedKind {
    /// A kind that does what the inner one does, and whose digit stands at each of its notes.
    pub fn new(inner: BuiltIn, digit: u8, calls: &Rc<Calls>) -> Result<WatchedKind, AllocError> {
        Ok(WatchedKind {
            inner,
            digit,
            calls: calls.clone()?,
        })
    }

    // Notes behind earlier ones, with ample memory.
    fn note(&self, sign: u8, obj: &[u8]) {
        if let Ok(mut notes) = self.calls.notes.try_borrow_mut() {
            let text = &mut *notes;
            let _ = text.push(self.digit);
            let _ = text.push(sign);
            let _ = text.extend_from_slice(obj);
            let _ = text.push(b' ');
        }
    }
}

impl DictDisc for WatchedKind {
    ghost rules = { λ d. rules_of d.inner.shape };

    ghost gone = { λ d. d.inner.gone };

    ghost lawful = { λ d. rules-lawful d.inner };

    fn key<'a>(&self, obj: &'a [u8]) -> &'a [u8] {
        self.inner.key(obj)
    }

    fn compare<L>(&self, a: &[u8], b: &[u8], steps: &mut Steps<L>) -> Ordering {
        let count = self.calls.compares.get().wrapping_add(1);
        self.calls.compares.set(count);
        self.inner.compare(a, b, steps)
    }

    fn hash(&self, key: &[u8]) -> u64 {
        self.inner.hash(key)
    }

    fn make(&self, obj: &[u8], out: &mut Vec<u8>) -> Result<(), OutOfMemory> {
        self.note(b'+', obj);
        self.inner.make(obj, out)
    }

    fn freed(&mut self, obj: &[u8]) {
        self.note(b'-', obj);
        self.inner.freed(obj);
    }
}
