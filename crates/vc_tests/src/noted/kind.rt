ghost use Rattle.vc_dtdisc.specs.ShapeLaws.{rules-lawful};
ghost use Rattle.vc_dtdisc.specs.Shapes.{rules_of};

use crate::noted::{Notes, digit, note};
use std::cell::Cell;
use std::cmp::Ordering;
use std::rc::Rc;
use vc_base::{OutOfMemory, Steps};
use vc_dtdisc::{BuiltIn, DictDisc};

// A kind that notes which objects it makes and is told of, and counts its compares; the count wraps.
#[derive(Drop)]
pub(crate) struct NotedKind {
    pub inner: BuiltIn,
    pub number: u32,
    pub compares: Rc<Cell<u32>>,
    pub notes: Notes,
}

impl NotedKind {
    fn note(&self, sign: u8, obj: &[u8]) {
        note(&self.notes, &[sign, digit(self.number)]);
        note(&self.notes, obj);
        note(&self.notes, b" ");
    }
}

impl DictDisc for NotedKind {
    ghost rules = { λ d. rules_of d.inner.shape };

    ghost gone = { λ d. d.inner.gone };

    ghost lawful = { λ d. rules-lawful d.inner };

    fn key<'a>(&self, obj: &'a [u8]) -> &'a [u8] {
        self.inner.key(obj)
    }

    fn compare<L>(&self, a: &[u8], b: &[u8], steps: &mut Steps<L>) -> Ordering {
        self.compares.set(self.compares.get().wrapping_add(1));
        self.inner.compare(a, b, steps)
    }

    fn hash(&self, key: &[u8]) -> u64 {
        self.inner.hash(key)
    }

    fn make(&self, obj: &[u8], out: &mut Vec<u8>) -> Result<(), OutOfMemory> {
        self.note(b'+', obj);
        self.inner.make(obj, out)
    }

    fn freed(&mut self, obj: &[u8]) {
        self.note(b'-', obj);
        self.inner.freed(obj);
    }
}
