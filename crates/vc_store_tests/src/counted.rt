ghost use Rattle.vc_dtdisc.specs.ShapeLaws.{rules-lawful};
ghost use Rattle.vc_dtdisc.specs.Shapes.{rules_of};

use std::alloc::AllocError;
use std::cell::Cell;
use std::cmp::Ordering;
use std::rc::Rc;
use vc_base::{OutOfMemory, Steps};
use vc_dtdisc::{BuiltIn, DictDisc, Shape};

// A kind whose keys are whole objects, and that counts its compares; the count wraps.
#[derive(Drop)]
pub(crate) struct Counted {
    inner: BuiltIn,
    compares: Rc<Cell<u32>>,
}

impl Counted {
    pub fn new(compares: &Rc<Cell<u32>>) -> Result<Counted, AllocError> {
        Ok(Counted {
            inner: BuiltIn::new(Shape::Whole),
            compares: compares.clone()?,
        })
    }
}

impl DictDisc for Counted {
    ghost rules = { λ d. rules_of d.inner.shape };

    ghost gone = { λ d. d.inner.gone };

    ghost lawful = { λ d. rules-lawful d.inner };

    fn key<'a>(&self, obj: &'a [u8]) -> &'a [u8] {
        self.inner.key(obj)
    }

    fn compare<L>(&self, a: &[u8], b: &[u8], steps: &mut Steps<L>) -> Ordering {
        self.compares.set(self.compares.get().wrapping_add(1));
        self.inner.compare(a, b, steps)
    }

    fn hash(&self, key: &[u8]) -> u64 {
        self.inner.hash(key)
    }

    fn make(&self, obj: &[u8], out: &mut Vec<u8>) -> Result<(), OutOfMemory> {
        self.inner.make(obj, out)
    }

    fn freed(&mut self, obj: &[u8]) {
        self.inner.freed(obj);
    }
}
