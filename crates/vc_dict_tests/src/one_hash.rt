ghost use Rattle.vc_dict_tests.specs.OneHash.{one-lawful, with_one_hash};

use std::cmp::Ordering;
use vc_base::{OutOfMemory, Steps};
use vc_dtdisc::{BuiltIn, DictDisc};

/// A kind whose keys all have one hash, so that all its holders stand in one chain. For tests alone.
#[derive(Drop)]
pub struct OneHash {
    /// What it does else.
    pub inner: BuiltIn,
}

impl DictDisc for OneHash {
    ghost rules = { λ s. with_one_hash s.inner };

    ghost gone = { λ s. s.inner.gone };

    ghost lawful = { λ s. one-lawful s.inner };

    fn key<'a>(&self, obj: &'a [u8]) -> &'a [u8] {
        self.inner.key(obj)
    }

    fn compare<L>(&self, a: &[u8], b: &[u8], steps: &mut Steps<L>) -> Ordering {
        self.inner.compare(a, b, steps)
    }

    fn hash(&self, _key: &[u8]) -> u64 {
        7
    }

    fn make(&self, obj: &[u8], out: &mut Vec<u8>) -> Result<(), OutOfMemory> {
        self.inner.make(obj, out)
    }

    fn freed(&mut self, obj: &[u8]) {
        self.inner.freed(obj);
    }
}
