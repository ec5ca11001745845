ghost use Rattle.std.specs.Prelude.{◌≡◌, ◌<◌, [], ◌∷◌, ◌++◌, OnErr, OnOk, Some, length, slice_get, slice_index};

use std::alloc::{AllocError, Global};
use std::marker::Model;

/// Objects in order, each as its bytes. The bytes of all stand in one piece of memory, one object behind another.
#[derive(Debug, Drop)]
pub struct ObjectItems {
    bytes: Vec<u8>,

    // Where each object ends in the bytes, counted from 0. It begins where the one before ends, and the first at 0.
    ends: Vec<usize>,
}

impl Model for ObjectItems {
    ghost use Rattle.std.specs.Prelude.{ℕ, List, length};
    ghost use Rattle.vc_script.specs.Ends.{AreEnds, slices_by_ends};

    ghost Value = { List (List ℕ) };

    ghost view = { λ list. slices_by_ends 0 list.bytes.items list.ends.items };

    ghost invariant = { λ list. AreEnds 0 (length list.bytes.items) list.ends.items };
}

impl ObjectItems {
    /// No objects. Takes no memory.
    pub fn new(alloc: Global) -> ObjectItems
        ensures { result ≡ [] }
    {
        ObjectItems {
            bytes: Vec::new(alloc),
            ends: Vec::new(alloc),
        }
    }

    /// Puts an object of these bytes behind the others. Takes memory for its bytes and for where it ends, both where
    /// the others stand, which are moved where there is no room behind them. Want of memory is the one error, and leaves
    /// the objects as they were.
    pub fn push(&mut self, object: &[u8]) -> Result<(), AllocError>
        ensures pushed { OnOk result (self.new ≡ self.old ++ object.now ∷ []) }
        ensures unchanged { OnErr result (self.new ≡ self.old) }
    {
        self.ends.reserve(1)?;
        self.bytes.extend_from_slice(object)?;
        self.ends.push_reserved(self.bytes.len());
        Ok(())
    }

    /// How many objects there are.
    pub fn len(&self) -> usize
        ensures { result ≡ length self.now }
    {
        self.ends.len()
    }

    /// The bytes of the object at `i`, counted from 0. Takes no memory.
    pub fn get(&self, i: usize) -> &[u8]
        requires { i < length self.now }
        ensures { slice_get self.now i ≡ Some result.now }
    {
        &self.bytes[begin_of(&self.ends, i)..self.ends[i]]
    }
}

// Where the object at `i` begins, by where each ends.
fn begin_of(ends: &[usize], i: usize) -> usize
    requires { i < length ends.now }
    ensures { result ≡ slice_index (0 ∷ ends.now) i }
{
    if i == 0 { 0 } else { ends[i - 1] }
}
