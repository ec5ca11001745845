use crate::moves::{to_first, to_last, to_next, to_prev};
use crate::stores::Store;
use vc_dtdisc::DictDisc;
use vc_seg::{BoxedDisc, SegDisc};

impl<D: DictDisc + Drop> Store<D> {
    ghost use Rattle.std.specs.Prelude.{length};
    ghost use Rattle.vc_store.specs.Reading.{GoesTo, first_place, last_index, next_place, previous_place};
    ghost use Rattle.vc_store.specs.Stores.Stores.{ChangesObjects, HasOpenDict, contents};

    /// Makes the first object of a dictionary current, and answers whether there is one.
    pub fn first(&mut self, n: usize) -> bool
        requires dict { HasOpenDict state D.rules self.old n }
        ensures goes { GoesTo (first_place (length (contents self.old n).objects)) result
            (contents self.old n) (contents self.new n) }
        ensures changes { ChangesObjects state D.rules n self.old self.new }
    {
        let Some(dict) = &mut self.dicts[n] else {
            unreachable!()
        };
        to_first(&self.best, dict)
    }

    /// Makes the last object of a dictionary current, and answers whether there is one.
    pub fn last(&mut self, n: usize) -> bool
        requires dict { HasOpenDict state D.rules self.old n }
        ensures goes { GoesTo (last_index (length (contents self.old n).objects)) result
            (contents self.old n) (contents self.new n) }
        ensures changes { ChangesObjects state D.rules n self.old self.new }
    {
        let Some(dict) = &mut self.dicts[n] else {
            unreachable!()
        };
        to_last(&self.best, dict)
    }

    /// Makes the object behind the current one current, and answers whether there is one: none behind the last, nor where none
    /// is current.
    pub fn next(&mut self, n: usize) -> bool
        requires dict { HasOpenDict state D.rules self.old n }
        ensures goes { GoesTo
            (next_place (length (contents self.old n).objects) (contents self.old n).place) result
            (contents self.old n) (contents self.new n) }
        ensures changes { ChangesObjects state D.rules n self.old self.new }
    {
        let Some(dict) = &mut self.dicts[n] else {
            unreachable!()
        };
        to_next(&self.best, dict)
    }

    /// Makes the object before the current one current, and answers whether there is one: none before the first, nor where none
    /// is current.
    pub fn prev(&mut self, n: usize) -> bool
        requires dict { HasOpenDict state D.rules self.old n }
        ensures goes { GoesTo (previous_place (contents self.old n).place) result
            (contents self.old n) (contents self.new n) }
        ensures changes { ChangesObjects state D.rules n self.old self.new }
    {
        let Some(dict) = &mut self.dicts[n] else {
            unreachable!()
        };
        to_prev(&self.best, dict)
    }
}
