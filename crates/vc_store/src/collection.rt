use crate::calls::{put, seek, seek_from, take};
use crate::moves::{to_first, to_last, to_next, to_prev};
use crate::put::Put;
use vc_base::{Addr, Cells, DictMethod, OutOfMemory};
use vc_best::Best;
use vc_dict::Dict;
use vc_dtdisc::DictDisc;
use vc_objects::{empty, open, shut};
use vc_seg::{BoxedDisc, RegionFault, SegDisc, Stat};

/// A dictionary by one of seven methods in a region of its own, over the segments of a discipline. Its objects are byte
/// strings of 1 to 1,024 bytes, of which one may be current. Every call keeps it open (`IsOpen`), as the others ask: nothing
/// else is for the caller to see to.
#[derive(Drop)]
pub struct Collection<D: DictDisc + Drop> {
    best: Best,
    dict: Dict,
    kind: D,
}

impl<D: DictDisc + Drop> Collection<D> {
    ghost use Rattle.std.specs.Prelude.{◌≡◌, [], IfOk, IfErr, length, option_map};
    ghost use Rattle.vc_model.specs.Discipline.{TookBack};
    ghost use Rattle.vc_seg.specs.Answer.{IsRefusal};
    ghost use Rattle.vc_seg.specs.Stat.{layout_stat};
    ghost use Rattle.vc_base.specs.Prelude.{HasOut};
    ghost use Rattle.vc_dtdisc.specs.Objects.{has_key};
    ghost use Rattle.vc_best.specs.Parts.{disc_in, layout_of, segments_in};
    ghost use Rattle.vc_objects.specs.Leaves.{KeepsDisc, told_each};
    ghost use Rattle.vc_objects.specs.Promises.{StaysAll, opening_in};
    ghost use Rattle.vc_store.specs.Reading.{AfterPut, GoesTo, Removes, Sought, current, first_place, is_sought_from, last_index, next_place, no_objects, place_after, previous_place};
    ghost use Rattle.vc_store.specs.Tries.{IsTried, TriesToPut};
    ghost use Rattle.vc_store.specs.Collections.{IsOpen, KeepsKind, StaysOpen, best_of, contents, dict_of, disc_of, kind_of, lender, lent_to};

    /// A collection of no objects by a method, of a kind, in a best region, which is the collection's from then on. The
    /// region's segments are the last that its discipline lent, as they are where it has none yet. A set or bag takes a
    /// table of 16 slots at once; where that wants a segment or memory, the region comes back.
    pub fn open(
        best: Best,
        method: DictMethod,
        kind: D,
    ) -> Result<Collection<D>, (RegionFault, Best)>
        requires lent { HasOut (disc_in state best) (segments_in best) }
        ensures empty { IfOk result (λ c. contents c ≡ no_objects method) }
        ensures kind { IfOk result (λ c. kind_of c ≡ kind) }
        ensures open { IfOk result (λ c. IsOpen (D.rules (kind_of c)) c (disc_of c state)) }
        ensures lends { IfOk result (λ c. KeepsDisc (disc_in state best) (disc_of c state)
            (segments_in best) (lent_to c)) }
        ensures refused { IfErr result (λ e. IsRefusal (opening_in state best method) e.0) }
        ensures back { IfErr result (λ e. StaysAll state best e.1) }
    {
        let mut best = best;
        match open(&mut best, method, 0, &kind) {
            Ok(dict) => Ok(Collection { best, dict, kind }),
            Err(why) => Err((why, best)),
        }
    }

    /// Puts an object where the method puts it, and makes it current. A set keeps the object that it has of the same key. Where
    /// the object is not new, no object changes, and the current one stays.
    pub fn insert(&mut self, object: &[u8]) -> Put
        requires open { IsOpen (D.rules (kind_of self.old)) self.old (disc_of self.old state) }
        ensures objects { AfterPut result (D.rules (kind_of self.old)) object.now
            (contents self.old) (contents self.new).objects }
        ensures place { (contents self.new).place ≡ place_after result
            (D.rules (kind_of self.old)) object.now (contents self.old) }
        ensures keeps { KeepsKind state D.rules self.old self.new }

        // The region's rules say when an object is refused for want of room.
        ensures tried { IsTried result (TriesToPut state result (D.rules (kind_of self.old)) object.now
            (best_of self.old) (dict_of self.old) (best_of self.new) (dict_of self.new)) }
    {
        put(&mut self.best, &mut self.dict, &self.kind, object)
    }

    /// Makes the first object current that has a key, and answers whether there is one. Where there is none, nothing changes.
    pub fn find(&mut self, key: &[u8]) -> bool
        requires open { IsOpen (D.rules (kind_of self.old)) self.old (disc_of self.old state) }
        ensures sought { Sought (has_key (D.rules (kind_of self.old)) key.now) result
            (contents self.old) (contents self.new) }
        ensures keeps { KeepsKind state D.rules self.old self.new }
    {
        seek(&mut self.best, &mut self.dict, &self.kind, key)
    }

    /// Makes the first object current whose key isn't less than that one, and answers whether there is one. Where there is none,
    /// nothing changes; and there is one in an ordered set or bag alone.
    pub fn at_least(&mut self, key: &[u8]) -> bool
        requires open { IsOpen (D.rules (kind_of self.old)) self.old (disc_of self.old state) }
        ensures sought { Sought (is_sought_from (contents self.old).method
            (D.rules (kind_of self.old)) key.now) result (contents self.old) (contents self.new) }
        ensures keeps { KeepsKind state D.rules self.old self.new }
    {
        seek_from(&mut self.best, &mut self.dict, &self.kind, key)
    }

    /// Makes the first object current, and answers whether there is one.
    pub fn first(&mut self) -> bool
        requires open { IsOpen (D.rules (kind_of self.old)) self.old (disc_of self.old state) }
        ensures goes { GoesTo (first_place (length (contents self.old).objects)) result
            (contents self.old) (contents self.new) }
        ensures keeps { KeepsKind state D.rules self.old self.new }
    {
        to_first(&self.best, &mut self.dict)
    }

    /// Makes the last object current, and answers whether there is one.
    pub fn last(&mut self) -> bool
        requires open { IsOpen (D.rules (kind_of self.old)) self.old (disc_of self.old state) }
        ensures goes { GoesTo (last_index (length (contents self.old).objects)) result
            (contents self.old) (contents self.new) }
        ensures keeps { KeepsKind state D.rules self.old self.new }
    {
        to_last(&self.best, &mut self.dict)
    }

    /// Makes the object behind the current one current, and answers whether there is one: none behind the last, nor where none
    /// is current.
    pub fn next(&mut self) -> bool
        requires open { IsOpen (D.rules (kind_of self.old)) self.old (disc_of self.old state) }
        ensures goes { GoesTo
            (next_place (length (contents self.old).objects) (contents self.old).place) result
            (contents self.old) (contents self.new) }
        ensures keeps { KeepsKind state D.rules self.old self.new }
    {
        to_next(&self.best, &mut self.dict)
    }

    /// Makes the object before the current one current, and answers whether there is one: none before the first, nor where none
    /// is current.
    pub fn prev(&mut self) -> bool
        requires open { IsOpen (D.rules (kind_of self.old)) self.old (disc_of self.old state) }
        ensures goes { GoesTo (previous_place (contents self.old).place) result
            (contents self.old) (contents self.new) }
        ensures keeps { KeepsKind state D.rules self.old self.new }
    {
        to_prev(&self.best, &mut self.dict)
    }

    /// The current object, or none.
    pub fn current(&self) -> Option<&[u8]>
        requires open { IsOpen (D.rules (kind_of self.now)) self.now (disc_of self.now state) }
        ensures { option_map (λ object. object.now) result ≡ current (contents self.now) }
    {
        let at = self.dict.current;
        if at == Addr::NONE {
            None
        } else {
            Some(self.best.body(at))
        }
    }

    /// Takes the first object out that has a key, and answers whether there is one. Its bytes come into `out` in place of
    /// what that holds, and the kind is told of it. Where it was current, the one behind it is then, or none; else the current
    /// one stays. With no memory for them nothing changes but `out`, which is empty then.
    pub fn remove(&mut self, key: &[u8], out: &mut Vec<u8>) -> Result<bool, OutOfMemory>
        requires open { IsOpen (D.rules (kind_of self.old)) self.old (disc_of self.old state) }
        ensures removes { Removes (D.rules (kind_of self.old)) key.now result out.new.items
            (contents self.old) (contents self.new)
            (D.gone (kind_of self.old)) (D.gone (kind_of self.new)) }
        ensures stays { StaysOpen state D.rules self.old self.new }
    {
        take(&mut self.best, &mut self.dict, &mut self.kind, key, out)
    }

    /// Takes all objects out in walk order, tells the kind of each, and answers how many they were.
    pub fn empty(&mut self) -> u32
        requires open { IsOpen (D.rules (kind_of self.old)) self.old (disc_of self.old state) }
        ensures count { result ≡ length (contents self.old).objects }
        ensures empty { contents self.new ≡ no_objects (contents self.old).method }
        ensures told { D.gone (kind_of self.new)
            ≡ told_each (contents self.old).objects (D.gone (kind_of self.old)) }
        ensures stays { StaysOpen state D.rules self.old self.new }
    {
        empty(&mut self.best, &mut self.dict, &mut self.kind)
    }

    /// How many objects there are.
    pub fn count(&self) -> u64
        requires open { IsOpen (D.rules (kind_of self.now)) self.now (disc_of self.now state) }
        ensures { result ≡ length (contents self.now).objects }
    {
        self.dict.count
    }

    /// The numbers of its region: of blocks, gaps and segments, and their sizes in bytes.
    pub fn stat(&self) -> Stat
        ensures { result ≡ layout_stat (layout_of (best_of self.now)) }
    {
        self.best.stat()
    }

    /// The method.
    pub fn method(&self) -> DictMethod
        ensures { result ≡ (contents self.now).method }
    {
        self.dict.method
    }

    /// Ends it: tells the kind of each object in walk order, and gives all segments back. The discipline and the kind come
    /// back.
    pub fn close(self) -> (Box<dyn SegDisc>, D)
        requires open { IsOpen (D.rules (kind_of self)) self (state (lender self)) }
        ensures disc { TookBack (state (lender self)) (state result.0) (lent_to self) [] }
        ensures rules { D.rules result.1 ≡ D.rules (kind_of self) }
        ensures told { D.gone result.1
            ≡ told_each (contents self).objects (D.gone (kind_of self)) }
    {
        let Collection {
            mut best,
            dict,
            mut kind,
        } = self;
        shut(&mut best, dict, &mut kind);
        (best.close().0, kind)
    }
}
