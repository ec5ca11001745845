use crate::Put;
use crate::calls::{put, seek, seek_from, take};
use vc_base::{Addr, Cells, DictMethod, OutOfMemory};
use vc_best::Best;
use vc_dict::Dict;
use vc_dtdisc::DictDisc;
use vc_objects::{empty, open, shut};
use vc_seg::{BoxedDisc, RegionFault, SegDisc, Stat};

/// Dictionaries in one region over the segments of a discipline, each by a number from 0 on, by one of seven methods and of
/// a kind of its own. Their objects are byte strings of 1 to 1,024 bytes, of which one in each may be current. A number is
/// handed out once: where its dictionary was shut it has none, and keeps its kind. Every call keeps the store open
/// (`IsOpen`), as the others ask.
#[derive(Drop)]
pub struct Store<D: DictDisc + Drop> {
    pub(crate) best: Best,
    pub(crate) dicts: Vec<Option<Dict>>,
    pub(crate) kinds: Vec<D>,
}

impl<D: DictDisc + Drop> Store<D> {
    ghost use Rattle.std.specs.Prelude.{◌≡◌, ◌+◌, ◌<◌, [], ◌∷◌, ◌++◌, Some, IfOk, IfErr, IsTrue, OnErr, OnOk, ◌↔◌, length, option_map};
    ghost use Rattle.vc_model.specs.Discipline.{TookBack};
    ghost use Rattle.vc_seg.specs.Answer.{IsRefusal};
    ghost use Rattle.vc_seg.specs.Stat.{layout_stat};
    ghost use Rattle.vc_base.specs.Prelude.{HasOut};
    ghost use Rattle.vc_best.specs.Parts.{disc_in, layout_of, segments_in};
    ghost use Rattle.vc_objects.specs.Leaves.{told_each};
    ghost use Rattle.vc_objects.specs.Promises.{opening_in};
    ghost use Rattle.vc_dtdisc.specs.Objects.{has_key};
    ghost use Rattle.vc_store.specs.Reading.{AfterPut, Removes, Sought, current, is_sought_from, no_objects, place_after};
    ghost use Rattle.vc_store.specs.Stores.Stores.{AllStay, AreTold, ChangesObjects, ChangesOne, Ends, HasDict, HasOpenDict, HasRoom, IsOpen, OthersStay, StaysOpen, TriesAt, best_of, contents, dict_at, dicts_of, disc_of, gone_at, kind_at, kinds_of, lender, lent_to, numbers_of, rules_at, shown};

    /// A store of no dictionaries in a best region, which is the store's from then on. The region's segments are the last that
    /// its discipline lent, as they are where it has none yet. Takes no memory.
    pub fn open(best: Best) -> Store<D>
        requires lent { HasOut (disc_in state best) (segments_in best) }
        ensures best { best_of result ≡ best }
        ensures empty { numbers_of result ≡ 0 }
        ensures open { IsOpen D.rules result (disc_of result state) }
    {
        let alloc = best.alloc;
        Store {
            best,
            dicts: Vec::new(alloc),
            kinds: Vec::new(alloc),
        }
    }

    /// Adds a dictionary of no objects by a method, of a kind, and answers its number: the first gets 0, each other one the
    /// number behind the last. A set or bag takes a table of 16 slots at once. Where that wants a segment or memory, or the
    /// list of dictionaries does, nothing changes, no number is handed out, and the kind comes back.
    pub fn dict(&mut self, method: DictMethod, kind: D) -> Result<usize, (RegionFault, D)>
        requires open { IsOpen D.rules self.old (disc_of self.old state) }
        ensures number { IfOk result (λ n. n ≡ numbers_of self.old) }
        ensures numbers { OnOk result (numbers_of self.new ≡ numbers_of self.old + 1) }
        ensures empty { IfOk result (λ n. shown self.new n ≡ Some (no_objects method)) }
        ensures kind { IfOk result (λ n. kind_at self.new n ≡ Some kind) }
        ensures others { IfOk result (λ n. OthersStay self.old self.new n) }
        ensures refused { IfErr result (λ e. IsRefusal (opening_in state (best_of self.old) method)
            e.0) }
        ensures back { IfErr result (λ e. e.1 ≡ kind) }
        ensures same { OnErr result (AllStay self.old self.new) }
        ensures stays { StaysOpen state D.rules self.old self.new }
    {
        if self.make_room().is_err() {
            return Err((RegionFault::OutOfMemory, kind));
        }
        let number = self.dicts.len();
        match open(&mut self.best, method, 0, &kind) {
            Ok(dict) => {
                self.add(dict, kind);
                Ok(number)
            }
            Err(why) => Err((why, kind)),
        }
    }

    // Makes room for one more dictionary. With no memory for it nothing changes.
    fn make_room(&mut self) -> Result<(), OutOfMemory>
        ensures best { best_of self.new ≡ best_of self.old }
        ensures dicts { dicts_of self.new ≡ dicts_of self.old }
        ensures kinds { kinds_of self.new ≡ kinds_of self.old }
        ensures room { OnOk result (HasRoom self.new) }
    {
        self.dicts.reserve(1)?;
        self.kinds.reserve(1)?;
        Ok(())
    }

    // Puts a dictionary and its kind behind the others, for which there is room.
    fn add(&mut self, dict: Dict, kind: D)
        requires room { HasRoom self.old }
        ensures best { best_of self.new ≡ best_of self.old }
        ensures dicts { dicts_of self.new ≡ dicts_of self.old ++ Some dict ∷ [] }
        ensures kinds { kinds_of self.new ≡ kinds_of self.old ++ kind ∷ [] }
    {
        // There is room for both, so these take no memory and cannot fail.
        let _ = self.dicts.push(Some(dict));
        let _ = self.kinds.push(kind);
    }

    /// Whether a number is that of a dictionary, as the calls below ask.
    pub fn has(&self, n: usize) -> bool
        ensures { IsTrue result ↔ HasDict self.now n }
    {
        match self.dicts.get(n) {
            Some(dict) => dict.is_some(),
            None => false,
        }
    }

    /// Puts an object into a dictionary where its method puts it, and makes it current. A set keeps the object that it has of
    /// the same key. Where the object is not new, no object changes, and the current one stays.
    pub fn insert(&mut self, n: usize, object: &[u8]) -> Put
        requires dict { HasOpenDict state D.rules self.old n }
        ensures objects { AfterPut result (rules_at D.rules self.old n) object.now
            (contents self.old n) (contents self.new n).objects }
        ensures place { (contents self.new n).place ≡ place_after result
            (rules_at D.rules self.old n) object.now (contents self.old n) }
        ensures changes { ChangesObjects state D.rules n self.old self.new }

        // The region's rules say when an object is refused for want of room.
        ensures tried { TriesAt state D.rules result n object.now self.old self.new }
    {
        let Some(into) = &mut self.dicts[n] else {
            unreachable!()
        };
        put(&mut self.best, into, &self.kinds[n], object)
    }

    /// Makes the first object current that has a key, and answers whether there is one. Where there is none, nothing changes.
    pub fn find(&mut self, n: usize, key: &[u8]) -> bool
        requires dict { HasOpenDict state D.rules self.old n }
        ensures sought { Sought (has_key (rules_at D.rules self.old n) key.now) result
            (contents self.old n) (contents self.new n) }
        ensures changes { ChangesObjects state D.rules n self.old self.new }
    {
        let Some(dict) = &mut self.dicts[n] else {
            unreachable!()
        };
        seek(&mut self.best, dict, &self.kinds[n], key)
    }

    /// Makes the first object current whose key isn't less than that one, and answers whether there is one. Where there is none,
    /// nothing changes; and there is one in an ordered set or bag alone.
    pub fn at_least(&mut self, n: usize, key: &[u8]) -> bool
        requires dict { HasOpenDict state D.rules self.old n }
        ensures sought { Sought (is_sought_from (contents self.old n).method
            (rules_at D.rules self.old n) key.now) result
            (contents self.old n) (contents self.new n) }
        ensures changes { ChangesObjects state D.rules n self.old self.new }
    {
        let Some(dict) = &mut self.dicts[n] else {
            unreachable!()
        };
        seek_from(&mut self.best, dict, &self.kinds[n], key)
    }

    /// The current object of a dictionary, or none.
    pub fn current(&self, n: usize) -> Option<&[u8]>
        requires dict { HasOpenDict state D.rules self.now n }
        ensures { option_map (λ object. object.now) result ≡ current (contents self.now n) }
    {
        let Some(dict) = &self.dicts[n] else {
            unreachable!()
        };
        let at = dict.current;
        if at == Addr::NONE {
            None
        } else {
            Some(self.best.body(at))
        }
    }

    /// Takes the first object of a dictionary out that has a key, and answers whether there is one. Its bytes come into `out` in
    /// place of what that holds, and the dictionary's kind is told of it. Where it was current, the one behind it is then, or
    /// none; else the current one stays. With no memory for them nothing changes but `out`, which is empty then.
    pub fn remove(&mut self, n: usize, key: &[u8], out: &mut Vec<u8>) -> Result<bool, OutOfMemory>
        requires dict { HasOpenDict state D.rules self.old n }
        ensures removes { Removes (rules_at D.rules self.old n) key.now result out.new.items
            (contents self.old n) (contents self.new n)
            (gone_at D.gone self.old n) (gone_at D.gone self.new n) }
        ensures changes { ChangesOne state D.rules n self.old self.new }
    {
        let Some(dict) = &mut self.dicts[n] else {
            unreachable!()
        };
        take(&mut self.best, dict, &mut self.kinds[n], key, out)
    }

    /// Takes all objects of a dictionary out in walk order, tells its kind of each, and answers how many they were.
    pub fn empty(&mut self, n: usize) -> u32
        requires dict { HasOpenDict state D.rules self.old n }
        ensures count { result ≡ length (contents self.old n).objects }
        ensures empty { contents self.new n ≡ no_objects (contents self.old n).method }
        ensures told { gone_at D.gone self.new n
            ≡ told_each (contents self.old n).objects (gone_at D.gone self.old n) }
        ensures changes { ChangesOne state D.rules n self.old self.new }
    {
        let Some(dict) = &mut self.dicts[n] else {
            unreachable!()
        };
        empty(&mut self.best, dict, &mut self.kinds[n])
    }

    /// How many objects a dictionary has.
    pub fn count(&self, n: usize) -> u64
        requires dict { HasOpenDict state D.rules self.now n }
        ensures { result ≡ length (contents self.now n).objects }
    {
        let Some(dict) = &self.dicts[n] else {
            unreachable!()
        };
        dict.count
    }

    /// The method of a dictionary.
    pub fn method(&self, n: usize) -> DictMethod
        requires there { HasDict self.now n }
        ensures { result ≡ (contents self.now n).method }
    {
        let Some(dict) = &self.dicts[n] else {
            unreachable!()
        };
        dict.method
    }

    /// Ends a dictionary: tells its kind of each object in walk order, and frees its blocks. Its number is that of none from
    /// then on, and its kind comes back when the store is closed.
    pub fn shut(&mut self, n: usize)
        requires dict { HasOpenDict state D.rules self.old n }
        ensures { Ends state D.rules D.gone n self.old self.new }
    {
        self.end(n);
    }

    // Ends the dictionary of a number, where there is one, and tells its kind of each object in walk order.
    fn end(&mut self, n: usize)
        requires open { IsOpen D.rules self.old (disc_of self.old state) }
        requires given { n < numbers_of self.old }
        ensures { Ends state D.rules D.gone n self.old self.new }
    {
        match self.dicts[n].take() {
            Some(dict) => shut(&mut self.best, dict, &mut self.kinds[n]),
            None => {}
        }
    }

    /// The numbers of its region: of blocks, gaps and segments, and their sizes in bytes.
    pub fn stat(&self) -> Stat
        ensures { result ≡ layout_stat (layout_of (best_of self.now)) }
    {
        self.best.stat()
    }

    /// Ends it: tells the kind of each dictionary of its objects in walk order, and gives all segments back. The discipline
    /// comes back, and the kinds by number, also those of dictionaries that were shut before.
    pub fn close(self) -> (Box<dyn SegDisc>, Vec<D>)
        requires open { IsOpen D.rules self (state (lender self)) }
        ensures disc { TookBack (state (lender self)) (state result.0) (lent_to self) [] }
        ensures kinds { AreTold D.rules D.gone self result.1.items }
    {
        let mut store = self;
        for n in 0..store.dicts.len() {
            store.end(n);
        }
        let Store { best, kinds, .. } = store;
        (best.close().0, kinds)
    }
}
