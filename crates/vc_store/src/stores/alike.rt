ghost use Rattle.std.specs.Prelude.{◌≡◌};
ghost use Rattle.std.proofs.Common.{refl, ◌∙◌};
ghost use Rattle.vc_store.specs.Stores.Alike.{Keeps, layered_of};
ghost use Rattle.vc_store.specs.Stores.AlikeLaws.{are-layers, keeps-after, keeps-same};

use crate::stores::Store;
use std::cmp::Ordering;
use vc_algebra::{Ordered, Side, copied, sought};
use vc_base::{Addr, Cells, DictMethod, Steps};
use vc_dict::{Dict, Layers, Paths};
use vc_dtdisc::DictDisc;
use vc_seg::{BoxedDisc, SegDisc};

/// The dictionaries of a store that have the rules of one of them, as the layers that view paths, ranges and operations
/// take, each by its number in the store, of which paths have those from 0 to 255. Its holder has shown of each dictionary
/// that it asks for that its kind has these rules; nothing tells it at run time. No call changes what the store shows, nor
/// can any be refused or needs memory. This project's own.
#[derive(Drop)]
pub struct Alike<D: DictDisc + Drop> {
    /// The store, until it is taken out again.
    pub store: Store<D>,
    /// The number of the dictionary whose rules they are.
    pub like: usize,
}

impl<D: DictDisc + Drop> Alike<D> {
    ghost use Rattle.std.specs.Prelude.{◌≡◌, ◌↔◌, ℕ, IsTrue, List, Some};
    ghost use Rattle.std.specs.Option.{option_map};
    ghost use Rattle.vc_base.specs.Prelude.{number_of};
    ghost use Rattle.vc_paths.specs.Layers.{bytes_there};
    ghost use Rattle.vc_paths.specs.Path.{IsPath};
    ghost use Rattle.vc_algebra.specs.Sides.{CanAsk, CanSeekBy, sought_place};
    ghost use Rattle.vc_store.specs.Stores.Alike.{AreAlike, HasLayer, Keeps, ShowsKept, StaysKept, is_of, layered_of, layers_of};
    ghost use Rattle.vc_store.specs.Stores.Stores.{HasDict, IsOpen, dict_at, disc_of, rules_at};

    /// The dictionaries of a store whose rules are those of the dictionary of a number: that one is among them, and each whose
    /// kind has the same.
    pub fn of(store: Store<D>, n: usize) -> Alike<D>
        requires open { IsOpen D.rules store (disc_of store state) }
        requires there { HasDict store n }
        ensures store { result.store ≡ store }
        ensures like { result.like ≡ n }
        ensures layers { (d : ℕ) → HasDict store d → rules_at D.rules store d ≡ rules_at D.rules store n
            → HasLayer D.rules result.store result.like d }
    {
        Alike { store, like: n }
    }

    /// Takes the store out again. Where only layers were asked since it was handed in, it shows what it showed then, and is
    /// open as it was.
    pub fn into_store(self) -> Store<D>
        ensures store { result ≡ self.store }
        ensures same { ShowsKept D.rules result }
        ensures stays { StaysKept state D.rules result }
    {
        self.store
    }

    // The dictionary of a number.
    fn dict_of(&self, d: u32) -> &Dict
        requires { HasLayer D.rules self.now.store self.now.like d }
        ensures { dict_at self.now.store d ≡ Some result.now }
    {
        let Some(dict) = &self.store.dicts[d as usize] else {
            unreachable!()
        };
        dict
    }

    // Its kind.
    fn kind_of(&self, d: u32) -> &D
        requires { HasLayer D.rules self.now.store self.now.like d }
        ensures { D.rules result.now ≡ rules_at D.rules self.now.store self.now.like }
    {
        &self.store.kinds[d as usize]
    }

    // Whether a number is that of a dictionary of a method.
    fn is_of(&self, method: DictMethod, e: u32) -> bool
        ensures { result ≡ is_of self.now.store method e }
    {
        match self.store.dicts.get(e as usize) {
            Some(Some(dict)) => dict.method == method,
            _ => false,
        }
    }

    /// Whether `d` is the number of a dictionary from 0 to 255 and each number on its path is one of the same method, as views,
    /// ranges and operations ask, of a store whose kinds all have the rules.
    pub fn has_path(&self, paths: &Paths, d: u32) -> bool
        requires { AreAlike D.rules self.now.store self.now.like }
        ensures { IsTrue result
            ↔ IsPath (layered_of D.rules self.now.store self.now.like) paths.now d }
    {
        if d >= 256 || !self.store.has(d as usize) {
            return false;
        }
        paths.show_invariant();
        let method = self.dict_of(d).method;
        let mut next = Some(d);
        while let Some(e) = next {
            if !self.is_of(method, e) {
                return false;
            }
            next = paths.below(e);
        }
        true
    }

    // The holder that is sought by a key, in the dictionary of a number.
    fn sought_at<L>(&mut self, d: u32, side: Side, key: &[u8], steps: &mut Steps<L>) -> Option<Addr>
        requires dict { HasLayer D.rules self.old.store self.old.like d }
        requires side { CanAsk side (layers_of D.rules self.old.store self.old.like d).method }
        ensures found { option_map number_of result ≡ sought_place side
            (layers_of D.rules self.old.store self.old.like d) key.now }
        ensures keeps { Keeps D.rules self.old.store self.new.store }
        ensures like { self.new.like ≡ self.old.like }
    {
        let n = d as usize;
        let Some(dict) = &mut self.store.dicts[n] else {
            unreachable!()
        };
        sought(
            dict,
            &mut self.store.best,
            &self.store.kinds[n],
            side,
            key,
            steps,
        )
    }

    // The holder in the dictionary of a number that is sought by the key of the object at a place of another one.
    fn sought_like<L>(
        &mut self,
        d: u32,
        side: Side,
        other: (u32, Addr),
        steps: &mut Steps<L>,
    ) -> Option<Addr>
        requires { CanSeekBy (layered_of D.rules self.old.store self.old.like) d side other }
        ensures found { (bytes : List ℕ)
            → bytes_there other.1.0 (layers_of D.rules self.old.store self.old.like other.0).objects ≡ Some bytes
            → option_map number_of result ≡ sought_place side
            (layers_of D.rules self.old.store self.old.like d)
            ((rules_at D.rules self.old.store self.old.like).key bytes) }
        ensures keeps { Keeps D.rules self.old.store self.new.store }
        ensures like { self.new.like ≡ self.old.like }
    {
        let mut object = [0u8; 1024];
        let length = copied(self.object(other.0, other.1), &mut object);
        let key = self.kind_of(d).key(&object[..length]);
        self.sought_at(d, side, key, steps)
    }
}

impl<D: DictDisc + Drop> Layers for Alike<D> {
    ghost layered = { λ s. layered_of D.rules s.store s.like };

    ghost Stays = { λ s t. (t.like ≡ s.like) × Keeps D.rules s.store t.store };

    fn method(&self, d: u32) -> DictMethod {
        self.dict_of(d).method
    }

    fn kind_number(&self, d: u32) -> u32 {
        1
    }

    fn object(&self, d: u32, at: Addr) -> &[u8] {
        self.store.best.body(at)
    }

    fn find<L>(&mut self, d: u32, key: &[u8], steps: &mut Steps<L>) -> Option<Addr> {
        self.sought_at(d, Side::Level, key, steps)
    }

    fn find_like<L>(&mut self, d: u32, of: u32, at: Addr, steps: &mut Steps<L>) -> Option<Addr> {
        self.sought_like(d, Side::Level, (of, at), steps)
    }

    fn compare_at<L>(&self, d: u32, a: Addr, e: u32, b: Addr, steps: &mut Steps<L>) -> Ordering {
        let kind = self.kind_of(d);
        let x = kind.key(self.object(d, a));
        let y = kind.key(self.object(e, b));
        kind.compare(x, y, steps)
    }

    fn first(&self, d: u32) -> Option<Addr> {
        self.dict_of(d).first(&self.store.best)
    }

    fn last(&self, d: u32) -> Option<Addr> {
        self.dict_of(d).last(&self.store.best)
    }

    fn next(&self, d: u32, at: Addr) -> Option<Addr> {
        self.dict_of(d).next(&self.store.best, at)
    }

    fn prev(&self, d: u32, at: Addr) -> Option<Addr> {
        self.dict_of(d).prev(&self.store.best, at)
    }

    fn last_like<L>(&mut self, d: u32, at: Addr, steps: &mut Steps<L>) -> Addr {
        let n = d as usize;
        let Some(dict) = &mut self.store.dicts[n] else {
            unreachable!()
        };
        dict.last_like(&mut self.store.best, &self.store.kinds[n], at, steps)
    }

    fn behind_like<L>(&mut self, d: u32, of: u32, at: Addr, steps: &mut Steps<L>) -> Option<Addr> {
        self.sought_like(d, Side::Above, (of, at), steps)
    }

    fn before_like<L>(&mut self, d: u32, of: u32, at: Addr, steps: &mut Steps<L>) -> Option<Addr> {
        self.sought_like(d, Side::Below, (of, at), steps)
    }

    ghost lawful = { λ s. are-layers D.rules D.lawful s.store s.like };

    ghost reflexive = { λ s. (refl, keeps-same D.rules s.store) };

    ghost transitive = { λ a b c p q. (q.0 ∙ p.0, keeps-after p.1 q.1) };
}

impl<D: DictDisc + Drop> Ordered for Alike<D> {
    fn side<L>(&self, d: u32, at: Addr, key: &[u8], steps: &mut Steps<L>) -> Ordering {
        let kind = self.kind_of(d);
        kind.compare(kind.key(self.object(d, at)), key, steps)
    }

    fn at_least<L>(&mut self, d: u32, key: &[u8], steps: &mut Steps<L>) -> Option<Addr> {
        self.sought_at(d, Side::AtLeast, key, steps)
    }
}
