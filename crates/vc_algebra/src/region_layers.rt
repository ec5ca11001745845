ghost use Rattle.std.specs.Prelude.{◌≡◌, map};
ghost use Rattle.std.proofs.Common.{refl, ◌∙◌};
ghost use Rattle.vc_algebra.specs.InRegion.{KeepsDictsIn, layered_in};
ghost use Rattle.vc_algebra.specs.RegionLaws.{are-layers, keeps-after, keeps-same};

use crate::Ordered;
use crate::filling::put;
use crate::places::{best_of, dict_of, kind_of};
use crate::seeking::{last_at, sought_at, sought_like};
use crate::side::Side;
use std::cmp::Ordering;
use vc_base::{Addr, Cells, DictMethod, OutOfMemory, Steps};
use vc_dict::{Dict, Dicts, Layers, Paths};
use vc_dtdisc::DictDisc;
use vc_objects::Fate;
use vc_region::Region;
use vc_seg::{BoxedDisc, SegDisc};

/// Dictionaries of one region as layers, each by its number from 0 on. A number is a dictionary where the region is a best
/// one, each of the dictionaries has a kind that is there and stands for holders in the region by that kind, with objects of
/// 1 to 1,024 bytes, and no block belongs to two of them. All calls leave it so. The parts can be taken out again. This
/// project's own.
#[derive(Drop)]
pub struct RegionLayers<D> {
    /// The region.
    pub region: Region,
    /// The dictionaries, by number from 0 on.
    pub dicts: Dicts,
    /// The kinds, by number from 1 on.
    pub kinds: Vec<D>,
}

impl<D: DictDisc> RegionLayers<D> {
    ghost use Rattle.std.specs.Prelude.{◌≡◌, ◌<◌, ◌+◌, ◌++◌, ◌∷◌, [], ◌↔◌, IfOk, IsSome, IsTrue, OnErr, OnOk, false, length, map};
    ghost use Rattle.vc_model.specs.Numbered.{at_number};
    ghost use Rattle.vc_base.specs.Prelude.{has_table};
    ghost use Rattle.vc_dtdisc.specs.Rules.{IsObject};
    ghost use Rattle.vc_objects.specs.Insert.{empty_dictionary};
    ghost use Rattle.vc_paths.specs.Links.{numbers};
    ghost use Rattle.vc_paths.specs.Path.{IsPath};
    ghost use Rattle.vc_region.specs.Cells.{cells_in};
    ghost use Rattle.vc_algebra.specs.Filling.{CanFillIn, FillsDict, helds, is_like};
    ghost use Rattle.vc_algebra.specs.InRegion.{layered_in, layers_of_region};

    /// Adds a dictionary with no object, by a method other than a set's or a bag's and by the kind of a number, from 1 on, and
    /// answers its number; there are at most 256. Refused for want of memory alone: then nothing changes.
    pub fn open(&mut self, method: DictMethod, kind: u32) -> Result<u32, OutOfMemory>
        requires fill { CanFillIn state (map D.rules self.old.kinds.items)
            self.old.region self.old.dicts }
        requires room { length self.old.dicts < numbers }
        requires method { has_table method ≡ false }
        requires kind { IsSome (at_number (map D.rules self.old.kinds.items) kind) }
        ensures ok { OnOk result (helds self.new.region self.new.dicts ≡ helds self.old.region
            self.old.dicts ++ record { kind = kind; dict = empty_dictionary method } ∷ []) }
        ensures number { IfOk result (λ d. d ≡ length self.old.dicts) }
        ensures count { OnOk result (length self.new.dicts ≡ length self.old.dicts + 1) }
        ensures err { OnErr result (self.new.dicts ≡ self.old.dicts) }
        ensures region { self.new.region ≡ self.old.region }
        ensures kinds { self.new.kinds ≡ self.old.kinds }
        ensures fill { CanFillIn state (map D.rules self.new.kinds.items)
            self.new.region self.new.dicts }
    {
        let number = self.dicts.as_slice().len() as u32;
        match self.dicts.add(Dict::new(method, kind)) {
            Ok(()) => Ok(number),
            Err((fault, _)) => Err(fault),
        }
    }

    /// Puts an object of 1 to 1,024 bytes into the dictionary of a number, where its method puts it, and makes it current. Where
    /// an object of a set or an ordered set matches, nothing changes and the answer is none; else it is what becomes of the
    /// object. `steps` counts the compares.
    pub fn insert<L>(
        &mut self,
        d: u32,
        object: &[u8],
        steps: &mut Steps<L>,
    ) -> Result<Option<Fate>, OutOfMemory>
        requires fill { CanFillIn state (map D.rules self.old.kinds.items)
            self.old.region self.old.dicts }
        requires there { d < length self.old.dicts }
        requires object { IsObject object.now }
        ensures fills { FillsDict state (map D.rules self.old.kinds.items) result d object.now
            self.old.region self.new.region self.old.dicts self.new.dicts }
        ensures count { length self.new.dicts ≡ length self.old.dicts }
        ensures kinds { self.new.kinds ≡ self.old.kinds }
        ensures fill { CanFillIn state (map D.rules self.new.kinds.items)
            self.new.region self.new.dicts }
    {
        let Region::Best(best) = &mut self.region else {
            unreachable!()
        };
        let dict = self.dicts.dict_mut(d);
        let kind = kind_of(&self.kinds, dict.kind);
        put(best, dict, kind, object, steps)
    }

    // Whether a number is that of a dictionary of the method and the kind of another one.
    fn is_like(&self, d: u32, e: u32) -> bool
        requires { d < length self.now.dicts }
        ensures { result ≡ is_like (length self.now.dicts)
            (layers_of_region (map D.rules self.now.kinds.items) (cells_in self.now.region) self.now.dicts)
            d e }
    {
        let dicts = self.dicts.as_slice();
        if (e as usize) < dicts.len() {
            let dict = &dicts[d as usize];
            let other = &dicts[e as usize];
            other.method == dict.method && other.kind == dict.kind
        } else {
            false
        }
    }

    /// Whether `d` is the number of a dictionary from 0 to 255 and each number on its path is one of the same method and kind,
    /// as ranges and operations ask.
    pub fn has_path(&self, paths: &Paths, d: u32) -> bool
        requires { CanFillIn state (map D.rules self.now.kinds.items) self.now.region self.now.dicts }
        ensures { IsTrue result ↔ IsPath (layered_in (map D.rules self.now.kinds.items)
            self.now.region self.now.dicts) paths.now d }
    {
        if d >= 256 || d as usize >= self.dicts.as_slice().len() {
            return false;
        }
        paths.show_invariant();
        let mut next = Some(d);
        while let Some(e) = next {
            if !self.is_like(d, e) {
                return false;
            }
            next = paths.below(e);
        }
        true
    }
}

impl<D: DictDisc> Layers for RegionLayers<D> {
    ghost layered = { λ s. layered_in (map D.rules s.kinds.items) s.region s.dicts };

    ghost Stays = { λ s t. (t.kinds ≡ s.kinds) × KeepsDictsIn s.region t.region s.dicts t.dicts };

    fn method(&self, d: u32) -> DictMethod {
        dict_of(&self.dicts, d).method
    }

    fn kind_number(&self, d: u32) -> u32 {
        dict_of(&self.dicts, d).kind
    }

    fn object(&self, d: u32, at: Addr) -> &[u8] {
        best_of(&self.region).body(at)
    }

    fn find<L>(&mut self, d: u32, key: &[u8], steps: &mut Steps<L>) -> Option<Addr> {
        sought_at(
            &mut self.region,
            &mut self.dicts,
            &self.kinds,
            d,
            Side::Level,
            key,
            steps,
        )
    }

    fn find_like<L>(&mut self, d: u32, of: u32, at: Addr, steps: &mut Steps<L>) -> Option<Addr> {
        sought_like(
            &mut self.region,
            &mut self.dicts,
            &self.kinds,
            d,
            Side::Level,
            (of, at),
            steps,
        )
    }

    fn compare_at<L>(&self, d: u32, a: Addr, e: u32, b: Addr, steps: &mut Steps<L>) -> Ordering {
        let kind = kind_of(&self.kinds, self.kind_number(d));
        let x = kind.key(self.object(d, a));
        let y = kind.key(self.object(e, b));
        kind.compare(x, y, steps)
    }

    fn first(&self, d: u32) -> Option<Addr> {
        dict_of(&self.dicts, d).first(best_of(&self.region))
    }

    fn last(&self, d: u32) -> Option<Addr> {
        dict_of(&self.dicts, d).last(best_of(&self.region))
    }

    fn next(&self, d: u32, at: Addr) -> Option<Addr> {
        dict_of(&self.dicts, d).next(best_of(&self.region), at)
    }

    fn prev(&self, d: u32, at: Addr) -> Option<Addr> {
        dict_of(&self.dicts, d).prev(best_of(&self.region), at)
    }

    fn last_like<L>(&mut self, d: u32, at: Addr, steps: &mut Steps<L>) -> Addr {
        last_at(&mut self.region, &mut self.dicts, &self.kinds, d, at, steps)
    }

    fn behind_like<L>(&mut self, d: u32, of: u32, at: Addr, steps: &mut Steps<L>) -> Option<Addr> {
        sought_like(
            &mut self.region,
            &mut self.dicts,
            &self.kinds,
            d,
            Side::Above,
            (of, at),
            steps,
        )
    }

    fn before_like<L>(&mut self, d: u32, of: u32, at: Addr, steps: &mut Steps<L>) -> Option<Addr> {
        sought_like(
            &mut self.region,
            &mut self.dicts,
            &self.kinds,
            d,
            Side::Below,
            (of, at),
            steps,
        )
    }

    ghost lawful = { λ s. are-layers D.rules D.lawful s.kinds.items s.region s.dicts };

    ghost reflexive = { λ s. (refl, keeps-same s.region s.dicts) };

    ghost transitive = { λ a b c p q. (q.0 ∙ p.0, keeps-after p.1 q.1) };
}

impl<D: DictDisc> Ordered for RegionLayers<D> {
    fn side<L>(&self, d: u32, at: Addr, key: &[u8], steps: &mut Steps<L>) -> Ordering {
        let kind = kind_of(&self.kinds, self.kind_number(d));
        kind.compare(kind.key(self.object(d, at)), key, steps)
    }

    fn at_least<L>(&mut self, d: u32, key: &[u8], steps: &mut Steps<L>) -> Option<Addr> {
        sought_at(
            &mut self.region,
            &mut self.dicts,
            &self.kinds,
            d,
            Side::AtLeast,
            key,
            steps,
        )
    }
}
