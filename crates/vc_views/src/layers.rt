ghost use Rattle.std.specs.Prelude.{◌≡◌, map};
ghost use Rattle.std.proofs.Common.{refl, ◌∙◌};
ghost use Rattle.vc_dtdisc.specs.Rules.{Rules};
ghost use Rattle.vc_views.specs.Dicts.{layered_by, region_seen};
ghost use Rattle.vc_views.specs.Leaves.{KeepsDicts};
ghost use Rattle.vc_views.specs.LayerLaws.{are-layers, keeps-after, keeps-same};

use crate::finding::{last_at, sought_at, sought_like};
use crate::places::{best_of, entry_of, index_of, kind_of};
use indexmap::IndexMap;
use std::cmp::Ordering;
use vc_base::{Addr, Cells, DictMethod, Name, Steps};
use vc_commands::{DictEntry, HomeEntry};
use vc_dtdisc::DictDisc;
use vc_paths::Layers;

/// The open dictionaries of a session as layers: borrows of its regions, its dictionaries and its kinds. A number is that
/// of the dictionary's entry.
#[derive(Drop)]
pub struct DictLayers<'a, D> {
    /// The open regions by name.
    pub homes: &'a mut IndexMap<Name, HomeEntry>,
    /// An index, from 0 on, at which the region of a dictionary is looked for first. It may be any number.
    pub near: usize,
    /// The dictionaries by name.
    pub dicts: &'a mut IndexMap<Name, DictEntry>,
    /// The kinds by number, from 1 on.
    pub kinds: &'a Vec<D>,
}

impl<'a, D: DictDisc> Layers for DictLayers<'a, D> {
    ghost layered = { λ s. layered_by (map D.rules s.kinds.now.items)
        (map region_seen s.homes.now.entries) s.dicts.now.entries };

    ghost Stays = { λ s t. (t.homes.ghost_name ≡ s.homes.ghost_name)
        × (t.dicts.ghost_name ≡ s.dicts.ghost_name)
        × KeepsDicts (map D.rules s.kinds.now.items) (map D.rules t.kinds.now.items)
        s.homes.now.entries t.homes.now.entries s.dicts.now.entries t.dicts.now.entries };

    fn method(&self, d: u32) -> DictMethod {
        entry_of(self.dicts, d).dict.method
    }

    fn kind_number(&self, d: u32) -> u32 {
        entry_of(self.dicts, d).dict.kind
    }

    fn object(&self, d: u32, at: Addr) -> &[u8] {
        let entry = entry_of(self.dicts, d);
        best_of(self.homes, &entry.home, self.near).body(at)
    }

    fn find<L>(&mut self, d: u32, key: &[u8], steps: &mut Steps<L>) -> Option<Addr> {
        let i = index_of(self.dicts, d);
        sought_at(
            self.homes,
            self.near,
            self.dicts,
            self.kinds,
            i,
            Ordering::Equal,
            key,
            steps,
        )
    }

    fn find_like<L>(&mut self, d: u32, of: u32, at: Addr, steps: &mut Steps<L>) -> Option<Addr> {
        sought_like(
            self.homes,
            self.near,
            self.dicts,
            self.kinds,
            d,
            Ordering::Equal,
            (of, at),
            steps,
        )
    }

    fn compare_at<L>(&self, d: u32, a: Addr, e: u32, b: Addr, steps: &mut Steps<L>) -> Ordering {
        let kind = kind_of(self.kinds, self.kind_number(d));
        let x = kind.key(self.object(d, a));
        let y = kind.key(self.object(e, b));
        kind.compare(x, y, steps)
    }

    fn first(&self, d: u32) -> Option<Addr> {
        let entry = entry_of(self.dicts, d);
        entry
            .dict
            .first(best_of(self.homes, &entry.home, self.near))
    }

    fn last(&self, d: u32) -> Option<Addr> {
        let entry = entry_of(self.dicts, d);
        entry.dict.last(best_of(self.homes, &entry.home, self.near))
    }

    fn next(&self, d: u32, at: Addr) -> Option<Addr> {
        let entry = entry_of(self.dicts, d);
        entry
            .dict
            .next(best_of(self.homes, &entry.home, self.near), at)
    }

    fn prev(&self, d: u32, at: Addr) -> Option<Addr> {
        let entry = entry_of(self.dicts, d);
        entry
            .dict
            .prev(best_of(self.homes, &entry.home, self.near), at)
    }

    fn last_like<L>(&mut self, d: u32, at: Addr, steps: &mut Steps<L>) -> Addr {
        let i = index_of(self.dicts, d);
        last_at(self.homes, self.near, self.dicts, self.kinds, i, at, steps)
    }

    fn behind_like<L>(&mut self, d: u32, of: u32, at: Addr, steps: &mut Steps<L>) -> Option<Addr> {
        sought_like(
            self.homes,
            self.near,
            self.dicts,
            self.kinds,
            d,
            Ordering::Greater,
            (of, at),
            steps,
        )
    }

    fn before_like<L>(&mut self, d: u32, of: u32, at: Addr, steps: &mut Steps<L>) -> Option<Addr> {
        sought_like(
            self.homes,
            self.near,
            self.dicts,
            self.kinds,
            d,
            Ordering::Less,
            (of, at),
            steps,
        )
    }

    ghost lawful = { λ s. are-layers D.rules D.lawful s.kinds.now.items
        (map region_seen s.homes.now.entries) s.dicts.now.entries };

    ghost reflexive = { λ s. (
      refl,
      refl,
      keeps-same (map D.rules s.kinds.now.items)
          s.homes.now.entries s.dicts.now.entries,
    ) };

    ghost transitive = { λ a b c p q. (q.0 ∙ p.0, q.1 ∙ p.1, keeps-after p.2 q.2) };
}
