ghost use Rattle.std.specs.Prelude.{◌≡◌, ℕ, ◌<◌, None, IfSome, false, length, slice_get};
ghost use Rattle.vc_paths.specs.Links.{below, is_viewed};
ghost use Rattle.vc_steps.specs.DictRuns.{ShutsAll};
ghost use Rattle.vc_steps.specs.Homes.{IsSessionOver};
ghost use Rattle.vc_steps.specs.Steps.{ShutsAt, KeepsSpent};

use crate::session::Session;
use vc_dtdisc::DictDisc;
use vc_objects::shut;
use vc_region::Region;
use vc_seg::{BoxedDisc, SegDisc, Shelf};

impl<D: DictDisc> Session<D> {
    // Ends the dictionary that was opened as the one of that index, from 0 on, of those that are open. No other one views it,
    // and what it views ends.
    pub(crate) fn shut_at(&mut self, shelf: &Shelf, kinds: &mut Vec<D>, i: usize)
        requires session { IsSessionOver state D.rules shelf.now self.old kinds.old.items }
        requires within { i < length self.old.dicts.entries }
        requires unviewed { IfSome (slice_get self.old.dicts.entries i)
            (λ e. is_viewed self.old.paths e.1.number ≡ false) }
        ensures shuts { ShutsAt state D.rules D.gone shelf.now self.old kinds.old.items
            self.new kinds.new.items i }
        ensures stays { KeepsSpent state D.rules shelf.now self.old kinds.old.items
            shelf.now self.new kinds.new.items }
    {
        self.paths.show_invariant();
        let Some((_, entry)) = self.dicts.shift_remove_index(i) else {
            unreachable!()
        };
        self.paths.end(entry.number);
        let Some(j) = self.homes.get_index_of(&entry.home) else {
            unreachable!()
        };
        let k = entry.dict.kind as usize - 1;
        let Region::Best(best) = &mut self.homes[j].region else {
            unreachable!()
        };
        shut(best, entry.dict, &mut kinds[k]);
    }

    // Ends every dictionary, in order of opening, and so tells the kinds of all objects. None views another one.
    pub(crate) fn shut_all(&mut self, shelf: &Shelf, kinds: &mut Vec<D>)
        requires views { (n : ℕ) → below self.old.paths n ≡ None }
        requires session { IsSessionOver state D.rules shelf.now self.old kinds.old.items }
        ensures { ShutsAll state D.rules D.gone shelf.now self.old kinds.old.items
            self.new kinds.new.items }
    {
        while !self.dicts.is_empty() {
            self.shut_at(shelf, kinds, 0);
        }
    }
}
