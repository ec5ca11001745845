ghost use Rattle.std.specs.Prelude.{◌≡◌, ◌≢◌, false, ℕ, ◌+◌, ◌-◌, ◌<◌, [], List, Some, IfSome, length, remove, slice_get, slice_set};
ghost use Rattle.vc_base.specs.Prelude.{HasOut};
ghost use Rattle.vc_model.specs.Numbered.{at_number};
ghost use Rattle.vc_dtdisc.specs.Rules.{Rules};
ghost use Rattle.vc_region.specs.Region.{segments_of};
ghost use Rattle.vc_seg.specs.Shelf.{place_at};
ghost use Rattle.vc_region.specs.Cells.{rest_in};
ghost use Rattle.vc_region.specs.Parts.{disc_in};
ghost use Rattle.vc_steps.specs.Account.{ArmsNone, account_back};
ghost use Rattle.vc_steps.specs.Homes.{HoldsDicts, HoldsRegions, KeepsRegions, accounts_on, held_in_session, settled_over, slots_on, state_over};
ghost use Rattle.vc_steps.specs.DictHomes.{lies_in};
ghost use Rattle.vc_steps.specs.Closes.{ClosesAt};
ghost use Rattle.vc_steps.specs.State.{close_step, step_with_reply};

use crate::session::Session;
use vc_base::Name;
use vc_commands::HomeEntry;
use vc_script::{Refusal, Reply};
use vc_seg::{BoxedDisc, SegDisc, Shelf, ShelfPlace};

// Closes one region, gives its discipline back unarmed to its place, and answers how many segments it gave back.
fn close_region(home: HomeEntry, shelf: &mut Shelf) -> u32
    requires taken { place_at (slots_on state shelf.old) home.place ≡ ShelfPlace.Taken }
    requires lent { HasOut (disc_in state home.region)
        (segments_of (rest_in home.region)) }
    ensures count { result ≡ length (segments_of (rest_in home.region)) }
    ensures here { accounts_on state shelf.new
        ≡ slice_set (accounts_on state shelf.old) (home.place - 1)
        (Some (account_back (disc_in state home.region) (segments_of (rest_in home.region)))) }
    ensures elsewhere { (p : ℕ) → p ≢ home.place
        → at_number (slots_on state shelf.new) p
        ≡ at_number (slots_on state shelf.old) p }
    ensures unarmed { ArmsNone (slots_on state shelf.old) (slots_on state shelf.new) }
{
    let HomeEntry { place, region } = home;
    let (mut disc, count) = region.close();
    disc.arm(false);
    shelf.give_back(place, disc);
    count
}

impl<D> Session<D> {
    // Closes the region that was opened as the one of that index, from 0 on, of those that are open, and answers how many
    // segments it gave back.
    pub(crate) fn close_at(&mut self, shelf: &mut Shelf, i: usize) -> u32
        requires session { HoldsRegions state shelf.old self.old }
        requires within { i < length self.old.homes.entries }
        requires free { IfSome (slice_get (held_in_session state self.old) i)
            (λ h. lies_in h.name self.old.dicts.entries ≡ false) }
        ensures closes { ClosesAt state shelf.old self.old shelf.new self.new i result }
        ensures regions { KeepsRegions state self.old shelf.new self.new }
        ensures settled { settled_over state shelf.new self.new
            ≡ settled_over state shelf.old self.old }
        ensures unarmed { ArmsNone (slots_on state shelf.old) (slots_on state shelf.new) }
    {
        let _ = self.labels.remove(i);
        match self.homes.shift_remove_index(i) {
            Some((_, home)) => close_region(home, shelf),
            None => unreachable!(),
        }
    }

    // Closes the region of that name.
    pub(crate) fn close_named(&mut self, shelf: &mut Shelf, name: &Name) -> Reply
        requires { HoldsRegions state shelf.old self.old }
        ensures step { (kinds : List Rules)
            → HoldsDicts state kinds self.old
            → close_step (state_over state kinds shelf.old self.old) name.now
            ≡ step_with_reply (state_over state kinds shelf.new self.new) result }
        ensures regions { KeepsRegions state self.old shelf.new self.new }
        ensures settled { settled_over state shelf.new self.new
            ≡ settled_over state shelf.old self.old }
        ensures unarmed { ArmsNone (slots_on state shelf.old) (slots_on state shelf.new) }
    {
        match self.homes.get_index_of(name) {
            None => Reply::Refused(Refusal::NoRegion),
            Some(i) => {
                if self.is_busy(name) {
                    return Reply::Refused(Refusal::Busy);
                }
                Reply::Closed(*name, self.close_at(shelf, i))
            }
        }
    }
}
