ghost use Rattle.std.specs.Prelude.{◌≡◌, ◌≤◌, IfErr, IfOk, OnErr, length, map, vec_len};
ghost use Rattle.vc_dtdisc.specs.Rules.{Rules};
ghost use Rattle.vc_image.specs.Load.{pairs_of};
ghost use Rattle.vc_image.specs.Lends.Lends.{AreLent};
ghost use Rattle.vc_image_run.specs.Session.Opens.{AreParts, HasNoParts, IsNotOpened, IsUnnamed, LoadsAs, OpensImage};
ghost use Rattle.vc_model.specs.Discipline.{Kept};
ghost use Rattle.vc_steps.specs.Account.{ArmsNone, KeepsAccounts, SameAsked};
ghost use Rattle.vc_steps.specs.Homes.{accounts_on, slots_on};

use crate::session::OpenFault;
use crate::session::entries::{entries_of, region_name};
use indexmap::IndexMap;
use std::alloc::Global;
use vc_base::{Name, OutOfMemory};
use vc_best::Best;
use vc_commands::{DictEntry, HomeEntry, Labels, labels_by_tag};
use vc_dict::{Dict, Paths};
use vc_dtdisc::DictDisc;
use vc_image::{LoadFault, load_best};
use vc_region::Region;
use vc_seg::{BoxedDisc, SegDisc, Shelf};
use vc_steps::Session;

// The dictionaries of a region under their names, and the names of its blocks.
#[derive(Drop)]
struct Parts {
    entries: IndexMap<Name, DictEntry>,
    labels: Labels,
}

// Those of a region and dictionaries that were loaded.
fn parts_of(alloc: Global, best: &Best, dicts: &[Dict]) -> Result<Parts, OpenFault>
    requires few { length dicts.now ≤ 256 }
    ensures ok { IfOk result (λ parts. AreParts best.now dicts.now parts.entries.entries parts.labels) }
    ensures err { IfErr result (HasNoParts best.now) }
{
    let Ok(entries) = entries_of(alloc, dicts) else {
        return Err(OpenFault::Load(LoadFault::OutOfMemory));
    };
    match labels_by_tag(alloc, best) {
        Ok(Some(labels)) => Ok(Parts { entries, labels }),
        Ok(None) => Err(OpenFault::Tags),
        Err(_) => Err(OpenFault::Load(LoadFault::OutOfMemory)),
    }
}

// Loads an image. Where its region has no parts, the region is closed.
fn load_named<D: DictDisc>(
    alloc: Global,
    image: &[u8],
    kinds: &Vec<D>,
    disc: Box<dyn SegDisc>,
) -> Result<(Best, Parts), (OpenFault, Box<dyn SegDisc>)>
    requires { 0 ≤ 0 }
    ensures ok { IfOk result (λ l. LoadsAs (map D.rules kinds.now.items) (state disc).terms image.now
        l.0 l.1.entries.entries l.1.labels) }
    ensures lent { IfOk result (λ l. AreLent (state disc) (state l.0.disc) (pairs_of image.now)) }
    ensures fault { IfErr result (λ e. IsUnnamed (map D.rules kinds.now.items) image.now
        (state disc) (state e.1) e.0) }
    ensures out { IfErr result (λ e. (state e.1).out ≡ (state disc).out) }
    ensures kept { IfErr result (λ e. Kept (state disc) (state e.1)) }
{
    let (best, dicts) = match load_best(alloc, image, kinds, disc) {
        Ok(loaded) => loaded,
        Err((fault, disc)) => return Err((OpenFault::Load(fault), disc)),
    };
    match parts_of(alloc, &best, dicts.as_slice()) {
        Ok(parts) => Ok((best, parts)),
        Err(why) => {
            let (disc, _) = best.close();
            Err((why, disc))
        }
    }
}

/// A session in which the region of an image is open, over the discipline at a place of a shelf, with its dictionaries. The
/// region has the name `r`, the dictionaries `d1`, `d2` and so on in the image's order, and a block with a label `b` and its
/// tag. None of them views another one. `NoDiscipline` comes exactly where none stands at the place; a fault of `load` comes
/// as `vc_image`'s `load` tells it; `Tags` exactly where two blocks have one tag or one is above 1,000,000. With each
/// of them the discipline stands at its place again. The discipline isn't armed. This project's own.
// The prover takes a call of another crate that has no condition as one that may make a discipline, but where its caller
// has one; so this has one.
pub fn session_of_image<D: DictDisc>(
    alloc: Global,
    image: &[u8],
    place: u32,
    shelf: &mut Shelf,
    kinds: &Vec<D>,
) -> Result<Session<D>, OpenFault>
    requires { 0 ≤ vec_len shelf.old.slots }
    ensures opens { IfOk result (OpensImage state D.rules place image.now shelf.old kinds.now.items
        shelf.new) }
    ensures fault { IfErr result (IsNotOpened (map D.rules kinds.now.items) place image.now
        (slots_on state shelf.old) (slots_on state shelf.new)) }
    ensures accounts { OnErr result (KeepsAccounts (accounts_on state shelf.old)
        (accounts_on state shelf.new)) }
    ensures asked { OnErr result (SameAsked (accounts_on state shelf.old)
        (accounts_on state shelf.new)) }
    ensures unarmed { ArmsNone (slots_on state shelf.old) (slots_on state shelf.new) }
{
    let mut homes = IndexMap::new(alloc);
    let mut names = Vec::new(alloc);
    let Ok(_) = homes.reserve(1) else {
        return Err(OpenFault::Load(LoadFault::OutOfMemory));
    };
    let Ok(_) = names.reserve(1) else {
        return Err(OpenFault::Load(LoadFault::OutOfMemory));
    };
    let Ok(paths) = Paths::new(alloc) else {
        return Err(OpenFault::Load(LoadFault::OutOfMemory));
    };
    let Some(mut disc) = shelf.take(place) else {
        return Err(OpenFault::NoDiscipline);
    };
    disc.arm(false);
    match load_named(alloc, image, kinds, disc) {
        Ok((best, parts)) => {
            let Parts { entries, labels } = parts;
            let region = Region::Best(best);
            // There is room, so this takes no memory and cannot fail.
            let _ = homes.insert(region_name(), HomeEntry { place, region });
            names.push_reserved(labels);
            Ok(Session::of_parts(alloc, homes, names, entries, paths))
        }
        Err((why, disc)) => {
            shelf.give_back(place, disc);
            Err(why)
        }
    }
}
