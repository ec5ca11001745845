ghost use Rattle.std.specs.Prelude.{◌≡◌, ◌≤◌, IfErr, IfOk, length, map};
ghost use Rattle.vc_model.specs.Discipline.{Kept};
ghost use Rattle.vc_image.specs.Load.{IsLoaded, IsNotLoaded, pairs_of};
ghost use Rattle.vc_image.specs.Lends.Lends.{AreLent};
ghost use Rattle.vc_region.specs.declared.region.Region.TheVariants.{Best as OfBest};

use crate::stores::placing::{empty_places, place};
use crate::stores::{Store, StoreLoadFault};
use std::alloc::Global;
use vc_best::Best;
use vc_dict::Dicts;
use vc_dtdisc::DictDisc;
use vc_image::{LoadFault, load_best};
use vc_seg::{BoxedDisc, SegDisc};

// The prover takes a call of another crate that has no condition as one that may make a discipline, but where its caller
// has one; so this stands between.
fn loaded<D: DictDisc>(
    alloc: Global,
    image: &[u8],
    kinds: &Vec<D>,
    disc: Box<dyn SegDisc>,
) -> Result<(Best, Dicts), (LoadFault, Box<dyn SegDisc>)>
    requires { 0 ≤ length image.now }
    ensures loaded { IfOk result (λ l. IsLoaded (map D.rules kinds.now.items) (state disc).terms
        image.now (OfBest l.0) l.1) }
    ensures lent { IfOk result (λ l. AreLent (state disc) (state l.0.disc)
        (pairs_of image.now)) }
    ensures fault { IfErr result (λ e. IsNotLoaded (map D.rules kinds.now.items) image.now
        (state disc) (state e.1) e.0) }
    ensures out { IfErr result (λ e. (state e.1).out ≡ (state disc).out) }
    ensures kept { IfErr result (λ e. Kept (state disc) (state e.1)) }
{
    load_best(alloc, image, kinds, disc)
}

impl<D: DictDisc + Drop> Store<D> {
    ghost use Rattle.vc_store.specs.Stores.Loads.{HoldsImage, IsStoreLoadFault};
    ghost use Rattle.vc_store.specs.Stores.Stores.{lender};

    /// A store that is loaded from the image of one, over a discipline, with these kinds by number. The dictionary of number
    /// n is that of the image whose kind is n + 1; where no dictionary has that kind, n is the number of none, as if its own
    /// was shut. So there are as many numbers as kinds. The region's segments are lent by the discipline, each under its
    /// number and in the image's order, and have the image's bytes.
    ///
    /// `NotLoaded` comes as `vc_image::load` tells, for want of memory also before the image is looked at. `SharedKind` comes
    /// exactly where the image is sound, its segments were lent, and two of its dictionaries have one kind; the segments go
    /// back then. With each fault the kinds come back, and the discipline, which has out what it had out before.
    pub fn load(
        alloc: Global,
        image: &[u8],
        kinds: Vec<D>,
        disc: Box<dyn SegDisc>,
    ) -> Result<Store<D>, (StoreLoadFault, Vec<D>, Box<dyn SegDisc>)>
        ensures loaded { IfOk result
            (λ s. HoldsImage D.rules image.now kinds.items s (state disc) (state (lender s))) }
        ensures fault { IfErr result (λ e. IsStoreLoadFault (map D.rules kinds.items) image.now
            (state disc) (state e.2) e.0) }
        ensures back { IfErr result (λ e. e.1 ≡ kinds) }
        ensures out { IfErr result (λ e. (state e.2).out ≡ (state disc).out) }
        ensures kept { IfErr result (λ e. Kept (state disc) (state e.2)) }
    {
        let mut places = match empty_places(alloc, kinds.len()) {
            Ok(places) => places,
            Err(_) => {
                return Err((
                    StoreLoadFault::NotLoaded(LoadFault::OutOfMemory),
                    kinds,
                    disc,
                ));
            }
        };
        match loaded(alloc, image, &kinds, disc) {
            Ok((best, dicts)) => {
                if place(dicts.as_slice(), &mut places) {
                    Ok(Store {
                        best,
                        dicts: places,
                        kinds,
                    })
                } else {
                    Err((StoreLoadFault::SharedKind, kinds, best.close().0))
                }
            }
            Err((fault, disc)) => Err((StoreLoadFault::NotLoaded(fault), kinds, disc)),
        }
    }
}
