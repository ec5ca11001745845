ghost use Rattle.std.specs.Prelude.{◌≡◌, IfErr, IfOk, List, map};
ghost use Rattle.vc_model.specs.Discipline.{Kept};
ghost use Rattle.vc_dtdisc.specs.Rules.{Rules};
ghost use Rattle.vc_region.specs.Parts.{disc_of};
ghost use Rattle.vc_region.specs.declared.region.Region.TheVariants.{Best as OfBest};
ghost use Rattle.vc_image_check.specs.Dicts.Whole.{IsSoundImage};
ghost use Rattle.vc_image.specs.Lends.Lends.{AreLent};
ghost use Rattle.vc_image_check.specs.Parts.Front.{IsSoundFront};
ghost use Rattle.vc_image.specs.Load.{IsLoaded, IsNotLoaded, load_fault_of, pairs_of};

use crate::LoadFault;
use crate::dicts::dicts_of_image;
use crate::lends::{ImageLendFault, region_of_image};
use std::alloc::Global;
use vc_best::Best;
use vc_dict::Dicts;
use vc_dtdisc::DictDisc;
use vc_image_check::unsound_part;
use vc_region::Region;
use vc_seg::SegDisc;

/// A region and its dictionaries, loaded from an image. This project's own.
#[derive(Drop)]
pub struct Loaded {
    /// The region, of the method `VmBest`.
    pub region: Region,
    /// Its dictionaries, by number from 0 on, as the image tells them.
    pub dicts: Dicts,
}

// A fault of the lends as one of loading.
fn fault_of(fault: ImageLendFault) -> LoadFault
    ensures { result ≡ load_fault_of fault }
{
    match fault {
        ImageLendFault::Round(number) => LoadFault::Round(number),
        ImageLendFault::Grows => LoadFault::Grows,
        ImageLendFault::NoSegment(number) => LoadFault::NoSegment(number),
        ImageLendFault::OutOfMemory => LoadFault::OutOfMemory,
    }
}

// Loads an image that has no unsound part.
fn load_sound(
    alloc: Global,
    image: &[u8],
    disc: Box<dyn SegDisc>,
) -> Result<(Best, Dicts), (LoadFault, Box<dyn SegDisc>)>
    requires { IsSoundFront image.now }
    ensures loaded { (kinds : List Rules) → IsSoundImage kinds image.now
        → IfOk result (λ l. IsLoaded kinds (state disc).terms image.now (OfBest l.0) l.1) }
    ensures lent { IfOk result (λ l. AreLent (state disc) (state l.0.disc)
        (pairs_of image.now)) }
    ensures fault { (kinds : List Rules) → IsSoundImage kinds image.now
        → IfErr result (λ e. IsNotLoaded kinds image.now (state disc) (state e.1) e.0) }
    ensures out { IfErr result (λ e. (state e.1).out ≡ (state disc).out) }
    ensures kept { IfErr result (λ e. Kept (state disc) (state e.1)) }
{
    let dicts = match dicts_of_image(alloc, image) {
        Ok(dicts) => dicts,
        Err(_) => return Err((LoadFault::OutOfMemory, disc)),
    };
    match region_of_image(alloc, image, disc) {
        Ok(best) => Ok((best, dicts)),
        Err((fault, disc)) => Err((fault_of(fault), disc)),
    }
}

/// A best region with dictionaries, loaded from the image of one as by `load`, where the region isn't to be held as a
/// `Region`. This project's own.
pub fn load_best<D: DictDisc>(
    alloc: Global,
    image: &[u8],
    kinds: &Vec<D>,
    disc: Box<dyn SegDisc>,
) -> Result<(Best, Dicts), (LoadFault, Box<dyn SegDisc>)>
    ensures loaded { IfOk result (λ l. IsLoaded (map D.rules kinds.now.items) (state disc).terms
        image.now (OfBest l.0) l.1) }
    ensures lent { IfOk result (λ l. AreLent (state disc) (state l.0.disc)
        (pairs_of image.now)) }
    ensures fault { IfErr result (λ e. IsNotLoaded (map D.rules kinds.now.items) image.now
        (state disc) (state e.1) e.0) }
    ensures out { IfErr result (λ e. (state e.1).out ≡ (state disc).out) }
    ensures kept { IfErr result (λ e. Kept (state disc) (state e.1)) }
{
    match unsound_part(alloc, image, kinds) {
        Ok(None) => load_sound(alloc, image, disc),
        Ok(Some(part)) => Err((LoadFault::Bad(part), disc)),
        Err(_) => Err((LoadFault::OutOfMemory, disc)),
    }
}

/// A best region with dictionaries, loaded from the image of one. Its segments are lent by a discipline, each under
/// its number and in the image's order, and have the image's bytes, all of them and unchanged. `Bad` comes exactly
/// where the image has an unsound part, as `unsound_part` tells it for these kinds, and tells the first; the
/// discipline isn't asked. Then `Round` and `Grows` come exactly where `terms_fault` tells them, and nothing is
/// lent. `NoSegment` tells the number of the segment that was refused: the discipline's faults rose. `OutOfMemory`
/// comes for want of memory, at any time. With each of them the discipline comes back, and what it has out is what
/// it had out before. The call takes memory as `unsound_part` does, for as long as that lasts, and then for the
/// segments and the dictionaries. This project's own.
pub fn load<D: DictDisc>(
    alloc: Global,
    image: &[u8],
    kinds: &Vec<D>,
    disc: Box<dyn SegDisc>,
) -> Result<Loaded, (LoadFault, Box<dyn SegDisc>)>
    ensures loaded { IfOk result (λ l. IsLoaded (map D.rules kinds.now.items) (state disc).terms
        image.now l.region l.dicts) }
    ensures lent { IfOk result (λ l. AreLent (state disc) (state (disc_of l.region))
        (pairs_of image.now)) }
    ensures fault { IfErr result (λ e. IsNotLoaded (map D.rules kinds.now.items) image.now
        (state disc) (state e.1) e.0) }
    ensures out { IfErr result (λ e. (state e.1).out ≡ (state disc).out) }
    ensures kept { IfErr result (λ e. Kept (state disc) (state e.1)) }
{
    match load_best(alloc, image, kinds, disc) {
        Ok((best, dicts)) => Ok(Loaded {
            region: Region::Best(best),
            dicts,
        }),
        Err(fault) => Err(fault),
    }
}
