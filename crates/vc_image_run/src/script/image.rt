ghost use Rattle.std.specs.Prelude.{◌≡◌, ◌≤◌, IfErr, IfOk, IsSome, length, map};
ghost use Rattle.vc_image.specs.Save.{image_in};
ghost use Rattle.vc_image_check.specs.Dicts.Whole.{IsSoundImage};
ghost use Rattle.vc_image_run.specs.Script.Found.{IsFirstImage, IsUnsaved, WhyNone};
ghost use Rattle.vc_region.specs.OfBest.{best_in};

use crate::script::ScriptFault;
use crate::script::copies::copies_in;
use std::alloc::Global;
use vc_base::MemSink;
use vc_dict::Dict;
use vc_dtdisc::DictDisc;
use vc_image::save;
use vc_image_check::unsound_part;
use vc_region::Region;
use vc_seg::{BoxedDisc, SegDisc};
use vc_session::Session;

// The most bytes that stand before the segments' bytes in an image.
const HEAD_BYTES: usize = 17_420;

// An image that is sound for some kinds.
fn judged<D: DictDisc>(
    alloc: Global,
    image: MemSink,
    kinds: &Vec<D>,
) -> Result<MemSink, ScriptFault>
    ensures same { IfOk result (λ judged. judged ≡ image) }
    ensures sound { IfOk result (λ judged. IsSoundImage (map D.rules kinds.now.items) image.written) }
    ensures err { IfErr result (IsUnsaved (map D.rules kinds.now.items) image.written) }
{
    match unsound_part(alloc, image.bytes(), kinds) {
        Ok(None) => Ok(image),
        Ok(Some(part)) => Err(ScriptFault::Unsound(part)),
        Err(_) => Err(ScriptFault::Memory),
    }
}

// The image of a best region with dictionaries, which is sound for some kinds.
fn image_of_region<D: DictDisc>(
    alloc: Global,
    region: &Region,
    dicts: &[Dict],
    kinds: &Vec<D>,
) -> Result<MemSink, ScriptFault>
    requires best { IsSome (best_in region.now) }
    requires few { length dicts.now ≤ 256 }
    ensures image { IfOk result (λ image. image.written ≡ image_in region.now dicts.now) }
    ensures sound { IfOk result (λ image. IsSoundImage (map D.rules kinds.now.items) image.written) }
    ensures err { IfErr result (IsUnsaved (map D.rules kinds.now.items)
        (image_in region.now dicts.now)) }
{
    let room = (region.stat().extent as usize).saturating_add(HEAD_BYTES);
    let mut image = MemSink::new(alloc, room, usize::MAX, Vec::new(alloc))?;
    match save(alloc, region, dicts, kinds, &mut image) {
        Ok(_) => judged(alloc, image, kinds),
        Err(_) => Err(ScriptFault::Memory),
    }
}

// The image of the first open region of a session with the dictionaries that lie in it.
pub(crate) fn image_of_session<D: DictDisc>(
    alloc: Global,
    session: &Session<D>,
    kinds: &Vec<D>,
) -> Result<MemSink, ScriptFault>
    requires few { length session.now.dicts.entries ≤ 256 }
    ensures image { IfOk result (λ image. IsFirstImage session.now image.written) }
    ensures sound { IfOk result (λ image. IsSoundImage (map D.rules kinds.now.items) image.written) }
    ensures err { IfErr result (WhyNone (map D.rules kinds.now.items) session.now) }
{
    match session.homes.get_index(0) {
        Some((name, home)) => match home.region.as_best() {
            Some(_) => {
                let dicts = copies_in(alloc, session, name)?;
                image_of_region(alloc, &home.region, dicts.as_slice(), kinds)
            }
            None => Err(ScriptFault::WrongMethod),
        },
        None => Err(ScriptFault::NoRegion),
    }
}
