ghost use Rattle.std.specs.Prelude.{None};
ghost use Rattle.vc_image_run.specs.Script.Over.{Remakes};
ghost use Rattle.vc_script.specs.declared.tool.Tool.TheVariants.{Dtrun};
ghost use Rattle.vc_session.specs.Arming.{IsVersionOne, KeepsLent};
ghost use Rattle.vc_session.specs.Streams.{flows};
ghost use Rattle.vc_steps.specs.Homes.{slots_on};

use crate::script::OverFault;
use crate::script::running::run_and_save;
use crate::session::{OpenFault, session_of_image};
use std::alloc::Global;
use vc_base::{MemSink, Sink, Source};
use vc_dtdisc::DictDisc;
use vc_image::LoadFault;
use vc_script::LineCutter;
use vc_seg::{BoxedDisc, SegDisc, Shelf};

/// Opens an image over the discipline at a place of a shelf, as `session_of_image` does, runs the script that a source gives
/// as dtrun does without words, with the region and the dictionaries of the image open, and answers the image of what it
/// leaves, as `image_of_script` does: of the first open region, which is that of the image unless the script closes it.
/// Where the image isn't opened nothing is run. At the end every dictionary is shut and every region closed, whatever came of
/// it. This project's own.
pub fn image_over_image<D: DictDisc, S: Source, O: Sink>(
    alloc: Global,
    image: &[u8],
    place: u32,
    shelf: &mut Shelf,
    kinds: &mut Vec<D>,
    source: &mut S,
    out: &mut O,
) -> Result<MemSink, OverFault>
    ensures remakes { Remakes D.rules D.gone place image.now (slots_on state shelf.old) kinds.old.items result
        (slots_on state shelf.new) kinds.new.items
        (flows S.left S.failures O.written O.failures source.old out.old)
        (flows S.left S.failures O.written O.failures source.new out.new) }
    ensures keeps { KeepsLent state D.rules D.gone (IsVersionOne None Dtrun (S.left source.old))
        shelf.old kinds.old.items shelf.new kinds.new.items }
{
    let Ok(mut cutter) = LineCutter::new(alloc) else {
        return Err(OverFault::Open(OpenFault::Load(LoadFault::OutOfMemory)));
    };
    let mut session = match session_of_image(alloc, image, place, shelf, kinds) {
        Ok(session) => session,
        Err(why) => return Err(OverFault::Open(why)),
    };
    let remade = run_and_save(alloc, &mut session, shelf, kinds, source, out, &mut cutter);
    session.end(shelf, kinds);
    match remade {
        Ok(image) => Ok(image),
        Err(why) => Err(OverFault::Script(why)),
    }
}
