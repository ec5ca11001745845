ghost use Rattle.std.specs.Prelude.{◌≡◌, ◌≤◌, None, OnOk, map};
ghost use Rattle.vc_image_run.specs.Tool.Making.{Makes, MakesOver};
ghost use Rattle.vc_image_run.specs.Tool.Streams.{sinks};
ghost use Rattle.vc_image_run.specs.Tool.Told.{over_fault};
ghost use Rattle.vc_script.specs.declared.tool.Tool.TheVariants.{Dtrun};
ghost use Rattle.vc_session.specs.Arming.{IsVersionOne, KeepsLent};
ghost use Rattle.vc_session.specs.Streams.{streams};
ghost use Rattle.vc_steps.specs.Homes.{slots_on};
ghost use Rattle.vc_steps.specs.Moment.{moment_at_rest};

use crate::script::{OverFault, image_of_script, image_over_image};
use crate::tool::told::tell;
use crate::tool::{ImageFault, ImageStatus};
use std::alloc::Global;
use vc_base::{MemSink, Sink, Source};
use vc_dtdisc::DictDisc;
use vc_seg::{BoxedDisc, SegDisc, Shelf};

/// Runs the script that a source gives, as dtrun does without words, writes the replies to `out`, and answers the image of
/// the first region that the script leaves open with the dictionaries that lie in it; it is sound for these kinds. Where
/// there is none, `err` gets one line, and the status of what is wrong is answered: `Script`, `Read`, `Write`, `Memory`,
/// `NoImage` or `Unsound`. Whatever came of it, every region is closed at the end. This project's own.
pub fn make<D: DictDisc, S: Source, O: Sink, E: Sink>(
    alloc: Global,
    shelf: &mut Shelf,
    kinds: &mut Vec<D>,
    source: &mut S,
    out: &mut O,
    err: &mut E,
) -> Result<MemSink, ImageStatus>
    ensures makes { Makes (map D.rules kinds.old.items) result
        (moment_at_rest state D.rules D.gone shelf.old kinds.old.items)
        (moment_at_rest state D.rules D.gone shelf.new kinds.new.items)
        (streams S.left S.failures O.written O.failures E.written E.failures
        source.old out.old err.old)
        (streams S.left S.failures O.written O.failures E.written E.failures
        source.new out.new err.new) }
    ensures quiet { OnOk result (err.new ≡ err.old) }
    ensures keeps { KeepsLent state D.rules D.gone (IsVersionOne None Dtrun (S.left source.old))
        shelf.old kinds.old.items shelf.new kinds.new.items }
    ensures never_falls { E.failures err.old ≤ E.failures err.new }
{
    match image_of_script(alloc, shelf, kinds, source, out) {
        Ok(image) => Ok(image),
        Err(why) => Err(tell(err, ImageFault::Script(why))),
    }
}

fn over_fault(why: OverFault) -> ImageFault
    ensures { result ≡ over_fault why }
{
    match why {
        OverFault::Open(why) => ImageFault::Open(why),
        OverFault::Script(why) => ImageFault::Script(why),
    }
}

/// Opens an image over the discipline at a place of a shelf, runs the script that a source gives over it, as dtrun does
/// without words, writes the replies to `out`, and answers the image of what that leaves; it is sound for these kinds. The
/// region has the name `r`, its dictionaries `d1`, `d2` and so on, and a block with a label `b` and its tag. Where there is no
/// image, `err` gets one line, and the status of what is wrong is answered: `Unsound`, `NotLent` or `Memory`, and then
/// nothing was run; or one of those of `make`. Whatever came of it, every region is closed at the end. This project's own.
pub fn remake<D: DictDisc, S: Source, O: Sink, E: Sink>(
    alloc: Global,
    image: &[u8],
    place: u32,
    shelf: &mut Shelf,
    kinds: &mut Vec<D>,
    source: &mut S,
    out: &mut O,
    err: &mut E,
) -> Result<MemSink, ImageStatus>
    ensures makes { MakesOver D.rules D.gone place image.now (slots_on state shelf.old) kinds.old.items
        result (slots_on state shelf.new) kinds.new.items
        (streams S.left S.failures O.written O.failures E.written E.failures
        source.old out.old err.old)
        (streams S.left S.failures O.written O.failures E.written E.failures
        source.new out.new err.new) }
    ensures quiet { OnOk result (err.new ≡ err.old) }
    ensures keeps { KeepsLent state D.rules D.gone (IsVersionOne None Dtrun (S.left source.old))
        shelf.old kinds.old.items shelf.new kinds.new.items }
    ensures never_falls { E.failures err.old ≤ E.failures err.new }
{
    match image_over_image(alloc, image, place, shelf, kinds, source, out) {
        Ok(image) => Ok(image),
        Err(why) => Err(tell(err, over_fault(why))),
    }
}
