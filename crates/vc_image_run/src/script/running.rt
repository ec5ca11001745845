ghost use Rattle.std.specs.Prelude.{◌≡◌, None, false, map};
ghost use Rattle.vc_image_run.specs.Script.Promises.{Saves};
ghost use Rattle.vc_script.specs.Cutting.{new_cutting};
ghost use Rattle.vc_script.specs.declared.tool.Tool.TheVariants.{Dtrun};
ghost use Rattle.vc_session.specs.Arming.{IsVersionOne, KeepsLent, RunsArming};
ghost use Rattle.vc_session.specs.ProperState.{IsProperOver};
ghost use Rattle.vc_session.specs.Streams.{flows};
ghost use Rattle.vc_steps.specs.Moment.{moment_at_end, moment_at_rest};

use crate::script::ScriptFault;
use crate::script::image::image_of_session;
use indexmap::IndexMap;
use std::alloc::Global;
use vc_base::{MemSink, Sink, Source};
use vc_dtdisc::DictDisc;
use vc_script::{LineCutter, Tool};
use vc_seg::{BoxedDisc, SegDisc, Shelf};
use vc_session::{Session, run_script};
use vc_words::Words;

// No word is given to the tool.
const PLAIN: Words = Words {
    quiet: false,
    stat: false,
    generate: None,
    seed: 0,
};

// Runs a script over a session that arms no discipline yet, and makes the image of the first region that it leaves open.
pub(crate) fn run_and_save<D: DictDisc, S: Source, O: Sink>(
    alloc: Global,
    session: &mut Session<D>,
    shelf: &mut Shelf,
    kinds: &mut Vec<D>,
    source: &mut S,
    out: &mut O,
    cutter: &mut LineCutter,
) -> Result<MemSink, ScriptFault>
    requires session { IsProperOver state D.rules shelf.old session.old kinds.old.items }
    requires unarmed { session.old.is_armed ≡ false }
    requires new { cutter.old ≡ new_cutting }
    ensures { RunsArming state D.rules D.gone shelf.old session.old kinds.old.items
        shelf.new session.new kinds.new.items
        (λ start last. Saves (map D.rules kinds.new.items) result start (moment_at_end last)
        (flows S.left S.failures O.written O.failures source.old out.old)
        (flows S.left S.failures O.written O.failures source.new out.new)) }
{
    let ran = run_script(
        alloc,
        Tool::Dtrun,
        &PLAIN,
        session,
        shelf,
        kinds,
        source,
        out,
        cutter,
    );
    match ran {
        Ok(bad) => match bad {
            None => image_of_session(alloc, session, kinds),
            Some((n, fault)) => Err(ScriptFault::Line(n, fault)),
        },
        Err(stop) => Err(stop.into()),
    }
}

/// Runs the script that a source gives as dtrun does without words, over the disciplines of a shelf and kinds of
/// dictionaries, and answers the image of the first region that it leaves open, in order of opening, with the dictionaries
/// that lie in it, in order of opening; which dictionary views which isn't saved. The image is sound for these kinds. The
/// replies are written to `out`, whether there is an image or not. At the end every dictionary is shut and every region
/// closed, whatever came of it. The script's `vc 2` is taken as dtrun takes it. Besides what the run needs it takes memory
/// for the image, at most 17,420 bytes more than the region's segments have, and then as `unsound_part` does. This project's
/// own.
pub fn image_of_script<D: DictDisc, S: Source, O: Sink>(
    alloc: Global,
    shelf: &mut Shelf,
    kinds: &mut Vec<D>,
    source: &mut S,
    out: &mut O,
) -> Result<MemSink, ScriptFault>
    ensures saves { Saves (map D.rules kinds.old.items) result
        (moment_at_rest state D.rules D.gone shelf.old kinds.old.items)
        (moment_at_rest state D.rules D.gone shelf.new kinds.new.items)
        (flows S.left S.failures O.written O.failures source.old out.old)
        (flows S.left S.failures O.written O.failures source.new out.new) }
    ensures keeps { KeepsLent state D.rules D.gone (IsVersionOne None Dtrun (S.left source.old))
        shelf.old kinds.old.items shelf.new kinds.new.items }
{
    let Ok(mut cutter) = LineCutter::new(alloc) else {
        return Err(ScriptFault::Memory);
    };
    let Ok(mut session) = Session::<D>::over(alloc, Tool::Dtrun, IndexMap::new(alloc)) else {
        return Err(ScriptFault::Memory);
    };
    let image = run_and_save(alloc, &mut session, shelf, kinds, source, out, &mut cutter);
    session.end(shelf, kinds);
    image
}
