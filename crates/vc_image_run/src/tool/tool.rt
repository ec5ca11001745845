ghost use Rattle.std.specs.Prelude.{◌≡◌, IfErr, IfOk, IfSome, map};
ghost use Rattle.vc_best.specs.Parts.{layout_of};
ghost use Rattle.vc_image_check.specs.Dicts.Whole.{IsSoundImage};
ghost use Rattle.vc_image_run.specs.Text.Text.{image_text};
ghost use Rattle.vc_image_run.specs.Tool.Promises.{Checks, IsJudged, IsNotShown, PutsText, ShowsSoundImage};
ghost use Rattle.vc_image_run.specs.Tool.Shown.{AreShowable, shown_of};
ghost use Rattle.vc_image_run.specs.Tool.Streams.{NoneFalls, sinks};
ghost use Rattle.vc_image_run.specs.declared.tool.fault.ImageFault.TheVariants.{Memory};
ghost use Rattle.vc_region.specs.OfBest.{best_in};

use crate::text::text_of;
use crate::tool::told::tell;
use crate::tool::{ImageFault, ImageStatus};
use std::alloc::Global;
use vc_base::{Sink, write_all};
use vc_dtdisc::DictDisc;
use vc_image::{LoadFault, Loaded, load};
use vc_image_check::unsound_part;
use vc_seg::{BoxedDisc, SegDisc};

// Writes what was asked for, and ends with a status.
fn put<O: Sink, E: Sink>(text: &[u8], out: &mut O, err: &mut E) -> ImageStatus
    ensures puts { PutsText text.now result
        (sinks O.written O.failures E.written E.failures out.old err.old)
        (sinks O.written O.failures E.written E.failures out.new err.new) }
    ensures counts { NoneFalls
        (sinks O.written O.failures E.written E.failures out.old err.old)
        (sinks O.written O.failures E.written E.failures out.new err.new) }
{
    match write_all(out, text) {
        Ok(()) => ImageStatus::Done,
        Err(_) => tell(err, ImageFault::Write),
    }
}

// Whether an image is sound, and what is wrong with one that isn't.
fn judged<D: DictDisc>(alloc: Global, kinds: &Vec<D>, image: &[u8]) -> Result<(), ImageFault>
    ensures { IsJudged (map D.rules kinds.now.items) image.now result }
{
    match unsound_part(alloc, image, kinds) {
        Ok(None) => Ok(()),
        Ok(Some(part)) => Err(ImageFault::Load(LoadFault::Bad(part))),
        Err(_) => Err(ImageFault::Memory),
    }
}

// The text of a region and dictionaries that were loaded.
fn text_in(alloc: Global, loaded: &Loaded) -> Result<Vec<u8>, ImageFault>
    requires { AreShowable loaded.now.region loaded.now.dicts }
    ensures text { IfSome (best_in loaded.now.region) (λ best. IfOk result (λ text.
        text.items ≡ image_text (layout_of best) loaded.now.dicts)) }
    ensures err { IfErr result (λ why. why ≡ Memory) }
{
    match loaded.region.as_best() {
        Some(best) => match text_of(alloc, best, loaded.dicts.as_slice()) {
            Ok(text) => Ok(text),
            Err(_) => Err(ImageFault::Memory),
        },
        None => unreachable!(),
    }
}

// What a sound image holds, loaded over a discipline.
fn shown<D: DictDisc>(
    alloc: Global,
    kinds: &Vec<D>,
    image: &[u8],
    disc: Box<dyn SegDisc>,
) -> Result<Vec<u8>, ImageFault>
    ensures sound { IfOk result (λ text. IsSoundImage (map D.rules kinds.now.items) image.now) }
    ensures text { IfOk result (λ text. text.items ≡ shown_of image.now) }
    ensures err { IfErr result (IsNotShown (map D.rules kinds.now.items) image.now (state disc)) }
{
    match load(alloc, image, kinds, disc) {
        Ok(loaded) => text_in(alloc, &loaded),
        Err((fault, _)) => Err(ImageFault::Load(fault)),
    }
}

/// Judges an image for some kinds: writes to `out` that it is sound, or tells `err` the first part of it that isn't, in
/// one line. Nothing is claimed of want of memory, which may come at any time and is told.
pub fn check<D: DictDisc, O: Sink, E: Sink>(
    alloc: Global,
    kinds: &Vec<D>,
    image: &[u8],
    out: &mut O,
    err: &mut E,
) -> ImageStatus
    ensures checks { Checks (map D.rules kinds.now.items) image.now result
        (sinks O.written O.failures E.written E.failures out.old err.old)
        (sinks O.written O.failures E.written E.failures out.new err.new) }
    ensures counts { NoneFalls
        (sinks O.written O.failures E.written E.failures out.old err.old)
        (sinks O.written O.failures E.written E.failures out.new err.new) }
{
    match judged(alloc, kinds, image) {
        Ok(()) => put(b"sound\n", out, err),
        Err(fault) => tell(err, fault),
    }
}

/// Loads an image over a discipline, for some kinds, and writes to `out` what `stat`, `segments` and `blocks` print of
/// its region, and `walk` of each of its dictionaries, a line each: that of a sound image is told by its bytes alone
/// (`shown_of`). Where a part isn't sound, or the discipline doesn't lend the segments, nothing is written, and `err`
/// gets one line. The region goes with the discipline.
pub fn show<D: DictDisc, O: Sink, E: Sink>(
    alloc: Global,
    kinds: &Vec<D>,
    image: &[u8],
    disc: Box<dyn SegDisc>,
    out: &mut O,
    err: &mut E,
) -> ImageStatus
    ensures shows { ShowsSoundImage (map D.rules kinds.now.items) image.now (state disc) result
        (sinks O.written O.failures E.written E.failures out.old err.old)
        (sinks O.written O.failures E.written E.failures out.new err.new) }
    ensures counts { NoneFalls
        (sinks O.written O.failures E.written E.failures out.old err.old)
        (sinks O.written O.failures E.written E.failures out.new err.new) }
{
    match shown(alloc, kinds, image, disc) {
        Ok(text) => put(text.as_slice(), out, err),
        Err(fault) => tell(err, fault),
    }
}
