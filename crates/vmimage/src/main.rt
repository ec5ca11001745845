//! Judges the image of a region in a file, shows what it holds, or writes one of what a script leaves that is run over nothing or
//! over another one.
#![tactic(auto)]

mod file;

ghost use Rattle.std.specs.Prelude.{◌≡◌, map, vec_len};
ghost use Rattle.std.specs.Process.{exit_status};
ghost use Rattle.vc_image_run.specs.Tool.Making.{Makes, MakesOver};
ghost use Rattle.vc_image_run.specs.Tool.Status.{image_status_number};
ghost use Rattle.vc_session.specs.Streams.{streams};
ghost use Rattle.vc_steps.specs.Homes.{slots_on};
ghost use Rattle.vc_steps.specs.Moment.{moment_at_rest};

use crate::file::{read, replace};
use std::alloc::Global;
use std::process::ExitCode;
use vc_base::{MemSink, Sink, Source, StdSink, StdSource};
use vc_dtdisc::{BuiltIn, DictDisc};
use vc_image_run::{ImageFault, ImageStatus, ImageTask, check, make, remake, show, task_of, tell};
use vc_main::{budgeted, growing, heap_at, kinds, relieved, words_of};
use vc_seg::{BoxedDisc, HeapDisc, SegDisc, Shelf};

// What the program ends with: the number of the status.
fn exit(status: ImageStatus) -> ExitCode
    ensures { exit_status result ≡ image_status_number status }
{
    ExitCode::from(status.number())
}

// Judges the image in a file.
fn check_file(rt: &HostRuntime, name: &str) -> ImageStatus {
    let alloc = rt.alloc();
    let mut out = StdSink::new(rt.stdout());
    let mut err = StdSink::new(rt.stderr());
    let Ok(kinds) = kinds(alloc) else {
        return tell(&mut err, ImageFault::Memory);
    };
    match read(rt, name) {
        Ok(image) => check(alloc, &kinds, image.as_slice(), &mut out, &mut err),
        Err(why) => tell(&mut err, why),
    }
}

// Shows what the image in a file holds. The discipline rounds to 32 bytes, of which the size of each segment of a sound image
// is a multiple, and never refuses a segment.
fn show_file(rt: &HostRuntime, name: &str) -> ImageStatus {
    let alloc = rt.alloc();
    let mut out = StdSink::new(rt.stdout());
    let mut err = StdSink::new(rt.stderr());
    let Ok(kinds) = kinds(alloc) else {
        return tell(&mut err, ImageFault::Memory);
    };
    let Ok(disc) = Box::new(alloc, HeapDisc::new(32)) else {
        return tell(&mut err, ImageFault::Memory);
    };
    match read(rt, name) {
        Ok(image) => show(alloc, &kinds, image.as_slice(), disc, &mut out, &mut err),
        Err(why) => tell(&mut err, why),
    }
}

// Makes the image of what a script leaves, over the disciplines of eighteen places.
fn made<S: Source, O: Sink, E: Sink>(
    alloc: Global,
    shelf: &mut Shelf,
    kinds: &mut Vec<BuiltIn>,
    source: &mut S,
    out: &mut O,
    err: &mut E,
) -> Result<MemSink, ImageStatus>
    requires places { vec_len shelf.old.slots ≡ 18 }
    ensures makes { Makes (map ⟦<BuiltIn as DictDisc>⟧.rules kinds.old.items) result
        (moment_at_rest state ⟦<BuiltIn as DictDisc>⟧.rules ⟦<BuiltIn as DictDisc>⟧.gone shelf.old kinds.old.items)
        (moment_at_rest state ⟦<BuiltIn as DictDisc>⟧.rules ⟦<BuiltIn as DictDisc>⟧.gone shelf.new kinds.new.items)
        (streams S.left S.failures O.written O.failures E.written E.failures
        source.old out.old err.old)
        (streams S.left S.failures O.written O.failures E.written E.failures
        source.new out.new err.new) }
{
    make(alloc, shelf, kinds, source, out, err)
}

// The same of a script that is run over an image, whose region is opened over the first discipline.
fn remade<S: Source, O: Sink, E: Sink>(
    alloc: Global,
    image: &[u8],
    shelf: &mut Shelf,
    kinds: &mut Vec<BuiltIn>,
    source: &mut S,
    out: &mut O,
    err: &mut E,
) -> Result<MemSink, ImageStatus>
    requires places { vec_len shelf.old.slots ≡ 18 }
    ensures makes { MakesOver ⟦<BuiltIn as DictDisc>⟧.rules ⟦<BuiltIn as DictDisc>⟧.gone 1 image.now
        (slots_on state shelf.old) kinds.old.items result (slots_on state shelf.new) kinds.new.items
        (streams S.left S.failures O.written O.failures E.written E.failures
        source.old out.old err.old)
        (streams S.left S.failures O.written O.failures E.written E.failures
        source.new out.new err.new) }
{
    remake(alloc, image, 1, shelf, kinds, source, out, err)
}

// Runs a script over the disciplines and the kinds of dtrun, over an image where there is one, and writes the image of what
// it leaves to a file.
fn run_and_write(rt: &HostRuntime, name: &str, image: Option<&[u8]>) -> ImageStatus {
    let alloc = rt.alloc();
    let mut source = StdSource::new(rt.stdin());
    let mut out = StdSink::new(rt.stdout());
    let mut err = StdSink::new(rt.stderr());
    let Ok(mut kinds) = kinds(alloc) else {
        return tell(&mut err, ImageFault::Memory);
    };
    let mut shelf = Shelf::new(alloc);
    for i in 0..12u32 {
        let Ok(disc) = Box::new(alloc, heap_at(i + 1)) else {
            return tell(&mut err, ImageFault::Memory);
        };
        let Ok(_) = shelf.put(disc) else {
            return tell(&mut err, ImageFault::Memory);
        };
    }
    for _budgeted in 0..4u32 {
        let Ok(disc) = Box::new(alloc, budgeted()) else {
            return tell(&mut err, ImageFault::Memory);
        };
        let Ok(_) = shelf.put(disc) else {
            return tell(&mut err, ImageFault::Memory);
        };
    }
    let Ok(disc) = Box::new(alloc, growing()) else {
        return tell(&mut err, ImageFault::Memory);
    };
    let Ok(_) = shelf.put(disc) else {
        return tell(&mut err, ImageFault::Memory);
    };
    let Ok(disc) = Box::new(alloc, relieved()) else {
        return tell(&mut err, ImageFault::Memory);
    };
    let Ok(_) = shelf.put(disc) else {
        return tell(&mut err, ImageFault::Memory);
    };
    let written = match image {
        Some(image) => remade(
            alloc,
            image,
            &mut shelf,
            &mut kinds,
            &mut source,
            &mut out,
            &mut err,
        ),
        None => made(
            alloc,
            &mut shelf,
            &mut kinds,
            &mut source,
            &mut out,
            &mut err,
        ),
    };
    match written {
        Ok(image) => match replace(rt, name, image.bytes()) {
            Ok(()) => ImageStatus::Done,
            Err(why) => tell(&mut err, why),
        },
        Err(status) => status,
    }
}

// Runs a script over the image in a file, and writes the image of what it leaves in its place.
fn run_file(rt: &HostRuntime, name: &str) -> ImageStatus {
    let mut err = StdSink::new(rt.stderr());
    match read(rt, name) {
        Ok(image) => run_and_write(rt, name, Some(image.as_slice())),
        Err(why) => tell(&mut err, why),
    }
}

fn main(rt: HostRuntime) -> ExitCode {
    let mut err = StdSink::new(rt.stderr());
    let Ok(words) = words_of(&rt) else {
        return exit(tell(&mut err, ImageFault::Memory));
    };
    let Some(task) = task_of(words.as_slice()) else {
        return exit(tell(&mut err, ImageFault::Usage));
    };
    let name = words[1].as_str();
    exit(match task {
        ImageTask::Check => check_file(&rt, name),
        ImageTask::Show => show_file(&rt, name),
        ImageTask::Save => run_and_write(&rt, name, None),
        ImageTask::Run => run_file(&rt, name),
    })
}
