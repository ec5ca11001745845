ghost use Rattle.std.specs.Prelude.{◌≡◌, [], Some, IsSome, map, string_bytes};
ghost use Rattle.vc_script.specs.declared.tool.Tool.TheVariants.{Dtrun, Vmreplay};
ghost use Rattle.vc_session.specs.Arming.{IsVersionOne, KeepsLent};
ghost use Rattle.vc_session.specs.Engine.{RunsAsked};
ghost use Rattle.vc_session.specs.Promises.{Promises, borrowed};
ghost use Rattle.vc_session.specs.Streams.{flows, streams};
ghost use Rattle.vc_steps.specs.Account.{ArmsNone};
ghost use Rattle.vc_steps.specs.Homes.{slots_on};
ghost use Rattle.vc_steps.specs.Moment.{moment_at_rest_by, moment_at_rest};
ghost use Rattle.vc_words.specs.Words.{words_of};

use crate::Status;
use crate::asked::Asked;
use crate::engine::Stop;
use crate::generated::run_generated;
use crate::script::run_source;
use crate::told::{tell, tell_fault};
use std::alloc::Global;
use vc_base::{Sink, Source};
use vc_dtdisc::{BuiltIn, DictDisc};
use vc_script::{LineFault, Tool};
use vc_seg::{BoxedDisc, SegDisc, Shelf};
use vc_words::read_words;

// Runs the generated commands that the words ask for, or the script of the source.
fn run_asked<D: DictDisc, S: Source, O: Sink>(
    alloc: Global,
    tool: Tool,
    asked: &Asked,
    shelf: &mut Shelf,
    kinds: &mut Vec<D>,
    source: &mut S,
    out: &mut O,
) -> Result<Option<(u32, LineFault)>, Stop>
    ensures runs { RunsAsked tool asked.now.words result
        (moment_at_rest state D.rules D.gone shelf.old kinds.old.items)
        (moment_at_rest state D.rules D.gone shelf.new kinds.new.items)
        (flows S.left S.failures O.written O.failures source.old out.old)
        (flows S.left S.failures O.written O.failures source.new out.new) }
    ensures generated { IsSome asked.now.words.generate → source.new ≡ source.old }
    ensures keeps { KeepsLent state D.rules D.gone
        (IsVersionOne asked.now.words.generate tool (S.left source.old))
        shelf.old kinds.old.items shelf.new kinds.new.items }
{
    match asked.words.generate {
        None => run_source(alloc, tool, &asked.words, shelf, kinds, source, out),
        Some(_) => {
            run_generated(alloc, tool, asked, shelf, kinds, out)?;
            Ok(None)
        }
    }
}

// Runs what the words ask for, and ends with a status.
fn run_words<D: DictDisc, S: Source, O: Sink, E: Sink>(
    alloc: Global,
    tool: Tool,
    asked: &Asked,
    shelf: &mut Shelf,
    kinds: &mut Vec<D>,
    source: &mut S,
    out: &mut O,
    err: &mut E,
) -> Status
    ensures promises { Promises tool (Some asked.now.words) result
        (borrowed shelf.old kinds.old source.old out.old err.old)
        (borrowed shelf.new kinds.new source.new out.new err.new)
        (λ shelf kinds. moment_at_rest state D.rules D.gone shelf kinds.items)
        (streams S.left S.failures O.written O.failures E.written E.failures) }
    ensures unarmed { ArmsNone (slots_on state shelf.old) (slots_on state shelf.new) }
{
    match run_asked(alloc, tool, asked, shelf, kinds, source, out) {
        Ok(None) => Status::Ok,
        Ok(Some((n, fault))) => match tell_fault(err, tool, n, fault) {
            Ok(()) => Status::Script,
            Err(_) => Status::Write,
        },
        Err(Stop::Read) => {
            let _ = tell(err, tool, "read failed");
            Status::Read
        }
        Err(Stop::Write) => {
            let _ = tell(err, tool, "write failed");
            Status::Write
        }
        Err(Stop::Memory) => {
            let _ = tell(err, tool, "out of memory");
            Status::Memory
        }
    }
}

// Runs a tool that was given these words.
fn run_tool<D: DictDisc, S: Source, O: Sink, E: Sink>(
    alloc: Global,
    tool: Tool,
    words: &[String],
    shelf: &mut Shelf,
    kinds: &mut Vec<D>,
    source: &mut S,
    out: &mut O,
    err: &mut E,
) -> Status
    ensures promises { Promises tool (words_of (map string_bytes words.now)) result
        (borrowed shelf.old kinds.old source.old out.old err.old)
        (borrowed shelf.new kinds.new source.new out.new err.new)
        (λ shelf kinds. moment_at_rest state D.rules D.gone shelf kinds.items)
        (streams S.left S.failures O.written O.failures E.written E.failures) }
    ensures unarmed { ArmsNone (slots_on state shelf.old) (slots_on state shelf.new) }
{
    match read_words(alloc, words) {
        Ok(Some(words)) => {
            let asked = Asked { words };
            run_words(alloc, tool, &asked, shelf, kinds, source, out, err)
        }
        Ok(None) => match tell(err, tool, "bad arguments") {
            Ok(()) => Status::Usage,
            Err(_) => Status::Write,
        },
        Err(_) => {
            let _ = tell(err, tool, "out of memory");
            Status::Memory
        }
    }
}

/// Runs the script that the source gives over the disciplines of a shelf, or with `--gen` generated commands, and ends
/// with a status. The words are read before anything else; where they are refused nothing but `err` is touched. With
/// `--gen` no call is made on the source. The source is read in pieces of at most 4,096 bytes. What is written of the
/// replies to the lines of one piece is gathered and goes to `out` before the next read; gathering takes memory. With
/// `--quiet` or `--gen` that is only a line for each refused segment, and behind it five lines of what was counted;
/// with `--stat` a line for each open region follows, both with status 0 and 1 alone. A fault goes to `err`, as one
/// line. Where nothing was wrong nothing is written to `err`.
pub fn replay<S: Source, O: Sink, E: Sink>(
    alloc: Global,
    words: &[String],
    shelf: &mut Shelf,
    source: &mut S,
    out: &mut O,
    err: &mut E,
) -> Status
    ensures promises { Promises Vmreplay (words_of (map string_bytes words.now)) result
        (borrowed shelf.old (tt {0}) source.old out.old err.old)
        (borrowed shelf.new (tt {0}) source.new out.new err.new)
        (λ shelf _. moment_at_rest_by state [] [] shelf)
        (streams S.left S.failures O.written O.failures E.written E.failures) }
    ensures unarmed { ArmsNone (slots_on state shelf.old) (slots_on state shelf.new) }
{
    let mut kinds: Vec<BuiltIn> = Vec::new(alloc);
    run_tool(
        alloc,
        Tool::Vmreplay,
        words,
        shelf,
        &mut kinds,
        source,
        out,
        err,
    )
}

/// Runs the script that the source gives over the disciplines of a shelf and kinds of dictionaries, or with `--gen`
/// generated commands, as `replay` does. At its end each kind is told of the objects that are left.
pub fn dtrun<D: DictDisc, S: Source, O: Sink, E: Sink>(
    alloc: Global,
    words: &[String],
    shelf: &mut Shelf,
    kinds: &mut Vec<D>,
    source: &mut S,
    out: &mut O,
    err: &mut E,
) -> Status
    ensures promises { Promises Dtrun (words_of (map string_bytes words.now)) result
        (borrowed shelf.old kinds.old source.old out.old err.old)
        (borrowed shelf.new kinds.new source.new out.new err.new)
        (λ shelf kinds. moment_at_rest state D.rules D.gone shelf kinds.items)
        (streams S.left S.failures O.written O.failures E.written E.failures) }
    ensures unarmed { ArmsNone (slots_on state shelf.old) (slots_on state shelf.new) }
{
    run_tool(alloc, Tool::Dtrun, words, shelf, kinds, source, out, err)
}
