ghost use Rattle.std.specs.Prelude.{◌≡◌, ◌==◌, [], None, Ok, OnErr, false};
ghost use Rattle.vc_script.specs.Answer.{answer};
ghost use Rattle.vc_script.specs.Cutting.{new_cutting};
ghost use Rattle.vc_session.specs.Engine.{LineRan, RunsLines, gathered};
ghost use Rattle.vc_session.specs.Progress.{CanBegin, CanRunLine, CountsOn};
ghost use Rattle.vc_session.specs.SoFar.{CanGoOn, RunsLast, RunsPiece};
ghost use Rattle.vc_session.specs.Streams.{flows};
ghost use Rattle.vc_steps.specs.Homes.{IsSessionOver, state_over};
ghost use Rattle.vc_session.specs.Arming.{RunsArming};
ghost use Rattle.vc_steps.specs.Told.{rules_in};

use crate::command::run_answer;
use crate::scratch::Scratch;
use std::alloc::Global;
use vc_base::{OutOfMemory, ReadFailed, Sink, Source, WriteFailed, write_all};
use vc_dtdisc::DictDisc;
use vc_script::{Cut, LineAnswer, LineCutter, LineFault, Tool, read_into};
use vc_seg::{BoxedDisc, SegDisc, Shelf};
use vc_steps::Session;

/// Why a run ended before its lines did. This project's own.
#[derive(Clone, Copy, Debug, PartialEq, Eq)]
pub enum Stop {
    /// A read failed.
    Read,

    /// A write failed.
    Write,

    /// Want of memory.
    Memory,
}

impl From<OutOfMemory> for Stop {
    ghost use Rattle.vc_session.specs.declared.engine.Stop.TheVariants.{Memory};

    ghost from_gives = { λ _ stop. stop ≡ Memory };

    fn from(_: OutOfMemory) -> Stop {
        Stop::Memory
    }
}

impl From<ReadFailed> for Stop {
    ghost use Rattle.vc_session.specs.declared.engine.Stop.TheVariants.{Read};

    ghost from_gives = { λ _ stop. stop ≡ Read };

    fn from(_: ReadFailed) -> Stop {
        Stop::Read
    }
}

impl From<WriteFailed> for Stop {
    ghost use Rattle.vc_session.specs.declared.engine.Stop.TheVariants.{Write};

    ghost from_gives = { λ _ stop. stop ≡ Write };

    fn from(_: WriteFailed) -> Stop {
        Stop::Write
    }
}

// Runs the line of that number and gathers what is written of its reply, or answers what is wrong with it. Line 1 may tell
// the version instead. What the line asks for and its reply are put in place of those of another line.
#[inline(always)]
fn run_line<D: DictDisc>(
    alloc: Global,
    tool: Tool,
    quiet: bool,
    session: &mut Session<D>,
    shelf: &mut Shelf,
    kinds: &mut Vec<D>,
    n: u32,
    line: &[u8],
    scratch: &mut Scratch,
) -> Result<Option<LineFault>, OutOfMemory>
    requires can_run { CanRunLine quiet state D.rules shelf.old session.old kinds.old.items
        scratch.old.counts n }
    requires unarmed { n ≡ 1 → session.old.is_armed ≡ false }
    ensures runs { RunsArming state D.rules D.gone shelf.old session.old kinds.old.items
        shelf.new session.new kinds.new.items
        (λ now next. CountsOn quiet result scratch.new.counts next n (LineRan quiet
        (gathered now scratch.old) (gathered next scratch.new)
        scratch.old.counts scratch.new.counts n (answer tool (n == 1) line.now))) }
    ensures same { OnErr result (scratch.new.replies.items ≡ scratch.old.replies.items) }
    ensures armed { OnErr result (session.new.is_armed ≡ session.old.is_armed) }
{
    match read_into(alloc, tool, n == 1, line, &mut scratch.asked) {
        Ok(()) => match &mut scratch.asked {
            LineAnswer::Blank => Ok(None),
            LineAnswer::Version(version) => {
                session.set_version(*version);
                Ok(None)
            }
            LineAnswer::Bad(fault) => Ok(Some(*fault)),
            LineAnswer::Is(command) => {
                run_answer(
                    quiet,
                    session,
                    shelf,
                    kinds,
                    n,
                    command,
                    &mut scratch.counts,
                    &mut scratch.reply,
                    &mut scratch.replies,
                )?;
                Ok(None)
            }
        },
        Err(_) => Err(OutOfMemory),
    }
}

// Runs the lines that a piece ends, gathers what is written of their replies, and answers the first bad line, by its
// number from 1 on.
fn run_piece<D: DictDisc>(
    alloc: Global,
    tool: Tool,
    quiet: bool,
    session: &mut Session<D>,
    shelf: &mut Shelf,
    kinds: &mut Vec<D>,
    cutter: &mut LineCutter,
    piece: &[u8],
    scratch: &mut Scratch,
) -> Result<Option<(u32, LineFault)>, OutOfMemory>
    requires session { IsSessionOver state D.rules shelf.old session.old kinds.old.items }
    requires goes_on { CanGoOn quiet scratch.old.counts
        (state_over state (rules_in D.rules kinds.old.items) shelf.old session.old)
        session.old cutter.old }
    requires none { scratch.old.replies.items ≡ [] }
    ensures runs { RunsArming state D.rules D.gone shelf.old session.old kinds.old.items
        shelf.new session.new kinds.new.items
        (λ now next. RunsPiece tool quiet result
        (gathered now scratch.old) (gathered next scratch.new)
        scratch.old.counts scratch.new.counts scratch.new.replies.items cutter.old cutter.new piece.now) }
    ensures unarmed { result ≡ Ok None → cutter.new.count ≡ 0 → session.new.is_armed ≡ false }
{
    let mut rest = piece;
    while !rest.is_empty() {
        let (cut, used) = cutter.feed(rest);
        rest = &rest[used..];
        match cut {
            Cut::More => {}
            Cut::Bad(fault) => return Ok(Some((cutter.number() + 1, fault))),
            Cut::Whole => {
                match run_line(
                    alloc,
                    tool,
                    quiet,
                    session,
                    shelf,
                    kinds,
                    cutter.number(),
                    cutter.line(),
                    scratch,
                )? {
                    Some(fault) => return Ok(Some((cutter.number(), fault))),
                    None => {}
                }
            }
        }
    }
    Ok(None)
}

// Runs the line that the input's end ends, where one has begun, and answers it where it is bad. It comes once, so it stands
// apart.
#[inline(never)]
fn run_last<D: DictDisc>(
    alloc: Global,
    tool: Tool,
    quiet: bool,
    session: &mut Session<D>,
    shelf: &mut Shelf,
    kinds: &mut Vec<D>,
    cutter: &mut LineCutter,
    scratch: &mut Scratch,
) -> Result<Option<(u32, LineFault)>, OutOfMemory>
    requires session { IsSessionOver state D.rules shelf.old session.old kinds.old.items }
    requires goes_on { CanGoOn quiet scratch.old.counts
        (state_over state (rules_in D.rules kinds.old.items) shelf.old session.old)
        session.old cutter.old }
    requires none { scratch.old.replies.items ≡ [] }
    ensures { RunsArming state D.rules D.gone shelf.old session.old kinds.old.items
        shelf.new session.new kinds.new.items
        (λ now next. RunsLast tool quiet result
        (gathered now scratch.old) (gathered next scratch.new)
        scratch.old.counts scratch.new.counts scratch.new.replies.items cutter.old cutter.new.count) }
{
    match cutter.end() {
        Cut::Whole => match run_line(
            alloc,
            tool,
            quiet,
            session,
            shelf,
            kinds,
            cutter.number(),
            cutter.line(),
            scratch,
        )? {
            Some(fault) => Ok(Some((cutter.number(), fault))),
            None => Ok(None),
        },
        _ => Ok(None),
    }
}

// Runs the lines before the first bad one over a new cutter, and answers that one, by its number from 1 on. What is
// written of the replies to the lines of one read is gathered where nothing is yet, and written before the next read and
// before anything else. A quiet run counts its commands from 0 on.
pub(crate) fn run_lines<D: DictDisc, S: Source, O: Sink>(
    alloc: Global,
    tool: Tool,
    quiet: bool,
    session: &mut Session<D>,
    shelf: &mut Shelf,
    kinds: &mut Vec<D>,
    source: &mut S,
    out: &mut O,
    cutter: &mut LineCutter,
    scratch: &mut Scratch,
) -> Result<Option<(u32, LineFault)>, Stop>
    requires begins { CanBegin quiet state D.rules shelf.old session.old kinds.old.items scratch.old.counts }
    requires unarmed { session.old.is_armed ≡ false }
    requires new { cutter.old ≡ new_cutting }
    requires none { scratch.old.replies.items ≡ [] }
    ensures { RunsArming state D.rules D.gone shelf.old session.old kinds.old.items
        shelf.new session.new kinds.new.items
        (λ start last. RunsLines tool quiet result start last scratch.new.counts cutter.new.count
        (flows S.left S.failures O.written O.failures source.old out.old)
        (flows S.left S.failures O.written O.failures source.new out.new)) }
{
    let mut buf = [0u8; 4096];
    loop {
        let n = source.read(&mut buf)?;
        if n == 0 {
            break;
        }
        let ran = run_piece(
            alloc,
            tool,
            quiet,
            session,
            shelf,
            kinds,
            cutter,
            &buf[..n],
            scratch,
        );
        write_all(out, scratch.replies.as_slice())?;
        match ran? {
            Some(bad) => return Ok(Some(bad)),
            None => {}
        }
        scratch.replies.clear();
    }
    let ran = run_last(alloc, tool, quiet, session, shelf, kinds, cutter, scratch);
    write_all(out, scratch.replies.as_slice())?;
    Ok(ran?)
}
