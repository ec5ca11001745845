ghost use Rattle.std.specs.Prelude.{◌≡◌, Some, OnErr, true};
ghost use Rattle.vc_commands.specs.Answered.{answered};
ghost use Rattle.vc_counts.specs.Counting.{CountsStep};
ghost use Rattle.vc_session.specs.Engine.{IsStep, RunsLine};
ghost use Rattle.vc_session.specs.Progress.{CanRunLine, CountsOn};
ghost use Rattle.vc_steps.specs.Moment.{over_sink};
ghost use Rattle.vc_steps.specs.Steps.{RunsOver};

use crate::gather::gather;
use crate::style::style_by;
use vc_base::OutOfMemory;
use vc_counts::{Counts, counted_step};
use vc_dtdisc::DictDisc;
use vc_script::{Command, Reply};
use vc_seg::{BoxedDisc, SegDisc, Shelf};
use vc_steps::Session;

// Runs the command of the line of that number and counts it. It stands apart, so that a run that isn't quiet is short.
#[inline(never)]
fn run_counted<D: DictDisc>(
    session: &mut Session<D>,
    shelf: &mut Shelf,
    kinds: &mut Vec<D>,
    n: u32,
    command: &Command,
    counts: &mut Counts,
    reply: &mut Reply,
) -> Result<(), OutOfMemory>
    requires { CanRunLine true state D.rules shelf.old session.old kinds.old.items counts.old n }
    ensures { RunsOver state D.rules D.gone shelf.old session.old kinds.old.items
        shelf.new session.new kinds.new.items
        (λ now next. CountsStep (answered result reply.new) now next n command.now
        counts.old counts.new) }
{
    counted_step(session, shelf, kinds, n, command, counts, reply)
}

// Runs the command of the line of that number. A quiet run counts it.
#[inline(always)]
fn run_command<D: DictDisc>(
    quiet: bool,
    session: &mut Session<D>,
    shelf: &mut Shelf,
    kinds: &mut Vec<D>,
    n: u32,
    command: &Command,
    counts: &mut Counts,
    reply: &mut Reply,
) -> Result<(), OutOfMemory>
    requires { CanRunLine quiet state D.rules shelf.old session.old kinds.old.items counts.old n }
    ensures { RunsOver state D.rules D.gone shelf.old session.old kinds.old.items
        shelf.new session.new kinds.new.items
        (λ now next. RunsLine quiet (answered result reply.new) now next
        counts.old counts.new n command.now) }
{
    if quiet {
        return run_counted(session, shelf, kinds, n, command, counts, reply);
    }
    session.step_into(shelf, kinds, n, command, reply)
}

// Runs the command of the line of that number, puts its reply in place of another one, and gathers what is written of it. A
// quiet run counts it, and a session that arms disciplines is of a script of version 2.
#[inline(always)]
pub(crate) fn run_answer<D: DictDisc>(
    quiet: bool,
    session: &mut Session<D>,
    shelf: &mut Shelf,
    kinds: &mut Vec<D>,
    n: u32,
    command: &Command,
    counts: &mut Counts,
    reply: &mut Reply,
    replies: &mut Vec<u8>,
) -> Result<(), OutOfMemory>
    requires { CanRunLine quiet state D.rules shelf.old session.old kinds.old.items counts.old n }
    ensures runs { RunsOver state D.rules D.gone shelf.old session.old kinds.old.items
        shelf.new session.new kinds.new.items
        (λ now next. CountsOn quiet result counts.new next n (λ _. IsStep quiet
        (over_sink now (Some replies.old.items)) (over_sink next (Some replies.new.items))
        counts.old counts.new n command.now)) }
    ensures same { OnErr result (replies.new.items ≡ replies.old.items) }
{
    let style = style_by(quiet, session.is_armed());
    match run_command(quiet, session, shelf, kinds, n, command, counts, reply) {
        Ok(()) => gather(style, n, reply, replies),
        Err(_) => Err(OutOfMemory),
    }
}
