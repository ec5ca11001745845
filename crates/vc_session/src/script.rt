ghost use Rattle.std.specs.Prelude.{◌≡◌, [], None, Some, IsTrue, false, length};
ghost use Rattle.vc_counts.specs.Counts.{live_bytes};
ghost use Rattle.vc_script.specs.Cutting.{new_cutting};
ghost use Rattle.vc_session.specs.Arming.{IsVersionOne, KeepsLent, RunsArming};
ghost use Rattle.vc_session.specs.Engine.{RunsScriptOn, RunsScript};
ghost use Rattle.vc_session.specs.ProperState.{IsProperOver};
ghost use Rattle.vc_session.specs.Streams.{flows};
ghost use Rattle.vc_session.specs.Text.{good_lines, is_quiet};
ghost use Rattle.vc_steps.specs.Homes.{state_over};
ghost use Rattle.vc_steps.specs.Moment.{moment_at_rest};
ghost use Rattle.vc_steps.specs.Told.{rules_in};

use crate::engine::{Stop, run_lines};
use crate::scratch::Scratch;
use crate::tail::{gather_tail, is_quiet};
use indexmap::IndexMap;
use std::alloc::Global;
use vc_base::{Sink, Source, write_all};
use vc_dtdisc::DictDisc;
use vc_script::{LineCutter, LineFault, Tool};
use vc_seg::{BoxedDisc, SegDisc, Shelf};
use vc_steps::Session;
use vc_words::Words;

// How many of so many lines are before the first bad one.
fn good_lines(bad: Option<(u32, LineFault)>, lines: u32) -> u32
    ensures { result ≡ good_lines bad lines }
{
    match bad {
        None => lines,
        Some((n, _)) => n.saturating_sub(1),
    }
}

/// Runs the script that a source gives over a session in which regions may be open, none of them armed, and writes the
/// replies and what stands behind them, by the words of a tool. It ends with the script or before its first bad line, which
/// it answers with its number, from 1 on; or where a read or a write fails, or memory is wanting. The session is left as
/// the script leaves it, for its caller to end; the cutter is a new one. A quiet run counts from 0 on, so it begins over
/// regions without blocks.
pub fn run_script<D: DictDisc, S: Source, O: Sink>(
    alloc: Global,
    tool: Tool,
    words: &Words,
    session: &mut Session<D>,
    shelf: &mut Shelf,
    kinds: &mut Vec<D>,
    source: &mut S,
    out: &mut O,
    cutter: &mut LineCutter,
) -> Result<Option<(u32, LineFault)>, Stop>
    requires session { IsProperOver state D.rules shelf.old session.old kinds.old.items }
    requires unarmed { session.old.is_armed ≡ false }
    requires counts { IsTrue (is_quiet words.now) → live_bytes
        (state_over state (rules_in D.rules kinds.old.items) shelf.old session.old) ≡ 0 }
    requires new { cutter.old ≡ new_cutting }
    ensures { RunsArming state D.rules D.gone shelf.old session.old kinds.old.items
        shelf.new session.new kinds.new.items
        (λ start last. RunsScriptOn tool words.now result start last
        (flows S.left S.failures O.written O.failures source.old out.old)
        (flows S.left S.failures O.written O.failures source.new out.new)) }
{
    let mut scratch = Scratch::new(alloc);
    let ran = run_lines(
        alloc,
        tool,
        is_quiet(words),
        session,
        shelf,
        kinds,
        source,
        out,
        cutter,
        &mut scratch,
    );
    let bad = ran?;
    let lines = good_lines(bad, cutter.number());
    let mut tail = Vec::new(alloc);
    gather_tail(alloc, words, lines, &scratch.counts, session, &mut tail)?;
    write_all(out, tail.as_slice())?;
    Ok(bad)
}

// Runs the script of a source, by the words of the tool.
pub(crate) fn run_source<D: DictDisc, S: Source, O: Sink>(
    alloc: Global,
    tool: Tool,
    words: &Words,
    shelf: &mut Shelf,
    kinds: &mut Vec<D>,
    source: &mut S,
    out: &mut O,
) -> Result<Option<(u32, LineFault)>, Stop>
    ensures runs { RunsScript tool words.now result
        (moment_at_rest state D.rules D.gone shelf.old kinds.old.items)
        (moment_at_rest state D.rules D.gone shelf.new kinds.new.items)
        (flows S.left S.failures O.written O.failures source.old out.old)
        (flows S.left S.failures O.written O.failures source.new out.new) }
    ensures keeps { KeepsLent state D.rules D.gone (IsVersionOne None tool (S.left source.old))
        shelf.old kinds.old.items shelf.new kinds.new.items }
{
    let mut cutter = LineCutter::new(alloc)?;
    let mut session = Session::<D>::over(alloc, tool, IndexMap::new(alloc))?;
    let ended = run_script(
        alloc,
        tool,
        words,
        &mut session,
        shelf,
        kinds,
        source,
        out,
        &mut cutter,
    );
    session.end(shelf, kinds);
    ended
}
