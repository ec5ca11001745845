ghost use Rattle.std.specs.Prelude.{◌≡◌, ℕ, ◌<◌, ◌≤◌, ◌^◌, List, [], ◌++◌, Some, false, true, IfOk, IfSome, OnErr, OnOk, length, take};
ghost use Rattle.std.specs.List.{AllByRecursion};
ghost use Rattle.vc_base.specs.Prelude.{Rose};
ghost use Rattle.vc_counts.specs.Counts.{live_bytes};
ghost use Rattle.vc_generate.specs.Generated.{commands_of_seed};
ghost use Rattle.vc_script.specs.Proper.{IsProperCommand};
ghost use Rattle.vc_session.specs.Arming.{KeepsLent};
ghost use Rattle.vc_session.specs.Engine.{IsStep, RunsGenerated};
ghost use Rattle.vc_session.specs.Generating.{RunsCommands};
ghost use Rattle.vc_session.specs.Progress.{CanBegin, CanRunLine, CountsOn};
ghost use Rattle.vc_session.specs.ProperState.{IsProperOver};
ghost use Rattle.vc_base.specs.Told.{Told};
ghost use Rattle.vc_steps.specs.Homes.{state_over};
ghost use Rattle.vc_steps.specs.Moment.{moment_at_end, over_sink, moment_at_rest};
ghost use Rattle.vc_steps.specs.Steps.{RunsOver};
ghost use Rattle.vc_steps.specs.Told.{rules_in};

use crate::asked::Asked;
use crate::command::run_answer;
use crate::engine::Stop;
use crate::tail::gather_tail;
use indexmap::IndexMap;
use std::alloc::Global;
use std::mem;
use vc_base::{OutOfMemory, Sink, WriteFailed, write_all};
use vc_counts::Counts;
use vc_dtdisc::DictDisc;
use vc_generate::Generator;
use vc_script::{Command, Reply, Tool};
use vc_seg::{BoxedDisc, SegDisc, Shelf};
use vc_steps::Session;
use vc_words::Words;

/// All commands that a tool makes of a seed, with one for each of `n` words, which are 1 to 1,000,000 (this project's
/// own rule). vmreplay has two commands more, and dtrun four.
///
/// # Errors
/// [`OutOfMemory`] where there's none for the list or for the bytes of an object.
pub fn generate(alloc: Global, tool: Tool, n: u32, seed: u32) -> Result<Vec<Command>, OutOfMemory>
    requires least { 1 ≤ n }
    requires most { n ≤ 1000000 }
    ensures { IfOk result (λ commands. commands.items ≡ commands_of_seed tool n seed) }
{
    let mut generator = Generator::new(tool, n, seed);
    let mut commands = Vec::new(alloc);
    while let Some(command) = generator.next(Vec::new(alloc))? {
        commands.push(command)?;
    }
    Ok(commands)
}

// So many bytes are gathered before they are written.
const FULL: usize = 4096;

// Writes what is gathered where it is long enough, and else lets it be.
fn write_full<O: Sink>(out: &mut O, gathered: &mut Vec<u8>) -> Result<(), WriteFailed>
    ensures told { OnOk result ((piece : List ℕ)
        × Told (O.written out.old) (O.written out.new) piece
        × (gathered.old.items ≡ piece ++ gathered.new.items)) }
    ensures front { IfSome (O.written out.old) (λ w. (k : ℕ)
        × (O.written out.new ≡ Some (w ++ take k gathered.old.items))) }
    ensures cause { OnErr result (Rose (O.failures out.old) (O.failures out.new)) }
    ensures never_falls { O.failures out.old ≤ O.failures out.new }
{
    if gathered.len() < FULL {
        return Ok(());
    }
    write_all(out, gathered.as_slice())?;
    gathered.clear();
    Ok(())
}

// Runs a command quietly on the line of that number, puts its reply in place of another one, gathers what is written of it,
// and lets the command go, but for the memory of its object.
fn run_made<D: DictDisc>(
    alloc: Global,
    session: &mut Session<D>,
    shelf: &mut Shelf,
    kinds: &mut Vec<D>,
    line: u32,
    command: Command,
    counts: &mut Counts,
    reply: &mut Reply,
    room: &mut Vec<u8>,
    gathered: &mut Vec<u8>,
) -> Result<(), OutOfMemory>
    requires { CanRunLine true state D.rules shelf.old session.old kinds.old.items counts.old line }
    ensures { RunsOver state D.rules D.gone shelf.old session.old kinds.old.items
        shelf.new session.new kinds.new.items
        (λ now next. CountsOn true result counts.new next line (λ _. IsStep true
        (over_sink now (Some gathered.old.items)) (over_sink next (Some gathered.new.items))
        counts.old counts.new line command)) }
{
    let ran = run_answer(
        true, session, shelf, kinds, line, &command, counts, reply, gathered,
    );
    let mut done = command;
    *room = done.take_room(alloc);
    ran
}

// Runs the commands of a generator quietly and counts them, each on the line of its number from 1 on, and answers how
// many there were. The lines of refused segments are gathered in an empty vector, and written as they grow and at the
// end.
fn run_commands<D: DictDisc, O: Sink>(
    alloc: Global,
    session: &mut Session<D>,
    shelf: &mut Shelf,
    kinds: &mut Vec<D>,
    generator: &mut Generator,
    out: &mut O,
    counts: &mut Counts,
    reply: &mut Reply,
    room: &mut Vec<u8>,
    gathered: &mut Vec<u8>,
) -> Result<u32, Stop>
    requires begins { CanBegin true state D.rules shelf.old session.old kinds.old.items counts.old }
    requires few { length generator.old < 2 ^ 31 }
    requires proper { AllByRecursion IsProperCommand generator.old }
    requires none { gathered.old.items ≡ [] }
    ensures { RunsOver state D.rules D.gone shelf.old session.old kinds.old.items
        shelf.new session.new kinds.new.items
        (λ start now. RunsCommands result generator.old start now counts.new
        (O.written out.old) (O.written out.new) (O.failures out.old) (O.failures out.new)) }
{
    let mut line = 0;
    while let Some(command) = generator.next(mem::replace(room, Vec::new(alloc)))? {
        line += 1;
        run_made(
            alloc, session, shelf, kinds, line, command, counts, reply, room, gathered,
        )?;
        write_full(out, gathered)?;
    }
    write_all(out, gathered.as_slice())?;
    Ok(line)
}

// Runs the commands over a session of regions without blocks that arms no discipline, and writes what stands behind the replies.
fn run_all<D: DictDisc, O: Sink>(
    alloc: Global,
    tool: Tool,
    words: &Words,
    n: u32,
    session: &mut Session<D>,
    shelf: &mut Shelf,
    kinds: &mut Vec<D>,
    out: &mut O,
) -> Result<(), Stop>
    requires session { IsProperOver state D.rules shelf.old session.old kinds.old.items }
    requires unarmed { session.old.is_armed ≡ false }
    requires counts { live_bytes
        (state_over state (rules_in D.rules kinds.old.items) shelf.old session.old) ≡ 0 }
    requires asked { words.now.generate ≡ Some n }
    requires most { n ≤ 1000000 }
    ensures { RunsOver state D.rules D.gone shelf.old session.old kinds.old.items
        shelf.new session.new kinds.new.items
        (λ start last. RunsGenerated tool words.now n result start (moment_at_end last)
        (O.written out.old) (O.written out.new) (O.failures out.old) (O.failures out.new)) }
{
    let mut generator = Generator::new(tool, n, words.seed);
    let mut counts = Counts::new();
    // The objects of one command and its reply give their memory to those of the next.
    let mut reply = Reply::Nothing;
    let mut room = Vec::new(alloc);
    let mut gathered = Vec::new(alloc);
    let lines = run_commands(
        alloc,
        session,
        shelf,
        kinds,
        &mut generator,
        out,
        &mut counts,
        &mut reply,
        &mut room,
        &mut gathered,
    )?;
    let mut tail = Vec::new(alloc);
    gather_tail(alloc, words, lines, &counts, session, &mut tail)?;
    write_all(out, tail.as_slice())?;
    Ok(())
}

// Runs the generated commands that are asked for, quietly, the k-th on line k; none where they aren't.
pub(crate) fn run_generated<D: DictDisc, O: Sink>(
    alloc: Global,
    tool: Tool,
    asked: &Asked,
    shelf: &mut Shelf,
    kinds: &mut Vec<D>,
    out: &mut O,
) -> Result<(), Stop>
    ensures runs { IfSome asked.now.words.generate (λ n. RunsGenerated tool asked.now.words n result
        (moment_at_rest state D.rules D.gone shelf.old kinds.old.items)
        (moment_at_rest state D.rules D.gone shelf.new kinds.new.items)
        (O.written out.old) (O.written out.new) (O.failures out.old) (O.failures out.new)) }
    ensures keeps { KeepsLent state D.rules D.gone (Unit {0})
        shelf.old kinds.old.items shelf.new kinds.new.items }
{
    let Some(n) = asked.words.generate else {
        return Ok(());
    };
    let mut session = Session::<D>::over(alloc, tool, IndexMap::new(alloc))?;
    let ended = run_all(
        alloc,
        tool,
        &asked.words,
        n,
        &mut session,
        shelf,
        kinds,
        out,
    );
    session.end(shelf, kinds);
    ended
}
