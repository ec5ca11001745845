ghost use Rattle.std.specs.Prelude.{◌≡◌, ◌≤◌, Some, [], map, string_bytes, vec_len, IfOk, OnErr};
ghost use Rattle.kolbista_c.specs.Memory.{IsFilled, Played, RanInMemory, Runs, buffer, words_by};

use crate::buffers::{fill_both, sinks};
use crate::own_shelf::{Task, on_own_shelf};
use crate::slice_source::SliceSource;
use std::alloc::{AllocError, Global};
use vc_base::{MemSink, OutOfMemory};
use vc_main::kinds;
use vc_script::Tool;
use vc_seg::{BoxedDisc, SegDisc, Shelf};
use vc_session::{Status, dtrun, replay};

// The words that flags stand for.
fn words_of(alloc: Global, flags: u32) -> Result<Vec<String>, AllocError>
    requires { flags ≤ 3 }
    ensures { IfOk result (λ words. words_by flags ≡ Some (map string_bytes words.items)) }
{
    let mut words = Vec::new(alloc);
    if flags % 2 == 1 {
        words.push(String::from_str(alloc, "--quiet")?)?;
    }
    if flags >= 2 {
        words.push(String::from_str(alloc, "--stat")?)?;
    }
    Ok(words)
}

// Runs a tool over a shelf, from memory to memory.
fn play(
    alloc: Global,
    tool: Tool,
    words: &[String],
    shelf: &mut Shelf,
    script: &[u8],
    replies: &mut MemSink,
    told: &mut MemSink,
) -> Result<Status, AllocError>
    requires shelf { vec_len shelf.old.slots ≡ 18 }
    requires replies { (replies.old.written ≡ []) × (replies.old.faults ≡ 0) }
    requires told { (told.old.written ≡ []) × (told.old.faults ≡ 0) }
    ensures ok { IfOk result (λ status. Played tool (map string_bytes words.now) script.now status
        replies.new.written told.new.written) }
    ensures err { OnErr result ((replies.new.written ≡ []) × (told.new.written ≡ [])) }
{
    let mut source = SliceSource { left: script };
    match tool {
        Tool::Vmreplay => Ok(replay(alloc, words, shelf, &mut source, replies, told)),
        Tool::Dtrun => {
            let mut kinds = kinds(alloc)?;
            Ok(dtrun(alloc, words, shelf, &mut kinds, &mut source, replies, told))
        }
    }
}

/// Runs a tool over a shelf, and puts what it writes into two buffers.
pub(crate) fn run_in_memory(
    alloc: Global,
    tool: Tool,
    words: &[String],
    shelf: &mut Shelf,
    script: &[u8],
    out: &mut [u8],
    out_used: &mut usize,
    err: &mut [u8],
    err_used: &mut usize,
) -> Result<u32, OutOfMemory>
    requires shelf { vec_len shelf.old.slots ≡ 18 }
    requires out { out_used.old ≡ 0 }
    requires err { err_used.old ≡ 0 }
    ensures ok { IfOk result (λ code. RanInMemory tool (map string_bytes words.now) script.now code
        (buffer out.old out.new out_used.new) (buffer err.old err.new err_used.new)) }
    ensures out { OnErr result (IsFilled [] (buffer out.old out.new out_used.new)) }
    ensures err { OnErr result (IsFilled [] (buffer err.old err.new err_used.new)) }
{
    let (mut replies, mut told) = sinks(alloc, out.len())?;
    let status = play(alloc, tool, words, shelf, script, &mut replies, &mut told)?;
    Ok(fill_both(
        u32::from(status.number()),
        &replies,
        &told,
        out,
        out_used,
        err,
        err_used,
    ))
}

/// Runs a tool with the words that flags stand for.
pub(crate) fn run(
    alloc: Global,
    tool: Tool,
    flags: u32,
    script: &[u8],
    out: &mut [u8],
    out_used: &mut usize,
    err: &mut [u8],
    err_used: &mut usize,
) -> u32
    requires flags { flags ≤ 3 }
    requires out { out_used.old ≡ 0 }
    requires err { err_used.old ≡ 0 }
    ensures { Runs (Some tool) (words_by flags) script.now result
        (buffer out.old out.new out_used.new) (buffer err.old err.new err_used.new) }
{
    let Ok(words) = words_of(alloc, flags) else {
        return 5;
    };
    let task = Task::Run(tool, words.as_slice());
    let mut made_used = 0;
    let ran = on_own_shelf(
        alloc,
        &task,
        script,
        &mut [],
        &mut made_used,
        out,
        out_used,
        err,
        err_used,
    );
    match ran {
        Ok(code) => code,
        Err(_) => 5,
    }
}
