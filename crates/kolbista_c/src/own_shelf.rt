ghost use Rattle.std.specs.Prelude.{◌≡◌, ◌≤◌, vec_len, IfOk, OnErr};
ghost use Rattle.kolbista_c.specs.Memory.{AreIdle, buffer};
ghost use Rattle.kolbista_c.specs.Tasks.{Performs};

use crate::making::{make_in_memory, remake_in_memory};
use crate::running::run_in_memory;
use std::alloc::Global;
use vc_base::OutOfMemory;
use vc_main::{budgeted, growing, heap_at, relieved};
use vc_script::Tool;
use vc_seg::{BoxedDisc, SegDisc, Shelf};

/// What is done with a script over the disciplines of eighteen places.
#[derive(Drop)]
pub(crate) enum Task<'a> {
    /// It is run by a tool with these words.
    Run(Tool, &'a [String]),
    /// It is run by dtrun, and the image of what it leaves is made.
    Save,
    /// The same, over this image.
    RunOver(&'a [u8]),
}

// Does it over a shelf, and puts what comes of it into the buffers.
fn perform(
    alloc: Global,
    task: &Task,
    shelf: &mut Shelf,
    script: &[u8],
    made: &mut [u8],
    made_used: &mut usize,
    out: &mut [u8],
    out_used: &mut usize,
    err: &mut [u8],
    err_used: &mut usize,
) -> Result<u32, OutOfMemory>
    requires shelf { vec_len shelf.old.slots ≡ 18 }
    requires made { made_used.old ≡ 0 }
    requires out { out_used.old ≡ 0 }
    requires err { err_used.old ≡ 0 }
    ensures ok { IfOk result (λ code. Performs task.now script.now code
        (buffer made.old made.new made_used.new)
        (buffer out.old out.new out_used.new) (buffer err.old err.new err_used.new)) }
    ensures idle { OnErr result (AreIdle (buffer made.old made.new made_used.new)
        (buffer out.old out.new out_used.new) (buffer err.old err.new err_used.new)) }
{
    match task {
        Task::Run(tool, words) => run_in_memory(
            alloc, *tool, words, shelf, script, out, out_used, err, err_used,
        ),
        Task::Save => make_in_memory(
            alloc, shelf, script, made, made_used, out, out_used, err, err_used,
        ),
        Task::RunOver(image) => remake_in_memory(
            alloc, image, shelf, script, made, made_used, out, out_used, err, err_used,
        ),
    }
}

/// Does it over disciplines of its own: 1 to 12 never refuse a segment, 13 to 16 have a budget, 17 makes a segment longer, and
/// 18 has a budget that it raises once. With `Err` nothing was begun.
pub(crate) fn on_own_shelf(
    alloc: Global,
    task: &Task,
    script: &[u8],
    made: &mut [u8],
    made_used: &mut usize,
    out: &mut [u8],
    out_used: &mut usize,
    err: &mut [u8],
    err_used: &mut usize,
) -> Result<u32, OutOfMemory>
    requires made { made_used.old ≡ 0 }
    requires out { out_used.old ≡ 0 }
    requires err { err_used.old ≡ 0 }
    ensures ok { IfOk result (λ code. Performs task.now script.now code
        (buffer made.old made.new made_used.new)
        (buffer out.old out.new out_used.new) (buffer err.old err.new err_used.new)) }
    ensures idle { OnErr result (AreIdle (buffer made.old made.new made_used.new)
        (buffer out.old out.new out_used.new) (buffer err.old err.new err_used.new)) }
{
    let mut shelf = Shelf::new(alloc);
    for i in 0..12u32 {
        let Ok(_) = shelf.put(Box::new(alloc, heap_at(i + 1))?) else {
            return Err(OutOfMemory);
        };
    }
    for j in 0..4u32 {
        let Ok(_) = shelf.put(Box::new(alloc, budgeted())?) else {
            return Err(OutOfMemory);
        };
    }
    let Ok(_) = shelf.put(Box::new(alloc, growing())?) else {
        return Err(OutOfMemory);
    };
    let Ok(_) = shelf.put(Box::new(alloc, relieved())?) else {
        return Err(OutOfMemory);
    };
    perform(
        alloc, task, &mut shelf, script, made, made_used, out, out_used, err, err_used,
    )
}
