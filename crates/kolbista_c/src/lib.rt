//! The tools for C programs: scripts and images in memory, and what is written in memory. `include/kolbista.h` declares what
//! this exports.
#![tactic(auto)]

mod buffers;
mod images;
mod making;
mod own_shelf;
mod running;
mod slice_source;

ghost use Rattle.kolbista_c.specs.Images.{Judges, ShowsImage};
ghost use Rattle.kolbista_c.specs.Making.{MakesInMemory, Remade, Saved};
ghost use Rattle.kolbista_c.specs.Memory.{Runs, buffer, tool_by, words_by};

use images::{check_image, show_image};
use own_shelf::{Task, on_own_shelf};
use running::run;
use std::alloc::Global;
use vc_script::Tool;

/// Runs a script as a program does, over disciplines of its own: vmreplay's where the tool is 0, dtrun's where it is 1. The
/// flags are 1 for `--quiet` and 2 for `--stat`, or their sum. The replies are put into `out`, and the line of what is wrong
/// into `err`; how many bytes of each are used is told. The answer is the program's status: 0, or 1 for a line that is wrong,
/// 2 for another tool or other flags, 4 where the replies don't fit into `out` or the line into `err`, 5 for want of memory.
/// With 2, and with 5 before the run begins, nothing is written. Besides what the run needs it asks for as many bytes as
/// `out` has, and 128.
#[unsafe(no_mangle)]
pub extern "C" fn kb_run(
    alloc: Global,
    tool: u32,
    flags: u32,
    script: &[u8],
    out: &mut [u8],
    out_used: &mut usize,
    err: &mut [u8],
    err_used: &mut usize,
) -> u32
    ensures { Runs (tool_by tool) (words_by flags) script.now result
        (buffer out.old out.new out_used.new) (buffer err.old err.new err_used.new) }
{
    *out_used = 0;
    *err_used = 0;
    if tool > 1 || flags > 3 {
        return 2;
    }
    let tool = if tool == 0 {
        Tool::Vmreplay
    } else {
        Tool::Dtrun
    };
    run(alloc, tool, flags, script, out, out_used, err, err_used)
}

/// Judges the image of a region for the kinds of dtrun, as `vmimage check` does. The answer is 0 where it is sound, 1 where a
/// part of it isn't, and the line that names the first such part is put into `err`; 4 where that doesn't fit, and 5 for want of
/// memory. Of `err` the bytes that are used are told, and the others stay. Besides what the check needs it asks for 134 bytes.
#[unsafe(no_mangle)]
pub extern "C" fn kb_check(alloc: Global, image: &[u8], err: &mut [u8], err_used: &mut usize) -> u32
    ensures { Judges image.now result (buffer err.old err.new err_used.new) }
{
    *err_used = 0;
    check_image(alloc, image, err, err_used)
}

/// Shows what the image of a region holds, as `vmimage show` does: what stat, segments and blocks tell of the region, and a
/// walk of each dictionary, a line each, are put into `out`. The answer is 0, or 1 where a part of the image isn't sound,
/// which is told in `err`; 4 where the text doesn't fit into `out` or the line into `err`, and 5 for want of memory. Of both
/// the bytes that are used are told, and the others stay. Besides what the load and the text need it asks for as many bytes
/// as `out` has, and 128.
#[unsafe(no_mangle)]
pub extern "C" fn kb_show(
    alloc: Global,
    image: &[u8],
    out: &mut [u8],
    out_used: &mut usize,
    err: &mut [u8],
    err_used: &mut usize,
) -> u32
    ensures { ShowsImage image.now result
        (buffer out.old out.new out_used.new) (buffer err.old err.new err_used.new) }
{
    *out_used = 0;
    *err_used = 0;
    show_image(alloc, image, out, out_used, err, err_used)
}

/// Runs a script as dtrun does without words, as `vmimage save` does, over disciplines of its own, and puts the image of the
/// first region that it leaves open, with the dictionaries that lie in it, into `made`. The replies are put into `out`, and the
/// line of what is wrong into `err`. The answer is 0; 1 where the image wouldn't be sound; 4 where the image doesn't fit into
/// `made`, the replies into `out` or the line into `err`; 5 for want of memory; 7 for a line that is wrong; 8 where no region
/// is left open, or the first one isn't of the method best. With all but 0 and 4 nothing is put into `made`. Of the three
/// buffers the bytes that are used are told, and the others stay. Besides what the run and the image need it asks for as many
/// bytes as `out` has, and 128.
#[unsafe(no_mangle)]
pub extern "C" fn kb_save(
    alloc: Global,
    script: &[u8],
    made: &mut [u8],
    made_used: &mut usize,
    out: &mut [u8],
    out_used: &mut usize,
    err: &mut [u8],
    err_used: &mut usize,
) -> u32
    ensures { MakesInMemory (Saved script.now) result (buffer made.old made.new made_used.new)
        (buffer out.old out.new out_used.new) (buffer err.old err.new err_used.new) }
{
    *made_used = 0;
    *out_used = 0;
    *err_used = 0;
    let saved = on_own_shelf(
        alloc,
        &Task::Save,
        script,
        made,
        made_used,
        out,
        out_used,
        err,
        err_used,
    );
    match saved {
        Ok(code) => code,
        Err(_) => 5,
    }
}

/// Runs a script over an image, as `vmimage run` does: the region of the image is opened with its dictionaries over a
/// discipline that rounds to 4,096 bytes, and `made` gets the image of what the script leaves, as of `kb_save`. The region has
/// the name `r`, its dictionaries `d1`, `d2` and so on in the image's order, and a block with a label `b` and its tag. The
/// answer is one of those of `kb_save`, 1 also where the image isn't sound, and 6 where it isn't loaded: a segment's size is no
/// multiple of 4,096 bytes, or two blocks have one tag, or one is above 1,000,000; with both nothing is run.
#[unsafe(no_mangle)]
pub extern "C" fn kb_run_over(
    alloc: Global,
    image: &[u8],
    script: &[u8],
    made: &mut [u8],
    made_used: &mut usize,
    out: &mut [u8],
    out_used: &mut usize,
    err: &mut [u8],
    err_used: &mut usize,
) -> u32
    ensures { MakesInMemory (Remade image.now script.now) result (buffer made.old made.new made_used.new)
        (buffer out.old out.new out_used.new) (buffer err.old err.new err_used.new) }
{
    *made_used = 0;
    *out_used = 0;
    *err_used = 0;
    let task = Task::RunOver(image);
    let remade = on_own_shelf(
        alloc, &task, script, made, made_used, out, out_used, err, err_used,
    );
    match remade {
        Ok(code) => code,
        Err(_) => 5,
    }
}
