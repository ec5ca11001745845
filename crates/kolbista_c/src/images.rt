ghost use Rattle.std.specs.Prelude.{◌≡◌, [], false, IfOk, map};
ghost use Rattle.kolbista_c.specs.Images.{Does, Judges, ShowsImage, dtrun_rules};
ghost use Rattle.kolbista_c.specs.Memory.{buffer};
ghost use Rattle.vc_image_run.specs.Tool.Promises.{Checks, ShowsSoundImage};

use crate::buffers::{fill_both, sinks};
use std::alloc::{AllocError, Global};
use vc_dtdisc::{BuiltIn, DictDisc};
use vc_image_run::{check, show};
use vc_main::kinds;
use vc_seg::{BoxedDisc, HeapDisc, SegDisc};

// The kinds of dtrun.
pub(crate) fn own_kinds(alloc: Global) -> Result<Vec<BuiltIn>, AllocError>
    ensures { IfOk result (λ kinds. map ⟦<BuiltIn as DictDisc>⟧.rules kinds.items ≡ dtrun_rules) }
{
    let kinds = kinds(alloc)?;
    Ok(kinds)
}

// Judges an image, and puts what is written and told into two buffers.
fn check_into(
    alloc: Global,
    image: &[u8],
    out: &mut [u8],
    out_used: &mut usize,
    err: &mut [u8],
    err_used: &mut usize,
) -> u32
    requires out { out_used.old ≡ 0 }
    requires err { err_used.old ≡ 0 }
    ensures { Does (Checks dtrun_rules image.now) result
        (buffer out.old out.new out_used.new) (buffer err.old err.new err_used.new) }
{
    let Ok(kinds) = own_kinds(alloc) else {
        return 5;
    };
    let Ok((mut written, mut told)) = sinks(alloc, out.len()) else {
        return 5;
    };
    let status = check(alloc, &kinds, image, &mut written, &mut told);
    fill_both(
        u32::from(status.number()),
        &written,
        &told,
        out,
        out_used,
        err,
        err_used,
    )
}

// Judges an image, and puts the line of what is wrong into a buffer.
pub(crate) fn check_image(alloc: Global, image: &[u8], err: &mut [u8], err_used: &mut usize) -> u32
    requires err { err_used.old ≡ 0 }
    ensures { Judges image.now result (buffer err.old err.new err_used.new) }
{
    let mut sound = [0u8; 6];
    let mut used = 0;
    check_into(alloc, image, &mut sound, &mut used, err, err_used)
}

// Shows what an image holds over a discipline, and puts what is written and told into two buffers.
fn show_over(
    alloc: Global,
    image: &[u8],
    disc: Box<dyn SegDisc>,
    out: &mut [u8],
    out_used: &mut usize,
    err: &mut [u8],
    err_used: &mut usize,
) -> u32
    requires out { out_used.old ≡ 0 }
    requires err { err_used.old ≡ 0 }
    ensures { Does (ShowsSoundImage dtrun_rules image.now (state disc)) result
        (buffer out.old out.new out_used.new) (buffer err.old err.new err_used.new) }
{
    let Ok(kinds) = own_kinds(alloc) else {
        return 5;
    };
    let Ok((mut written, mut told)) = sinks(alloc, out.len()) else {
        return 5;
    };
    let status = show(alloc, &kinds, image, disc, &mut written, &mut told);
    fill_both(
        u32::from(status.number()),
        &written,
        &told,
        out,
        out_used,
        err,
        err_used,
    )
}

// Shows what an image holds, over a discipline that rounds to 32 bytes, of which each segment of a sound image has a multiple,
// and never refuses a segment.
pub(crate) fn show_image(
    alloc: Global,
    image: &[u8],
    out: &mut [u8],
    out_used: &mut usize,
    err: &mut [u8],
    err_used: &mut usize,
) -> u32
    requires out { out_used.old ≡ 0 }
    requires err { err_used.old ≡ 0 }
    ensures { ShowsImage image.now result
        (buffer out.old out.new out_used.new) (buffer err.old err.new err_used.new) }
{
    let Ok(disc) = Box::new(alloc, HeapDisc::new(32)) else {
        return 5;
    };
    show_over(alloc, image, disc, out, out_used, err, err_used)
}
