ghost use Rattle.std.specs.Prelude.{◌≡◌, ◌&&◌, [], if◌then◌else◌, map, vec_len, IfOk, OnErr};
ghost use Rattle.kolbista_c.specs.Making.{MadeInMemory, Remade, Saved, made_bytes, made_status};
ghost use Rattle.kolbista_c.specs.Memory.{AreIdle, IsFilled, buffer, fits_buffer};

use crate::buffers::{fill, fill_both, sinks};
use crate::images::own_kinds;
use crate::slice_source::SliceSource;
use std::alloc::Global;
use vc_base::{MemSink, OutOfMemory};
use vc_image_run::{ImageStatus, make, remake};
use vc_seg::{BoxedDisc, SegDisc, Shelf};

// Puts an image that was made, what was written and what was told into three buffers, and answers the number of the status, or
// that of a failed write where not all of it fits.
fn fill_all(
    image: &Result<MemSink, ImageStatus>,
    written: &MemSink,
    told: &MemSink,
    made: &mut [u8],
    made_used: &mut usize,
    out: &mut [u8],
    out_used: &mut usize,
    err: &mut [u8],
    err_used: &mut usize,
) -> u32
    requires { made_used.old ≡ 0 }
    ensures code { result ≡ (if fits_buffer (made_bytes image.now) (buffer made.old made.new made_used.new)
        && (fits_buffer written.now.written (buffer out.old out.new out_used.new)
        && fits_buffer told.now.written (buffer err.old err.new err_used.new)) then made_status image.now else 4) }
    ensures made { IsFilled (made_bytes image.now) (buffer made.old made.new made_used.new) }
    ensures written { IsFilled written.now.written (buffer out.old out.new out_used.new) }
    ensures told { IsFilled told.now.written (buffer err.old err.new err_used.new) }
{
    match image {
        Ok(image) => {
            let code = fill_both(0, written, told, out, out_used, err, err_used);
            *made_used = fill(made, image.bytes());
            if image.bytes().len() <= made.len() {
                code
            } else {
                4
            }
        }
        Err(status) => fill_both(
            u32::from(status.number()),
            written,
            told,
            out,
            out_used,
            err,
            err_used,
        ),
    }
}

/// Runs a script over a shelf as dtrun does without words, and puts the image of what it leaves, the replies and the line of
/// what is wrong into three buffers.
pub(crate) fn make_in_memory(
    alloc: Global,
    shelf: &mut Shelf,
    script: &[u8],
    made: &mut [u8],
    made_used: &mut usize,
    out: &mut [u8],
    out_used: &mut usize,
    err: &mut [u8],
    err_used: &mut usize,
) -> Result<u32, OutOfMemory>
    requires shelf { vec_len shelf.old.slots ≡ 18 }
    requires made { made_used.old ≡ 0 }
    requires out { out_used.old ≡ 0 }
    requires err { err_used.old ≡ 0 }
    ensures ok { IfOk result (λ code. MadeInMemory (Saved script.now) code
        (buffer made.old made.new made_used.new)
        (buffer out.old out.new out_used.new) (buffer err.old err.new err_used.new)) }
    ensures idle { OnErr result (AreIdle (buffer made.old made.new made_used.new)
        (buffer out.old out.new out_used.new) (buffer err.old err.new err_used.new)) }
{
    let mut kinds = own_kinds(alloc)?;
    let (mut written, mut told) = sinks(alloc, out.len())?;
    let mut source = SliceSource { left: script };
    let image = make(
        alloc,
        shelf,
        &mut kinds,
        &mut source,
        &mut written,
        &mut told,
    );
    Ok(fill_all(
        &image, &written, &told, made, made_used, out, out_used, err, err_used,
    ))
}

/// The same of a script that is run over an image, whose region is opened over the first discipline.
pub(crate) fn remake_in_memory(
    alloc: Global,
    image: &[u8],
    shelf: &mut Shelf,
    script: &[u8],
    made: &mut [u8],
    made_used: &mut usize,
    out: &mut [u8],
    out_used: &mut usize,
    err: &mut [u8],
    err_used: &mut usize,
) -> Result<u32, OutOfMemory>
    requires shelf { vec_len shelf.old.slots ≡ 18 }
    requires made { made_used.old ≡ 0 }
    requires out { out_used.old ≡ 0 }
    requires err { err_used.old ≡ 0 }
    ensures ok { IfOk result (λ code. MadeInMemory (Remade image.now script.now) code
        (buffer made.old made.new made_used.new)
        (buffer out.old out.new out_used.new) (buffer err.old err.new err_used.new)) }
    ensures idle { OnErr result (AreIdle (buffer made.old made.new made_used.new)
        (buffer out.old out.new out_used.new) (buffer err.old err.new err_used.new)) }
{
    let mut kinds = own_kinds(alloc)?;
    let (mut written, mut told) = sinks(alloc, out.len())?;
    let mut source = SliceSource { left: script };
    let remade = remake(
        alloc,
        image,
        1,
        shelf,
        &mut kinds,
        &mut source,
        &mut written,
        &mut told,
    );
    Ok(fill_all(
        &remade, &written, &told, made, made_used, out, out_used, err, err_used,
    ))
}
