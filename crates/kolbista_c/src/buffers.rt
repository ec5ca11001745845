ghost use Rattle.std.specs.Prelude.{◌≡◌, ◌&&◌, [], IfOk, if◌then◌else◌};
ghost use Rattle.kolbista_c.specs.Memory.{IsFilled, buffer, fits_buffer};

use std::alloc::Global;
use vc_base::{MemSink, OutOfMemory};

// So many bytes hold the line of what is wrong.
const LINE: usize = 128;

// Sinks for what is written, with so much room, and for the line of what is wrong.
pub(crate) fn sinks(alloc: Global, room: usize) -> Result<(MemSink, MemSink), OutOfMemory>
    ensures written { IfOk result (λ s. (s.0.written ≡ []) × (s.0.faults ≡ 0)) }
    ensures told { IfOk result (λ s. (s.1.written ≡ []) × (s.1.faults ≡ 0)) }
{
    let written = MemSink::new(alloc, room, room.max(1), Vec::new(alloc))?;
    let told = MemSink::new(alloc, LINE, LINE, Vec::new(alloc))?;
    Ok((written, told))
}

// Puts as many bytes as fit at the front of a buffer, and tells how many.
pub(crate) fn fill(room: &mut [u8], bytes: &[u8]) -> usize
    ensures { IsFilled bytes.now (buffer room.old room.new result) }
{
    let n = bytes.len().min(room.len());
    room[..n].copy_from_slice(&bytes[..n]);
    n
}

// Puts what was written and told into two buffers, and answers the number of a status, or that of a failed write where not
// all of it fits.
pub(crate) fn fill_both(
    status: u32,
    written: &MemSink,
    told: &MemSink,
    out: &mut [u8],
    out_used: &mut usize,
    err: &mut [u8],
    err_used: &mut usize,
) -> u32
    ensures code { result ≡ (if fits_buffer written.now.written (buffer out.old out.new out_used.new)
        && fits_buffer told.now.written (buffer err.old err.new err_used.new) then status else 4) }
    ensures written { IsFilled written.now.written (buffer out.old out.new out_used.new) }
    ensures told { IsFilled told.now.written (buffer err.old err.new err_used.new) }
{
    let fit = written.bytes().len() <= out.len() && told.bytes().len() <= err.len();
    *out_used = fill(out, written.bytes());
    *err_used = fill(err, told.bytes());
    if fit { status } else { 4 }
}
