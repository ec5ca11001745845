ghost use Rattle.std.specs.Prelude.{◌≡◌, ◌+◌, ◌≤◌, ◌==◌, if◌then◌else◌, [], IfOk, length, replicate};
ghost use Rattle.vc_extent.specs.Tiles.{IsTiled};
ghost use Rattle.vc_image_check.specs.Marks.Mark.{AreMarks, lists};

use crate::bytes::word;
use std::alloc::Global;
use vc_base::OutOfMemory;

// The mark of an extent by its size and its tag.
fn mark_by(size: u32, tag: u32) -> u8
    ensures { result ≡ (if size == 0 then 1 else (if tag == 0 then 3 else 2)) }
{
    if size == 0 {
        1
    } else if tag == 0 {
        3
    } else {
        2
    }
}

// For each number no marks.
pub(crate) fn no_rows(alloc: Global) -> Result<Vec<Vec<u8>>, OutOfMemory>
    ensures { IfOk result (λ rows. lists rows.items ≡ replicate 1024 []) }
{
    let mut rows = Vec::with_capacity(alloc, 1024)?;
    for _ in 0..1024usize {
        rows.push(Vec::new(alloc))?;
    }
    Ok(rows)
}

// The marks of a segment, in one walk over its heads.
pub(crate) fn marks_of(alloc: Global, bytes: &[u8]) -> Result<Vec<u8>, OutOfMemory>
    requires { IsTiled bytes.now }
    ensures { IfOk result (λ marks. AreMarks bytes.now marks.items) }
{
    let mut marks = vec![in alloc; 0u8; bytes.len() / 32]?;
    let stop = bytes.len() - 16;
    let mut at = 16;
    while at < stop {
        marks[(at + 16) / 32] = mark_by(word(bytes, at + 4), word(bytes, at + 8));
        at += word(bytes, at) as usize;
    }
    Ok(marks)
}
