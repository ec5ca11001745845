ghost use Rattle.std.specs.Prelude.{◌≡◌, IfOk};
ghost use Rattle.std.specs.List.{AllByRecursion};
ghost use Rattle.vc_best.specs.Cells.{cells_in};
ghost use Rattle.vc_best.specs.Parts.{layout_of};
ghost use Rattle.vc_image_run.specs.Text.Text.{IsWholeInCells, image_text};

use crate::text::blocks::blocks;
use crate::text::objects::put_dicts;
use crate::text::segments::segments;
use std::alloc::Global;
use vc_base::OutOfMemory;
use vc_best::Best;
use vc_dict::Dict;
use vc_script::{Reply, put_reply};

/// What the commands `stat`, `segments` and `blocks` print of a region, and `walk` of each of its dictionaries: a line
/// each. A block with a tag has this number in place of a name, since the names of a script are no part of a region.
/// Refused for want of memory alone. This project's own.
pub fn text_of(alloc: Global, best: &Best, dicts: &[Dict]) -> Result<Vec<u8>, OutOfMemory>
    requires { AllByRecursion (IsWholeInCells (cells_in best.now)) dicts.now }
    ensures { IfOk result (λ text. text.items ≡ image_text (layout_of best.now) dicts.now) }
{
    let mut text = Vec::new(alloc);
    put_reply(&mut text, &Reply::Stats(best.stat()))?;
    put_reply(&mut text, &segments(alloc, best)?)?;
    put_reply(&mut text, &blocks(alloc, best)?)?;
    put_dicts(alloc, &mut text, best, dicts)?;
    Ok(text)
}
