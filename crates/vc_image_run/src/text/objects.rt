ghost use Rattle.std.specs.Prelude.{◌≡◌, ◌++◌, IfOk, OnOk, map};
ghost use Rattle.std.specs.List.{AllByRecursion};
ghost use Rattle.vc_best.specs.Cells.{cells_in};
ghost use Rattle.vc_script.specs.Print.{text as lines_of};
ghost use Rattle.vc_image_run.specs.Text.Text.{IsWholeInCells, walked_objects};

use std::alloc::Global;
use vc_base::{Cells, OutOfMemory};
use vc_best::Best;
use vc_dict::Dict;
use vc_script::{ObjectItems, Reply, put_reply};

// Lists the objects of a dictionary in order.
fn objects(alloc: Global, best: &Best, dict: &Dict) -> Result<Reply, OutOfMemory>
    requires { IsWholeInCells (cells_in best.now) dict.now }
    ensures { IfOk result (λ reply. reply ≡ walked_objects (cells_in best.now) dict.now) }
{
    let mut items = ObjectItems::new(alloc);
    let mut at = dict.first(best);
    while let Some(here) = at {
        items.push(best.body(here))?;
        at = dict.next(best, here);
    }
    Ok(Reply::Objects(items))
}

// Puts a line for each dictionary, of its objects in order.
pub(crate) fn put_dicts(
    alloc: Global,
    text: &mut Vec<u8>,
    best: &Best,
    dicts: &[Dict],
) -> Result<(), OutOfMemory>
    requires { AllByRecursion (IsWholeInCells (cells_in best.now)) dicts.now }
    ensures { OnOk result (text.new.items
        ≡ text.old.items ++ lines_of (map (walked_objects (cells_in best.now)) dicts.now)) }
{
    for dict in dicts {
        put_reply(text, &objects(alloc, best, dict)?)?;
    }
    Ok(())
}
