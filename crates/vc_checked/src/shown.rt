ghost use Rattle.std.specs.Prelude.{◌≡◌};
ghost use Rattle.vc_store.specs.Reading.{current};
ghost use Rattle.vc_store.specs.Stores.Stores.{HasOpenDict, contents};
ghost use Rattle.vc_checked.specs.Shown.{IsShown, ShowsIfThere, room};

use crate::Answer;
use vc_dtdisc::DictDisc;
use vc_seg::{BoxedDisc, SegDisc};
use vc_store::Store;

// Puts an object at the front of a buffer, where it fits, and tells its length.
fn put(object: &[u8], out: &mut [u8], needed: &mut usize) -> Answer
    ensures { IsShown object.now (room out.old out.new needed.new) result }
{
    let n = object.len();
    *needed = n;
    if n > out.len() {
        return Answer::TooSmall;
    }
    out[..n].copy_from_slice(object);
    Answer::Done
}

// Shows the current object of a dictionary.
pub(crate) fn show<D: DictDisc + Drop>(
    store: &Store<D>,
    n: usize,
    out: &mut [u8],
    needed: &mut usize,
) -> Answer
    requires dict { HasOpenDict state D.rules store.now n }
    ensures { ShowsIfThere (current (contents store.now n)) (room out.old out.new needed.new) result }
{
    match store.current(n) {
        Some(object) => put(object, out, needed),
        None => {
            *needed = 0;
            Answer::NoObject
        }
    }
}
