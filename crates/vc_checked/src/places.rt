ghost use Rattle.std.specs.Prelude.{◌≡◌};
ghost use Rattle.vc_store.specs.Reading.{current, with_place};
ghost use Rattle.vc_store.specs.Stores.Stores.{ChangesObjects, HasDict, HasOpenDict, IsOpen, contents, disc_of};
ghost use Rattle.vc_checked.specs.Shown.{ShowsIfThere, ShowsNothing, place_by, room};
ghost use Rattle.vc_checked.specs.declared.answer.Answer.TheVariants.{NoDict};

use crate::Answer;
use crate::shown::show;
use vc_dtdisc::DictDisc;
use vc_seg::{BoxedDisc, SegDisc};
use vc_store::Store;

/// Which object becomes current.
#[derive(Clone, Copy, Debug, PartialEq, Eq)]
pub enum Move {
    /// The first.
    First,
    /// The last.
    Last,
    /// The one behind the current one: none behind the last, nor where none is current.
    Next,
    /// The one before the current one: none before the first, nor where none is current.
    Previous,
}

// Makes another object of a dictionary current, or none.
fn step<D: DictDisc + Drop>(store: &mut Store<D>, n: usize, to: Move)
    requires dict { HasOpenDict state D.rules store.old n }
    ensures moved { contents store.new n
        ≡ with_place (place_by to (contents store.old n)) (contents store.old n) }
    ensures changes { ChangesObjects state D.rules n store.old store.new }
{
    let _ = match to {
        Move::First => store.first(n),
        Move::Last => store.last(n),
        Move::Next => store.next(n),
        Move::Previous => store.prev(n),
    };
}

/// Makes another object of a dictionary current, or none, and shows it: its bytes at the front of a buffer, and how many they
/// are. The answer is `Done`, `TooSmall` or `NoObject`, and `NoDict` where there is no such dictionary, with nothing changed. An
/// object that is too long for the buffer is current all the same. Where none is shown, its length is told as 0.
pub fn go<D: DictDisc + Drop>(
    store: &mut Store<D>,
    n: usize,
    to: Move,
    out: &mut [u8],
    needed: &mut usize,
) -> Answer
    requires { IsOpen D.rules store.old (disc_of store.old state) }
    ensures none { ¬ HasDict store.old n → (store.new ≡ store.old)
        × ShowsNothing NoDict (room out.old out.new needed.new) result }
    ensures moved { HasDict store.old n → contents store.new n
        ≡ with_place (place_by to (contents store.old n)) (contents store.old n) }
    ensures shown { HasDict store.old n
        → ShowsIfThere (current (contents store.new n)) (room out.old out.new needed.new) result }
    ensures changes { ChangesObjects state D.rules n store.old store.new }
{
    if !store.has(n) {
        *needed = 0;
        return Answer::NoDict;
    }
    step(store, n, to);
    show(store, n, out, needed)
}

/// Shows the current object of a dictionary, as `go` does, and changes nothing.
pub fn current<D: DictDisc + Drop>(
    store: &Store<D>,
    n: usize,
    out: &mut [u8],
    needed: &mut usize,
) -> Answer
    requires { IsOpen D.rules store.now (disc_of store.now state) }
    ensures none { ¬ HasDict store.now n → ShowsNothing NoDict (room out.old out.new needed.new) result }
    ensures shown { HasDict store.now n
        → ShowsIfThere (current (contents store.now n)) (room out.old out.new needed.new) result }
{
    if !store.has(n) {
        *needed = 0;
        return Answer::NoDict;
    }
    show(store, n, out, needed)
}
