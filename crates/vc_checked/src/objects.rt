ghost use Rattle.std.specs.Prelude.{◌≡◌};
ghost use Rattle.vc_dtdisc.specs.Objects.{has_key};
ghost use Rattle.vc_store.specs.Reading.{is_sought_from};
ghost use Rattle.vc_store.specs.Stores.Stores.{ChangesObjects, ChangesOne, HasDict, HasOpenDict, IsOpen, contents, disc_of, gone_at, rules_at};
ghost use Rattle.vc_checked.specs.Checked.{Deletes, Inserts, TakesByKey};
ghost use Rattle.vc_checked.specs.Shown.{SeeksFirst, ShowsNothing, room};
ghost use Rattle.vc_checked.specs.declared.answer.Answer.TheVariants.{NoDict};

use crate::Answer;
use crate::answer::told;
use crate::shown::show;
use std::alloc::Global;
use vc_dtdisc::DictDisc;
use vc_seg::{BoxedDisc, SegDisc};
use vc_store::Store;

/// Puts an object of 1 to 1,024 bytes into a dictionary where its method puts it, and makes it current: `Done`. `Old` where a
/// set has an object of its key, and else `WrongSize`, `NoSegment` or `OutOfMemory`, where the object isn't put: then no object
/// changes, and the current one stays. `NoDict` where there is no such dictionary, with nothing changed.
pub fn insert<D: DictDisc + Drop>(store: &mut Store<D>, n: usize, object: &[u8]) -> Answer
    requires { IsOpen D.rules store.old (disc_of store.old state) }
    ensures none { ¬ HasDict store.old n → (store.new ≡ store.old) × (result ≡ NoDict) }
    ensures inserts { HasDict store.old n
        → Inserts state D.rules n object.now store.old store.new result }
    ensures changes { ChangesObjects state D.rules n store.old store.new }
{
    if !store.has(n) {
        return Answer::NoDict;
    }
    told(store.insert(n, object))
}

/// Makes the first object of a dictionary current that has a key, and shows it as `go` does. Where there is none the answer is
/// `NoObject`, and nothing changes; `NoDict` where there is no such dictionary.
pub fn search<D: DictDisc + Drop>(
    store: &mut Store<D>,
    n: usize,
    key: &[u8],
    out: &mut [u8],
    needed: &mut usize,
) -> Answer
    requires { IsOpen D.rules store.old (disc_of store.old state) }
    ensures none { ¬ HasDict store.old n → (store.new ≡ store.old)
        × ShowsNothing NoDict (room out.old out.new needed.new) result }
    ensures seeks { HasDict store.old n
        → SeeksFirst (has_key (rules_at D.rules store.old n) key.now) (contents store.old n)
        (contents store.new n) (room out.old out.new needed.new) result }
    ensures changes { ChangesObjects state D.rules n store.old store.new }
{
    *needed = 0;
    if !store.has(n) {
        return Answer::NoDict;
    }
    if !store.find(n, key) {
        return Answer::NoObject;
    }
    show(store, n, out, needed)
}

/// Makes the first object of an ordered set or bag current whose key isn't less than that one, and shows it as `go` does. Where
/// there is none, as by each other method, the answer is `NoObject`, and nothing changes; `NoDict` where there is no such
/// dictionary.
pub fn at_least<D: DictDisc + Drop>(
    store: &mut Store<D>,
    n: usize,
    key: &[u8],
    out: &mut [u8],
    needed: &mut usize,
) -> Answer
    requires { IsOpen D.rules store.old (disc_of store.old state) }
    ensures none { ¬ HasDict store.old n → (store.new ≡ store.old)
        × ShowsNothing NoDict (room out.old out.new needed.new) result }
    ensures seeks { HasDict store.old n → SeeksFirst
        (is_sought_from (contents store.old n).method (rules_at D.rules store.old n) key.now)
        (contents store.old n) (contents store.new n) (room out.old out.new needed.new) result }
    ensures changes { ChangesObjects state D.rules n store.old store.new }
{
    *needed = 0;
    if !store.has(n) {
        return Answer::NoDict;
    }
    if !store.at_least(n, key) {
        return Answer::NoObject;
    }
    show(store, n, out, needed)
}

// Takes the first object of a dictionary out that has a key: `Done`, or `OutOfMemory`, with nothing changed.
fn take<D: DictDisc + Drop>(alloc: Global, store: &mut Store<D>, n: usize, key: &[u8]) -> Answer
    requires dict { HasOpenDict state D.rules store.old n }
    ensures takes { TakesByKey (rules_at D.rules store.old n) key.now result
        (contents store.old n) (contents store.new n)
        (gone_at D.gone store.old n) (gone_at D.gone store.new n) }
    ensures changes { ChangesOne state D.rules n store.old store.new }
{
    let mut taken = Vec::new(alloc);
    match store.remove(n, key, &mut taken) {
        Ok(_) => Answer::Done,
        Err(_) => Answer::OutOfMemory,
    }
}

/// Takes the first object of a dictionary out that has a key, tells the dictionary's kind of it, and shows it as `go` does:
/// `Done`. The one behind it is current then, or none. With `TooSmall` it stays, and is current; so with `OutOfMemory`, and then
/// it was shown. Where there is none the answer is `NoObject`, and nothing changes; `NoDict` where there is no such dictionary.
pub fn delete<D: DictDisc + Drop>(
    alloc: Global,
    store: &mut Store<D>,
    n: usize,
    key: &[u8],
    out: &mut [u8],
    needed: &mut usize,
) -> Answer
    requires { IsOpen D.rules store.old (disc_of store.old state) }
    ensures none { ¬ HasDict store.old n → (store.new ≡ store.old)
        × ShowsNothing NoDict (room out.old out.new needed.new) result }
    ensures deletes { HasDict store.old n → Deletes (rules_at D.rules store.old n) key.now
        (contents store.old n) (contents store.new n)
        (gone_at D.gone store.old n) (gone_at D.gone store.new n)
        (room out.old out.new needed.new) result }
    ensures changes { ChangesOne state D.rules n store.old store.new }
{
    if !store.has(n) {
        *needed = 0;
        return Answer::NoDict;
    }
    let shown = search(store, n, key, out, needed);
    if shown != Answer::Done {
        return shown;
    }
    take(alloc, store, n, key)
}
