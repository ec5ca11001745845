ghost use Rattle.std.specs.Prelude.{◌≡◌, length};
ghost use Rattle.vc_store.specs.Stores.Stores.{ChangesOne, Ends, HasDict, IsOpen, StaysOpen, contents, disc_of};
ghost use Rattle.vc_image_check.specs.Dicts.Sound.{numbered_method};
ghost use Rattle.vc_checked.specs.Answers.{shape_of};
ghost use Rattle.vc_checked.specs.Checked.{Empties, Opens, rules_by};
ghost use Rattle.vc_checked.specs.declared.answer.Answer.TheVariants.{Done, NoDict};

use crate::Answer;
use crate::answer::fault_of;
use vc_base::DictMethod;
use vc_dtdisc::{BuiltIn, DictDisc, Shape};
use vc_seg::{BoxedDisc, SegDisc};
use vc_store::Store;

/// The method of a number: 0 for a set, 1 for a bag, 2 for an ordered set, 3 for an ordered bag, 4 for a list, 5 for a stack and
/// 6 for a queue; none from 7 on.
pub fn method_of(number: u32) -> Option<DictMethod>
    ensures { result ≡ numbered_method number }
{
    match number {
        0 => Some(DictMethod::DtSet),
        1 => Some(DictMethod::DtBag),
        2 => Some(DictMethod::DtOset),
        3 => Some(DictMethod::DtObag),
        4 => Some(DictMethod::DtList),
        5 => Some(DictMethod::DtStack),
        6 => Some(DictMethod::DtQueue),
        _ => None,
    }
}

/// The shape of a kind's number, as a script of `dtrun` names it: 1 by all bytes, 2 by the text before a zero byte, 3 without
/// regard to the case of letters, 4 in reverse order, 5 by the first four bytes, and 6 by the first eight; none for 0 and from 7
/// on.
pub fn shape_of(number: u32) -> Option<Shape>
    ensures { result ≡ shape_of number }
{
    match number {
        1 => Some(Shape::Whole),
        2 => Some(Shape::Text { off: 0 }),
        3 => Some(Shape::Fold),
        4 => Some(Shape::Reverse),
        5 => Some(Shape::Field { off: 0, size: 4 }),
        6 => Some(Shape::Clip { n: 8 }),
        _ => None,
    }
}

/// Adds a dictionary of no objects by the method of a number and of the kind of a number, and tells its own number: `Done`.
/// `NoMethod` or else `NoKind` where there is none of that number, `NoSegment` or `OutOfMemory` where the region has no room for
/// its table; then nothing changes, and no number is told.
pub fn open_dict(store: &mut Store<BuiltIn>, method: u32, kind: u32, number: &mut usize) -> Answer
    requires { IsOpen rules_by store.old (disc_of store.old state) }
    ensures opens { Opens state (numbered_method method) (shape_of kind) number.old number.new
        store.old store.new result }
    ensures stays { StaysOpen state rules_by store.old store.new }
{
    let Some(method) = method_of(method) else {
        return Answer::NoMethod;
    };
    let Some(shape) = shape_of(kind) else {
        return Answer::NoKind;
    };
    match store.dict(method, BuiltIn::new(shape)) {
        Ok(n) => {
            *number = n;
            Answer::Done
        }
        Err((why, _)) => fault_of(why),
    }
}

/// Ends a dictionary, and tells its kind of each object: `Done`, and its number is that of none from then on. `NoDict` where
/// there is no such dictionary, with nothing changed.
pub fn close_dict<D: DictDisc + Drop>(store: &mut Store<D>, n: usize) -> Answer
    requires { IsOpen D.rules store.old (disc_of store.old state) }
    ensures none { ¬ HasDict store.old n → (store.new ≡ store.old) × (result ≡ NoDict) }
    ensures ends { HasDict store.old n
        → Ends state D.rules D.gone n store.old store.new × (result ≡ Done) }
    ensures open { IsOpen D.rules store.new (disc_of store.new state) }
{
    if !store.has(n) {
        return Answer::NoDict;
    }
    store.shut(n);
    Answer::Done
}

/// Takes all objects of a dictionary out, and tells its kind of each: `Done`. `NoDict` where there is no such dictionary, with
/// nothing changed.
pub fn empty_dict<D: DictDisc + Drop>(store: &mut Store<D>, n: usize) -> Answer
    requires { IsOpen D.rules store.old (disc_of store.old state) }
    ensures none { ¬ HasDict store.old n → (store.new ≡ store.old) × (result ≡ NoDict) }
    ensures empties { HasDict store.old n
        → Empties state D.rules D.gone n store.old store.new result }
    ensures changes { ChangesOne state D.rules n store.old store.new }
{
    if !store.has(n) {
        return Answer::NoDict;
    }
    store.empty(n);
    Answer::Done
}

/// Tells how many objects a dictionary has: `Done`. `NoDict` where there is no such dictionary, and then 0 is told.
pub fn count<D: DictDisc + Drop>(store: &Store<D>, n: usize, objects: &mut u64) -> Answer
    requires { IsOpen D.rules store.now (disc_of store.now state) }
    ensures none { ¬ HasDict store.now n → (result ≡ NoDict) × (objects.new ≡ 0) }
    ensures counted { HasDict store.now n
        → (result ≡ Done) × (objects.new ≡ length (contents store.now n).objects) }
{
    if !store.has(n) {
        *objects = 0;
        return Answer::NoDict;
    }
    *objects = store.count(n);
    Answer::Done
}
