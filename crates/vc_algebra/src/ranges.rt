ghost use Rattle.std.specs.Prelude.{◌≡◌, ℕ, IfNone, IfOk, IfSome, None, option_copied, Some, true, false, if◌then◌else◌};
ghost use Rattle.std.specs.Result.{result_err};
ghost use Rattle.std.specs.List.{filter};
ghost use Rattle.vc_base.specs.Prelude.{is_ordered};
ghost use Rattle.vc_dtdisc.specs.Finding.{first_of};
ghost use Rattle.vc_paths.specs.Ordered.{IsEnd, IsStanding, StandsInLike, is_past, nearer, object_at, object_there};
ghost use Rattle.vc_paths.specs.Path.{Answers, IsPath, IsPathBy, IsVisible, numbers_of, objects_of, visible_of};
ghost use Rattle.vc_paths.specs.Unchanged.{Unchanged};
ghost use Rattle.vc_paths.specs.Visible.{Seen};
ghost use Rattle.vc_algebra.specs.Algebra.{is_from, is_over};
ghost use Rattle.vc_algebra.specs.Faults.{range_fault};
ghost use Rattle.vc_algebra.specs.Runs.{IsRangeAt, IsRangeFirst, IsRangeNext};

use crate::{AlgebraFault, Ordered};
use vc_base::{Addr, Steps};
use vc_paths::{Layers, Paths, walk_next};

// The first place in a dictionary whose key isn't less than a bound, where there is one.
fn first_from<Y: Ordered, L>(
    layers: &mut Y,
    e: u32,
    low: Option<&[u8]>,
    steps: &mut Steps<L>,
) -> Option<Addr>
    requires dict { (Y.layered layers.old).Has e }
    requires method { is_ordered ((Y.layered layers.old).layer e).method ≡ true }
    ensures found { IsEnd false (Y.layered layers.old) e
        (is_from ((Y.layered layers.old).layer e).rules (option_copied low.entry)) result }
    ensures unchanged { Unchanged Y.Layers layers.old layers.new }
{
    match low {
        Some(key) => layers.at_least(e, key, steps),
        None => layers.first(e),
    }
}

// Whether the object at a place is less than the one at another place, where there is one.
fn is_before<Y: Layers, L>(
    layers: &Y,
    place: (u32, Addr),
    other: Option<(u32, Addr)>,
    steps: &mut Steps<L>,
) -> bool
    requires place { StandsInLike (Y.layered layers.now) place.0 place }
    requires other { IsStanding (Y.layered layers.now) place.0 other }
    ensures { (y : Seen ℕ) → object_there (Y.layered layers.now) place ≡ Some y
        → result ≡ is_past true ((Y.layered layers.now).layer place.0).rules
        (object_at (Y.layered layers.now) other) y }
{
    match other {
        Some((f, mark)) => layers.compare_at(f, mark, place.0, place.1, steps).is_gt(),
        None => true,
    }
}

// The lesser of the best place so far and the first in a dictionary whose key isn't less than a bound; the best where they
// match.
fn nearer_from<Y: Ordered, L>(
    layers: &mut Y,
    best: Option<(u32, Addr)>,
    e: u32,
    low: Option<&[u8]>,
    steps: &mut Steps<L>,
) -> Option<(u32, Addr)>
    requires dict { (Y.layered layers.old).Has e }
    requires method { is_ordered ((Y.layered layers.old).layer e).method ≡ true }
    requires best { IsStanding (Y.layered layers.old) e best }
    ensures object { object_at (Y.layered layers.old) result
        ≡ nearer false ((Y.layered layers.old).layer e).rules (object_at (Y.layered layers.old) best)
        (first_of (filter (is_from ((Y.layered layers.old).layer e).rules (option_copied low.entry))
        (objects_of (Y.layered layers.old) e))) }
    ensures stands { IsStanding (Y.layered layers.old) e result }
    ensures unchanged { Unchanged Y.Layers layers.old layers.new }
{
    match first_from(layers, e, low, steps) {
        Some(at) => {
            if is_before(layers, (e, at), best, steps) {
                Some((e, at))
            } else {
                best
            }
        }
        None => best,
    }
}

// The place of the first visible object of an ordered dictionary whose key isn't less than a bound, where there is one: each
// layer is asked once.
fn nearest_from<Y: Ordered, L>(
    paths: &Paths,
    layers: &mut Y,
    d: u32,
    low: Option<&[u8]>,
    steps: &mut Steps<L>,
) -> Option<(u32, Addr)>
    requires { IsPathBy true (Y.layered layers.old) paths.now d }
    ensures found { Answers result (first_of (filter
        (is_from ((Y.layered layers.old).layer d).rules (option_copied low.entry))
        (visible_of (Y.layered layers.old) paths.now d))) }
    ensures unchanged { Unchanged Y.Layers layers.old layers.new }
{
    paths.show_invariant();
    let mut best = None;
    let mut next = Some(d);
    while let Some(e) = next {
        best = nearer_from(layers, best, e, low, steps);
        next = paths.below(e);
    }
    best
}

// A place where its key isn't greater than a bound; none where it is, or there is no place.
fn up_to<Y: Ordered, L>(
    layers: &Y,
    place: Option<(u32, Addr)>,
    high: Option<&[u8]>,
    steps: &mut Steps<L>,
) -> Option<(u32, Addr)>
    requires { IfSome place (λ p. StandsInLike (Y.layered layers.now) p.0 p) }
    ensures object { (o : Seen ℕ) → object_at (Y.layered layers.now) place ≡ Some o
        → result ≡ (if is_over ((Y.layered layers.now).layer o.dict).rules
        (option_copied high.entry) o then None else place) }
    ensures none { IfNone place (result ≡ None) }
{
    let (d, at) = place?;
    let bound = match high {
        Some(bound) => bound,
        None => return place,
    };
    if layers.side(d, at, bound, steps).is_gt() {
        None
    } else {
        place
    }
}

/// The first object that is seen through `d`, the number of an ordered dictionary from 0 to 255, and whose key is neither
/// less than `low` nor greater than `high`; a bound that is none lets all pass. None where there is no such object. The answer
/// is the number of the object's own dictionary and its place there, the address of its holder in bytes. `steps` counts the
/// compares. Refused as `NotOrdered` exactly where the method of `d` isn't ordered. It needs no memory.
pub fn range_first<Y: Ordered, L>(
    paths: &Paths,
    layers: &mut Y,
    d: u32,
    low: Option<&[u8]>,
    high: Option<&[u8]>,
    steps: &mut Steps<L>,
) -> Result<Option<(u32, Addr)>, AlgebraFault>
    requires { IsPath (Y.layered layers.old) paths.now d }
    ensures fault { result_err result ≡ range_fault (Y.layered layers.old) d }
    ensures found { IfOk result (λ o. IsRangeFirst (Y.layered layers.old) paths.now d
        (option_copied low.entry) (option_copied high.entry) o) }
    ensures goes_on { IfOk result (λ o. IsRangeAt (Y.layered layers.new) paths.now d o) }
    ensures unchanged { Unchanged Y.Layers layers.old layers.new }
{
    if !layers.method(d).is_ordered() {
        return Err(AlgebraFault::NotOrdered);
    }
    let first = nearest_from(paths, layers, d, low, steps);
    Ok(up_to(layers, first, high, steps))
}

/// The object behind the one at `from`, a place that is seen through `d`, the number of an ordered dictionary from 0 to 255,
/// where its key isn't greater than `high`; none where it is, or there is no such object. Answered and counted as by
/// `range_first`. It can't be refused.
pub fn range_next<Y: Ordered, L>(
    paths: &Paths,
    layers: &mut Y,
    d: u32,
    from: (u32, Addr),
    high: Option<&[u8]>,
    steps: &mut Steps<L>,
) -> Option<(u32, Addr)>
    requires path { IsPathBy true (Y.layered layers.old) paths.now d }
    requires place { IsVisible (Y.layered layers.old) paths.now d (numbers_of from) }
    ensures found { IsRangeNext (Y.layered layers.old) paths.now d from (option_copied high.entry)
        result }
    ensures goes_on { IsRangeAt (Y.layered layers.new) paths.now d result }
    ensures unchanged { Unchanged Y.Layers layers.old layers.new }
{
    let next = walk_next(paths, layers, d, from, steps);
    up_to(layers, next, high, steps)
}
