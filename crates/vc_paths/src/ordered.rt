ghost use Rattle.std.specs.Prelude.{◌≡◌, ℕ, true, not, Some};
ghost use Rattle.std.specs.List.{filter};
ghost use Rattle.vc_paths.specs.Direction.{end_of, neighbour};
ghost use Rattle.vc_paths.specs.Ordered.{CanSeek, IsApart, IsEnd, IsStanding, StandsInLike, if_level, is_past, nearer, place_in_dict, object_at, object_there};
ghost use Rattle.vc_paths.specs.Path.{Answers, IsPathBy, IsVisible, is_at, numbers_of, objects_of, visible_of};
ghost use Rattle.vc_paths.specs.Unchanged.{Unchanged};
ghost use Rattle.vc_paths.specs.Visible.{Seen};

use crate::direction::{beside, end_of, past_like};
use crate::{Layers, Paths};
use vc_base::{Addr, Steps};

// Whether the object at a place lies past the one at another place, where there is one: whether it is greater, or on the
// way back less.
fn is_past<Y: Layers, L>(
    layers: &Y,
    back: bool,
    place: (u32, Addr),
    other: Option<(u32, Addr)>,
    steps: &mut Steps<L>,
) -> bool
    requires place { StandsInLike (Y.layered layers.now) place.0 place }
    requires other { IsStanding (Y.layered layers.now) place.0 other }
    ensures { (y : Seen ℕ) → object_there (Y.layered layers.now) place ≡ Some y
        → result ≡ is_past back ((Y.layered layers.now).layer place.0).rules
        (object_at (Y.layered layers.now) other) y }
{
    match other {
        Some((f, mark)) => {
            if back {
                layers.compare_at(f, mark, place.0, place.1, steps).is_gt()
            } else {
                layers.compare_at(place.0, place.1, f, mark, steps).is_gt()
            }
        }
        None => true,
    }
}

// The first place in a dictionary, or back the last, whose object lies past the one at another place, where there is one.
// In that one's own layer this is its neighbour, which doesn't match it.
fn first_past<Y: Layers, L>(
    layers: &mut Y,
    back: bool,
    e: u32,
    other: Option<(u32, Addr)>,
    steps: &mut Steps<L>,
) -> Option<Addr>
    requires seek { CanSeek (Y.layered layers.old) e other }
    requires apart { IsApart back (Y.layered layers.old) other }
    ensures found { IsEnd back (Y.layered layers.old) e (is_past back ((Y.layered layers.old).layer e).rules
        (object_at (Y.layered layers.old) other)) result }
    ensures unchanged { Unchanged Y.Layers layers.old layers.new }
{
    match other {
        Some((f, mark)) => {
            if f == e {
                beside(layers, back, e, mark)
            } else {
                past_like(layers, back, e, f, mark, steps)
            }
        }
        None => end_of(layers, back, e),
    }
}

// The nearer of the best place so far and the first in a dictionary past another place; the best where they match.
fn nearer_with<Y: Layers, L>(
    layers: &mut Y,
    back: bool,
    best: Option<(u32, Addr)>,
    e: u32,
    other: Option<(u32, Addr)>,
    steps: &mut Steps<L>,
) -> Option<(u32, Addr)>
    requires seek { CanSeek (Y.layered layers.old) e other }
    requires apart { IsApart back (Y.layered layers.old) other }
    requires best { IsStanding (Y.layered layers.old) e best }
    ensures object { object_at (Y.layered layers.old) result
        ≡ nearer back ((Y.layered layers.old).layer e).rules (object_at (Y.layered layers.old) best)
        (end_of back (filter
        (is_past back ((Y.layered layers.old).layer e).rules (object_at (Y.layered layers.old) other))
        (objects_of (Y.layered layers.old) e))) }
    ensures stands { IsStanding (Y.layered layers.old) e result }
    ensures unchanged { Unchanged Y.Layers layers.old layers.new }
{
    match first_past(layers, back, e, other, steps) {
        Some(at) => {
            if is_past(layers, !back, (e, at), best, steps) {
                Some((e, at))
            } else {
                best
            }
        }
        None => best,
    }
}

// The place of the first visible object, or back of the last, that lies past the one at another place, where there is one:
// each layer is asked once.
fn nearest_past<Y: Layers, L>(
    paths: &Paths,
    layers: &mut Y,
    back: bool,
    d: u32,
    other: Option<(u32, Addr)>,
    steps: &mut Steps<L>,
) -> Option<(u32, Addr)>
    requires path { IsPathBy true (Y.layered layers.old) paths.now d }
    requires other { IsStanding (Y.layered layers.old) d other }
    requires apart { IsApart back (Y.layered layers.old) other }
    ensures found { Answers result (end_of back (filter
        (is_past back ((Y.layered layers.old).layer d).rules (object_at (Y.layered layers.old) other))
        (visible_of (Y.layered layers.old) paths.now d))) }
    ensures unchanged { Unchanged Y.Layers layers.old layers.new }
{
    paths.show_invariant();
    let mut best = None;
    let mut next = Some(d);
    while let Some(e) = next {
        best = nearer_with(layers, back, best, e, other, steps);
        next = paths.below(e);
    }
    best
}

// A neighbour of a place in its dictionary, where their objects match.
fn matching<Y: Layers, L>(
    layers: &Y,
    from: (u32, Addr),
    beside: Option<Addr>,
    steps: &mut Steps<L>,
) -> Option<(u32, Addr)>
    requires place { StandsInLike (Y.layered layers.now) from.0 from }
    requires beside { IsStanding (Y.layered layers.now) from.0 (place_in_dict from.0 beside) }
    ensures object { object_at (Y.layered layers.now) result
        ≡ if_level ((Y.layered layers.now).layer from.0).rules
        (object_there (Y.layered layers.now) from)
        (object_at (Y.layered layers.now) (place_in_dict from.0 beside)) }
    ensures stands { IsStanding (Y.layered layers.now) from.0 result }
{
    match beside {
        Some(at) => {
            if layers.compare_at(from.0, at, from.0, from.1, steps).is_eq() {
                Some((from.0, at))
            } else {
                None
            }
        }
        None => None,
    }
}

// The place of the first visible object of an ordered dictionary, or back of the last; none where there is none.
pub(crate) fn end<Y: Layers, L>(
    paths: &Paths,
    layers: &mut Y,
    back: bool,
    d: u32,
    steps: &mut Steps<L>,
) -> Option<(u32, Addr)>
    requires { IsPathBy true (Y.layered layers.old) paths.now d }
    ensures found { Answers result (end_of back (visible_of (Y.layered layers.old) paths.now d)) }
    ensures unchanged { Unchanged Y.Layers layers.old layers.new }
{
    nearest_past(paths, layers, back, d, None, steps)
}

// The place behind that of a visible object of an ordered dictionary, or back the one before it; none at the end.
pub(crate) fn walk<Y: Layers, L>(
    paths: &Paths,
    layers: &mut Y,
    back: bool,
    d: u32,
    from: (u32, Addr),
    steps: &mut Steps<L>,
) -> Option<(u32, Addr)>
    requires path { IsPathBy true (Y.layered layers.old) paths.now d }
    requires from { IsVisible (Y.layered layers.old) paths.now d (numbers_of from) }
    ensures found { Answers result (neighbour back (is_at (numbers_of from))
        (visible_of (Y.layered layers.old) paths.now d)) }
    ensures unchanged { Unchanged Y.Layers layers.old layers.new }
{
    let next = beside(layers, back, from.0, from.1);
    match matching(layers, from, next, steps) {
        Some(place) => Some(place),
        None => nearest_past(paths, layers, back, d, Some(from), steps),
    }
}
