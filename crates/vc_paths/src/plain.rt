ghost use Rattle.std.specs.Prelude.{◌≡◌, ℕ, false, List, Some, IsSome, option_map};
ghost use Rattle.std.specs.List.{flat_map};
ghost use Rattle.vc_base.specs.Prelude.{number_of};
ghost use Rattle.vc_dtdisc.specs.Finding.{first_of, last_of};
ghost use Rattle.vc_paths.specs.Direction.{end_of, neighbour, objects_left};
ghost use Rattle.vc_paths.specs.Layers.{bytes_there, place_in};
ghost use Rattle.vc_paths.specs.Path.{Answers, IsPathBy, IsVisible, is_at, numbers_of, visible_of};
ghost use Rattle.vc_paths.specs.Shown.{IsLayerOn, IsOnPath, IsPlaceIn, above, down, has_match, is_covered, unhidden_objects, shown_in};
ghost use Rattle.vc_paths.specs.Unchanged.{Unchanged};

use crate::direction::{beside, end_of};
use crate::paths::is_link_to;
use crate::{Layers, Paths};
use vc_base::{Addr, Steps};

// Whether a layer has a match of the object at a place of e.
fn has_like<Y: Layers, L>(layers: &mut Y, u: u32, e: u32, at: Addr, steps: &mut Steps<L>) -> bool
    requires upper { (Y.layered layers.old).Has u }
    requires other { (Y.layered layers.old).Has e }
    requires kinds { ((Y.layered layers.old).layer e).kind ≡ ((Y.layered layers.old).layer u).kind }
    requires place { IsSome (bytes_there at.0 ((Y.layered layers.old).layer e).objects) }
    ensures found { (bytes : List ℕ)
        → bytes_there at.0 ((Y.layered layers.old).layer e).objects ≡ Some bytes
        → result ≡ has_match (Y.layered layers.old) u bytes u }
    ensures unchanged { Unchanged Y.Layers layers.old layers.new }
{
    layers.find_like(u, e, at, steps).is_some()
}

// Whether the layers above e on the path of d hide the object at a place of e.
fn is_hidden<Y: Layers, L>(
    paths: &Paths,
    layers: &mut Y,
    d: u32,
    e: u32,
    at: Addr,
    steps: &mut Steps<L>,
) -> bool
    requires layer { IsLayerOn (Y.layered layers.old) paths.now d e }
    requires place { IsSome (bytes_there at.0 ((Y.layered layers.old).layer e).objects) }
    ensures hidden { (bytes : List ℕ)
        → bytes_there at.0 ((Y.layered layers.old).layer e).objects ≡ Some bytes
        → result ≡ is_covered (Y.layered layers.old) paths.now d e bytes }
    ensures unchanged { Unchanged Y.Layers layers.old layers.new }
{
    paths.show_invariant();
    let mut upper = Some(d);
    while let Some(u) = upper {
        if e == u {
            return false;
        }
        if has_like(layers, u, e, at, steps) {
            return true;
        }
        upper = paths.below(u);
    }
    false
}

// The first object of e that isn't hidden, from a place on, or back from it the last.
fn seen_along<Y: Layers, L>(
    paths: &Paths,
    layers: &mut Y,
    back: bool,
    d: u32,
    e: u32,
    at: Option<Addr>,
    steps: &mut Steps<L>,
) -> Option<Addr>
    requires layer { IsLayerOn (Y.layered layers.old) paths.now d e }
    requires place { IsPlaceIn ((Y.layered layers.old).layer e).objects (option_map number_of at) }
    ensures found { option_map number_of result ≡ place_in (end_of back (unhidden_objects
        (Y.layered layers.old) paths.now d e (objects_left back (option_map number_of at)
        ((Y.layered layers.old).layer e).objects))) }
    ensures unchanged { Unchanged Y.Layers layers.old layers.new }
{
    let mut here = at;
    while let Some(place) = here {
        if !is_hidden(paths, layers, d, e, place, steps) {
            return here;
        }
        here = beside(layers, back, e, place);
    }
    None
}

// The place of an object of e, where there is one.
pub(crate) fn placed(e: u32, at: Option<Addr>) -> Option<(u32, Addr)>
    ensures { option_map numbers_of result ≡ option_map (λ a. (e, a)) (option_map number_of at) }
{
    match at {
        None => None,
        Some(place) => Some((e, place)),
    }
}

// The first object of e that isn't hidden, or back the last.
fn end_in<Y: Layers, L>(
    paths: &Paths,
    layers: &mut Y,
    back: bool,
    d: u32,
    e: u32,
    steps: &mut Steps<L>,
) -> Option<(u32, Addr)>
    requires { IsLayerOn (Y.layered layers.old) paths.now d e }
    ensures found { option_map numbers_of result
        ≡ end_of back (shown_in (Y.layered layers.old) paths.now d e) }
    ensures unchanged { Unchanged Y.Layers layers.old layers.new }
{
    let start = end_of(layers, back, e);
    placed(e, seen_along(paths, layers, back, d, e, start, steps))
}

// The first object that is seen through d from a layer of its path on.
fn first_below<Y: Layers, L>(
    paths: &Paths,
    layers: &mut Y,
    d: u32,
    from: Option<u32>,
    steps: &mut Steps<L>,
) -> Option<(u32, Addr)>
    requires path { IsOnPath (Y.layered layers.old) paths.now d (Some d) }
    requires from { IsOnPath (Y.layered layers.old) paths.now d from }
    ensures found { option_map numbers_of result
        ≡ first_of (flat_map (shown_in (Y.layered layers.old) paths.now d) (down paths.now from)) }
    ensures unchanged { Unchanged Y.Layers layers.old layers.new }
{
    paths.show_invariant();
    let mut layer = from;
    while let Some(e) = layer {
        let found = end_in(paths, layers, false, d, e, steps);
        if found.is_some() {
            return found;
        }
        layer = paths.below(e);
    }
    None
}

// The last object that is seen through d in the layers above one of its path, or in all of them.
fn last_above<Y: Layers, L>(
    paths: &Paths,
    layers: &mut Y,
    d: u32,
    end: Option<u32>,
    steps: &mut Steps<L>,
) -> Option<(u32, Addr)>
    requires path { IsOnPath (Y.layered layers.old) paths.now d (Some d) }
    ensures found { option_map numbers_of result ≡ last_of (flat_map
        (shown_in (Y.layered layers.old) paths.now d) (above end (down paths.now (Some d)))) }
    ensures unchanged { Unchanged Y.Layers layers.old layers.new }
{
    paths.show_invariant();
    let mut best = None;
    let mut layer = Some(d);
    while let Some(e) = layer {
        if is_link_to(e, end) {
            return best;
        }
        best = end_in(paths, layers, true, d, e, steps).or(best);
        layer = paths.below(e);
    }
    best
}

// The first object that is seen through a dictionary, or back the last.
pub(crate) fn end<Y: Layers, L>(
    paths: &Paths,
    layers: &mut Y,
    back: bool,
    d: u32,
    steps: &mut Steps<L>,
) -> Option<(u32, Addr)>
    requires { IsPathBy false (Y.layered layers.old) paths.now d }
    ensures found { Answers result (end_of back (visible_of (Y.layered layers.old) paths.now d)) }
    ensures unchanged { Unchanged Y.Layers layers.old layers.new }
{
    paths.show_invariant();
    if back {
        last_above(paths, layers, d, None, steps)
    } else {
        first_below(paths, layers, d, Some(d), steps)
    }
}

// The object behind the one at a place, or back before it, among those that are seen through a dictionary.
pub(crate) fn walk<Y: Layers, L>(
    paths: &Paths,
    layers: &mut Y,
    back: bool,
    d: u32,
    from: (u32, Addr),
    steps: &mut Steps<L>,
) -> Option<(u32, Addr)>
    requires path { IsPathBy false (Y.layered layers.old) paths.now d }
    requires from { IsVisible (Y.layered layers.old) paths.now d (numbers_of from) }
    ensures found { Answers result (neighbour back (is_at (numbers_of from))
        (visible_of (Y.layered layers.old) paths.now d)) }
    ensures unchanged { Unchanged Y.Layers layers.old layers.new }
{
    paths.show_invariant();
    let (e, at) = from;
    let start = beside(layers, back, e, at);
    match seen_along(paths, layers, back, d, e, start, steps) {
        Some(place) => Some((e, place)),
        None => {
            if back {
                last_above(paths, layers, d, Some(e), steps)
            } else {
                first_below(paths, layers, d, paths.below(e), steps)
            }
        }
    }
}
