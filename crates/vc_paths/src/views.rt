ghost use Rattle.std.specs.Prelude.{◌≡◌, None};
ghost use Rattle.std.specs.List.{find};
ghost use Rattle.vc_dtdisc.specs.Finding.{before_first, behind_last, first_of, last_of};
ghost use Rattle.vc_paths.specs.Direction.{end_of, neighbour};
ghost use Rattle.vc_paths.specs.Links.{below};
ghost use Rattle.vc_paths.specs.Path.{Answers, IsPath, IsVisible, is_at, numbers_of, visible_of};
ghost use Rattle.vc_paths.specs.Seek.{has_key_in};
ghost use Rattle.vc_paths.specs.Unchanged.{Unchanged};

use crate::direction::beside;
use crate::plain::placed;
use crate::{Layers, Paths, ordered, plain};
use vc_base::{Addr, Steps};

/// The first object that is seen through `d`, the number of a dictionary from 0 to 255, and has a key; none where none has
/// it. The answer is the number of the object's own dictionary and its place there, the address of its holder in bytes.
/// `steps` counts the compares. It can't be refused and needs no memory.
pub fn search<Y: Layers, L>(
    paths: &Paths,
    layers: &mut Y,
    d: u32,
    key: &[u8],
    steps: &mut Steps<L>,
) -> Option<(u32, Addr)>
    requires { IsPath (Y.layered layers.old) paths.now d }
    ensures found { Answers result (find (has_key_in (Y.layered layers.old) d key.now)
        (visible_of (Y.layered layers.old) paths.now d)) }
    ensures unchanged { Unchanged Y.Layers layers.old layers.new }
{
    paths.show_invariant();
    let mut at = Some(d);
    while let Some(e) = at {
        if let Some(place) = layers.find(e, key, steps) {
            return Some((e, place));
        }
        at = paths.below(e);
    }
    None
}

// The first object that is seen through a dictionary, or back the last.
fn end<Y: Layers, L>(
    paths: &Paths,
    layers: &mut Y,
    back: bool,
    d: u32,
    steps: &mut Steps<L>,
) -> Option<(u32, Addr)>
    requires { IsPath (Y.layered layers.old) paths.now d }
    ensures found { Answers result (end_of back (visible_of (Y.layered layers.old) paths.now d)) }
    ensures unchanged { Unchanged Y.Layers layers.old layers.new }
{
    if layers.method(d).is_ordered() {
        ordered::end(paths, layers, back, d, steps)
    } else {
        plain::end(paths, layers, back, d, steps)
    }
}

/// The first object that is seen through `d`, the number of a dictionary from 0 to 255; none where none is. Answered and
/// counted as by `search`.
pub fn first<Y: Layers, L>(
    paths: &Paths,
    layers: &mut Y,
    d: u32,
    steps: &mut Steps<L>,
) -> Option<(u32, Addr)>
    requires { IsPath (Y.layered layers.old) paths.now d }
    ensures found { Answers result
        (first_of (visible_of (Y.layered layers.old) paths.now d)) }
    ensures unchanged { Unchanged Y.Layers layers.old layers.new }
{
    end(paths, layers, false, d, steps)
}

/// The last object that is seen through `d`, the number of a dictionary from 0 to 255; none where none is. Answered and
/// counted as by `search`.
pub fn last<Y: Layers, L>(
    paths: &Paths,
    layers: &mut Y,
    d: u32,
    steps: &mut Steps<L>,
) -> Option<(u32, Addr)>
    requires { IsPath (Y.layered layers.old) paths.now d }
    ensures found { Answers result
        (last_of (visible_of (Y.layered layers.old) paths.now d)) }
    ensures unchanged { Unchanged Y.Layers layers.old layers.new }
{
    end(paths, layers, true, d, steps)
}

// The object behind one that is seen through a dictionary, or back before it; none at the end.
fn walk<Y: Layers, L>(
    paths: &Paths,
    layers: &mut Y,
    back: bool,
    d: u32,
    from: (u32, Addr),
    steps: &mut Steps<L>,
) -> Option<(u32, Addr)>
    requires path { IsPath (Y.layered layers.old) paths.now d }
    requires place { IsVisible (Y.layered layers.old) paths.now d (numbers_of from) }
    ensures found { Answers result (neighbour back (is_at (numbers_of from))
        (visible_of (Y.layered layers.old) paths.now d)) }
    ensures alone { below paths.now d ≡ None → steps.new ≡ steps.old }
    ensures unchanged { Unchanged Y.Layers layers.old layers.new }
{
    if paths.below(d).is_none() {
        placed(d, beside(layers, back, d, from.1))
    } else if layers.method(d).is_ordered() {
        ordered::walk(paths, layers, back, d, from, steps)
    } else {
        plain::walk(paths, layers, back, d, from, steps)
    }
}

/// The object behind the one at `from`, a place that is seen through `d`, the number of a dictionary from 0 to 255; none
/// behind the last. Answered and counted as by `search`; where `d` views nothing, no object is compared.
pub fn walk_next<Y: Layers, L>(
    paths: &Paths,
    layers: &mut Y,
    d: u32,
    from: (u32, Addr),
    steps: &mut Steps<L>,
) -> Option<(u32, Addr)>
    requires path { IsPath (Y.layered layers.old) paths.now d }
    requires place { IsVisible (Y.layered layers.old) paths.now d (numbers_of from) }
    ensures found { Answers result (behind_last (is_at (numbers_of from))
        (visible_of (Y.layered layers.old) paths.now d)) }
    ensures alone { below paths.now d ≡ None → steps.new ≡ steps.old }
    ensures unchanged { Unchanged Y.Layers layers.old layers.new }
{
    walk(paths, layers, false, d, from, steps)
}

/// The object behind the last that is seen through `d`, the number of a dictionary from 0 to 255, and has a key; none where
/// that is the last of all, or none has the key. Answered and counted as by `search`.
pub fn next<Y: Layers, L>(
    paths: &Paths,
    layers: &mut Y,
    d: u32,
    key: &[u8],
    steps: &mut Steps<L>,
) -> Option<(u32, Addr)>
    requires { IsPath (Y.layered layers.old) paths.now d }
    ensures found { Answers result (behind_last (has_key_in (Y.layered layers.old) d key.now)
        (visible_of (Y.layered layers.old) paths.now d)) }
    ensures unchanged { Unchanged Y.Layers layers.old layers.new }
{
    match search(paths, layers, d, key, steps) {
        Some(from) => {
            let last = layers.last_like(from.0, from.1, steps);
            walk(paths, layers, false, d, (from.0, last), steps)
        }
        None => None,
    }
}

/// The object before the first that is seen through `d`, the number of a dictionary from 0 to 255, and has a key; none
/// where that is the first of all, or none has the key. Answered and counted as by `search`.
pub fn prev<Y: Layers, L>(
    paths: &Paths,
    layers: &mut Y,
    d: u32,
    key: &[u8],
    steps: &mut Steps<L>,
) -> Option<(u32, Addr)>
    requires { IsPath (Y.layered layers.old) paths.now d }
    ensures found { Answers result (before_first (has_key_in (Y.layered layers.old) d key.now)
        (visible_of (Y.layered layers.old) paths.now d)) }
    ensures unchanged { Unchanged Y.Layers layers.old layers.new }
{
    match search(paths, layers, d, key, steps) {
        Some(from) => walk(paths, layers, true, d, from, steps),
        None => None,
    }
}
