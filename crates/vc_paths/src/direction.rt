// Which way a walk over a dictionary goes: onward from its first object, or back from its last.
ghost use Rattle.std.specs.Prelude.{◌≡◌, ℕ, IsSome, List, Some};
ghost use Rattle.std.specs.Option.{option_map};
ghost use Rattle.vc_base.specs.Prelude.{number_of};
ghost use Rattle.vc_paths.specs.Direction.{end_of, place_beside, place_past};
ghost use Rattle.vc_paths.specs.Layers.{bytes_there, place_in};
ghost use Rattle.vc_paths.specs.Ordered.{CanSeek};
ghost use Rattle.vc_paths.specs.Unchanged.{Unchanged};

use crate::Layers;
use vc_base::{Addr, Steps};

// The place where a walk over a dictionary begins; none where it has no object.
pub(crate) fn end_of<Y: Layers>(layers: &Y, back: bool, d: u32) -> Option<Addr>
    requires { (Y.layered layers.now).Has d }
    ensures { option_map number_of result
        ≡ place_in (end_of back ((Y.layered layers.now).layer d).objects) }
{
    if back {
        layers.last(d)
    } else {
        layers.first(d)
    }
}

// The place that a walk over a dictionary comes to next; none behind the end.
pub(crate) fn beside<Y: Layers>(layers: &Y, back: bool, d: u32, at: Addr) -> Option<Addr>
    requires dict { (Y.layered layers.now).Has d }
    requires place { IsSome (bytes_there at.0 ((Y.layered layers.now).layer d).objects) }
    ensures { option_map number_of result
        ≡ place_beside back at.0 ((Y.layered layers.now).layer d).objects }
{
    if back {
        layers.prev(d, at)
    } else {
        layers.next(d, at)
    }
}

// The place in an ordered dictionary to which a walk comes first past the object at a place of another one: the first that is
// greater, or back the last that is less; none where none is.
pub(crate) fn past_like<Y: Layers, L>(
    layers: &mut Y,
    back: bool,
    d: u32,
    of: u32,
    at: Addr,
    steps: &mut Steps<L>,
) -> Option<Addr>
    requires { CanSeek (Y.layered layers.old) d (Some (of, at)) }
    ensures found { (bytes : List ℕ)
        → bytes_there at.0 ((Y.layered layers.old).layer of).objects ≡ Some bytes
        → option_map number_of result ≡ place_past back ((Y.layered layers.old).layer d).rules
        bytes ((Y.layered layers.old).layer d).objects }
    ensures unchanged { Unchanged Y.Layers layers.old layers.new }
{
    if back {
        layers.before_like(d, of, at, steps)
    } else {
        layers.behind_like(d, of, at, steps)
    }
}
