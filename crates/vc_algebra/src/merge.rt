ghost use Rattle.std.specs.Prelude.{◌≡◌, ◌==◌, ◌&&◌, IfOk, IfSome, drop, true};
ghost use Rattle.vc_base.specs.Prelude.{is_ordered};
ghost use Rattle.std.specs.Result.{result_err};
ghost use Rattle.vc_paths.specs.Ordered.{IsStanding, object_at};
ghost use Rattle.vc_paths.specs.Path.{IsPath, IsPathBy, IsVisible, numbers_of, visible_of};
ghost use Rattle.vc_paths.specs.Unchanged.{Unchanged};
ghost use Rattle.vc_algebra.specs.Faults.{merge_fault};
ghost use Rattle.vc_algebra.specs.Runs.{IsMergeNext};
ghost use Rattle.vc_algebra.specs.ToCome.{Begins, IsMerge, IsOfSame, Passes, from_place, turn_of};

use crate::turn::Turn;
use crate::{AlgebraFault, Op, Ordered};
use std::cmp::Ordering;
use vc_base::{Addr, Steps};
use vc_paths::{Layers, Paths, first, walk_next};

/// How far an operation on what is seen through two ordered dictionaries has come: each one's place of the first object that
/// has still to be looked at, the number of its own dictionary and the address of its holder in bytes.
#[derive(Clone, Copy, Debug, PartialEq, Eq)]
pub struct Merge {
    /// The number of the first dictionary, from 0 to 255.
    pub d: u32,
    /// The number of the second dictionary, from 0 to 255.
    pub e: u32,
    /// The operation.
    pub op: Op,
    /// The place that comes next of what is seen through the first; none at the end.
    pub left: Option<(u32, Addr)>,
    /// The place that comes next of what is seen through the second; none at the end.
    pub right: Option<(u32, Addr)>,
}

// Whether the methods of both are ordered.
fn are_ordered<Y: Layers>(layers: &Y, d: u32, e: u32) -> bool
    requires first { (Y.layered layers.now).Has d }
    requires second { (Y.layered layers.now).Has e }
    ensures { result ≡ (is_ordered ((Y.layered layers.now).layer d).method
        && is_ordered ((Y.layered layers.now).layer e).method) }
{
    layers.method(d).is_ordered() && layers.method(e).is_ordered()
}

// Whether their kinds have one number.
fn are_of_kind<Y: Layers>(layers: &Y, d: u32, e: u32) -> bool
    requires first { (Y.layered layers.now).Has d }
    requires second { (Y.layered layers.now).Has e }
    ensures { result
        ≡ (((Y.layered layers.now).layer d).kind == ((Y.layered layers.now).layer e).kind) }
{
    layers.kind_number(d) == layers.kind_number(e)
}

// The place behind another one along a path; none at the end.
fn passed<Y: Layers, L>(
    paths: &Paths,
    layers: &mut Y,
    d: u32,
    place: Option<(u32, Addr)>,
    steps: &mut Steps<L>,
) -> Option<(u32, Addr)>
    requires path { IsPathBy true (Y.layered layers.old) paths.now d }
    requires place { IfSome place (λ p. IsVisible (Y.layered layers.old) paths.now d (numbers_of p)) }
    ensures rest { from_place result (visible_of (Y.layered layers.old) paths.now d)
        ≡ drop 1 (from_place place (visible_of (Y.layered layers.old) paths.now d)) }
    ensures seen { IfSome result (λ p. IsVisible (Y.layered layers.old) paths.now d (numbers_of p)) }
    ensures unchanged { Unchanged Y.Layers layers.old layers.new }
{
    match place {
        Some(from) => walk_next(paths, layers, d, from, steps),
        None => None,
    }
}

impl Merge {
    /// An operation on what is seen through `d` and through `e`, the numbers of two dictionaries from 0 to 255, with all of
    /// it still to come. Refused, in this order: as `NotOrdered` exactly where the method of one of them isn't ordered, and
    /// as `Differs` where the numbers of their kinds differ. `steps` counts the compares. It needs no memory.
    pub fn start<Y: Ordered, L>(
        paths: &Paths,
        layers: &mut Y,
        d: u32,
        e: u32,
        op: Op,
        steps: &mut Steps<L>,
    ) -> Result<Merge, AlgebraFault>
        requires first { IsPath (Y.layered layers.old) paths.now d }
        requires second { IsPath (Y.layered layers.old) paths.now e }
        ensures fault { result_err result ≡ merge_fault (Y.layered layers.old) d e }
        ensures begins { IfOk result (λ m. Begins (Y.layered layers.new) paths.now d e op m) }
        ensures unchanged { Unchanged Y.Layers layers.old layers.new }
    {
        if !are_ordered(layers, d, e) {
            return Err(AlgebraFault::NotOrdered);
        }
        if !are_of_kind(layers, d, e) {
            return Err(AlgebraFault::Differs);
        }
        let left = first(paths, layers, d, steps);
        let right = first(paths, layers, e, steps);
        Ok(Merge {
            d,
            e,
            op,
            left,
            right,
        })
    }

    // Which of the next two objects is less; none where none is left.
    fn turn<Y: Layers, L>(&self, layers: &Y, steps: &mut Steps<L>) -> Option<Turn>
        requires dict { (Y.layered layers.now).Has self.now.d }
        requires left { IsStanding (Y.layered layers.now) self.now.d self.now.left }
        requires right { IsStanding (Y.layered layers.now) self.now.d self.now.right }
        ensures { result ≡ turn_of ((Y.layered layers.now).layer self.now.d).rules
            (object_at (Y.layered layers.now) self.now.left) (object_at (Y.layered layers.now) self.now.right) }
    {
        match (self.left, self.right) {
            (Some(x), Some(y)) => Some(match layers.compare_at(x.0, x.1, y.0, y.1, steps) {
                Ordering::Less => Turn::Left,
                Ordering::Equal => Turn::Both,
                Ordering::Greater => Turn::Right,
            }),
            (Some(_), None) => Some(Turn::Left),
            (None, Some(_)) => Some(Turn::Right),
            (None, None) => None,
        }
    }

    // Passes the next object of the first, or else of the second, and answers its place.
    fn pass<Y: Layers, L>(
        &mut self,
        paths: &Paths,
        layers: &mut Y,
        left: bool,
        steps: &mut Steps<L>,
    ) -> Option<(u32, Addr)>
        requires { IsMerge (Y.layered layers.old) paths.now self.old }
        ensures passes { Passes (Y.layered layers.old) paths.now left self.old self.new result }
        ensures unchanged { Unchanged Y.Layers layers.old layers.new }
    {
        if left {
            let place = self.left;
            self.left = passed(paths, layers, self.d, place, steps);
            place
        } else {
            let place = self.right;
            self.right = passed(paths, layers, self.e, place, steps);
            place
        }
    }

    /// The place of the next object that is still to come, which is then past; none where nothing is, now and from then on.
    /// An object of both dictionaries is the first one's. The answer is the number of the object's own dictionary and its
    /// place there, the address of its holder in bytes. `steps` counts the compares. It can't be refused and needs no memory.
    /// What is still to come is told by the two places, the paths and the objects as they are at each call.
    pub fn next<Y: Ordered, L>(
        &mut self,
        paths: &Paths,
        layers: &mut Y,
        steps: &mut Steps<L>,
    ) -> Option<(u32, Addr)>
        requires { IsMerge (Y.layered layers.old) paths.now self.old }
        ensures next { IsMergeNext paths.now (Y.layered layers.old) (Y.layered layers.new) self.old
            self.new result }
        ensures stands { IsStanding (Y.layered layers.new) self.new.d result }
        ensures merge { IsMerge (Y.layered layers.new) paths.now self.new }
        ensures same { IsOfSame self.old self.new }
        ensures unchanged { Unchanged Y.Layers layers.old layers.new }
    {
        while let Some(turn) = self.turn(layers, steps) {
            let place = self.pass(paths, layers, turn.takes_left(self.op), steps);
            if turn.comes(self.op) {
                return place;
            }
        }
        None
    }
}
