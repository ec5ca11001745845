ghost use Rattle.std.specs.Prelude.{ℕ, List, ◌∷◌, Option, true};
ghost use Rattle.vc_base.specs.declared.addr.Addr.{Addr};
ghost use Rattle.vc_paths.specs.Links.{Links};
ghost use Rattle.vc_paths.specs.Path.{IsPathBy, visible_of};
ghost use Rattle.vc_algebra.specs.Algebra.{by_op, range};
ghost use Rattle.vc_algebra.specs.Runs.{AreListed, AreMergeNexts, AreRangeNexts, HaveOwn, IsRangeFirst};
ghost use Rattle.vc_algebra.specs.ToCome.{Begins};
ghost use Rattle.vc_algebra.specs.declared.merge.Merge.{Merge};
ghost use Rattle.vc_algebra.specs.declared.op.Op.{Op};

use crate::Ordered;

/// What `range_first` answers and then `range_next`, behind one answer after another, is the range, in order: the answers up
/// to the first none.
pub fn range_is_answered<Y: Ordered>()
    ensures { (links : Links) (d : ℕ) (low high : Option (List ℕ)) (layers : Y)
        (first : Option (ℕ × Addr)) (more : List (Option (ℕ × Addr)))
        → IsPathBy true (Y.layered layers) links d
        → IsRangeFirst (Y.layered layers) links d low high first
        → AreRangeNexts Y.layered links d high layers first more
        → AreListed (range ((Y.layered layers).layer d).rules low high
        (visible_of (Y.layered layers) links d)) (first ∷ more) }
{}

/// What `next` answers, from `start` on, call after call, is the union, the meet or the difference, in order: the answers up
/// to the first none. Every later one is none as well.
pub fn operation_is_answered<Y: Ordered>()
    ensures { (links : Links) (d e : ℕ) (op : Op) (layers : Y) (m : Merge)
        (answers : List (Option (ℕ × Addr)))
        → Begins (Y.layered layers) links d e op m → AreMergeNexts Y.layered links layers m answers
        → AreListed (by_op op ((Y.layered layers).layer d).rules (visible_of (Y.layered layers) links d)
        (visible_of (Y.layered layers) links e)) answers }
{}

/// No place is answered twice, by a range or by an operation: not where the two dictionaries share layers either.
pub fn places_come_once<Y: Ordered>()
    ensures range { (links : Links) (d : ℕ) (low high : Option (List ℕ)) (layers : Y)
        → IsPathBy true (Y.layered layers) links d
        → HaveOwn (range ((Y.layered layers).layer d).rules low high
        (visible_of (Y.layered layers) links d)) }
    ensures operation { (links : Links) (d e : ℕ) (op : Op) (layers : Y)
        → IsPathBy true (Y.layered layers) links d → IsPathBy true (Y.layered layers) links e
        → HaveOwn (by_op op ((Y.layered layers).layer d).rules (visible_of (Y.layered layers) links d)
        (visible_of (Y.layered layers) links e)) }
{}
