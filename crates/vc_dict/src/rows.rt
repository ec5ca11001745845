ghost use Rattle.std.specs.Prelude.{◌≡◌, ℕ, ◌∷◌, [], None, Some, false, true};
ghost use Rattle.vc_dtdisc.specs.Shapes.{rules_of};
ghost use Rattle.vc_dict.specs.Changes.{behind_current, before_current, current_without, order_by_link, order_without};
ghost use Rattle.vc_dict.specs.Orders.{dropped_by, kept_by, ordered_by};
ghost use Rattle.vc_dict.specs.Rows.{three};
ghost use Rattle.vc_dict.specs.Methods.{slots_between, wanted_by};

use vc_base::DictMethod;
use vc_dtdisc::Shape;

/// Where lists put an object: before the current one or behind it, and at an end with none.
pub fn list_rows()
    ensures before { before_current 7 9 (5 ∷ 7 ∷ 8 ∷ []) ≡ 5 ∷ 9 ∷ 7 ∷ 8 ∷ [] }
    ensures front { before_current 0 9 (5 ∷ 7 ∷ []) ≡ 9 ∷ 5 ∷ 7 ∷ [] }
    ensures behind { behind_current 7 9 (5 ∷ 7 ∷ 8 ∷ []) ≡ 5 ∷ 7 ∷ 9 ∷ 8 ∷ [] }
    ensures end { behind_current 0 9 (5 ∷ 7 ∷ []) ≡ 5 ∷ 7 ∷ 9 ∷ [] }
{}

/// What is left, and which one is current then.
pub fn remove_rows()
    ensures left { order_without (Some 7) (5 ∷ 7 ∷ 8 ∷ []) ≡ 5 ∷ 8 ∷ [] }
    ensures nothing { order_without None (5 ∷ 7 ∷ []) ≡ 5 ∷ 7 ∷ [] }
    ensures behind { current_without (Some 7) 7 (5 ∷ 7 ∷ 8 ∷ []) ≡ 8 }
    ensures last { current_without (Some 8) 8 (5 ∷ 7 ∷ 8 ∷ []) ≡ 0 }
    ensures another { current_without (Some 5) 7 (5 ∷ 7 ∷ 8 ∷ []) ≡ 7 }
    ensures none { current_without None 7 (5 ∷ 7 ∷ 8 ∷ []) ≡ 7 }
{}

/// Which methods want a table, and which changes of method do.
pub fn table_rows()
    ensures set { wanted_by DictMethod.DtSet 16 32 1 ≡ Some 32 }
    ensures list { wanted_by DictMethod.DtList 0 32 1 ≡ None }
    ensures to_bag { slots_between DictMethod.DtList DictMethod.DtBag 33 ≡ Some 32 }
    ensures from_set { slots_between DictMethod.DtSet DictMethod.DtBag 33 ≡ None }
    ensures to_oset { slots_between DictMethod.DtSet DictMethod.DtOset 33 ≡ None }
{}

/// Where each method puts the holder of B, by keys without regard to case, among those of b and a.
pub fn insert_rows()
    ensures set { order_by_link false DictMethod.DtSet (rules_of Shape.Fold) three 0 3 (1 ∷ 2 ∷ [])
        ≡ 1 ∷ 2 ∷ 3 ∷ [] }
    ensures obag { order_by_link false DictMethod.DtObag (rules_of Shape.Fold) three 0 3 (2 ∷ 1 ∷ [])
        ≡ 2 ∷ 1 ∷ 3 ∷ [] }
    ensures oset { order_by_link false DictMethod.DtOset (rules_of Shape.Whole) three 0 3 (2 ∷ 1 ∷ [])
        ≡ 3 ∷ 2 ∷ 1 ∷ [] }
    ensures list { order_by_link false DictMethod.DtList (rules_of Shape.Fold) three 2 3 (1 ∷ 2 ∷ [])
        ≡ 1 ∷ 3 ∷ 2 ∷ [] }
    ensures append { order_by_link true DictMethod.DtList (rules_of Shape.Fold) three 1 3 (1 ∷ 2 ∷ [])
        ≡ 1 ∷ 3 ∷ 2 ∷ [] }
    ensures stack { order_by_link false DictMethod.DtStack (rules_of Shape.Fold) three 1 3 (1 ∷ 2 ∷ [])
        ≡ 3 ∷ 1 ∷ 2 ∷ [] }
    ensures queue { order_by_link false DictMethod.DtQueue (rules_of Shape.Fold) three 1 3 (1 ∷ 2 ∷ [])
        ≡ 1 ∷ 2 ∷ 3 ∷ [] }
{}

/// The order that a method turns b, a and B into, by keys without regard to case, and what it keeps and drops.
pub fn order_rows()
    ensures sorted { ordered_by DictMethod.DtObag (rules_of Shape.Fold) three (1 ∷ 2 ∷ 3 ∷ [])
        ≡ 2 ∷ 1 ∷ 3 ∷ [] }
    ensures stable { ordered_by DictMethod.DtOset (rules_of Shape.Fold) three (3 ∷ 2 ∷ 1 ∷ [])
        ≡ 2 ∷ 3 ∷ 1 ∷ [] }
    ensures unsorted { ordered_by DictMethod.DtSet (rules_of Shape.Fold) three (1 ∷ 2 ∷ 3 ∷ [])
        ≡ 1 ∷ 2 ∷ 3 ∷ [] }
    ensures kept { kept_by DictMethod.DtSet (rules_of Shape.Fold) three (1 ∷ 2 ∷ 3 ∷ [])
        ≡ 1 ∷ 2 ∷ [] }
    ensures dropped { dropped_by DictMethod.DtSet (rules_of Shape.Fold) three (1 ∷ 2 ∷ 3 ∷ [])
        ≡ 3 ∷ [] }
    ensures bag { kept_by DictMethod.DtBag (rules_of Shape.Fold) three (1 ∷ 2 ∷ 3 ∷ [])
        ≡ 1 ∷ 2 ∷ 3 ∷ [] }
{}
