ghost use Rattle.std.specs.Prelude.{◌≡◌, ◌∷◌, [], None, Some, replicate};
ghost use Rattle.vc_dtdisc.specs.Shapes.{rules_of};
ghost use Rattle.vc_objects.specs.Rows.{first_table, full_bag, full_region};
ghost use Rattle.vc_objects.specs.Rows.{of_three, offsets_in};
ghost use Rattle.vc_script.specs.Needs.{NoNeed, ForTable, ForObject};
ghost use Rattle.vc_commands.specs.DictCommands.{in_dict, object_asked, table_asked};
ghost use Rattle.vc_commands.specs.DictRows.{name, of_bag, seat_of_many, of_method, of_set, reply_to};
ghost use Rattle.vc_commands.specs.DictRows.{seat_by_fold, under};

use vc_base::DictMethod;
use vc_dtdisc::Shape;
use vc_script::{Command, Refusal, Reply};

/// `insert` makes an object and `attach` takes the word itself.
pub fn put_rows()
    ensures insert { reply_to of_bag (Command.Insert name (99 ∷ [])) NoNeed
        ≡ Reply.New (99 ∷ []) }
    ensures made { reply_to (under (rules_of (Shape.Clip 1)) of_bag)
        (Command.Insert name (99 ∷ 100 ∷ [])) NoNeed ≡ Reply.New (99 ∷ []) }
    ensures attach { reply_to (under (rules_of (Shape.Clip 1)) of_bag)
        (Command.Attach name (99 ∷ 100 ∷ [])) NoNeed ≡ Reply.New (99 ∷ 100 ∷ []) }
{}

/// A set answers the object that stands, and a bag keeps both.
pub fn old_rows()
    ensures set { reply_to of_set (Command.Insert name (66 ∷ [])) NoNeed ≡ Reply.Old (98 ∷ []) }
    ensures same { (in_dict of_set (Command.Insert name (66 ∷ [])) NoNeed).dict ≡ of_set.dict }
    ensures bag { reply_to of_bag (Command.Insert name (66 ∷ [])) NoNeed ≡ Reply.New (66 ∷ []) }
{}

/// Only a list is appended to; the method comes before the size.
pub fn append_rows()
    ensures list { reply_to (of_method DictMethod.DtList) (Command.Append name (99 ∷ [])) NoNeed
        ≡ Reply.New (99 ∷ []) }
    ensures stack { reply_to (of_method DictMethod.DtStack) (Command.Append name (99 ∷ [])) NoNeed
        ≡ Reply.Refused Refusal.WrongMethod }
    ensures method { reply_to of_bag (Command.Append name (replicate 1025 98)) NoNeed
        ≡ Reply.Refused Refusal.WrongMethod }
    ensures size { reply_to (of_method DictMethod.DtList)
        (Command.Append name (replicate 1025 98)) NoNeed ≡ Reply.Refused Refusal.Size }
{}

/// A word of an object or a key has at most 1,024 bytes.
pub fn size_rows()
    ensures most { reply_to of_bag (Command.Insert name (replicate 1024 98)) NoNeed
        ≡ Reply.New (replicate 1024 98) }
    ensures insert { reply_to of_bag (Command.Insert name (replicate 1025 98)) NoNeed
        ≡ Reply.Refused Refusal.Size }
    ensures delete { reply_to of_bag (Command.Delete name (Some (replicate 1025 98))) NoNeed
        ≡ Reply.Refused Refusal.Size }
{}

/// `delete` removes the first match and tells the kind of it.
pub fn delete_rows()
    ensures gone { reply_to of_bag (Command.Delete name (Some (66 ∷ []))) NoNeed
        ≡ Reply.Gone (98 ∷ []) }
    ensures told { (in_dict of_bag (Command.Delete name (Some (66 ∷ []))) NoNeed).told
        ≡ (98 ∷ []) ∷ [] }
    ensures holder { offsets_in
        (in_dict of_bag (Command.Delete name (Some (66 ∷ []))) NoNeed).region
        ≡ 96 ∷ 160 ∷ 224 ∷ [] }
    ensures nothing { reply_to of_bag (Command.Delete name (Some (99 ∷ []))) NoNeed
        ≡ Reply.Nothing }
{}

/// `detach` takes a match out, and the kind isn't told.
pub fn detach_rows()
    ensures out { reply_to of_bag (Command.Detach name (66 ∷ [])) NoNeed ≡ Reply.Out (98 ∷ []) }
    ensures told { (in_dict of_bag (Command.Detach name (66 ∷ [])) NoNeed).told ≡ [] }
{}

/// With no object named the first one of a queue goes, and none of a bag.
pub fn unnamed_rows()
    ensures queue { reply_to (of_method DictMethod.DtQueue) (Command.Delete name None) NoNeed
        ≡ Reply.Gone (98 ∷ []) }
    ensures bag { reply_to of_bag (Command.Delete name None) NoNeed ≡ Reply.Nothing }
{}

/// How many objects there are.
pub fn count_row()
    ensures { reply_to of_bag (Command.Count name) NoNeed ≡ Reply.Number 3 }
{}

/// Turned to an ordered set, the bag keeps b and a, and the kind is told of B.
pub fn method_rows()
    ensures reply { reply_to of_bag (Command.Remethod name DictMethod.DtOset) NoNeed
        ≡ Reply.MethodIs name DictMethod.DtOset }
    ensures told { (in_dict of_bag (Command.Remethod name DictMethod.DtOset) NoNeed).told
        ≡ (66 ∷ []) ∷ [] }
    ensures refused { reply_to (seat_by_fold full_region (of_three DictMethod.DtList None))
        (Command.Remethod name DictMethod.DtSet) NoNeed ≡ Reply.Refused Refusal.TooManySegments }
{}

/// Emptied, the dictionary keeps its table, and the kind is told of each object.
pub fn empty_rows()
    ensures reply { reply_to of_bag (Command.Empty name) NoNeed ≡ Reply.Emptied name 3 }
    ensures told { (in_dict of_bag (Command.Empty name) NoNeed).told
        ≡ (98 ∷ []) ∷ (97 ∷ []) ∷ (66 ∷ []) ∷ [] }
    ensures table { (in_dict of_bag (Command.Empty name) NoNeed).dict.table ≡ Some first_table }
    ensures blocks { offsets_in (in_dict of_bag (Command.Empty name) NoNeed).region ≡ 224 ∷ [] }
{}

/// A segment that is refused, for the table that an object wants and for its holder, and one that a region can't have.
pub fn refused_rows()
    ensures table { reply_to (seat_of_many 640 32) (Command.Insert name (98 ∷ [])) ForTable
        ≡ Reply.Refused Refusal.NoSegmentForTable }
    ensures holder { reply_to (seat_of_many 640 31) (Command.Insert name (replicate 320 98)) ForObject
        ≡ Reply.Refused Refusal.NoSegmentForObject }
    ensures after_table { reply_to (seat_of_many 672 32)
        (Command.Insert name (replicate 320 98)) ForObject
        ≡ Reply.Refused Refusal.NoSegmentForObject }
    ensures limit { reply_to (seat_by_fold full_region full_bag) (Command.Insert name (98 ∷ [])) NoNeed
        ≡ Reply.Refused Refusal.TooManySegments }
{}

/// What is asked for: a table of twice the slots, and the object that is made.
pub fn asked_rows()
    ensures table { table_asked (seat_of_many 4096 32) (Command.Insert name (99 ∷ [])) ≡ Some 32 }
    ensures turned { table_asked (of_method DictMethod.DtList)
        (Command.Remethod name DictMethod.DtSet) ≡ Some 16 }
    ensures none { table_asked of_bag (Command.Delete name None) ≡ None }
    ensures object { object_asked (under (rules_of (Shape.Clip 1)) of_bag)
        (Command.Insert name (99 ∷ 100 ∷ [])) ≡ 99 ∷ [] }
{}

/// Beginning and ending a dictionary are no commands on one, nor is a view, nor what looks through one.
pub fn other_rows()
    ensures begun { reply_to of_bag (Command.OpenDict name DictMethod.DtBag name 1) NoNeed
        ≡ Reply.Refused Refusal.NoDictionary }
    ensures viewed { reply_to of_bag (Command.View name None) NoNeed
        ≡ Reply.Refused Refusal.NoDictionary }
    ensures ended { reply_to of_bag (Command.Shut name) NoNeed
        ≡ Reply.Refused Refusal.NoDictionary }
    ensures looked { reply_to of_bag (Command.First name) NoNeed
        ≡ Reply.Refused Refusal.NoDictionary }
{}
