ghost use Rattle.std.specs.Prelude.{◌≡◌, ◌∷◌, [], None, Some, false, true, replicate};
ghost use Rattle.vc_model.specs.Outcome as model;
ghost use Rattle.vc_model.specs.Outcome.{Done, done_as};
ghost use Rattle.vc_dtdisc.specs.Objects.{address_of, bytes_of, current_without, first_with, linked_among};
ghost use Rattle.vc_dtdisc.specs.Shapes.{rules_of};
ghost use Rattle.vc_objects.specs.Insert.{open_dictionary, slots_wanted};
ghost use Rattle.vc_objects.specs.Remove.{freed_all, region_without, remove, remove_unnamed};
ghost use Rattle.vc_objects.specs.Rows.{after_growth, byte_at_place, b_a_b, bag, bag_of, bag_turned};
ghost use Rattle.vc_objects.specs.Rows.{by_fold, by_page, first_table, full_bag, full_region};
ghost use Rattle.vc_objects.specs.Rows.{halted_insert, held_region, lower_a, lower_b, lower_c, of_many};
ghost use Rattle.vc_objects.specs.Rows.{of_three, offsets_in, one_segment, put_example, segment_with};
ghost use Rattle.vc_objects.specs.Rows.{table_alone, three_holders, upper_b, with_upper};
ghost use Rattle.vc_objects.specs.Turn.{turn};

use crate::{Fate, Want};
use vc_base::DictMethod;
use vc_dtdisc::Shape;

/// Where each method puts B among b and a with no current object.
pub fn insert_rows()
    ensures set { with_upper false DictMethod.DtSet None (lower_b ∷ lower_a ∷ [])
        ≡ lower_b ∷ lower_a ∷ upper_b ∷ [] }
    ensures bag { with_upper false DictMethod.DtBag None (lower_b ∷ lower_a ∷ [])
        ≡ lower_b ∷ lower_a ∷ upper_b ∷ [] }
    ensures oset { with_upper false DictMethod.DtOset None (lower_a ∷ [])
        ≡ lower_a ∷ upper_b ∷ [] }
    ensures obag { with_upper false DictMethod.DtObag None (lower_a ∷ lower_b ∷ lower_c ∷ [])
        ≡ lower_a ∷ lower_b ∷ upper_b ∷ lower_c ∷ [] }
    ensures list { with_upper false DictMethod.DtList None (lower_b ∷ lower_a ∷ [])
        ≡ upper_b ∷ lower_b ∷ lower_a ∷ [] }
    ensures stack { with_upper false DictMethod.DtStack None (lower_b ∷ lower_a ∷ [])
        ≡ upper_b ∷ lower_b ∷ lower_a ∷ [] }
    ensures queue { with_upper false DictMethod.DtQueue None (lower_b ∷ lower_a ∷ [])
        ≡ lower_b ∷ lower_a ∷ upper_b ∷ [] }
{}

/// A list alone goes by the current object, here a behind b.
pub fn current_rows()
    ensures list { with_upper false DictMethod.DtList (Some lower_a.at) (lower_b ∷ lower_a ∷ [])
        ≡ lower_b ∷ upper_b ∷ lower_a ∷ [] }
    ensures bag { with_upper false DictMethod.DtBag (Some lower_a.at) (lower_b ∷ lower_a ∷ [])
        ≡ lower_b ∷ lower_a ∷ upper_b ∷ [] }
    ensures obag { with_upper false DictMethod.DtObag (Some lower_a.at) (lower_a ∷ lower_b ∷ [])
        ≡ lower_a ∷ lower_b ∷ upper_b ∷ [] }
    ensures stack { with_upper false DictMethod.DtStack (Some lower_a.at) (lower_b ∷ lower_a ∷ [])
        ≡ upper_b ∷ lower_b ∷ lower_a ∷ [] }
    ensures queue { with_upper false DictMethod.DtQueue (Some lower_a.at) (lower_b ∷ lower_a ∷ [])
        ≡ lower_b ∷ lower_a ∷ upper_b ∷ [] }
{}

/// `append` puts an object behind the current one, or last with none.
pub fn append_rows()
    ensures current { with_upper true DictMethod.DtList (Some lower_b.at) (lower_b ∷ lower_a ∷ [])
        ≡ lower_b ∷ upper_b ∷ lower_a ∷ [] }
    ensures none { with_upper true DictMethod.DtList None (lower_b ∷ lower_a ∷ [])
        ≡ lower_b ∷ lower_a ∷ upper_b ∷ [] }
{}

/// By keys that are the bytes themselves B stands before a and b.
pub fn whole_row()
    ensures { linked_among address_of bytes_of false DictMethod.DtOset (rules_of Shape.Whole) None
        upper_b (lower_a ∷ lower_b ∷ []) ≡ upper_b ∷ lower_a ∷ lower_b ∷ [] }
{}

/// Among objects of equal keys a search finds the first.
pub fn equal_row()
    ensures { first_with bytes_of by_fold (66 ∷ [])
        (lower_a ∷ lower_b ∷ upper_b ∷ lower_c ∷ []) ≡ Some lower_b }
{}

/// When the current object goes, the one behind it is current, or none; another one's going leaves it.
pub fn removed_current_rows()
    ensures behind { current_without address_of lower_a.at (Some lower_a.at) b_a_b
        ≡ Some upper_b.at }
    ensures last { current_without address_of upper_b.at (Some upper_b.at) b_a_b ≡ None }
    ensures another { current_without address_of lower_b.at (Some lower_a.at) b_a_b
        ≡ Some lower_a.at }
    ensures none { current_without address_of lower_b.at None b_a_b ≡ None }
{}

/// The first object of a key goes with its holder.
pub fn remove_rows()
    ensures gone { (remove by_fold held_region bag (66 ∷ [])).gone ≡ Some (98 ∷ []) }
    ensures left { (remove by_fold held_region bag (66 ∷ [])).dict.objects
        ≡ lower_a ∷ upper_b ∷ [] }
    ensures current { (remove by_fold held_region bag (66 ∷ [])).dict.current ≡ Some lower_a.at }
    ensures holders { offsets_in (remove by_fold held_region bag (66 ∷ [])).region
        ≡ 96 ∷ 160 ∷ 224 ∷ [] }
    ensures nothing { (remove by_fold held_region bag (99 ∷ [])).gone ≡ None }
{}

/// Where none is named, the first object of a stack or queue goes, and none of a list.
pub fn unnamed_rows()
    ensures stack { (remove_unnamed held_region (of_three DictMethod.DtStack None)).gone
        ≡ Some (98 ∷ []) }
    ensures queue { (remove_unnamed held_region (of_three DictMethod.DtQueue None)).gone
        ≡ Some (98 ∷ []) }
    ensures list { (remove_unnamed held_region (of_three DictMethod.DtList None)).gone ≡ None }
{}

/// A table of 16 slots grows for the 33rd object, and not for the 32nd.
pub fn growth_rows()
    ensures last_small { slots_wanted (bag_of 31) ≡ None }
    ensures grown { slots_wanted full_bag ≡ Some 32 }
    ensures set { slots_wanted (of_many DictMethod.DtSet 32) ≡ Some 32 }
    ensures list { slots_wanted (of_many DictMethod.DtList 32) ≡ None }
{}

/// A bag begins with a table of 16 slots, a block of 128 bytes; a list has none.
pub fn open_rows()
    ensures bag { done_as (λ g. g.dict.table)
        (open_dictionary by_page one_segment 0 DictMethod.DtBag false)
        ≡ Done (Some (record { at = 1048577; slots = 16 })) }
    ensures list { done_as (λ g. g.dict.table)
        (open_dictionary by_page one_segment 0 DictMethod.DtList false) ≡ Done None }
    ensures list_region { done_as (λ g. offsets_in g.region)
        (open_dictionary by_page one_segment 0 DictMethod.DtList false) ≡ Done [] }
    ensures refused { open_dictionary by_page (segment_with 64 []) 0 DictMethod.DtBag true
        ≡ model.Refused model.NoSegment }
{}

/// An object stands in its holder and is current.
pub fn stored_rows()
    ensures fate { (put_example held_region bag (99 ∷ []) false false).fate ≡ Fate.Stored }
    ensures objects { (put_example held_region bag (99 ∷ []) false false).dict.objects
        ≡ lower_b ∷ lower_a ∷ upper_b ∷ byte_at_place 12 99 ∷ [] }
    ensures current { (put_example held_region bag (99 ∷ []) false false).dict.current ≡ Some 1048588 }
    ensures holders { offsets_in (put_example held_region bag (99 ∷ []) false false).region
        ≡ 32 ∷ 96 ∷ 160 ∷ 224 ∷ 384 ∷ [] }
{}

/// The 33rd object brings a larger table, and its holder takes the room of the one before.
pub fn grown_rows()
    ensures fate { after_growth.fate ≡ Fate.Stored }
    ensures table { after_growth.dict.table ≡ Some (record { at = 1048588; slots = 32 }) }
    ensures blocks { offsets_in after_growth.region ≡ 32 ∷ 384 ∷ [] }
{}

/// Where the segment has room for the larger table alone, a refused holder leaves that.
pub fn halted_rows()
    ensures fate { halted_insert.fate ≡ Fate.NoHolder Want.NoSegment }
    ensures table { halted_insert.dict.table ≡ Some (record { at = 1048588; slots = 32 }) }
    ensures objects { halted_insert.dict.objects ≡ replicate 32 lower_b }
    ensures blocks { offsets_in halted_insert.region ≡ 384 ∷ [] }
{}

/// With no room for the larger table nothing changes, and by 1,023 segments no more is asked for.
pub fn no_table_rows()
    ensures fate { (put_example (table_alone 640) full_bag (98 ∷ []) true false).fate
        ≡ Fate.NoTable Want.NoSegment }
    ensures region { (put_example (table_alone 640) full_bag (98 ∷ []) true false).region
        ≡ table_alone 640 }
    ensures full { (put_example full_region full_bag (98 ∷ []) false false).fate
        ≡ Fate.NoTable Want.TooManySegments }
    ensures full_holder { (put_example full_region (bag_of 31) (98 ∷ []) false false).fate
        ≡ Fate.NoHolder Want.TooManySegments }
{}

/// A bag of b, a and B without regard to case becomes an ordered set of a and b; B's holder and the table go.
pub fn turn_rows()
    ensures kept { done_as (λ t. t.dict.objects) (bag_turned DictMethod.DtOset)
        ≡ Done (lower_a ∷ lower_b ∷ []) }
    ensures gone { done_as (λ t. t.gone) (bag_turned DictMethod.DtOset)
        ≡ Done ((66 ∷ []) ∷ []) }
    ensures current { done_as (λ t. t.dict.current) (bag_turned DictMethod.DtOset)
        ≡ Done None }
    ensures table { done_as (λ t. t.dict.table) (bag_turned DictMethod.DtOset)
        ≡ Done None }
    ensures blocks { done_as (λ t. offsets_in t.region) (bag_turned DictMethod.DtOset)
        ≡ Done (32 ∷ 96 ∷ []) }
{}

/// Which table a turn brings, and that it comes first: where it is refused all stays.
pub fn table_rows()
    ensures kept { done_as (λ t. t.dict.table) (bag_turned DictMethod.DtSet)
        ≡ Done (Some first_table) }
    ensures brought { done_as (λ t. t.dict.table) (turn by_fold by_page
        (segment_with 4096 three_holders) 0 (of_three DictMethod.DtList None) DictMethod.DtBag false)
        ≡ Done (Some first_table) }
    ensures refused { turn by_fold by_page (segment_with 224 three_holders) 0
        (of_three DictMethod.DtList None) DictMethod.DtBag true
        ≡ model.Refused model.NoSegment }
    ensures same { turn by_fold by_page held_region 0 bag DictMethod.DtBag true
        ≡ Done (record { region = held_region; dict = bag; gone = []; granted = [] }) }
{}

/// A dictionary's end takes its holders and its table, and leaves the segments.
pub fn end_rows()
    ensures emptied { offsets_in (freed_all held_region b_a_b) ≡ 224 ∷ [] }
    ensures ended { region_without held_region bag ≡ one_segment }
{}
