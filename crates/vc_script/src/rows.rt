ghost use Rattle.std.specs.Prelude.{◌≡◌, ◌++◌, [], ◌∷◌, Some, None, Ok, Err, true, false, codes, replicate, pos, negsuc};
ghost use Rattle.vc_base.specs.declared.dict_method.DictMethod.TheVariants.{DtSet, DtBag, DtOset, DtObag, DtList, DtStack, DtQueue};
ghost use Rattle.vc_seg.specs.declared.method.Method.TheVariants.{VmBest, VmPool, VmLast, VmDebug, VmProfile};
ghost use Rattle.vc_script.specs.Answer.{answer};
ghost use Rattle.vc_script.specs.Forms.{read_address, read_bytes, read_dict_method, read_region_method, read_mode, read_name, read_name_or_dash, read_number, read_signed, read_site};
ghost use Rattle.vc_script.specs.Words.{words};
ghost use Rattle.vc_script.specs.declared.command.Command.TheVariants.{OpenRegion, CloseRegion, ClearRegion, Compact, Alloc, Align, Resize, Free, WriteBlock, ReadBlock, SizeOf, AddrOf, SegmentOf, StatOf, Segments, Blocks, Poke, Check, Watch, ProfileOf, OpenDict, Insert, Append, Attach, Delete, Detach, Search, MatchKey, First, Last, Next, Prev, Walk, Count, View, Remethod, Empty, Shut};
ghost use Rattle.vc_script.specs.declared.line_answer.LineAnswer.TheVariants.{Blank, Is, Bad};
ghost use Rattle.vc_script.specs.declared.line_fault.LineFault.TheVariants.{UnknownCommand, WordCount, BadName, BadNumber, BadAddress, BadBytes, UnknownMethod};
ghost use Rattle.vc_script.specs.declared.tool.Tool.TheVariants.{Vmreplay, Dtrun};

/// Words stand between runs of spaces and tabs; any other byte stands in a word.
pub fn cut_words()
    ensures blanks { words (codes "  alloc\tr a 100  ")
        ≡ codes "alloc" ∷ codes "r" ∷ codes "a" ∷ codes "100" ∷ [] }
    ensures none { words (codes " \t ") ≡ [] }
    ensures form_feed { words (97 ∷ 12 ∷ 98 ∷ 0 ∷ 255 ∷ []) ≡ (97 ∷ 12 ∷ 98 ∷ 0 ∷ 255 ∷ []) ∷ [] }
{}

/// Lines that ask for nothing.
pub fn blank_lines()
    ensures comment { answer Vmreplay false (codes "# open r best 1") ≡ Blank }
    ensures comment_word { answer Vmreplay false (codes "  #open r best 1") ≡ Blank }
    ensures empty { answer Vmreplay false [] ≡ Blank }
    ensures blanks { answer Vmreplay false (codes " \t ") ≡ Blank }
{}

/// A line of each fault.
pub fn faults()
    ensures unknown_command { answer Vmreplay false (codes "frob") ≡ Bad UnknownCommand }
    ensures word_count { answer Vmreplay false (codes "open r best") ≡ Bad WordCount }
    ensures bad_name { answer Vmreplay false (codes "open 9r best 1") ≡ Bad BadName }
    ensures bad_number { answer Vmreplay false (codes "alloc r a 99999999999") ≡ Bad BadNumber }
    ensures bad_address { answer Vmreplay false (codes "addr r 0:5") ≡ Bad BadAddress }
    ensures bad_bytes { answer Vmreplay false (codes "write r a 0 %zz") ≡ Bad BadBytes }
    ensures unknown_method { answer Vmreplay false (codes "open r bset 1") ≡ Bad UnknownMethod }
{}

/// The first word is judged first, then the number of words, then the words from the left.
pub fn order()
    ensures first_word { answer Vmreplay false (codes "Open 9") ≡ Bad UnknownCommand }
    ensures first_word_cr { answer Vmreplay false (codes "stat\r r") ≡ Bad UnknownCommand }
    ensures count { answer Vmreplay false (codes "open 9 Best") ≡ Bad WordCount }
    ensures count_none { answer Vmreplay false (codes "stat") ≡ Bad WordCount }
    ensures count_more { answer Vmreplay false (codes "alloc r a 1 @s x") ≡ Bad WordCount }
    ensures name_first { answer Vmreplay false (codes "open 9 Best x") ≡ Bad BadName }
    ensures method_second { answer Vmreplay false (codes "open r Best x") ≡ Bad UnknownMethod }
    ensures number_first { answer Vmreplay false (codes "alloc r x y @9") ≡ Bad BadNumber }
    ensures site_last { answer Vmreplay false (codes "alloc r x 1 @9") ≡ Bad BadName }
    ensures no_at { answer Vmreplay false (codes "alloc r x 1 s") ≡ Bad BadName }
    ensures cr_in_word { answer Vmreplay false (codes "free r a\r") ≡ Bad BadName }
{}

/// Commands over dictionaries are commands of one tool alone; those over regions are commands of both.
pub fn tools()
    ensures dict { answer Vmreplay false (codes "dict d set r 1") ≡ Bad UnknownCommand }
    ensures insert { answer Vmreplay false (codes "insert d a") ≡ Bad UnknownCommand }
    ensures shut { answer Vmreplay false (codes "shut d") ≡ Bad UnknownCommand }
    ensures open { answer Dtrun false (codes "open r best 1") ≡ Is (OpenRegion (codes "r") VmBest 1) }
    ensures profile { answer Dtrun false (codes "profile r") ≡ Is (ProfileOf (codes "r")) }
    ensures frob { answer Dtrun false (codes "frob") ≡ Bad UnknownCommand }
    ensures comment { answer Dtrun false (codes " # dict d set r 1") ≡ Blank }
{}

/// Of a command over dictionaries too the number of words is judged first, then the words from the left.
pub fn dictionary_order()
    ensures count { answer Dtrun false (codes "dict 9 Set") ≡ Bad WordCount }
    ensures name_first { answer Dtrun false (codes "dict 9 Set 9 x") ≡ Bad BadName }
    ensures method_second { answer Dtrun false (codes "dict d Set 9 x") ≡ Bad UnknownMethod }
    ensures region_third { answer Dtrun false (codes "dict d set 9 x") ≡ Bad BadName }
    ensures kind_last { answer Dtrun false (codes "dict d set r x") ≡ Bad BadNumber }
    ensures no_object { answer Dtrun false (codes "insert d") ≡ Bad WordCount }
    ensures two_objects { answer Dtrun false (codes "delete d a b") ≡ Bad WordCount }
    ensures object_last { answer Dtrun false (codes "delete 9 %") ≡ Bad BadName }
    ensures bad_object { answer Dtrun false (codes "delete d %") ≡ Bad BadBytes }
    ensures bad_viewed { answer Dtrun false (codes "view d --") ≡ Bad BadName }
    ensures no_dash { answer Dtrun false (codes "shut -") ≡ Bad BadName }
{}

/// A line of each command with a region alone.
pub fn region_commands()
    ensures close { answer Vmreplay false (codes "close r") ≡ Is (CloseRegion (codes "r")) }
    ensures clear { answer Vmreplay false (codes "clear r") ≡ Is (ClearRegion (codes "r")) }
    ensures compact { answer Vmreplay false (codes "compact r") ≡ Is (Compact (codes "r")) }
    ensures stat { answer Vmreplay false (codes "stat r") ≡ Is (StatOf (codes "r")) }
    ensures segments { answer Vmreplay false (codes "segments r") ≡ Is (Segments (codes "r")) }
    ensures blocks { answer Vmreplay false (codes "blocks r") ≡ Is (Blocks (codes "r")) }
    ensures check { answer Vmreplay false (codes "check r") ≡ Is (Check (codes "r")) }
    ensures profile { answer Vmreplay false (codes "profile r") ≡ Is (ProfileOf (codes "r")) }
{}

/// A line of each other command.
#[tactic(auto, unfolding(percent_encoding::specs::Percent::percent_decode))]
pub fn block_commands()
    ensures open { answer Vmreplay false (codes "open r best 1") ≡ Is (OpenRegion (codes "r") VmBest 1) }
    ensures alloc { answer Vmreplay false (codes "alloc r a 100")
        ≡ Is (Alloc (codes "r") (codes "a") 100 None) }
    ensures alloc_at { answer Vmreplay false (codes "alloc r a 100 @s")
        ≡ Is (Alloc (codes "r") (codes "a") 100 (Some (codes "s"))) }
    ensures align { answer Vmreplay false (codes "align r a 100 64")
        ≡ Is (Align (codes "r") (codes "a") 100 64) }
    ensures resize { answer Vmreplay false (codes "resize r a 9 move")
        ≡ Is (Resize (codes "r") (codes "a") 9 true) }
    ensures resize_fixed { answer Vmreplay false (codes "resize r a 9 fixed")
        ≡ Is (Resize (codes "r") (codes "a") 9 false) }
    ensures free { answer Vmreplay false (codes "free r a") ≡ Is (Free (codes "r") (codes "a")) }
    ensures write { answer Vmreplay false (codes "write r a 7 x%3D")
        ≡ Is (WriteBlock (codes "r") (codes "a") 7 (codes "x=")) }
    ensures read { answer Vmreplay false (codes "read r a 7 3")
        ≡ Is (ReadBlock (codes "r") (codes "a") 7 3) }
    ensures size { answer Vmreplay false (codes "size r a") ≡ Is (SizeOf (codes "r") (codes "a")) }
    ensures addr { answer Vmreplay false (codes "addr r 2:32")
        ≡ Is (AddrOf (codes "r") (record { seg = 2; off = 32 })) }
    ensures segment { answer Vmreplay false (codes "segment r 2:32")
        ≡ Is (SegmentOf (codes "r") (record { seg = 2; off = 32 })) }
    ensures poke { answer Vmreplay false (codes "poke r a -3 165")
        ≡ Is (Poke (codes "r") (codes "a") (negsuc 2) 165) }
    ensures watch { answer Vmreplay false (codes "watch r a") ≡ Is (Watch (codes "r") (codes "a")) }
{}

/// A line of each command over dictionaries.
#[tactic(auto, unfolding(percent_encoding::specs::Percent::percent_decode))]
pub fn dictionary_commands()
    ensures dict { answer Dtrun false (codes "dict d oset r 6")
        ≡ Is (OpenDict (codes "d") DtOset (codes "r") 6) }
    ensures insert { answer Dtrun false (codes "insert d a%20") ≡ Is (Insert (codes "d") (codes "a ")) }
    ensures append { answer Dtrun false (codes "append d a") ≡ Is (Append (codes "d") (codes "a")) }
    ensures attach { answer Dtrun false (codes "attach d a") ≡ Is (Attach (codes "d") (codes "a")) }
    ensures delete { answer Dtrun false (codes "delete d a")
        ≡ Is (Delete (codes "d") (Some (codes "a"))) }
    ensures delete_any { answer Dtrun false (codes "delete d") ≡ Is (Delete (codes "d") None) }
    ensures detach { answer Dtrun false (codes "detach d a") ≡ Is (Detach (codes "d") (codes "a")) }
    ensures search { answer Dtrun false (codes "search d a") ≡ Is (Search (codes "d") (codes "a")) }
    ensures match_key { answer Dtrun false (codes "match d a") ≡ Is (MatchKey (codes "d") (codes "a")) }
    ensures first { answer Dtrun false (codes "first d") ≡ Is (First (codes "d")) }
    ensures last { answer Dtrun false (codes "last d") ≡ Is (Last (codes "d")) }
    ensures next { answer Dtrun false (codes "next d a") ≡ Is (Next (codes "d") (codes "a")) }
    ensures prev { answer Dtrun false (codes "prev d a") ≡ Is (Prev (codes "d") (codes "a")) }
    ensures walk { answer Dtrun false (codes "walk d") ≡ Is (Walk (codes "d")) }
    ensures count { answer Dtrun false (codes "count d") ≡ Is (Count (codes "d")) }
    ensures view { answer Dtrun false (codes "view d e") ≡ Is (View (codes "d") (Some (codes "e"))) }
    ensures view_none { answer Dtrun false (codes "view d -") ≡ Is (View (codes "d") None) }
    ensures method { answer Dtrun false (codes "method d list")
        ≡ Is (Remethod (codes "d") DtList) }
    ensures empty { answer Dtrun false (codes "empty d") ≡ Is (Empty (codes "d")) }
    ensures shut { answer Dtrun false (codes "shut d") ≡ Is (Shut (codes "d")) }
{}

/// A name has 1 to 32 bytes: a letter, then letters, digits, `_` and `.`.
pub fn names()
    ensures mixed { read_name (codes "r.1_Z") ≡ Ok (codes "r.1_Z") }
    ensures bytes_32 { read_name (replicate 32 97) ≡ Ok (replicate 32 97) }
    ensures bytes_33 { read_name (replicate 33 97) ≡ Err BadName }
    ensures underscore_first { read_name (codes "_a") ≡ Err BadName }
    ensures dash { read_name (codes "a-b") ≡ Err BadName }
    ensures high_byte { read_name (97 ∷ 228 ∷ []) ≡ Err BadName }
    ensures empty { read_name [] ≡ Err BadName }
{}

/// A site is `@` and a name, and is kept without its `@`.
pub fn sites()
    ensures kept { read_site (codes "@main.c") ≡ Ok (codes "main.c") }
    ensures bytes_33 { read_site (64 ∷ replicate 32 97) ≡ Ok (replicate 32 97) }
    ensures bytes_34 { read_site (64 ∷ replicate 33 97) ≡ Err BadName }
    ensures two { read_site (codes "@@a") ≡ Err BadName }
    ensures alone { read_site (codes "@") ≡ Err BadName }
    ensures empty { read_site [] ≡ Err BadName }
{}

/// A number has 1 to 10 digits and is at most 4,294,967,295; leading zeros count as digits.
pub fn numbers()
    ensures zero { read_number (codes "0") ≡ Ok 0 }
    ensures ten_with_zeros { read_number (codes "0000000001") ≡ Ok 1 }
    ensures eleven_with_zeros { read_number (codes "00000000001") ≡ Err BadNumber }
    ensures greatest { read_number (codes "4294967295") ≡ Ok 4294967295 }
    ensures too_great { read_number (codes "4294967296") ≡ Err BadNumber }
    ensures sign { read_number (codes "+1") ≡ Err BadNumber }
    ensures minus { read_number (codes "-1") ≡ Err BadNumber }
    ensures hexadecimal { read_number (codes "1f") ≡ Err BadNumber }
    ensures empty { read_number [] ≡ Err BadNumber }
{}

/// A signed number is a number, or `-` and a number.
pub fn signed_numbers()
    ensures plain { read_signed (codes "7") ≡ Ok (pos 7) }
    ensures negative { read_signed (codes "-7") ≡ Ok (negsuc 6) }
    ensures minus_zero { read_signed (codes "-0") ≡ Ok (pos 0) }
    ensures least { read_signed (codes "-4294967295") ≡ Ok (negsuc 4294967294) }
    ensures too_small { read_signed (codes "-4294967296") ≡ Err BadNumber }
    ensures plus { read_signed (codes "+1") ≡ Err BadNumber }
    ensures twice { read_signed (codes "--1") ≡ Err BadNumber }
    ensures alone { read_signed (codes "-") ≡ Err BadNumber }
    ensures empty { read_signed [] ≡ Err BadNumber }
{}

/// An address is a segment from 1 to 1,023, `:` and an offset of at most 33,554,431.
pub fn addresses()
    ensures least { read_address (codes "1:0") ≡ Ok (record { seg = 1; off = 0 }) }
    ensures greatest { read_address (codes "1023:33554431")
        ≡ Ok (record { seg = 1023; off = 33554431 }) }
    ensures zeros { read_address (codes "0000000001:05") ≡ Ok (record { seg = 1; off = 5 }) }
    ensures segment_0 { read_address (codes "0:5") ≡ Err BadAddress }
    ensures segment_1024 { read_address (codes "1024:5") ≡ Err BadAddress }
    ensures offset_too_great { read_address (codes "1:33554432") ≡ Err BadAddress }
    ensures no_number { read_address (codes "1:99999999999") ≡ Err BadAddress }
    ensures no_colon { read_address (codes "1") ≡ Err BadAddress }
    ensures no_segment { read_address (codes ":1") ≡ Err BadAddress }
    ensures no_offset { read_address (codes "1:") ≡ Err BadAddress }
    ensures two_colons { read_address (codes "1:2:3") ≡ Err BadAddress }
    ensures sign { read_address (codes "1:-0") ≡ Err BadAddress }
    ensures empty { read_address [] ≡ Err BadAddress }
{}

/// `%` and two hexadecimal digits of either case stand for that byte, every other byte for itself.
#[tactic(auto, unfolding(percent_encoding::specs::Percent::percent_decode))]
pub fn bytes()
    ensures plain { read_bytes (codes "a+b") ≡ Ok (codes "a+b") }
    ensures either_case { read_bytes (codes "%2f%2F%0a") ≡ Ok (47 ∷ 47 ∷ 10 ∷ []) }
    ensures once { read_bytes (codes "%2541") ≡ Ok (codes "%41") }
    ensures zero { read_bytes (codes "%00") ≡ Ok (0 ∷ []) }
    ensures high_byte { read_bytes (200 ∷ []) ≡ Ok (200 ∷ []) }
    ensures other_digits { read_bytes (codes "%zz") ≡ Err BadBytes }
    ensures percent_twice { read_bytes (codes "%%41") ≡ Err BadBytes }
    ensures one_digit { read_bytes (codes "a%4") ≡ Err BadBytes }
    ensures no_digit { read_bytes (codes "a%") ≡ Err BadBytes }
    ensures later { read_bytes (codes "%41%4g") ≡ Err BadBytes }
{}

/// The methods of regions and the modes of `resize`, in lower case.
pub fn methods()
    ensures best { read_region_method (codes "best") ≡ Ok VmBest }
    ensures pool { read_region_method (codes "pool") ≡ Ok VmPool }
    ensures last { read_region_method (codes "last") ≡ Ok VmLast }
    ensures debug { read_region_method (codes "debug") ≡ Ok VmDebug }
    ensures profile { read_region_method (codes "profile") ≡ Ok VmProfile }
    ensures upper_case { read_region_method (codes "Best") ≡ Err UnknownMethod }
    ensures longer { read_region_method (codes "bests") ≡ Err UnknownMethod }
    ensures of_dictionaries { read_region_method (codes "set") ≡ Err UnknownMethod }
    ensures moves { read_mode (codes "move") ≡ Ok true }
    ensures stays { read_mode (codes "fixed") ≡ Ok false }
    ensures other_mode { read_mode (codes "best") ≡ Err UnknownMethod }
{}

/// The methods of dictionaries, in lower case.
pub fn dictionary_methods()
    ensures set { read_dict_method (codes "set") ≡ Ok DtSet }
    ensures bag { read_dict_method (codes "bag") ≡ Ok DtBag }
    ensures oset { read_dict_method (codes "oset") ≡ Ok DtOset }
    ensures obag { read_dict_method (codes "obag") ≡ Ok DtObag }
    ensures list { read_dict_method (codes "list") ≡ Ok DtList }
    ensures stack { read_dict_method (codes "stack") ≡ Ok DtStack }
    ensures queue { read_dict_method (codes "queue") ≡ Ok DtQueue }
    ensures upper_case { read_dict_method (codes "Set") ≡ Err UnknownMethod }
    ensures longer { read_dict_method (codes "osets") ≡ Err UnknownMethod }
    ensures of_regions { read_dict_method (codes "best") ≡ Err UnknownMethod }
{}

/// The dictionary that another is to view is a name, or `-` for none.
pub fn viewed_names()
    ensures name { read_name_or_dash (codes "e") ≡ Ok (Some (codes "e")) }
    ensures dash { read_name_or_dash (codes "-") ≡ Ok None }
    ensures two_dashes { read_name_or_dash (codes "--") ≡ Err BadName }
    ensures other { read_name_or_dash (codes "9") ≡ Err BadName }
{}
