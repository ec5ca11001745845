ghost use Rattle.std.specs.Prelude.{◌≡◌, ℕ, ◌++◌, List, [], ◌∷◌, Some, None, codes, map, pos, negsuc};
ghost use Rattle.std.specs.List.{AllByRecursion};
ghost use Rattle.vc_base.specs.declared.dict_method.DictMethod.TheVariants as dict;
ghost use Rattle.vc_script.specs.Lines.{ended_lines, lines};
ghost use Rattle.vc_script.specs.Needs.{ForBlock, ForObject, ForTable, AreAscending, NoNeed, ShowsNeeds, begins_refused, is_refusal, need_at, need_of, need_shown, needs_of};
ghost use Rattle.vc_script.specs.Print.{line_of, method_word, printed, text};
ghost use Rattle.vc_script.specs.ProperReply.{IsProperReply};
ghost use Rattle.vc_script.specs.Shown.{shown_bytes};
ghost use Rattle.vc_script.specs.declared.refusal.Refusal.TheVariants as why;
ghost use Rattle.vc_script.specs.declared.reply.Reply.{Reply};
ghost use Rattle.vc_script.specs.declared.reply.Reply.TheVariants as reply;

/// Each reply is one line of the text, and the whole lines of a text tell its replies' needs at the lines of their commands,
/// which rise. Where the names in the replies are names, a line begins with `refused: ` exactly where its reply is a
/// refusal, and a line of a refused segment is that of no other reply.
pub fn text_of_replies()
    ensures lines { (replies : List Reply) → AllByRecursion IsProperReply replies
        → lines (text replies) ≡ map printed replies }
    ensures ended { (replies : List Reply) → AllByRecursion IsProperReply replies
        → ended_lines (text replies) ≡ map printed replies }
    ensures needs { (replies : List (ℕ × Reply)) → AreAscending (map (λ r. r.0) replies)
        → AllByRecursion (λ r. IsProperReply r.1) replies
        → ShowsNeeds (needs_of (map (λ r. r.0) replies) (text (map (λ r. r.1) replies))) replies }
    ensures shown { (r : Reply) → IsProperReply r → need_of (printed r) ≡ need_shown r }
    ensures refusals { (r : Reply) → IsProperReply r → begins_refused (printed r) ≡ is_refusal r }
    ensures block { (r : Reply) → IsProperReply r → printed r ≡ codes "refused: no segment"
        → r ≡ reply.Refused why.NoSegment }
    ensures table { (r : Reply) → IsProperReply r
        → printed r ≡ codes "refused: no segment for table"
        → r ≡ reply.Refused why.NoSegmentForTable }
    ensures object { (r : Reply) → IsProperReply r
        → printed r ≡ codes "refused: no segment for object"
        → r ≡ reply.Refused why.NoSegmentForObject }
{}

/// The needs that texts show at lines 3 and 7: a last piece without its newline shows none, and a line beyond the
/// commands belongs to none.
pub fn shown_needs()
    ensures each { needs_of (3 ∷ 7 ∷ [])
        (codes "refused: no segment\nrefused: no segment for table\n")
        ≡ (3, ForBlock) ∷ (7, ForTable) ∷ [] }
    ensures object { needs_of (3 ∷ []) (codes "refused: no segment for object\n")
        ≡ (3, ForObject) ∷ [] }
    ensures others { needs_of (3 ∷ 7 ∷ []) (codes "refused: no block\na 1:32\n")
        ≡ (3, NoNeed) ∷ (7, NoNeed) ∷ [] }
    ensures cut { needs_of (3 ∷ 7 ∷ []) (codes "a 1:32\nrefused: no segment") ≡ (3, NoNeed) ∷ [] }
    ensures beyond { needs_of (3 ∷ []) (codes "a 1:32\nrefused: no segment\n") ≡ (3, NoNeed) ∷ [] }
    ensures at_line { need_at ((3, ForBlock) ∷ (7, ForTable) ∷ []) 7 ≡ ForTable }
    ensures at_other { need_at ((3, ForBlock) ∷ (7, ForTable) ∷ []) 4 ≡ NoNeed }
{}

/// Replies on regions.
#[tactic(auto, unfolding(crate::proofs::OnLiterals::printing_on_literals))]
pub fn printed_regions()
    ensures opened { line_of (reply.Opened (codes "r")) ≡ codes "r open\n" }
    ensures closed { printed (reply.Closed (codes "r") 2) ≡ codes "r closed 2" }
    ensures cleared { printed (reply.Cleared (codes "r")) ≡ codes "r cleared" }
    ensures compacted { printed (reply.Compacted (codes "heap") 1) ≡ codes "heap compacted 1" }
    ensures address { printed (reply.AddrIn (Some (codes "page")) 76) ≡ codes "addr page 76" }
    ensures unlabelled { printed (reply.AddrIn None 0) ≡ codes "addr * 0" }
    ensures no_address { printed reply.AddrNone ≡ codes "addr -1" }
    ensures segment { printed (reply.SegmentIs 2 4096) ≡ codes "segment 2 4096" }
    ensures no_segment { printed reply.SegmentNone ≡ codes "segment -1" }
    ensures stats { printed (reply.Stats (record {
      busy = 9;
      free = 6;
      sbusy = 3076;
      sfree = 17024;
      mbusy = 1024;
      mfree = 8160;
      segs = 4;
      extent = 20480;
    }))
        ≡ codes "busy 9 free 6 sbusy 3076 sfree 17024 mbusy 1024 mfree 8160 segs 4 extent 20480" }
{}

/// Replies on blocks, watched and not.
#[tactic(auto, unfolding(crate::proofs::OnLiterals::printing_on_literals))]
pub fn printed_blocks()
    ensures at { printed (reply.At (codes "a") (record { seg = 1; off = 32 }) None)
        ≡ codes "a 1:32" }
    ensures at_watched { printed (reply.At (codes "x") (record { seg = 1; off = 64 }) (Some 5))
        ≡ codes "x 1:64 watched 5" }
    ensures freed { printed (reply.Freed (codes "x") None) ≡ codes "x freed" }
    ensures freed_watched { printed (reply.Freed (codes "x") (Some 5)) ≡ codes "x freed watched 5" }
    ensures written { printed (reply.Written (codes "x") 2 None) ≡ codes "x written 2" }
    ensures written_watched { printed (reply.Written (codes "x") 2 (Some 5))
        ≡ codes "x written 2 watched 5" }
    ensures poked { printed (reply.Poked (codes "x") None) ≡ codes "x poked" }
    ensures poked_watched { printed (reply.Poked (codes "x") (Some 5)) ≡ codes "x poked watched 5" }
    ensures hex { printed (reply.Hex (codes "row1") (codes "total=7"))
        ≡ codes "row1 746f74616c3d37" }
    ensures low_byte { printed (reply.Hex (codes "a") (0 ∷ 10 ∷ 255 ∷ [])) ≡ codes "a 000aff" }
    ensures size { printed (reply.Size (codes "page") 1024) ≡ codes "page 1024" }
    ensures watched { printed (reply.Watched (codes "x")) ≡ codes "x watched" }
{}

/// Replies that list segments, blocks, damage and sites.
#[tactic(auto, unfolding(crate::proofs::OnLiterals::printing_on_literals))]
pub fn printed_lists()
    ensures segments { printed (reply.SegmentList ((1, 4096) ∷ (2, 4096) ∷ (3, 4096) ∷ []))
        ≡ codes "segments 3 1:4096 2:4096 3:4096" }
    ensures no_segments { printed (reply.SegmentList []) ≡ codes "segments 0" }
    ensures blocks { printed (reply.BlockList (
        (Some (codes "a"), record { seg = 1; off = 32 }, 100)
        ∷ (None, record { seg = 2; off = 160 }, 24) ∷ []))
        ≡ codes "blocks 2 a@1:32+100 *@2:160+24" }
    ensures undamaged { printed (reply.Damaged []) ≡ codes "check 0" }
    ensures damaged { printed (reply.Damaged ((codes "x", negsuc 0) ∷ (codes "y", pos 100) ∷ []))
        ≡ codes "check 2 x:-1 y:100" }
    ensures rows { printed (reply.Rows (
        record { site = codes "main"; blocks = 1; bytes = 30; peak = 40 }
        ∷ record { site = codes "-"; blocks = 1; bytes = 5; peak = 5 } ∷ []))
        ≡ codes "profile 2 main=1,30,40 -=1,5,5" }
{}

/// Replies on dictionaries and objects.
#[tactic(auto, unfolding(crate::proofs::OnLiterals::printing_on_literals))]
pub fn printed_dictionaries()
    ensures new { printed (reply.New (codes "pear")) ≡ codes "new pear" }
    ensures old { printed (reply.Old (codes "pear")) ≡ codes "old pear" }
    ensures gone { printed (reply.Gone (codes "b")) ≡ codes "gone b" }
    ensures out { printed (reply.Out (codes "b")) ≡ codes "out b" }
    ensures found { printed (reply.Found (codes "key1-up")) ≡ codes "found key1-up" }
    ensures nothing { printed reply.Nothing ≡ codes "none" }
    ensures objects { printed (reply.Objects (codes "apple" ∷ codes "pear" ∷ []))
        ≡ codes "2 apple pear" }
    ensures no_objects { printed (reply.Objects []) ≡ codes "0" }
    ensures number { printed (reply.Number 33) ≡ codes "33" }
    ensures views { printed (reply.Views (codes "a") (Some (codes "b"))) ≡ codes "a views b" }
    ensures views_none { printed (reply.Views (codes "d") None) ≡ codes "d views -" }
    ensures method { printed (reply.MethodIs (codes "d") dict.DtOset) ≡ codes "d method oset" }
    ensures emptied { printed (reply.Emptied (codes "d") 3) ≡ codes "d empty 3" }
    ensures shut { printed (reply.ShutDown (codes "d")) ≡ codes "d shut" }
{}

/// Refusals over regions and blocks.
#[tactic(auto, unfolding(crate::proofs::OnLiterals::printing_on_literals))]
pub fn printed_refusals()
    ensures no_region { printed (reply.Refused why.NoRegion) ≡ codes "refused: no region" }
    ensures region_exists { printed (reply.Refused why.RegionExists)
        ≡ codes "refused: region exists" }
    ensures no_such_discipline { printed (reply.Refused why.NoSuchDiscipline)
        ≡ codes "refused: no such discipline" }
    ensures discipline_in_use { printed (reply.Refused why.DisciplineInUse)
        ≡ codes "refused: discipline in use" }
    ensures no_block { printed (reply.Refused why.NoBlock) ≡ codes "refused: no block" }
    ensures block_exists { printed (reply.Refused why.BlockExists) ≡ codes "refused: block exists" }
    ensures freed_at { printed (reply.Refused (why.FreedAt 12))
        ≡ codes "refused: freed at line 12" }
    ensures wrong_method { printed (reply.Refused why.WrongMethod) ≡ codes "refused: wrong method" }
    ensures size { printed (reply.Refused why.Size) ≡ codes "refused: size" }
    ensures range { printed (reply.Refused why.Range) ≡ codes "refused: range" }
    ensures too_many_blocks { printed (reply.Refused why.TooManyBlocks)
        ≡ codes "refused: too many blocks" }
    ensures pool_size { printed (reply.Refused why.PoolSize) ≡ codes "refused: pool size" }
    ensures not_last { printed (reply.Refused why.NotLast) ≡ codes "refused: not last" }
    ensures cannot_grow { printed (reply.Refused why.CannotGrow)
        ≡ codes "refused: cannot grow here" }
    ensures busy { printed (reply.Refused why.Busy) ≡ codes "refused: busy" }
    ensures too_many_segments { printed (reply.Refused why.TooManySegments)
        ≡ codes "refused: too many segments" }
    ensures no_segment { printed (reply.Refused why.NoSegment) ≡ codes "refused: no segment" }
{}

/// Refusals over dictionaries.
pub fn printed_dictionary_refusals()
    ensures no_dictionary { printed (reply.Refused why.NoDictionary)
        ≡ codes "refused: no dictionary" }
    ensures dictionary_exists { printed (reply.Refused why.DictionaryExists)
        ≡ codes "refused: dictionary exists" }
    ensures no_such_kind { printed (reply.Refused why.NoSuchKind) ≡ codes "refused: no such kind" }
    ensures too_many_dictionaries { printed (reply.Refused why.TooManyDictionaries)
        ≡ codes "refused: too many dictionaries" }
    ensures viewed { printed (reply.Refused why.Viewed) ≡ codes "refused: viewed" }
    ensures view_differs { printed (reply.Refused why.ViewDiffers) ≡ codes "refused: view differs" }
    ensures view_cycle { printed (reply.Refused why.ViewCycle) ≡ codes "refused: view cycle" }
    ensures view_too_deep { printed (reply.Refused why.ViewTooDeep)
        ≡ codes "refused: view too deep" }
    ensures no_segment_for_table { printed (reply.Refused why.NoSegmentForTable)
        ≡ codes "refused: no segment for table" }
    ensures no_segment_for_object { printed (reply.Refused why.NoSegmentForObject)
        ≡ codes "refused: no segment for object" }
{}

/// The words of the methods of dictionaries.
pub fn method_words()
    ensures set { method_word dict.DtSet ≡ codes "set" }
    ensures bag { method_word dict.DtBag ≡ codes "bag" }
    ensures oset { method_word dict.DtOset ≡ codes "oset" }
    ensures obag { method_word dict.DtObag ≡ codes "obag" }
    ensures list { method_word dict.DtList ≡ codes "list" }
    ensures stack { method_word dict.DtStack ≡ codes "stack" }
    ensures queue { method_word dict.DtQueue ≡ codes "queue" }
{}

/// Letters, digits, `-`, `.`, `_` and `~` stand for themselves in an object; every other byte is escaped.
#[tactic(auto, unfolding(crate::proofs::OnLiterals::printing_on_literals))]
pub fn shown_objects()
    ensures plain { shown_bytes (codes "AZaz09-._~") ≡ codes "AZaz09-._~" }
    ensures zero { shown_bytes (97 ∷ 0 ∷ 120 ∷ []) ≡ codes "a%00x" }
    ensures blank { shown_bytes (codes " %/") ≡ codes "%20%25%2F" }
    ensures high { shown_bytes (10 ∷ 127 ∷ 171 ∷ 255 ∷ []) ≡ codes "%0A%7F%AB%FF" }
{}
