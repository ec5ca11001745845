ghost use Rattle.std.specs.Prelude.{◌≡◌, [], ◌∷◌, false, codes};
ghost use Rattle.vc_script.specs.Needs.{ForBlock, NoNeed};
ghost use Rattle.vc_script.specs.declared.tool.Tool.TheVariants.{Dtrun, Vmreplay};
ghost use Rattle.vc_session.specs.QuietText.{needs_by_text};
ghost use Rattle.vc_session.specs.Replay.{generated_script};
ghost use Rattle.vc_session.specs.Rows.{at_first, four_words, quiet_words, stat_words, with_kinds};
ghost use Rattle.vc_session.specs.Run.{run_from, script};
ghost use Rattle.vc_session.specs.Text.{text_of};
ghost use Rattle.vc_session.specs.declared.style.Style.TheVariants.{Quiet};

/// A refused segment is printed behind the number of its line, and its need is found there.
pub fn quiet_segment()
    ensures text { text_of quiet_words false 2 (run_from at_first (script Vmreplay
        (codes "open r best 1\nalloc r a 1048576\n")) ((2, ForBlock) ∷ []))
        ≡ codes "2 refused: no segment\nlines 2\ndone 1\nrefused 1\nlent 0 0\npeak 0\n" }
    ensures needs { needs_by_text Quiet (1 ∷ 2 ∷ [])
        (codes "2 refused: no segment\nlines 2\ndone 1\nrefused 1\nlent 0 0\npeak 0\n")
        ≡ (1, NoNeed) ∷ (2, ForBlock) ∷ [] }
{}

/// What was freed and what went back stays counted, and a refusal that is none of a segment isn't printed.
pub fn quiet_counts()
    ensures { text_of quiet_words false 6 (run_from at_first (script Vmreplay
        (codes "open r best 1\nalloc r a 100\nalloc r b 50\nfree r a\nfree r c\nclose r\n")) [])
        ≡ codes "lines 6\ndone 5\nrefused 1\nlent 1 4096\npeak 150\n" }
{}

/// The numbers of a region that is open at the end.
pub fn numbers_behind()
    ensures { text_of stat_words false 2 (run_from at_first (script Vmreplay
        (codes "open r best 1\nalloc r a 100\n")) [])
        ≡ codes "r open\na 1:32\nstat r busy 1 free 1 sbusy 100 sfree 3936 mbusy 100 mfree 3936 segs 1 extent 4096\n" }
{}

/// Four generated commands on blocks.
pub fn generated_on_blocks()
    ensures { text_of four_words false 6 (run_from at_first (generated_script Vmreplay four_words 4) [])
        ≡ codes "lines 6\ndone 6\nrefused 0\nlent 1 4096\npeak 1591\n" }
{}

/// Four generated commands on a dictionary.
pub fn generated_on_objects()
    ensures { text_of four_words false 8 (run_from with_kinds (generated_script Dtrun four_words 4) [])
        ≡ codes "lines 8\ndone 8\nrefused 0\nlent 1 4096\npeak 72\n" }
{}
