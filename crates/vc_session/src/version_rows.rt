ghost use Rattle.std.specs.Prelude.{◌≡◌, [], ◌∷◌, None, Some, codes, false, true};
ghost use Rattle.vc_script.specs.Needs.{ForBlock, NoNeed};
ghost use Rattle.vc_script.specs.declared.line_fault.LineFault.TheVariants.{UnknownCommand, UnknownVersion};
ghost use Rattle.vc_script.specs.declared.tool.Tool.TheVariants.{Dtrun, Vmreplay};
ghost use Rattle.vc_session.specs.QuietText.{needs_by_text};
ghost use Rattle.vc_session.specs.Rows.{at_first, no_words, quiet_words, stat_words};
ghost use Rattle.vc_session.specs.Run.{first_bad, is_second, run_from, script, version_of};
ghost use Rattle.vc_session.specs.Text.{text_of};
ghost use Rattle.vc_session.specs.declared.style.Style.TheVariants.{Numbered};

/// In version 2 each reply has its line's number in front, and a refused segment is told by the number.
pub fn numbered_replies()
    ensures second { is_second Vmreplay (codes "vc 2\nopen r best 1\n\nalloc r a 4000\nalloc r b 4000\n")
        ≡ true }
    ensures text { text_of no_words true 5 (run_from at_first (script Vmreplay
        (codes "vc 2\nopen r best 1\n\nalloc r a 4000\nalloc r b 4000\n")) ((5, ForBlock) ∷ []))
        ≡ codes "2 r open\n4 a 1:32\n5 refused: no segment\n" }
    ensures needs { needs_by_text Numbered (2 ∷ 4 ∷ 5 ∷ [])
        (codes "2 r open\n4 a 1:32\n5 refused: no segment\n")
        ≡ (2, NoNeed) ∷ (4, NoNeed) ∷ (5, ForBlock) ∷ [] }
{}

/// What stands behind the replies has no number, and a quiet text is the same in both versions.
pub fn without_numbers()
    ensures stat { text_of stat_words true 2 (run_from at_first (script Vmreplay
        (codes "vc 2\nopen r best 1\n")) [])
        ≡ codes "2 r open\nstat r busy 0 free 0 sbusy 0 sfree 0 mbusy 0 mfree 0 segs 0 extent 0\n" }
    ensures quiet { text_of quiet_words true 3 (run_from at_first (script Vmreplay
        (codes "vc 2\nopen r best 1\nalloc r a 4000\n")) ((3, ForBlock) ∷ []))
        ≡ codes "3 refused: no segment\nlines 3\ndone 1\nrefused 1\nlent 0 0\npeak 0\n" }
{}

/// Only the first line tells the version, and a script whose first line tells none is of version 1.
pub fn first_lines()
    ensures plain { version_of Vmreplay (codes "open r best 1\n") ≡ 1 }
    ensures empty { version_of Dtrun [] ≡ 1 }
    ensures first { version_of Dtrun (codes "vc 1\n") ≡ 1 }
    ensures second { version_of Dtrun (codes "vc 2") ≡ 2 }
    ensures later { first_bad Vmreplay (codes "# x\nvc 2\n") ≡ Some (2, UnknownCommand) }
    ensures third { first_bad Vmreplay (codes "vc 3\n") ≡ Some (1, UnknownVersion) }
    ensures good { first_bad Vmreplay (codes "vc 2\n") ≡ None }
{}
