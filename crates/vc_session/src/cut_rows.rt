ghost use Rattle.std.specs.Prelude.{◌≡◌, [], ◌∷◌, ◌++◌, None, Some, codes, false};
ghost use Rattle.vc_script.specs.Needs.{ForBlock, NoNeed};
ghost use Rattle.vc_script.specs.declared.tool.Tool.TheVariants.{Vmreplay};
ghost use Rattle.vc_session.specs.Cut.{IsFurther, with_further};
ghost use Rattle.vc_session.specs.QuietText.{needs_by_text};
ghost use Rattle.vc_session.specs.Rows.{at_first, no_words, quiet_words};
ghost use Rattle.vc_session.specs.Run.{run_from, script};
ghost use Rattle.vc_session.specs.Text.{text_of};
ghost use Rattle.vc_session.specs.declared.style.Style.TheVariants.{Plain, Quiet};

/// A text that ends within the line of a refused segment shows no need there. For that further need the text goes on
/// with the rest of the line; without it another reply would stand there.
pub fn within_refusal()
    ensures needs { needs_by_text Plain (1 ∷ 2 ∷ []) (codes "r open\nrefused: no seg")
        ≡ (1, NoNeed) ∷ [] }
    ensures further { IsFurther ((1, NoNeed) ∷ []) (Some (2, ForBlock)) }
    ensures text { text_of no_words false 2 (run_from at_first (script Vmreplay
        (codes "open r best 1\nalloc r a 4000\n")) (with_further ((1, NoNeed) ∷ []) (Some (2, ForBlock))))
        ≡ codes "r open\nrefused: no seg" ++ codes "ment\n" }
    ensures granted { text_of no_words false 2 (run_from at_first (script Vmreplay
        (codes "open r best 1\nalloc r a 4000\n")) (with_further ((1, NoNeed) ∷ []) None))
        ≡ codes "r open\na 1:32\n" }
{}

/// A quiet text that ends within the number of a line shows no need of any line.
pub fn within_number()
    ensures needs { needs_by_text Quiet (11 ∷ 12 ∷ []) (codes "1")
        ≡ (11, NoNeed) ∷ (12, NoNeed) ∷ [] }
    ensures further { IsFurther ((11, NoNeed) ∷ (12, NoNeed) ∷ []) (Some (12, ForBlock)) }
    ensures text { text_of quiet_words false 12 (run_from at_first (script Vmreplay
        (codes "\n\n\n\n\n\n\n\n\n\nopen r best 1\nalloc r a 4000\n"))
        (with_further ((11, NoNeed) ∷ (12, NoNeed) ∷ []) (Some (12, ForBlock))))
        ≡ codes "1" ++ codes "2 refused: no segment\nlines 12\ndone 1\nrefused 1\nlent 0 0\npeak 0\n" }
{}

/// A text that ends within what stands behind the replies shows each of their needs.
pub fn within_tail()
    ensures needs { needs_by_text Quiet (1 ∷ 2 ∷ []) (codes "2 refused: no segment\nlines 2\ndo")
        ≡ (1, NoNeed) ∷ (2, ForBlock) ∷ [] }
    ensures text { text_of quiet_words false 2 (run_from at_first (script Vmreplay
        (codes "open r best 1\nalloc r a 4000\n")) (with_further ((1, NoNeed) ∷ (2, ForBlock) ∷ []) None))
        ≡ codes "2 refused: no segment\nlines 2\ndo" ++ codes "ne 1\nrefused 1\nlent 0 0\npeak 0\n" }
{}
