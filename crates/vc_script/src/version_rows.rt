ghost use Rattle.std.specs.Prelude.{◌≡◌, ◌≢◌, ℕ, List, [], ◌∷◌, Bool, None, true, false, codes};
ghost use Rattle.vc_seg.specs.declared.method.Method.TheVariants.{VmBest};
ghost use Rattle.vc_script.specs.Answer.{answer};
ghost use Rattle.vc_script.specs.Lines.{without_cr};
ghost use Rattle.vc_script.specs.Words.{words};
ghost use Rattle.vc_script.specs.declared.command.Command.TheVariants.{OpenRegion, Alloc, Shut};
ghost use Rattle.vc_script.specs.declared.line_answer.LineAnswer.TheVariants.{Blank, Is, Version, Bad};
ghost use Rattle.vc_script.specs.declared.line_fault.LineFault.TheVariants.{UnknownCommand, WordCount, BadName, BadNumber, UnknownVersion};
ghost use Rattle.vc_script.specs.declared.tool.Tool.{Tool};
ghost use Rattle.vc_script.specs.declared.tool.Tool.TheVariants.{Vmreplay, Dtrun};

/// The first line tells the version, 1 or 2, in any spelling of a number.
pub fn versions()
    ensures one { answer Vmreplay true (codes "vc 1") ≡ Version 1 }
    ensures two { answer Vmreplay true (codes "vc 2") ≡ Version 2 }
    ensures of_dtrun { answer Dtrun true (codes "vc 2") ≡ Version 2 }
    ensures leading_zero { answer Vmreplay true (codes "vc 02") ≡ Version 2 }
    ensures ten_digits { answer Vmreplay true (codes "vc 0000000002") ≡ Version 2 }
    ensures blanks { answer Vmreplay true (codes " vc \t2  ") ≡ Version 2 }
    ensures before_a_cr { answer Vmreplay true (without_cr (codes " vc 2\r")) ≡ Version 2 }
{}

/// The number of words is judged first, then whether the second is a number, then which.
pub fn no_versions()
    ensures count_none { answer Vmreplay true (codes "vc") ≡ Bad WordCount }
    ensures count_more { answer Vmreplay true (codes "vc 2 3") ≡ Bad WordCount }
    ensures count_first { answer Vmreplay true (codes "vc x 2") ≡ Bad WordCount }
    ensures count_many { answer Dtrun true (codes "vc 1 2 3 4 5 6 7") ≡ Bad WordCount }
    ensures no_number { answer Vmreplay true (codes "vc x") ≡ Bad BadNumber }
    ensures sign { answer Vmreplay true (codes "vc +2") ≡ Bad BadNumber }
    ensures eleven_digits { answer Vmreplay true (codes "vc 12345678901") ≡ Bad BadNumber }
    ensures eleven_with_zeros { answer Vmreplay true (codes "vc 00000000002") ≡ Bad BadNumber }
    ensures cr_in_word { answer Vmreplay true (codes "vc 2\r") ≡ Bad BadNumber }
    ensures zero { answer Vmreplay true (codes "vc 0") ≡ Bad UnknownVersion }
    ensures three { answer Vmreplay true (codes "vc 3") ≡ Bad UnknownVersion }
    ensures greatest { answer Dtrun true (codes "vc 4294967295") ≡ Bad UnknownVersion }
{}

/// On a later line `vc` is no command, whatever stands behind it.
pub fn later_lines()
    ensures one { answer Vmreplay false (codes "vc 1") ≡ Bad UnknownCommand }
    ensures two { answer Dtrun false (codes "vc 2") ≡ Bad UnknownCommand }
    ensures leading_zero { answer Vmreplay false (codes "vc 02") ≡ Bad UnknownCommand }
    ensures before_a_cr { answer Vmreplay false (without_cr (codes " vc 2\r")) ≡ Bad UnknownCommand }
    ensures count_none { answer Vmreplay false (codes "vc") ≡ Bad UnknownCommand }
    ensures count_more { answer Vmreplay false (codes "vc 2 3") ≡ Bad UnknownCommand }
    ensures no_number { answer Vmreplay false (codes "vc x") ≡ Bad UnknownCommand }
    ensures eleven_digits { answer Dtrun false (codes "vc 12345678901") ≡ Bad UnknownCommand }
    ensures zero { answer Vmreplay false (codes "vc 0") ≡ Bad UnknownCommand }
    ensures three { answer Vmreplay false (codes "vc 3") ≡ Bad UnknownCommand }
{}

/// A first line with another first word is read as any line is.
pub fn other_first_lines()
    ensures alike { (tool : Tool) (first : Bool) (line word : List ℕ) (others : List (List ℕ))
        → words line ≡ word ∷ others
        → word ≢ codes "vc"
        → answer tool first line ≡ answer tool false line }
    ensures blank { (tool : Tool) (first : Bool) (line : List ℕ)
        → words line ≡ []
        → answer tool first line ≡ Blank }
    ensures comment { answer Vmreplay true (codes "# vc 2") ≡ Blank }
    ensures empty { answer Vmreplay true [] ≡ Blank }
    ensures open { answer Vmreplay true (codes "open r best 1") ≡ Is (OpenRegion (codes "r") VmBest 1) }
    ensures alloc { answer Dtrun true (codes "alloc r a 100")
        ≡ Is (Alloc (codes "r") (codes "a") 100 None) }
    ensures shut { answer Dtrun true (codes "shut d") ≡ Is (Shut (codes "d")) }
    ensures no_dictionaries { answer Vmreplay true (codes "shut d") ≡ Bad UnknownCommand }
    ensures bad_name { answer Vmreplay true (codes "open 9r best 1") ≡ Bad BadName }
    ensures upper_case { answer Vmreplay true (codes "VC 2") ≡ Bad UnknownCommand }
    ensures longer { answer Vmreplay true (codes "vc2 2") ≡ Bad UnknownCommand }
    ensures word_cr { answer Vmreplay true (codes "vc\r 2") ≡ Bad UnknownCommand }
{}
