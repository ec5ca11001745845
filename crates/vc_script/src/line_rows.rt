ghost use Rattle.std.specs.Prelude.{◌≡◌, ℕ, ◌+◌, ◌<◌, List, ◌++◌, [], ◌∷◌, true, codes, length, replicate};
ghost use Rattle.std.specs.List.{concat};
ghost use Rattle.vc_script.specs.Cutting.{new_cutting};
ghost use Rattle.vc_script.specs.Cutter.{result_of_feed};
ghost use Rattle.vc_script.specs.Judged.{judge, judged_lines, judged_from};
ghost use Rattle.vc_script.specs.Lines.{lines, without_cr};
ghost use Rattle.vc_script.specs.Pieces.{found_in};
ghost use Rattle.vc_script.specs.declared.cutter.Cut.TheVariants as cut;
ghost use Rattle.vc_script.specs.declared.line_fault.LineFault.TheVariants.{LineTooLong, TooManyLines};

/// However an input is cut into pieces, empty ones among them, the whole lines that `feed` and `end` find, their numbers
/// and the fault are those of the input. Each line takes one call, each piece one more, and the end one.
pub fn pieces_joined()
    ensures { (pieces : List (List ℕ)) → (calls : ℕ)
        → length (concat pieces) + length pieces < calls
        → found_in calls new_cutting pieces
        ≡ judged_lines (concat pieces) }
{}

/// An input is cut at newlines: two newlines have an empty line between them, and the last line needs none.
pub fn cut_lines()
    ensures two { lines (codes "open r best 1\n\nalloc r a 100")
        ≡ codes "open r best 1" ∷ [] ∷ codes "alloc r a 100" ∷ [] }
    ensures ended { lines (codes "# x\n") ≡ codes "# x" ∷ [] }
    ensures empty { lines [] ≡ [] }
    ensures newline { lines (codes "\n") ≡ [] ∷ [] }
{}

/// Only a CR that is the last byte of a line is dropped.
pub fn carriage_returns()
    ensures last { without_cr (codes "alloc r a 1\r") ≡ codes "alloc r a 1" }
    ensures two { without_cr (codes "a\r\r") ≡ codes "a\r" }
    ensures inner { without_cr (codes "\ra") ≡ codes "\ra" }
    ensures empty { without_cr [] ≡ [] }
{}

/// Lines are numbered from 1, and the last one needs no newline.
pub fn numbered_lines()
    ensures crs { judged_lines (codes "a\r\n\nb\r")
        ≡ (1, Ok (codes "a")) ∷ (2, Ok []) ∷ (3, Ok (codes "b")) ∷ [] }
    ensures empty { judged_lines [] ≡ [] }
{}

/// A line of 4,096 bytes is one, also where they end in a CR; one byte more is too many, also where it is a CR, in a
/// comment and in a blank line. The number of a line is at most 2,147,483,647.
pub fn limits()
    ensures longest { judge 1 (replicate 4096 97) ≡ Ok (replicate 4096 97) }
    ensures with_cr { judge 1 (replicate 4095 97 ++ 13 ∷ []) ≡ Ok (replicate 4095 97) }
    ensures cr_too_long { judge 1 (replicate 4096 97 ++ 13 ∷ []) ≡ Err LineTooLong }
    ensures blank_too_long { judge 1 (replicate 4097 32) ≡ Err LineTooLong }
    ensures comment_too_long { judge 1 (35 ∷ replicate 4096 97) ≡ Err LineTooLong }
    ensures last_number { judge 2147483647 (codes "a") ≡ Ok (codes "a") }
    ensures too_many { judge 2147483648 [] ≡ Err TooManyLines }
    ensures too_many_first { judge 2147483648 (replicate 4097 97) ≡ Err TooManyLines }
    ensures nothing_behind { judged_from 1 (replicate 4097 97 ∷ codes "a" ∷ [])
        ≡ (1, Err LineTooLong) ∷ [] }
{}

/// One call of `feed`: what it keeps, answers and takes.
pub fn fed_pieces()
    ensures more { result_of_feed new_cutting (codes "ab") ≡ record {
      after = record { kept = codes "ab"; count = 0; line = []; is_open = true };
      cut = cut.More;
      used = 2;
    } }
    ensures whole { result_of_feed (record { kept = codes "a"; count = 6; line = []; is_open = true })
        (codes "b\r\ncd")
        ≡ record {
          after = record { kept = []; count = 7; line = codes "ab"; is_open = true };
          cut = cut.Whole;
          used = 3;
        } }
    ensures nothing { result_of_feed new_cutting []
        ≡ record { after = new_cutting; cut = cut.More; used = 0 } }
{}
