ghost use Rattle.std.specs.Prelude.{◌≡◌, ℕ, ◌+◌, [], ◌∷◌, true, false, Some, None, codes, length};
ghost use Rattle.std.specs.List.{AllByRecursion};
ghost use Rattle.vc_base.specs.declared.dict_method.DictMethod.TheVariants.{DtOset};
ghost use Rattle.vc_seg.specs.declared.method.Method.TheVariants.{VmBest};
ghost use Rattle.vc_script.specs.Proper.{IsProperCommand};
ghost use Rattle.vc_script.specs.declared.command.Command.TheVariants as command;
ghost use Rattle.vc_script.specs.declared.tool.Tool.{Tool};
ghost use Rattle.vc_script.specs.declared.tool.Tool.TheVariants.{Dtrun, Vmreplay};
ghost use Rattle.vc_generate.specs.Four.{four_on_blocks, four_on_objects};
ghost use Rattle.vc_generate.specs.Generated.{commands_of_seed};
ghost use Rattle.vc_generate.specs.Pairs.{are_paired};
ghost use Rattle.vc_generate.specs.Words.{generated_words};

/// The first words of seed 42 at stream 54, as PCG's reference program prints them.
pub fn reference_words()
    ensures { generated_words 42 5 ≡ 0xa15c02b7 ∷ 0x7b47f409 ∷ 0xba1d3330 ∷ 0x83d2f293 ∷ 0xbfa4784b ∷ [] }
{}

/// vmreplay has two commands more than words, and dtrun four. The names in each are names of the script language, and
/// the numbers are its numbers. vmreplay allocates no block that stands, and resizes and frees none that doesn't.
pub fn generated_commands()
    ensures vmreplay { (count seed : ℕ) → length (commands_of_seed Vmreplay count seed) ≡ count + 2 }
    ensures dtrun { (count seed : ℕ) → length (commands_of_seed Dtrun count seed) ≡ count + 4 }
    ensures proper { (tool : Tool) (count seed : ℕ)
        → AllByRecursion IsProperCommand (commands_of_seed tool count seed) }
    ensures paired { (count seed : ℕ)
        → are_paired (λ _. false) (commands_of_seed Vmreplay count seed) ≡ true }
{}

/// Commands on blocks: a taken place is resized, and stays taken, or is given back, and may be taken again.
pub fn generated_blocks()
    ensures one { commands_of_seed Vmreplay 1 42 ≡ command.OpenRegion (codes "r") VmBest 1
        ∷ command.Alloc (codes "r") (codes "x183") 851 None
        ∷ command.CloseRegion (codes "r") ∷ [] }
    ensures resized { commands_of_seed Vmreplay 2 89 ≡ command.OpenRegion (codes "r") VmBest 1
        ∷ command.Alloc (codes "r") (codes "x141") 885 None
        ∷ command.Resize (codes "r") (codes "x141") 419 true
        ∷ command.CloseRegion (codes "r") ∷ [] }
    ensures freed { commands_of_seed Vmreplay 2 545 ≡ command.OpenRegion (codes "r") VmBest 1
        ∷ command.Alloc (codes "r") (codes "x187") 403 None
        ∷ command.Free (codes "r") (codes "x187")
        ∷ command.CloseRegion (codes "r") ∷ [] }
    ensures both { commands_of_seed Vmreplay 6 1124 ≡ command.OpenRegion (codes "r") VmBest 1
        ∷ command.Alloc (codes "r") (codes "x45") 435 None
        ∷ command.Alloc (codes "r") (codes "x132") 537 None
        ∷ command.Alloc (codes "r") (codes "x122") 476 None
        ∷ command.Resize (codes "r") (codes "x132") 68 true
        ∷ command.Alloc (codes "r") (codes "x84") 277 None
        ∷ command.Free (codes "r") (codes "x132")
        ∷ command.CloseRegion (codes "r") ∷ [] }
    ensures five { commands_of_seed Vmreplay 5 1 ≡ command.OpenRegion (codes "r") VmBest 1
        ∷ command.Alloc (codes "r") (codes "x169") 694 None
        ∷ command.Alloc (codes "r") (codes "x72") 229 None
        ∷ command.Alloc (codes "r") (codes "x239") 321 None
        ∷ command.Alloc (codes "r") (codes "x212") 948 None
        ∷ command.Alloc (codes "r") (codes "x242") 341 None
        ∷ command.CloseRegion (codes "r") ∷ [] }
    ensures again { commands_of_seed Vmreplay 4 601 ≡ command.OpenRegion (codes "r") VmBest 1
        ∷ command.Alloc (codes "r") (codes "x85") 417 None
        ∷ command.Alloc (codes "r") (codes "x195") 61 None
        ∷ command.Free (codes "r") (codes "x85")
        ∷ command.Alloc (codes "r") (codes "x85") 731 None
        ∷ command.CloseRegion (codes "r") ∷ [] }
{}

/// Commands on objects.
pub fn generated_objects()
    ensures one { commands_of_seed Dtrun 1 42 ≡ command.OpenRegion (codes "r") VmBest 1
        ∷ command.OpenDict (codes "d") DtOset (codes "r") 1
        ∷ command.Search (codes "d") (codes "k850")
        ∷ command.Shut (codes "d")
        ∷ command.CloseRegion (codes "r") ∷ [] }
    ensures two { commands_of_seed Dtrun 2 42 ≡ command.OpenRegion (codes "r") VmBest 1
        ∷ command.OpenDict (codes "d") DtOset (codes "r") 1
        ∷ command.Search (codes "d") (codes "k850")
        ∷ command.Insert (codes "d") (codes "k348")
        ∷ command.Shut (codes "d")
        ∷ command.CloseRegion (codes "r") ∷ [] }
    ensures five { commands_of_seed Dtrun 5 1 ≡ command.OpenRegion (codes "r") VmBest 1
        ∷ command.OpenDict (codes "d") DtOset (codes "r") 1
        ∷ command.Insert (codes "d") (codes "k693")
        ∷ command.Insert (codes "d") (codes "k228")
        ∷ command.Search (codes "d") (codes "k320")
        ∷ command.Insert (codes "d") (codes "k947")
        ∷ command.Delete (codes "d") (Some (codes "k340"))
        ∷ command.Shut (codes "d")
        ∷ command.CloseRegion (codes "r") ∷ [] }
{}

/// The commands of the first four words of seed 42.
pub fn generated_fours()
    ensures blocks { commands_of_seed Vmreplay 4 42 ≡ four_on_blocks }
    ensures objects { commands_of_seed Dtrun 4 42 ≡ four_on_objects }
{}
