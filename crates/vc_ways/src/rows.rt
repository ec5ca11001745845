ghost use Rattle.std.specs.Prelude.{◌≡◌, ◌++◌, [], ◌∷◌, Some, codes, false, map, true};
ghost use Rattle.vc_ways.specs.PoolWay.{class_bytes, class_of};
ghost use Rattle.vc_ways.specs.Rows.{after, alloc, free, last_places, live_after, resize, told_of_input};

/// Traces and their reports.
pub fn reports()
    // A block of 3,000 bytes goes where one was freed in the best region, but not in the last one, where a live block
    // stands behind it. The waste is that of the first of two commands with 4,000 live bytes.
    ensures freed_gap { told_of_input
        (codes "alloc t a 3000\nalloc t b 1000\nfree t a\nalloc t c 3000\n")
        ≡ codes "live 4000\nbest peak 4096 waste 96\nlast peak 8192 waste 96\n"
        ++ codes "pool peak 12288 waste 8288\n" }
    // Blocks of three classes, of which one changes its class.
    ensures three_classes { told_of_input
        (codes "alloc t a 100\nalloc t b 200\nfree t a\nalloc t c 90\nresize t b 300 move\n"
        ++ codes "free t b\nfree t c\n")
        ≡ codes "live 390\nbest peak 4096 waste 3706\nlast peak 4096 waste 3706\n"
        ++ codes "pool peak 12288 waste 11898\n" }
    // Comments, blank lines and sites belong to a trace.
    ensures site { told_of_input (codes "# one block\n\nalloc t a 4064 @main\n")
        ≡ codes "live 4064\nbest peak 8192 waste 4128\nlast peak 8192 waste 4128\n"
        ++ codes "pool peak 8192 waste 4128\n" }
    // Without a command.
    ensures none { told_of_input [] ≡ codes "live 0\nbest peak 0 waste 0\nlast peak 0 waste 0\npool peak 0 waste 0\n" }
{}

/// Lines that are outside of a trace, and one that is no command.
pub fn outside()
    ensures region { told_of_input (codes "alloc t a 10\nfree u a\n") ≡ codes "outside at 2" }
    ensures command { told_of_input (codes "open t best 1\n") ≡ codes "outside at 1" }
    ensures fixed { told_of_input (codes "alloc t a 10\nresize t a 20 fixed\n") ≡ codes "outside at 2" }
    ensures nothing { told_of_input (codes "alloc t a 0\n") ≡ codes "outside at 1" }
    ensures greatest { told_of_input (codes "alloc t a 16777217\n") ≡ codes "outside at 1" }
    ensures exists { told_of_input (codes "alloc t a 10\nalloc t a 10\n") ≡ codes "outside at 2" }
    ensures not_resized { told_of_input (codes "alloc t a 10\nresize t b 10 move\n")
        ≡ codes "outside at 2" }
    ensures freed { told_of_input (codes "alloc t a 10\nfree t a\nfree t a\n") ≡ codes "outside at 3" }
    ensures bad { told_of_input (codes "alloc t a 10\nfrob\nfree u a\n") ≡ codes "bad line 2" }
{}

/// A block goes into the least class that holds it.
pub fn classes_of_sizes()
    ensures class { map class_of (1 ∷ 32 ∷ 33 ∷ 64 ∷ 65 ∷ 8388609 ∷ 16777216 ∷ [])
        ≡ 0 ∷ 0 ∷ 1 ∷ 1 ∷ 2 ∷ 19 ∷ 19 ∷ [] }
    ensures bytes { map class_bytes (0 ∷ 1 ∷ 19 ∷ []) ≡ 32 ∷ 64 ∷ 16777216 ∷ [] }
{}

/// Blocks of 10, 20 and 30 bytes in a last region: the second is freed and stays as a dead one; the third is freed, and
/// both go.
pub fn dead_blocks()
    ensures middle { (after (alloc (codes "a") 10 ∷ alloc (codes "b") 20 ∷ alloc (codes "c") 30
        ∷ free (codes "b") ∷ [])).regions.last.dead ≡ false ∷ true ∷ false ∷ [] }
    ensures middle_places { last_places (after (alloc (codes "a") 10 ∷ alloc (codes "b") 20
        ∷ alloc (codes "c") 30 ∷ free (codes "b") ∷ [])) ≡ (1, 32) ∷ (1, 64) ∷ (1, 128) ∷ [] }
    ensures end { (after (alloc (codes "a") 10 ∷ alloc (codes "b") 20 ∷ alloc (codes "c") 30
        ∷ free (codes "b") ∷ free (codes "c") ∷ [])).regions.last.dead ≡ false ∷ [] }
    ensures end_places { last_places (after (alloc (codes "a") 10 ∷ alloc (codes "b") 20
        ∷ alloc (codes "c") 30 ∷ free (codes "b") ∷ free (codes "c") ∷ [])) ≡ (1, 32) ∷ [] }
    ensures all { (after (alloc (codes "a") 10 ∷ alloc (codes "b") 20 ∷ free (codes "a")
        ∷ free (codes "b") ∷ [])).regions.last.dead ≡ [] }
{}

/// A block of 10 bytes and one of 20 that get other sizes.
pub fn resizing()
    // The latest block grows where it is, in each way: its class is the same.
    ensures latest { live_after (alloc (codes "a") 10 ∷ alloc (codes "b") 20 ∷ resize (codes "b") 30 ∷ [])
        (codes "b")
        ≡ Some (record { size = 30; best = (1, 64); last = 1; cell = (1, 64) }) }
    ensures latest_places { last_places
        (after (alloc (codes "a") 10 ∷ alloc (codes "b") 20 ∷ resize (codes "b") 30 ∷ []))
        ≡ (1, 32) ∷ (1, 64) ∷ [] }
    // Another one stands anew behind it in the last region, even where it shrinks, and what it was is dead.
    ensures other { live_after (alloc (codes "a") 10 ∷ alloc (codes "b") 20 ∷ resize (codes "a") 5 ∷ [])
        (codes "a")
        ≡ Some (record { size = 5; best = (1, 32); last = 2; cell = (1, 32) }) }
    ensures other_dead { (after
        (alloc (codes "a") 10 ∷ alloc (codes "b") 20 ∷ resize (codes "a") 5 ∷ [])).regions.last.dead
        ≡ true ∷ false ∷ false ∷ [] }
    // A block that gets another class has the first cell there, and its old cell is the next one that is taken.
    ensures class { live_after (alloc (codes "a") 10 ∷ alloc (codes "b") 20 ∷ resize (codes "a") 33
        ∷ alloc (codes "c") 32 ∷ []) (codes "a")
        ≡ Some (record { size = 33; best = (1, 128); last = 2; cell = (1, 32) }) }
    ensures class_next { live_after (alloc (codes "a") 10 ∷ alloc (codes "b") 20
        ∷ resize (codes "a") 33 ∷ alloc (codes "c") 32 ∷ []) (codes "c")
        ≡ Some (record { size = 32; best = (1, 192); last = 3; cell = (1, 32) }) }
{}
