ghost use Rattle.std.specs.Prelude.{◌≡◌, ◌++◌, ℕ, [], ◌∷◌, Some, codes, List};
ghost use Rattle.vc_commands.specs.FreedNames.{with_line, without_name};
ghost use Rattle.vc_commands.specs.Whole.{with_labels};
ghost use Rattle.vc_script.specs.Needs.{ForBlock};
ghost use Rattle.vc_script.specs.declared.line_fault.LineFault.TheVariants.{UnknownCommand};
ghost use Rattle.vc_script.specs.declared.tool.Tool.TheVariants.{Vmreplay};
ghost use Rattle.vc_session.specs.Rows.{at_first, block_with, gap_behind, moved_state, parsed_state};
ghost use Rattle.vc_session.specs.Rows.{part_from, text_from, text_refusing, with_kept};
ghost use Rattle.vc_session.specs.Run.{first_bad};

/// Lines, bad ones too.
pub fn line_rows()
    // The empty input writes nothing.
    ensures empty { text_from at_first [] ≡ [] }
    // A region is opened and a block allocated.
    ensures first_block { text_from at_first
        (codes "open r best 1\nalloc r a 100\n") ≡ codes "r open\na 1:32\n" }
    // The commands before a bad line are run, and none behind it.
    ensures bad_line { text_from at_first
        (codes "open r best 1\nalloc r a 1\nfrobnicate\nalloc r b 1")
        ≡ codes "r open\na 1:32\n" }
    ensures fault { first_bad Vmreplay
        (codes "open r best 1\nalloc r a 1\nfrobnicate\nalloc r b 1") ≡ Some (3, UnknownCommand) }
{}

/// Gaps are taken, left and merged.
pub fn gap_rows()
    // A gap that a free leaves is taken again, and a freed block merges with the gaps beside it.
    ensures freed_gap { text_from at_first
        (codes "open r best 1\nalloc r a 100\nalloc r b 1\nfree r a\nalloc r c 100\n")
        ≡ codes "r open\na 1:32\nb 1:160\na freed\nc 1:32\n" }
    // Of two gaps of the same size the one with the lower offset is taken first.
    ensures tie { text_from at_first
        (codes "open r best 1\nalloc r a 100\nalloc r b 1\nalloc r c 100\n"
        ++ codes "alloc r d 1\nfree r a\nfree r c\nalloc r e 100\nalloc r f 100\n")
        ≡ codes "r open\na 1:32\nb 1:160\nc 1:192\nd 1:320\na freed\nc freed\ne 1:32\nf 1:192\n" }
    // A freed block merges with a gap on each side.
    ensures merging { text_from at_first
        (codes "open r best 1\nalloc r a 1\nalloc r b 1\nalloc r c 1\nalloc r d 1\n"
        ++ codes "free r a\nfree r c\nfree r b\nstat r\nalloc r e 80\n")
        ≡ codes "r open\na 1:32\nb 1:64\nc 1:96\nd 1:128\na freed\nc freed\nb freed\n"
        ++ codes "busy 1 free 2 sbusy 1 sfree 4032 mbusy 1 mfree 3936 segs 1 extent 4096\n"
        ++ codes "e 1:32\n" }
    // A block at an offset that 4,096 divides.
    ensures aligned { text_from at_first
        (codes "open r best 1\nalign r a 10 4096\nstat r\n")
        ≡ codes "r open\na 1:4096\n"
        ++ codes "busy 1 free 2 sbusy 10 sfree 8128 mbusy 10 mfree 4064 segs 1 extent 8192\n" }
    // A block grows into the gap behind it, and can't grow further where it is.
    ensures fixed { text_from at_first
        (codes "open r best 1\nalloc r a 9\nalloc r b 9\nalloc r c 1\nfree r b\n"
        ++ codes "resize r a 48 fixed\nresize r a 49 fixed\n")
        ≡ codes "r open\na 1:32\nb 1:64\nc 1:96\nb freed\na 1:32\nrefused: cannot grow here\n" }
{}

/// What is refused, and what was not asked for.
pub fn refusal_rows()
    // A segment is refused once, and granted when the block is asked for again.
    ensures refused_segment { text_refusing ((3, ForBlock) ∷ [])
        (codes "open r best 1\nalloc r a 4000\nalloc r b 4000\nalloc r b 4000\n"
        ++ codes "alloc q a 1\nalloc r c 0\n")
        ≡ codes "r open\na 1:32\nrefused: no segment\nb 2:32\nrefused: no region\nrefused: size\n" }
    // A block that isn't there can't be freed, nor a region closed twice.
    ensures free_and_close { text_from at_first
        (codes "open r best 1\nalloc r a 1\nfree r x\nfree r a\nclose r\nclose r\n")
        ≡ codes "r open\na 1:32\nrefused: no block\na freed\nr closed 1\nrefused: no region\n" }
    // A region that asked for no segment gives none back, and its place is free again.
    ensures closed_empty { text_from at_first
        (codes "open r best 1\nclose r\nopen q best 1")
        ≡ codes "r open\nr closed 0\nq open\n" }
    // A region, a place and a name in use are refused, and a size and a range that aren't legal.
    ensures refusals { text_from at_first
        (codes "open r best 3\nopen r best 1\nopen r best 1\nopen s best 1\n"
        ++ codes "alloc r a 1\nalloc r a 0\nalloc r b 0\nsize r b\nread r a 0 2\n")
        ≡ codes "refused: no such discipline\nr open\nrefused: region exists\n"
        ++ codes "refused: discipline in use\na 1:32\nrefused: block exists\n"
        ++ codes "refused: size\nrefused: no block\nrefused: range\n" }
{}

/// What is told of a region.
pub fn told_rows()
    // The numbers of a region with a gap before its one block and one behind it.
    ensures numbers { text_from at_first
        (codes "open r best 1\nalloc r a 100\nalloc r b 1\nfree r a\nstat r\n")
        ≡ codes "r open\na 1:32\nb 1:160\na freed\n"
        ++ codes "busy 1 free 2 sbusy 1 sfree 4032 mbusy 1 mfree 3904 segs 1 extent 4096\n" }
    // What is where in a region, and what is left of it.
    ensures told { text_from at_first
        (codes "open r best 1\nalloc r a 1\naddr r 1:32\naddr r 1:33\n"
        ++ codes "segment r 1:4096\nsegments r\nblocks r\nclear r\ncompact r\n")
        ≡ codes "r open\na 1:32\naddr a 0\naddr -1\nsegment -1\nsegments 1 1:4096\n"
        ++ codes "blocks 1 a@1:32+1\nr cleared\nr compacted 1\n" }
{}

/// Scripts in parts, each from the state that the part before left.
pub fn part_rows()
    // A block is written, and the one behind it is freed.
    ensures written { part_from at_first
        (codes "open r best 1\nalloc r a 100\nalloc r b 100\nalloc r c 1\n"
        ++ codes "write r a 0 hello\nfree r b\n")
        ≡ (codes "r open\na 1:32\nb 1:160\nc 1:288\na written 5\nb freed\n", gap_behind) }
    // It grows into the gap to its last byte, moves for one more, and keeps its bytes.
    ensures grown { text_from gap_behind
        (codes "resize r a 240 fixed\nresize r a 241 fixed\nresize r a 241 move\n"
        ++ codes "read r a 0 5\nread r a 240 1\n")
        ≡ codes "a 1:32\nrefused: cannot grow here\na 1:320\na 68656c6c6f\na 00\n" }
    // One parse of a longer script.
    ensures parsed { part_from at_first
        (codes "# one parse and one report\nopen heap best 1\nalloc heap conf 512\n"
        ++ codes "alloc heap line 80\nwrite heap line 0 GET%20/index\n"
        ++ codes "alloc heap word1 3\nalloc heap word2 6\nalloc heap node1 48\n"
        ++ codes "alloc heap node2 48\nalloc heap buf 1000\n")
        ≡ (
          codes "heap open\nconf 1:32\nline 1:576\nline written 10\nword1 1:672\n"
              ++ codes "word2 1:704\nnode1 1:736\nnode2 1:800\nbuf 1:864\n",
          parsed_state,
        ) }
    // Its line moves, and the gap that two words leave is taken.
    ensures line_moved { part_from parsed_state
        (codes "read heap line 0 3\nresize heap line 200 move\nfree heap word1\n"
        ++ codes "free heap word2\nalloc heap tok 100\nalloc heap c 16\n")
        ≡ (
          codes "line 474554\nline 1:1888\nword1 freed\nword2 freed\n"
              ++ codes "tok 1:576\nc 1:704\n",
          moved_state,
        ) }
    // A block moves to a segment of its own, and the gaps that are left are taken by size.
    ensures buffer_moved { text_from moved_state
        (codes "resize heap buf 3000 move\nalloc heap out 900\nalloc heap row1 64\n"
        ++ codes "alloc heap row2 64\n")
        ≡ codes "buf 2:32\nout 1:864\nrow1 1:1792\nrow2 2:3072\n" }
{}

/// Names that are kept as freed, with a line, and stand by name.
pub fn name_rows()
    // A name that is kept as freed is told with its line until a block takes it; a refused block leaves it kept.
    ensures kept_name { text_from with_kept
        (codes "size r b\nalloc r b 0\nfree r b\nresize r c 1 move\nalloc r b 1\nsize r b\n")
        ≡ codes "refused: freed at line 3\nrefused: size\nrefused: freed at line 3\n"
        ++ codes "refused: no block\nb 1:64\nb 1\n" }
    // A second free takes the new line, and all names of a region are kept with one line.
    ensures put { with_line (codes "a") 7 ((codes "b", 3) ∷ [])
        ≡ (codes "a", 7) ∷ (codes "b", 3) ∷ [] }
    ensures again { with_line (codes "b") 7 ((codes "b", 3) ∷ []) ≡ (codes "b", 7) ∷ [] }
    ensures taken { without_name (codes "b") ((codes "b", 3) ∷ []) ≡ [] }
    ensures all { with_labels
        (block_with (codes "c") 1 32 1 [] ∷ block_with (codes "a") 1 64 1 [] ∷ [])
        9 ((codes "b", 3) ∷ [])
        ≡ (codes "a", 9) ∷ (codes "b", 3) ∷ (codes "c", 9) ∷ [] }
{}
