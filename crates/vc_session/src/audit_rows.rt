ghost use Rattle.std.specs.Prelude.{◌≡◌, ◌++◌, codes};
ghost use Rattle.vc_session.specs.Rows.{at_first, text_from};

/// Guards, watches, and names that are kept as freed.
pub fn guard_rows()
    // A block that is written stays whole, a watch tells its line, and of damage the least offset is told.
    ensures audited { text_from at_first
        (codes "open r debug 1\nalloc r x 100\nwrite r x 0 hi\ncheck r\nwatch r x\npoke r x 100 7\n"
        ++ codes "check r\npoke r x -1 0\ncheck r\nfree r x\nfree r x\nalloc r x 1\n")
        ≡ codes "r open\nx 1:64\nx written 2\ncheck 0\nx watched\nx poked watched 5\n"
        ++ codes "check 1 x:100\nx poked watched 5\ncheck 1 x:-1\nx freed watched 5\n"
        ++ codes "refused: freed at line 10\nx 1:64\n" }
    // A watch tells its line until the block is freed, and a name that was freed tells the line of its free.
    ensures watched { text_from at_first
        (codes "open r debug 1\nalloc r x 10\nwatch r x\npoke r x 9 7\nfree r x\nfree r x\n"
        ++ codes "alloc r x 1\nfree r x\n")
        ≡ codes "r open\nx 1:64\nx watched\nx poked watched 3\nx freed watched 3\n"
        ++ codes "refused: freed at line 5\nx 1:64\nx freed\n" }
    // Damaged blocks are told by address, and clearing a region keeps the names with its line.
    ensures damaged { text_from at_first
        (codes "open r debug 1\nalloc r x 100\nalloc r y 8\npoke r y 8 0\npoke r x -32 1\n"
        ++ codes "check r\nclear r\nfree r y\n")
        ≡ codes "r open\nx 1:64\ny 1:256\ny poked\nx poked\n"
        ++ codes "check 2 x:-32 y:8\nr cleared\nrefused: freed at line 7\n" }
{}

/// Refusals.
pub fn refusal_rows()
    // The refusals of these commands, in order.
    ensures audit_refusals { text_from at_first
        (codes "check r\nopen r debug 1\nalloc r x 8\npoke r y 99 999\npoke r x 24 0\n"
        ++ codes "poke r x -33 0\npoke r x 0 256\nprofile r\nclose r\nopen r best 1\n"
        ++ codes "watch r x\nalloc r x 8\nwatch r x\npoke r x 99 999\ncheck r\nprofile r\n")
        ≡ codes "refused: no region\nr open\nx 1:64\nrefused: no block\nrefused: range\n"
        ++ codes "refused: range\nrefused: range\nrefused: wrong method\nr closed 1\nr open\n"
        ++ codes "refused: no block\nx 1:32\nrefused: wrong method\nrefused: wrong method\n"
        ++ codes "refused: wrong method\nrefused: wrong method\n" }
{}

/// Sites.
pub fn site_rows()
    // Sites have rows in order of their first use, and a peak outlasts its blocks.
    ensures profiled { text_from at_first
        (codes "open r profile 1\nalloc r a 10 @main\nalloc r b 20 @read\nalloc r c 30 @main\n"
        ++ codes "free r a\nalloc r d 5\nprofile r\n")
        ≡ codes "r open\na 1:32\nb 1:64\nc 1:128\na freed\nd 1:32\n"
        ++ codes "profile 3 main=1,30,40 read=1,20,20 -=1,5,5\n" }
{}
