ghost use Rattle.std.specs.Prelude.{◌≡◌, ◌++◌, ℕ, [], ◌∷◌, codes, List};
ghost use Rattle.vc_script.specs.Needs.{ForBlock};
ghost use Rattle.vc_session.specs.Rows.{at_first, text_from, text_refusing};

/// Pools.
pub fn pool_rows()
    // The cell that was freed last is taken first, and the first block sets the greatest size.
    ensures pool { text_from at_first
        (codes "open r pool 1\nalloc r a 24\nalloc r b 24\nalloc r c 25\nalloc r c 8\n"
        ++ codes "free r a\nfree r c\nalloc r d 24\nalloc r e 24\nalloc r f 24\n"
        ++ codes "resize r f 25 move\n")
        ≡ codes "r open\na 1:32\nb 1:64\nrefused: pool size\nc 1:96\n"
        ++ codes "a freed\nc freed\nd 1:96\ne 1:32\nf 1:128\nrefused: pool size\n" }
    // The numbers of a pool whose segment has 127 cells, one of them with a block.
    ensures pool_numbers { text_from at_first
        (codes "open r pool 1\nalloc r a 16\nstat r\nclose r\n")
        ≡ codes "r open\na 1:32\n"
        ++ codes "busy 1 free 126 sbusy 16 sfree 4032 mbusy 16 mfree 32 segs 1 extent 4096\n"
        ++ codes "r closed 1\n" }
{}

/// Regions of which only the latest block is freed.
pub fn last_rows()
    // Only the block that was allocated latest is freed.
    ensures last { text_from at_first
        (codes "open r last 1\nalloc r a 10\nalloc r b 100\nfree r a\nfree r b\n"
        ++ codes "free r a\nfree r a\n")
        ≡ codes "r open\na 1:32\nb 1:64\nrefused: not last\nb freed\na freed\nrefused: no block\n" }
    // The latest block grows in place, and moves where it can't.
    ensures last_resized { text_from at_first
        (codes "open s last 1\nalloc s a 16\nresize s a 20 fixed\nresize s a 5000 move\n"
        ++ codes "compact s\nclose s\n")
        ≡ codes "s open\na 1:32\na 1:32\na 2:32\ns compacted 1\ns closed 1\n" }
{}

/// Refusals.
pub fn refusal_rows()
    // A segment that is refused for the only block leaves the region as it was.
    ensures refused_budget { text_refusing ((2, ForBlock) ∷ [])
        (codes "open r best 1\nalloc r a 1048576\nstat r\n")
        ≡ codes "r open\nrefused: no segment\n"
        ++ codes "busy 0 free 0 sbusy 0 sfree 0 mbusy 0 mfree 0 segs 0 extent 0\n" }
    // The refusals of these methods, in order.
    ensures method_refusals { text_from at_first
        (codes "open r pool 1\nalloc r a 1\nalign r a 0 3\nalign r x 0 3\nalign r x 1 32\n"
        ++ codes "resize r a 0 move\nresize r a 2 move\nalloc r x 2\n")
        ≡ codes "r open\na 1:32\nrefused: block exists\nrefused: wrong method\n"
        ++ codes "refused: wrong method\nrefused: size\nrefused: pool size\nrefused: pool size\n" }
{}
