ghost use Rattle.std.specs.Prelude.{◌≡◌, ◌++◌, codes};
ghost use Rattle.vc_session.specs.Rows.{dicts_text};

/// Dictionaries that view others.
pub fn view_rows()
    // A set over another one hides what it matches there, until that goes; neither is shut or turned while it is
    // viewed, and the lower one can't view the upper one.
    ensures set_over_set { dicts_text
        (codes "open r best 1\ndict up set r 5\ndict low set r 5\ninsert up key1-up\n"
        ++ codes "insert low key1-low\ninsert low key2\nview up low\nsearch up key1\nwalk up\n"
        ++ codes "delete up key1\nsearch up key1\nwalk up\nview low up\nshut low\nmethod up bag\n"
        ++ codes "close r\n")
        ≡ codes "r open\nup open\nlow open\nnew key1-up\nnew key1-low\nnew key2\nup views low\n"
        ++ codes "found key1-up\n2 key1-up key2\ngone key1-up\nfound key1-low\n2 key1-low key2\n"
        ++ codes "refused: view cycle\nrefused: viewed\nrefused: viewed\nrefused: busy\n" }
    // An ordered set over another one is seen with it in the order of keys.
    ensures ordered_over_ordered { dicts_text
        (codes "open r best 1\ndict a oset r 1\ndict b oset r 1\ninsert a pear\ninsert b apple\n"
        ++ codes "insert b pear\ninsert b zebra\nview a b\nwalk a\nfirst a\nnext a pear\n"
        ++ codes "next a quince\nlast a\nprev a apple\n")
        ≡ codes "r open\na open\nb open\nnew pear\nnew apple\nnew pear\nnew zebra\na views b\n"
        ++ codes "3 apple pear zebra\nfound apple\nfound zebra\nnone\nfound zebra\nnone\n" }
    // A bag hides no equal objects of its own layer, and all equal ones below; a removal acts on the first one alone,
    // and none views itself.
    ensures bag_over_bag { dicts_text
        (codes "open r best 1\ndict a bag r 1\ndict b bag r 1\ninsert b x\ninsert b x\n"
        ++ codes "insert b y\nview a b\nwalk a\ninsert a x\nwalk a\ndelete a y\nview a a\n"
        ++ codes "view a -\nwalk a\n")
        ≡ codes "r open\na open\nb open\nnew x\nnew x\nnew y\na views b\n3 x x y\nnew x\n"
        ++ codes "2 x y\nnone\nrefused: view cycle\na views -\n1 x\n" }
{}
