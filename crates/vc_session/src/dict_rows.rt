ghost use Rattle.std.specs.Prelude.{◌≡◌, ◌++◌, codes};
ghost use Rattle.vc_session.specs.Rows.{dicts_text};

/// Lists, queues and stacks.
pub fn list_rows()
    // A list: an object goes before the current one, or behind it.
    ensures list_of_letters { dicts_text
        (codes "open r best 1\ndict l list r 1\ninsert l a\ninsert l b\nappend l c\nfirst l\n"
        ++ codes "insert l d\ndelete l d\nappend l e\nwalk l\n")
        ≡ codes "r open\nl open\nnew a\nnew b\nnew c\nfound b\nnew d\ngone d\nnew e\n"
        ++ codes "4 b e c a\n" }
    // A queue keeps the order of coming, and a region in which it lies is neither cleared nor closed before it is shut.
    ensures queue_in_region { dicts_text
        (codes "open r best 1\ndict q queue r 1\ninsert q a\ninsert q b\ninsert q a\nsearch q a\n"
        ++ codes "next q a\nprev q a\ndelete q a\nwalk q\nclear r\nempty q\nshut q\nclose r\n")
        ≡ codes "r open\nq open\nnew a\nnew b\nnew a\nfound a\nnone\nnone\ngone a\n2 b a\n"
        ++ codes "refused: busy\nq empty 2\nq shut\nr closed 1\n" }
    // Of a stack and of a queue the first object goes where none is named, and of a set none.
    ensures unnamed_deletes { dicts_text
        (codes "open r best 1\ndict s stack r 1\ninsert s a\ninsert s b\ninsert s c\nwalk s\n"
        ++ codes "delete s\ndict q queue r 1\ninsert q a\ninsert q b\nwalk q\ndelete q\n"
        ++ codes "dict t set r 1\ninsert t a\ndelete t\n")
        ≡ codes "r open\ns open\nnew a\nnew b\nnew c\n3 c b a\ngone c\nq open\nnew a\nnew b\n"
        ++ codes "2 a b\ngone a\nt open\nnew a\nnone\n" }
{}

/// Sets and bags, and what becomes of them by another method.
pub fn set_rows()
    // An ordered set stands in the order of its keys, and keeps the object that another one matches.
    ensures ordered_set_of_fruit { dicts_text
        (codes "open r best 1\ndict d oset r 1\ninsert d pear\ninsert d apple\ninsert d pear\n"
        ++ codes "walk d\n")
        ≡ codes "r open\nd open\nnew pear\nnew apple\nold pear\n2 apple pear\n" }
    // An ordered bag without regard to the case of letters: those that match stand in the order of coming, and the
    // first goes.
    ensures ordered_bag_without_case { dicts_text
        (codes "open r best 1\ndict d obag r 3\ninsert d b\ninsert d A\ninsert d B\nwalk d\n"
        ++ codes "delete d b\nwalk d\n")
        ≡ codes "r open\nd open\nnew b\nnew A\nnew B\n3 A b B\ngone b\n2 A B\n" }
    // A bag becomes a set that keeps one of the objects that match, and only its table is left when it is emptied.
    ensures bag_to_set { dicts_text
        (codes "open r best 1\ndict d bag r 1\ninsert d a\ninsert d a\ndetach d a\ncount d\n"
        ++ codes "attach d b\nmethod d set\nwalk d\nmethod d set\nempty d\nblocks r\n")
        ≡ codes "r open\nd open\nnew a\nnew a\nout a\n1\nnew b\nd method set\n2 a b\n"
        ++ codes "d method set\nd empty 2\nblocks 1 *@1:32+128\n" }
    // A bag becomes an ordered set without the later of two that match, and that a stack in its order.
    ensures bag_to_stack { dicts_text
        (codes "open r best 1\ndict d bag r 3\ninsert d b\ninsert d B\ninsert d a\n"
        ++ codes "method d oset\nwalk d\nmethod d stack\ninsert d z\nwalk d\n")
        ≡ codes "r open\nd open\nnew b\nnew B\nnew a\nd method oset\n2 a b\nd method stack\n"
        ++ codes "new z\n3 z a b\n" }
{}

/// Kinds that make an object of a part of the word.
pub fn kind_rows()
    // A text ends at a zero byte; a clip has eight bytes where it is made, and all of them where it is attached.
    ensures text_and_clip { dicts_text
        (codes "open r best 1\ndict d set r 2\ninsert d a%00x\ninsert d a%00y\n"
        ++ codes "dict c set r 6\ninsert c abcdefghij\nattach c abcdefghij\ndelete c abcdefgh\n"
        ++ codes "attach c abcdefghij\nmatch c abcdefgh\nmatch c abcdefghij\n")
        ≡ codes "r open\nd open\nnew a%00x\nold a%00x\nc open\nnew abcdefgh\nold abcdefgh\n"
        ++ codes "gone abcdefgh\nnew abcdefghij\nfound abcdefghij\nnone\n" }
{}
