ghost use Rattle.vc_store.specs.Stores.Stores.{IsOpen, disc_of};
ghost use Rattle.vc_checked.specs.Checked.{rules_by};

use crate::loads::{fails, loaded};
use std::alloc::Global;
use std::process::Abort;
use std::test::Fail;
use vc_base::MemSink;
use vc_best::Best;
use vc_checked::{
    Answer, Move, at_least, close_dict, count, current, delete, empty_dict, go, insert, open_dict,
    search,
};
use vc_dtdisc::BuiltIn;
use vc_seg::{BoxedDisc, HeapDisc, SegDisc};
use vc_store::{Store, StoreSaveFault};

// Opens an ordered set, a stack and a bag, and puts words into them. The stack is closed then.
fn fill(rt: &impl Abort, store: &mut Store<BuiltIn>) -> Result<(), Fail>
    requires { IsOpen rules_by store.old (disc_of store.old state) }
    ensures { IsOpen rules_by store.new (disc_of store.new state) }
{
    let mut number = 99;
    for method in [2, 5, 1] {
        let opened = open_dict(store, method, 1, &mut number);
        assert_eq!(rt; opened, Answer::Done);
    }
    assert_eq!(rt; number, 2);
    let rows: [(usize, &'static str); 6] = [
        (0, "pear"),
        (1, "plum"),
        (2, "fig"),
        (2, "plum"),
        (2, "plum"),
        (0, "apple"),
    ];
    for (n, word) in rows {
        assert_eq!(rt; insert(store, n, word.as_bytes()), Answer::Done, "{word}");
    }
    assert_eq!(rt; close_dict(store, 1), Answer::Done);
    Ok(())
}

// The dictionaries show what was put into them, and lose it.
fn shows(rt: &impl Abort, alloc: Global, store: &mut Store<BuiltIn>) -> Result<(), Fail>
    requires { IsOpen rules_by store.old (disc_of store.old state) }
    ensures { IsOpen rules_by store.new (disc_of store.new state) }
{
    let mut out = *b".....";
    let mut length = 99;
    let mut objects = 99;
    assert_eq!(rt; current(store, 0, &mut out, &mut length), Answer::Done);
    assert_eq!(rt; (out, length), (*b"apple", 5));
    assert_eq!(rt;
        go(store, 0, Move::Next, &mut out, &mut length),
        Answer::Done
    );
    assert_eq!(rt; (out, length), (*b"peare", 4));
    assert_eq!(rt;
        search(store, 0, b"apple", &mut out, &mut length),
        Answer::Done
    );
    assert_eq!(rt; (out, length), (*b"apple", 5));
    assert_eq!(rt;
        at_least(store, 0, b"b", &mut out, &mut length),
        Answer::Done
    );
    assert_eq!(rt; (out, length), (*b"peare", 4));
    assert_eq!(rt;
        delete(alloc, store, 2, b"plum", &mut out, &mut length),
        Answer::Done
    );
    assert_eq!(rt; (out, length), (*b"plume", 4));
    assert_eq!(rt; count(store, 2, &mut objects), Answer::Done);
    assert_eq!(rt; objects, 2);
    assert_eq!(rt; empty_dict(store, 2), Answer::Done);
    assert_eq!(rt; count(store, 2, &mut objects), Answer::Done);
    assert_eq!(rt; objects, 0);
    assert_eq!(rt; close_dict(store, 1), Answer::NoDict);
    Ok(())
}

// What is written of a store to a sink that fails at the write of that number, 0 for none.
fn saved(
    alloc: Global,
    store: &Store<BuiltIn>,
    fails: u64,
) -> Result<(Result<u64, StoreSaveFault>, MemSink), Fail> {
    let mut out = MemSink::new(alloc, 20_000, 1000, vec![in alloc; fails]?)?;
    let told = store.save(&mut out);
    Ok((told, out))
}

// A store of several segments is saved, where no write fails, and loaded over another round.
#[test]
fn saved_and_loaded(rt: HostRuntime) -> Result<(), Fail> {
    let alloc = rt.alloc();
    let disc = Box::new(alloc, HeapDisc::new(64))?;
    match Best::open(alloc, disc) {
        Ok(best) => {
            let mut store = Store::open(best);
            fill(&rt, &mut store)?;
            let (told, out) = saved(alloc, &store, 0)?;
            assert!(rt; told == Ok(out.bytes().len() as u64));
            assert!(rt; store.stat().segs > 1);
            for write in [1u64, 2] {
                let (told, front) = saved(alloc, &store, write)?;
                assert!(rt; told == Err(StoreSaveFault::WriteFailed));
                assert!(rt; out.bytes().starts_with(front.bytes()));
            }
            let mut again = loaded(alloc, out.bytes())?;
            shows(&rt, alloc, &mut again)?;
            let (_, kinds) = again.close();
            assert_eq!(rt; kinds.len(), 3);
            fails(&rt, alloc, out.bytes(), store.stat())?;
        }
        Err(_) => return Err(Fail::new("not opened")),
    }
    Ok(())
}
