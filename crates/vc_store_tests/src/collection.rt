ghost use Rattle.vc_store.specs.Collections.{IsOpen, disc_of, kind_of};

use std::alloc::Global;
use std::process::Abort;
use std::test::Fail;
use vc_base::DictMethod;
use vc_best::Best;
use vc_dtdisc::{BuiltIn, DictDisc, Shape};
use vc_seg::{BoxedDisc, HeapDisc, SegDisc};
use vc_store::{Collection, Put};

// Puts two words, one of them twice, looks at them in order, and takes them out.
fn two_words<D: DictDisc + Drop>(
    rt: &impl Abort,
    alloc: Global,
    words: &mut Collection<D>,
) -> Result<(), Fail>
    requires { IsOpen (D.rules (kind_of words.old)) words.old (disc_of words.old state) }
    ensures { IsOpen (D.rules (kind_of words.new)) words.new (disc_of words.new state) }
{
    assert_eq!(rt; words.insert(b"pear"), Put::New);
    assert_eq!(rt; words.insert(b"apple"), Put::New);
    assert_eq!(rt; words.insert(b"pear"), Put::Old);
    assert_eq!(rt; words.count(), 2);
    let first = words.first();
    let next = words.next();
    assert!(rt; first && next);
    assert!(rt; words.current() == Some(b"pear".as_slice()));
    let last = words.last();
    let before = words.prev();
    assert!(rt; last && before);
    assert!(rt; words.current() == Some(b"apple".as_slice()));
    let behind = words.at_least(b"b");
    let found = words.find(b"apple");
    assert!(rt; behind && found);
    let mut out = Vec::new(alloc);
    match words.remove(b"apple", &mut out) {
        Ok(gone) => assert!(rt; gone),
        Err(_) => return Err(Fail::new("not removed")),
    }
    assert_eq!(rt; out.as_slice(), b"apple".as_slice());
    assert_eq!(rt; words.empty(), 1);
    Ok(())
}

// An ordered set of words, from its opening to its close.
#[test]
fn words_in_order(rt: HostRuntime) -> Result<(), Fail> {
    let disc = Box::new(rt.alloc(), HeapDisc::new(4096))?;
    match Best::open(rt.alloc(), disc) {
        Ok(best) => match Collection::open(best, DictMethod::DtOset, BuiltIn::new(Shape::Whole)) {
            Ok(mut words) => {
                two_words(&rt, rt.alloc(), &mut words)?;
                let (_, kind) = words.close();
                let _told = kind;
            }
            Err(_) => assert!(rt; false),
        },
        Err(_) => assert!(rt; false),
    }
    Ok(())
}
