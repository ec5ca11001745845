ghost use Rattle.std.specs.Prelude.{◌≡◌, IfOk, OnOk};
ghost use Rattle.vc_dtdisc.specs.Shapes.{rules_of};
ghost use Rattle.vc_store.specs.Stores.Alike.{AreAlike, HaveRules, Keeps};
ghost use Rattle.vc_store.specs.Stores.Stores.{IsOpen, disc_of, numbers_of};

use crate::answers::{Ask, answer};
use std::alloc::Global;
use std::process::Abort;
use std::test::Fail;
use vc_algebra::Op;
use vc_base::DictMethod;
use vc_best::Best;
use vc_checked::{Answer, insert};
use vc_dict::Paths;
use vc_dtdisc::{BuiltIn, DictDisc, Shape};
use vc_seg::{BoxedDisc, HeapDisc, SegDisc};
use vc_store::{Alike, Store};

// The number of a new ordered set of whole keys; where there is none, one that no dictionary has.
fn added<D: DictDisc + Drop>(store: &mut Store<D>, kind: D) -> usize
    requires open { IsOpen D.rules store.old (disc_of store.old state) }
    requires kinds { HaveRules D.rules store.old (rules_of Shape.Whole) }
    requires kind { D.rules kind ≡ rules_of Shape.Whole }
    ensures open { IsOpen D.rules store.new (disc_of store.new state) }
    ensures kinds { HaveRules D.rules store.new (rules_of Shape.Whole) }
{
    match store.dict(DictMethod::DtOset, kind) {
        Ok(n) => n,
        Err(_) => usize::MAX,
    }
}

// Opens an ordered set of whole keys, and puts words into it.
fn filled<D: DictDisc + Drop>(
    rt: &impl Abort,
    store: &mut Store<D>,
    kind: D,
    words: &[&'static str],
)
    requires open { IsOpen D.rules store.old (disc_of store.old state) }
    requires kinds { HaveRules D.rules store.old (rules_of Shape.Whole) }
    requires kind { D.rules kind ≡ rules_of Shape.Whole }
    ensures open { IsOpen D.rules store.new (disc_of store.new state) }
    ensures kinds { HaveRules D.rules store.new (rules_of Shape.Whole) }
{
    let n = added(store, kind);
    for word in words {
        assert_eq!(rt; insert(store, n, word.as_bytes()), Answer::Done, "{word}");
    }
}

// Fills two ordered sets.
fn two<D: DictDisc + Drop>(rt: &impl Abort, store: &mut Store<D>, kinds: (D, D))
    requires open { IsOpen D.rules store.old (disc_of store.old state) }
    requires none { numbers_of store.old ≡ 0 }
    requires first { D.rules kinds.0 ≡ rules_of Shape.Whole }
    requires second { D.rules kinds.1 ≡ rules_of Shape.Whole }
    ensures open { IsOpen D.rules store.new (disc_of store.new state) }
    ensures kinds { HaveRules D.rules store.new (rules_of Shape.Whole) }
{
    let (a, b) = kinds;
    filled(rt, store, a, &["pear", "fig", "kiwi"]);
    filled(rt, store, b, &["kiwi", "plum", "nut"]);
}

// An answer is this text.
fn is_text(rt: &impl Abort, answer: Result<Vec<u8>, Fail>, want: &'static str) -> Result<(), Fail> {
    let text = answer?;
    assert!(rt; text.as_slice() == want.as_bytes(), "{want} {text:?}");
    Ok(())
}

// What the two answer: each object behind the number of its own.
fn shows<D: DictDisc + Drop>(
    rt: &impl Abort,
    alloc: Global,
    paths: &Paths,
    alike: &mut Alike<D>,
    ask: Ask,
    want: &'static str,
) -> Result<(), Fail>
    requires { AreAlike D.rules alike.old.store alike.old.like }
    ensures alike { AreAlike D.rules alike.new.store alike.new.like }
    ensures keeps { Keeps D.rules alike.old.store alike.new.store }
{
    assert!(rt; alike.has_path(paths, 0), "{ask:?}");
    assert!(rt; alike.has_path(paths, 1), "{ask:?}");
    is_text(rt, answer(alloc, paths, alike, 0, 1, ask), want)
}

// A union and a range, and what is seen through the first where it views the second.
fn asked<D: DictDisc + Drop>(
    rt: &impl Abort,
    alike: &mut Alike<D>,
    alloc: Global,
) -> Result<(), Fail>
    requires { AreAlike D.rules alike.old.store alike.old.like }
    ensures { OnOk result (Keeps D.rules alike.old.store alike.new.store) }
{
    let mut paths = Paths::new(alloc)?;
    let both = "0:fig 0:kiwi 1:nut 0:pear 1:plum";
    shows(rt, alloc, &paths, alike, Ask::Of(Op::Union), both)?;
    let range = Ask::Range(Some(b"g"), Some(b"pea"));
    shows(rt, alloc, &paths, alike, range, "0:kiwi")?;
    assert!(rt; alike.has_path(&paths, 0) && alike.has_path(&paths, 1));
    assert!(rt; paths.view(alike, 0, 1).is_ok());
    shows(rt, alloc, &paths, alike, Ask::Range(None, None), both)?;
    Ok(())
}

// So of a store, which is open still when it is taken out.
fn told<D: DictDisc + Drop>(
    rt: &impl Abort,
    store: Store<D>,
    alloc: Global,
) -> Result<Store<D>, Fail>
    requires open { IsOpen D.rules store (disc_of store state) }
    requires kinds { HaveRules D.rules store (rules_of Shape.Whole) }
    ensures { IfOk result (λ s. IsOpen D.rules s (disc_of s state)) }
{
    assert!(rt; store.has(0));
    assert!(rt; store.method(0) == DictMethod::DtOset);
    let mut alike = Alike::of(store, 0);
    asked(rt, &mut alike, alloc)?;
    Ok(alike.into_store())
}

#[test]
fn views_ranges_and_operations(rt: HostRuntime) -> Result<(), Fail> {
    let disc = Box::new(rt.alloc(), HeapDisc::new(4096))?;
    match Best::open(rt.alloc(), disc) {
        Ok(best) => {
            let mut store = Store::open(best);
            let kinds = (BuiltIn::new(Shape::Whole), BuiltIn::new(Shape::Whole));
            two(&rt, &mut store, kinds);
            let store = told(&rt, store, rt.alloc())?;
            let (_, kinds) = store.close();
            assert_eq!(rt; kinds.len(), 2);
        }
        Err(_) => assert!(rt; false),
    }
    Ok(())
}
