use crate::{BuiltIn, DictDisc, Shape};
use std::alloc::Global;
use std::cmp::Ordering;
use std::test::Fail;
use vc_base::Steps;

struct Compares;

// Through the bound alone: the key of an object, its hash, how it stands to another object's key, and what is made.
fn answers<D: DictDisc>(
    alloc: Global,
    kind: &D,
    obj: &[u8],
    other: &[u8],
) -> Result<(Vec<u8>, u64, Ordering, Vec<u8>), Fail> {
    let mut steps: Steps<Compares> = Steps::new(alloc);
    let key = kind.key(obj);
    let order = kind.compare(key, kind.key(other), &mut steps);
    let mut made = Vec::new(alloc);
    kind.make(obj, &mut made).map_err(|_| "no memory")?;
    Ok((Vec::from_slice(alloc, key)?, kind.hash(key), order, made))
}

#[test]
fn each_shape_answers(rt: HostRuntime) -> Result<(), Fail> {
    let rows: [(Shape, &[u8], u64, Ordering, &[u8]); 6] = [
        (
            Shape::Whole,
            b"Pear\0s",
            2416190553,
            Ordering::Less,
            b"Pear\0s",
        ),
        (
            Shape::Field { off: 1, size: 3 },
            b"ear",
            101175,
            Ordering::Greater,
            b"Pear\0s",
        ),
        (
            Shape::Text { off: 0 },
            b"Pear",
            2514246,
            Ordering::Less,
            b"Pear\0s",
        ),
        (
            Shape::Fold,
            b"Pear\0s",
            3332323385,
            Ordering::Greater,
            b"Pear\0s",
        ),
        (
            Shape::Reverse,
            b"Pear\0s",
            2416190553,
            Ordering::Greater,
            b"Pear\0s",
        ),
        (Shape::Clip { n: 2 }, b"Pe", 2613, Ordering::Less, b"Pe"),
    ];
    for (shape, key, hash, order, made) in rows {
        let mut kind = BuiltIn::new(shape);
        let answer = answers(rt.alloc(), &kind, b"Pear\0s", b"aPPle")?;
        assert_eq!(rt; answer.0.as_slice(), key);
        assert_eq!(rt; answer.1, hash);
        assert_eq!(rt; answer.2, order);
        assert_eq!(rt; answer.3.as_slice(), made);
        kind.freed(b"Pear\0s");
    }
    Ok(())
}
