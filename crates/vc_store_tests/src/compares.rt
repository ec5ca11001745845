ghost use Rattle.std.specs.Prelude.{IfOk, map};
ghost use Rattle.vc_paths.specs.Path.{IsPath};
ghost use Rattle.vc_algebra.specs.Filling.{CanFillIn};
ghost use Rattle.vc_algebra.specs.InRegion.{layered_in};

use crate::answers::{Ask, Compares, answer};
use crate::counted::Counted;
use std::alloc::Global;
use std::cell::Cell;
use std::process::Abort;
use std::rc::Rc;
use std::test::Fail;
use vc_algebra::{Op, RegionLayers};
use vc_base::{MemSink, Steps};
use vc_dict::Paths;
use vc_dtdisc::DictDisc;
use vc_image::{load, save};
use vc_objects::Fate;
use vc_seg::{BoxedDisc, HeapDisc, SegDisc};

// What is asked, how many objects that answers, and at most how many compares it takes.
type Cost = (Ask, usize, u32);

// The image of six ordered sets of the kind 1 in which nothing lies: 20 bytes, and 36 for each.
fn six_sets() -> [u8; 236] {
    let mut image = [0u8; 236];
    image[..8].copy_from_slice(b"VCIMAGE1");
    image[16] = 6;
    for d in 0..6 {
        image[20 + 36 * d] = 2;
        image[24 + 36 * d] = 1;
    }
    image
}

// The dictionaries that an image gives.
fn of_image<D: DictDisc + Drop>(
    alloc: Global,
    image: &[u8],
    kinds: Vec<D>,
) -> Result<RegionLayers<D>, Fail>
    ensures { IfOk result (λ l. CanFillIn state (map D.rules l.kinds.items) l.region l.dicts) }
{
    let disc = Box::new(alloc, HeapDisc::new(65_536))?;
    match load(alloc, image, &kinds, disc) {
        Ok(loaded) => Ok(RegionLayers {
            region: loaded.region,
            dicts: loaded.dicts,
            kinds,
        }),
        Err(_) => Err(Fail::new("not loaded")),
    }
}

// The dictionaries of a region, saved and loaded.
fn again<D: DictDisc + Drop>(
    rt: &impl Abort,
    alloc: Global,
    layers: RegionLayers<D>,
) -> Result<RegionLayers<D>, Fail>
    ensures { IfOk result (λ l. CanFillIn state (map D.rules l.kinds.items) l.region l.dicts) }
{
    assert!(rt; layers.region.as_best().is_some());
    assert!(rt; layers.dicts.as_slice().len() <= 256);
    let RegionLayers {
        region,
        dicts,
        kinds,
    } = layers;
    let mut out = MemSink::new(alloc, 2_000_000, 4096, Vec::new(alloc))?;
    save(alloc, &region, dicts.as_slice(), &kinds, &mut out)?;
    of_image(alloc, out.bytes(), kinds)
}

// Puts the first n multiples of a number into each of the six, in an order that jumps: of 1, 2 and 3, and of 2, 5 and 7.
fn fill<D: DictDisc>(
    rt: &impl Abort,
    alloc: Global,
    layers: &mut RegionLayers<D>,
    n: u16,
) -> Result<(), Fail>
    requires { CanFillIn state (map D.rules layers.old.kinds.items)
        layers.old.region layers.old.dicts }
    ensures { CanFillIn state (map D.rules layers.new.kinds.items)
        layers.new.region layers.new.dicts }
{
    let mut steps: Steps<Compares> = Steps::new(alloc);
    for i in 0..6 * u32::from(n) {
        let d = i % 6;
        let of = [1u64, 2, 3, 2, 5, 7][d as usize];
        let number = u64::from(i / 6) * 89 % u64::from(n) * of;
        assert!(rt; (d as usize) < layers.dicts.as_slice().len());
        match layers.insert(d, &number.to_be_bytes(), &mut steps) {
            Ok(Some(Fate::Stored)) => {}
            _ => return Err(Fail::new("not put")),
        }
    }
    Ok(())
}

// There is a path of a number.
fn has_path<D: DictDisc>(rt: &impl Abort, paths: &Paths, layers: &RegionLayers<D>, d: u32)
    requires { CanFillIn state (map D.rules layers.now.kinds.items)
        layers.now.region layers.now.dicts }
    ensures { IsPath (layered_in (map D.rules layers.now.kinds.items)
        layers.now.region layers.now.dicts) paths.now d }
{
    assert!(rt; layers.has_path(paths, d), "{d}");
}

// Each of the first three views the one behind it, and so does each of the others.
fn viewed<D: DictDisc>(
    rt: &impl Abort,
    alloc: Global,
    layers: &RegionLayers<D>,
) -> Result<Paths, Fail>
    requires { CanFillIn state (map D.rules layers.now.kinds.items)
        layers.now.region layers.now.dicts }
{
    let mut paths = Paths::new(alloc)?;
    for d in [0, 1, 3, 4] {
        has_path(rt, &paths, layers, d);
        has_path(rt, &paths, layers, d + 1);
        paths.view(layers, d, d + 1)?;
    }
    Ok(paths)
}

// The answer to what is asked of the two paths.
fn asked<D: DictDisc>(
    rt: &impl Abort,
    alloc: Global,
    paths: &Paths,
    layers: &mut RegionLayers<D>,
    ask: Ask,
) -> Result<Vec<u8>, Fail>
    requires { CanFillIn state (map D.rules layers.old.kinds.items)
        layers.old.region layers.old.dicts }
    ensures { CanFillIn state (map D.rules layers.new.kinds.items)
        layers.new.region layers.new.dicts }
{
    has_path(rt, paths, layers, 0);
    has_path(rt, paths, layers, 3);
    answer(alloc, paths, layers, 0, 3, ask)
}

// What is asked answers so many objects, and isn't dear.
fn is_cheap<D: DictDisc>(
    rt: &impl Abort,
    alloc: Global,
    layers: &mut RegionLayers<D>,
    compares: &Cell<u32>,
    costs: &[Cost],
) -> Result<(), Fail>
    requires { CanFillIn state (map D.rules layers.old.kinds.items)
        layers.old.region layers.old.dicts }
{
    let paths = viewed(rt, alloc, layers)?;
    for (ask, shown, most) in costs {
        compares.set(0);
        let text = asked(rt, alloc, &paths, layers, *ask)?;
        let made = compares.get();
        // A digit, a colon, eight bytes and what stands between two objects.
        assert!(rt; text.len() / 11 + 1 == *shown, "{made}");
        assert!(rt; made <= *most, "{made}");
    }
    Ok(())
}

// So over two paths of three sets of n objects each, as they are loaded.
fn are_cheap(rt: &impl Abort, alloc: Global, n: u16, costs: &[Cost]) -> Result<(), Fail> {
    let compares = Rc::new(alloc, Cell::new(0))?;
    let kinds = vec![in alloc; Counted::new(&compares)?]?;
    let mut layers = of_image(alloc, &six_sets(), kinds)?;
    fill(rt, alloc, &mut layers, n)?;
    let mut layers = again(rt, alloc, layers)?;
    is_cheap(rt, alloc, &mut layers, &compares, costs)
}

// At most 4 compares for each object of a range and 20 for each doubling of the number of a set's objects, in each of the
// three; and of an operation at most 8 for each of the 6 n objects.
#[test]
fn compares(rt: HostRuntime) -> Result<(), Fail> {
    // From 500 to 599, and from 2,000 to 2,099.
    let few: [Cost; 4] = [
        (
            Ask::Range(Some(b"\0\0\0\0\0\0\x01\xF4"), Some(b"\0\0\0\0\0\0\x02\x57")),
            100,
            3 * (4 * 100 + 20 * 10),
        ),
        (Ask::Of(Op::Union), 3_228, 8 * 6 * 1_000),
        (Ask::Of(Op::Meet), 1_314, 8 * 6 * 1_000),
        (Ask::Of(Op::Minus), 685, 8 * 6 * 1_000),
    ];
    are_cheap(&rt, rt.alloc(), 1_000, &few)?;
    let more: [Cost; 4] = [
        (
            Ask::Range(Some(b"\0\0\0\0\0\0\x07\xD0"), Some(b"\0\0\0\0\0\0\x08\x33")),
            100,
            3 * (4 * 100 + 20 * 12),
        ),
        (Ask::Of(Op::Union), 12_912, 8 * 6 * 4_000),
        (Ask::Of(Op::Meet), 5_258, 8 * 6 * 4_000),
        (Ask::Of(Op::Minus), 2_741, 8 * 6 * 4_000),
    ];
    are_cheap(&rt, rt.alloc(), 4_000, &more)
}
