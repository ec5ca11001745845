ghost use Rattle.vc_paths.specs.Path.{IsPath};
ghost use Rattle.vc_paths.specs.Unchanged.{Unchanged};

use std::alloc::{AllocError, Global};
use std::test::Fail;
use vc_algebra::{Merge, Op, Ordered, range_first, range_next};
use vc_base::Steps;
use vc_dict::{Layers, Paths};

// Marks the compares of these calls.
pub(crate) struct Compares;

// What is asked of two dictionaries.
#[derive(Clone, Copy, Debug)]
pub(crate) enum Ask {
    // What an operation makes of them.
    Of(Op),
    // What is seen through the first from one bound to another.
    Range(Option<&'static [u8]>, Option<&'static [u8]>),
}

// Puts an object behind others: the last digit of its own dictionary's number, and its bytes.
fn put(text: &mut Vec<u8>, own: u32, object: &[u8]) -> Result<(), AllocError> {
    if !text.is_empty() {
        text.push(b' ')?;
    }
    text.push(b'0' + (own % 10) as u8)?;
    text.push(b':')?;
    text.extend_from_slice(object)?;
    Ok(())
}

// All that an operation on two dictionaries answers.
fn made<Y: Ordered>(
    alloc: Global,
    paths: &Paths,
    layers: &mut Y,
    op: Op,
    d: u32,
    e: u32,
) -> Result<Vec<u8>, Fail>
    requires first { IsPath (Y.layered layers.old) paths.now d }
    requires second { IsPath (Y.layered layers.old) paths.now e }
    ensures { Unchanged Y.Layers layers.old layers.new }
{
    let mut steps: Steps<Compares> = Steps::new(alloc);
    let mut text = Vec::new(alloc);
    let mut merge = Merge::start(paths, layers, d, e, op, &mut steps)?;
    while let Some(place) = merge.next(paths, layers, &mut steps) {
        put(&mut text, place.0, layers.object(place.0, place.1))?;
    }
    Ok(text)
}

// All of a range.
fn ranged<Y: Ordered>(
    alloc: Global,
    paths: &Paths,
    layers: &mut Y,
    d: u32,
    low: Option<&[u8]>,
    high: Option<&[u8]>,
) -> Result<Vec<u8>, Fail>
    requires { IsPath (Y.layered layers.old) paths.now d }
    ensures { Unchanged Y.Layers layers.old layers.new }
{
    let mut steps: Steps<Compares> = Steps::new(alloc);
    let mut text = Vec::new(alloc);
    let mut next = range_first(paths, layers, d, low, high, &mut steps)?;
    while let Some(place) = next {
        put(&mut text, place.0, layers.object(place.0, place.1))?;
        next = range_next(paths, layers, d, place, high, &mut steps);
    }
    Ok(text)
}

// The answer to what is asked: each object behind the number of its own dictionary.
pub(crate) fn answer<Y: Ordered>(
    alloc: Global,
    paths: &Paths,
    layers: &mut Y,
    d: u32,
    e: u32,
    ask: Ask,
) -> Result<Vec<u8>, Fail>
    requires first { IsPath (Y.layered layers.old) paths.now d }
    requires second { IsPath (Y.layered layers.old) paths.now e }
    ensures { Unchanged Y.Layers layers.old layers.new }
{
    match ask {
        Ask::Of(op) => made(alloc, paths, layers, op, d, e),
        Ask::Range(low, high) => ranged(alloc, paths, layers, d, low, high),
    }
}
