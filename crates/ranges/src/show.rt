ghost use Rattle.std.specs.Prelude.{◌≡◌, ◌∷◌, [], ◌++◌, OnOk, Some};
ghost use Rattle.vc_paths.specs.Path.{IsPath, visible_of};
ghost use Rattle.vc_paths.specs.Unchanged.{Unchanged};
ghost use Rattle.vc_algebra.specs.Algebra.{meet, range};
ghost use Rattle.ranges.specs.Showing.{object_lines};

use crate::fault::Fault;
use std::alloc::Global;
use vc_algebra::{Merge, Op, Ordered, range_first, range_next};
use vc_base::{OutOfMemory, Steps};
use vc_dict::{Layers, Paths};

// Puts a line of an object's bytes.
fn put_line(lines: &mut Vec<u8>, object: &[u8]) -> Result<(), OutOfMemory>
    ensures { OnOk result (lines.new.items ≡ lines.old.items ++ (object.now ++ 10 ∷ [])) }
{
    lines.extend_from_slice(object)?;
    lines.extend_from_slice(b"\n")?;
    Ok(())
}

// Puts a line for each object that is seen through a dictionary from one key to another.
pub(crate) fn put_range<Y: Ordered, L>(
    paths: &Paths,
    layers: &mut Y,
    d: u32,
    low: &[u8],
    high: &[u8],
    lines: &mut Vec<u8>,
    steps: &mut Steps<L>,
) -> Result<(), Fault>
    requires { IsPath (Y.layered layers.old) paths.now d }
    ensures lines { OnOk result (lines.new.items ≡ lines.old.items ++ object_lines
        (range ((Y.layered layers.old).layer d).rules (Some low.now) (Some high.now)
        (visible_of (Y.layered layers.old) paths.now d))) }
    ensures unchanged { Unchanged Y.Layers layers.old layers.new }
{
    let mut next = range_first(paths, layers, d, Some(low), Some(high), steps)?;
    while let Some(place) = next {
        put_line(lines, layers.object(place.0, place.1))?;
        next = range_next(paths, layers, d, place, Some(high), steps);
    }
    Ok(())
}

// Puts a line for each object that is seen through one dictionary and matches something that is seen through another.
pub(crate) fn put_meet<Y: Ordered, L>(
    paths: &Paths,
    layers: &mut Y,
    d: u32,
    e: u32,
    lines: &mut Vec<u8>,
    steps: &mut Steps<L>,
) -> Result<(), Fault>
    requires first { IsPath (Y.layered layers.old) paths.now d }
    requires second { IsPath (Y.layered layers.old) paths.now e }
    ensures lines { OnOk result (lines.new.items ≡ lines.old.items ++ object_lines
        (meet ((Y.layered layers.old).layer d).rules
        (visible_of (Y.layered layers.old) paths.now d)
        (visible_of (Y.layered layers.old) paths.now e))) }
    ensures unchanged { Unchanged Y.Layers layers.old layers.new }
{
    let mut meet = Merge::start(paths, layers, d, e, Op::Meet, steps)?;
    while let Some(place) = meet.next(paths, layers, steps) {
        put_line(lines, layers.object(place.0, place.1))?;
    }
    Ok(())
}

// A line for each object of a range of one dictionary, an empty one, and one for each that another dictionary has, too.
pub(crate) fn put_both<Y: Ordered, L>(
    alloc: Global,
    paths: &Paths,
    layers: &mut Y,
    of: (u32, u32),
    low: &[u8],
    high: &[u8],
    steps: &mut Steps<L>,
) -> Result<Vec<u8>, Fault>
    requires first { IsPath (Y.layered layers.old) paths.now of.0 }
    requires second { IsPath (Y.layered layers.old) paths.now of.1 }
{
    let mut lines = Vec::new(alloc);
    put_range(paths, layers, of.0, low, high, &mut lines, steps)?;
    lines.extend_from_slice(b"\n")?;
    put_meet(paths, layers, of.0, of.1, &mut lines, steps)?;
    Ok(lines)
}
