ghost use Rattle.std.specs.Prelude.{◌≡◌, ℕ, ◌≤◌, ◌++◌, Some, IfOk, IfSome, IsErrOf, IsSome, OnOk, length, take};
ghost use Rattle.vc_model.specs.Count.{Rose};
ghost use Rattle.vc_image_check.specs.Bytes.Image.{image_of};
ghost use Rattle.vc_region.specs.OfBest.{best_in};
ghost use Rattle.vc_image.specs.Save.{image_contents, image_in};
ghost use Rattle.vc_image.specs.declared.fault.SaveFault.TheVariants.{WriteFailed as NoWrite, OutOfMemory as NoMemory};

use crate::SaveFault;
use crate::head::head_bytes;
use crate::segments::write_segments;
use std::alloc::Global;
use vc_base::{Sink, write_all};
use vc_best::Best;
use vc_dict::Dict;
use vc_dtdisc::DictDisc;
use vc_region::Region;

/// Writes the image of a best region with at most 256 dictionaries, as `save` does, where it isn't held as a `Region`, and
/// answers how many bytes it has. After a fault a front of the image is written, and nothing of the region, its discipline
/// or the dictionaries changes. This project's own.
pub fn save_best<O: Sink>(
    alloc: Global,
    best: &Best,
    dicts: &[Dict],
    out: &mut O,
) -> Result<u64, SaveFault>
    requires few { length dicts.now ≤ 256 }
    ensures ok { OnOk result (IfSome (O.written out.old) (λ w.
        O.written out.new ≡ Some (w ++ image_of (image_contents best.now dicts.now)))) }
    ensures length { IfOk result (λ n. n ≡ length (image_of (image_contents best.now dicts.now))) }
    ensures front { IfSome (O.written out.old) (λ w. (k : ℕ)
        × (O.written out.new ≡ Some (w ++ take k (image_of (image_contents best.now dicts.now))))) }
    ensures cause { IsErrOf result NoWrite → Rose (O.failures out.old) (O.failures out.new) }
    ensures nothing { IsErrOf result NoMemory → O.written out.new ≡ O.written out.old }
    ensures never_falls { O.failures out.old ≤ O.failures out.new }
{
    let segs = best.extents.segs.as_slice();
    let head = match head_bytes(alloc, best.root.0, segs, dicts) {
        Ok(head) => head,
        Err(_) => return Err(SaveFault::OutOfMemory),
    };
    match write_all(out, &head) {
        Ok(()) => match write_segments(out, segs) {
            Ok(total) => Ok(head.len() as u64 + total),
            Err(_) => Err(SaveFault::WriteFailed),
        },
        Err(_) => Err(SaveFault::WriteFailed),
    }
}

/// Writes the image of a best region with at most 256 dictionaries, and answers how many bytes it has: eight letters, how
/// many segments there are, the root of the tree of gaps, how many dictionaries there are, each segment's number and size,
/// each dictionary's nine numbers, and the bytes of each segment. The head takes memory for as long as the call lasts, at
/// most 17,420 bytes and what a growing list has in reserve. After a fault a front of the image is written. Nothing of the
/// region, its discipline or the dictionaries changes. This project's own.
pub fn save<D: DictDisc, O: Sink>(
    alloc: Global,
    region: &Region,
    dicts: &[Dict],
    kinds: &Vec<D>,
    out: &mut O,
) -> Result<u64, SaveFault>
    requires best { IsSome (best_in region.now) }
    requires few { length dicts.now ≤ 256 }
    ensures ok { OnOk result (IfSome (O.written out.old) (λ w.
        O.written out.new ≡ Some (w ++ image_in region.now dicts.now))) }
    ensures length { IfOk result (λ n. n ≡ length (image_in region.now dicts.now)) }
    ensures front { IfSome (O.written out.old) (λ w. (k : ℕ)
        × (O.written out.new ≡ Some (w ++ take k (image_in region.now dicts.now)))) }
    ensures cause { IsErrOf result NoWrite → Rose (O.failures out.old) (O.failures out.new) }
    ensures nothing { IsErrOf result NoMemory → O.written out.new ≡ O.written out.old }
    ensures never_falls { O.failures out.old ≤ O.failures out.new }
{
    match region {
        Region::Best(best) => save_best(alloc, best, dicts, out),
        _ => unreachable!(),
    }
}
