ghost use Rattle.std.specs.Prelude.{◌≡◌, ℕ, ◌≤◌, ◌++◌, Some, IfOk, IfSome, OnOk, OnErr, length, take};
ghost use Rattle.vc_model.specs.Count.{Rose};
ghost use Rattle.vc_seg.specs.Segment.{AreSegments};
ghost use Rattle.vc_image.specs.Save.{image_body};

use vc_base::{Sink, WriteFailed, write_all};
use vc_seg::Segment;

// Writes the bytes of each segment, and tells how many they are. It fails with the first write that does; then a front of
// them is written.
pub(crate) fn write_segments<O: Sink>(out: &mut O, segs: &[Segment]) -> Result<u64, WriteFailed>
    requires { AreSegments segs.now }
    ensures ok { OnOk result (IfSome (O.written out.old) (λ w.
        O.written out.new ≡ Some (w ++ image_body segs.now))) }
    ensures length { IfOk result (λ n. n ≡ length (image_body segs.now)) }
    ensures most { IfOk result (λ n. n ≤ 34326183936) }
    ensures front { IfSome (O.written out.old) (λ w. (k : ℕ)
        × (O.written out.new ≡ Some (w ++ take k (image_body segs.now)))) }
    ensures cause { OnErr result (Rose (O.failures out.old) (O.failures out.new)) }
    ensures never_falls { O.failures out.old ≤ O.failures out.new }
{
    let mut total = 0u64;
    for seg in segs {
        write_all(out, seg.bytes(0, seg.size()))?;
        total += seg.size() as u64;
    }
    Ok(total)
}
