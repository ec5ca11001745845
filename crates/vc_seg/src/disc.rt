ghost use Rattle.std.specs.Prelude.{◌≡◌, ◌%◌, Contains, IfOk, OnErr, OnOk, IsErrOf};
ghost use Rattle.vc_base.specs.Prelude.{Discipline, IsRound, IsSegmentSize};
ghost use Rattle.vc_model.specs.Discipline.{CanExtend, Excepted, ExtendedAtOnce, LentAtOnce, RefusedAtOnce, armed_as};
ghost use Rattle.vc_seg.specs.Returned.{Returned};
ghost use Rattle.vc_seg.specs.Segment.{grown_segment, zero_segment, pair_of};

use crate::{LendFault, Segment};
use std::alloc::Global;

/// A discipline obtains segments and takes them back, after Vmalloc's disciplines. It is used as `Box<dyn SegDisc>`.
pub trait SegDisc: Drop {
    /// What it means: the segments that are out, its faults, its terms, its room where it tells it, and its exceptions.
    ghost state: { Self → Discipline };

    /// The bytes to a multiple of which segment sizes are rounded up: a constant multiple of 32 from 32 to 65,536.
    fn round(&self) -> u32
        ensures value { result ≡ (state self.now).terms.round }
        ensures legal { IsRound result };

    /// Whether it makes a segment that is out longer where it is asked for more (`extend`): a constant.
    fn grows(&self) -> bool
        ensures { result ≡ (state self.now).terms.grows };

    /// How often a lend or an extension was refused. It never falls, and stays at the greatest u64 once there.
    fn faults(&self) -> u64
        ensures { result ≡ (state self.now).faults };

    /// The bytes that it can still lend, where it tells them.
    fn room(&self) -> Option<u64>
        ensures { result ≡ (state self.now).room };

    /// Whether it may be asked for an exception where it refuses.
    fn armed(&self) -> bool
        ensures { result ≡ (state self.now).exceptions.armed };

    /// How often it was asked for an exception. It never falls, and stays at the greatest u64 once there.
    fn told(&self) -> u64
        ensures { result ≡ (state self.now).exceptions.told };

    /// How often it made an exception. It never falls, and stays at the greatest u64 once there.
    fn yes(&self) -> u64
        ensures { result ≡ (state self.now).exceptions.yes };

    /// Arms or unarms it, and changes nothing else.
    fn arm(&mut self, on: bool)
        ensures { state self.new ≡ armed_as on (state self.old) };

    /// Asks it, after Vmalloc's exception event, for an exception behind a refusal of so many bytes. With true it may be
    /// asked again for them: it made one, which is counted. With false its room stays.
    fn exception(&mut self, size: u32) -> bool
        ensures { Excepted (state self.old) (state self.new) result };

    /// Lends a segment of zeros under that number. The size in bytes is a multiple of the round, from 64 to 33,554,432.
    fn lend(&mut self, alloc: Global, number: u32, size: u32) -> Result<Segment, LendFault>
        requires size { IsSegmentSize size }
        requires multiple { size % (state self.old).terms.round ≡ 0 }

        ensures segment { IfOk result (λ segment. segment ≡ zero_segment number size) }
        ensures lent { OnOk result (LentAtOnce (state self.old) (state self.new) number size) }

        // Refused comes only where the faults rose, and where the room is told, only where the size is above it.
        ensures refused { IsErrOf result LendFault.Refused
            → RefusedAtOnce (state self.old) (state self.new) size }
        ensures no_memory { IsErrOf result LendFault.OutOfMemory → state self.new
            ≡ state self.old };

    /// Makes a segment that is out longer: it gets so many zeros behind its bytes, and its pair that many bytes. The
    /// discipline grows, and the bytes are a multiple of the round from the round on, with which the segment's size stays
    /// at most 33,554,432. With a refusal, or with no memory, the segment stays.
    fn extend(&mut self, alloc: Global, seg: &mut Segment, more: u32) -> Result<(), LendFault>
        requires { CanExtend (state self.old) (pair_of seg.old) more }

        ensures segment { OnOk result (seg.new ≡ grown_segment more seg.old) }
        ensures extended { OnOk result (ExtendedAtOnce
            (state self.old) (state self.new) (pair_of seg.old) more) }

        // Refused comes only where the faults rose, and where the room is told, only where the bytes are above it.
        ensures refused { IsErrOf result LendFault.Refused
            → RefusedAtOnce (state self.old) (state self.new) more }
        ensures no_memory { IsErrOf result LendFault.OutOfMemory → state self.new
            ≡ state self.old }
        ensures same { OnErr result (seg.new ≡ seg.old) };

    /// Takes a segment back that is out: the last pair of that number and size. It cannot fail.
    fn take_back(&mut self, seg: Segment)
        requires { Contains (state self.old).out (pair_of seg) }
        ensures { Returned (state self.old) (state self.new) (pair_of seg) };
}
