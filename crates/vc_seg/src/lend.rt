ghost use Rattle.std.specs.Prelude.{◌≡◌, ◌≢◌, ◌%◌, ◌≤◌, ◌⊎◌, Err, IfErr, IfOk, OnErr, OnOk, IsErrOf, None, false, length, map};
ghost use Rattle.vc_base.specs.Prelude.{IsRound, IsSegmentSize, Lent, LentNothing, Unserved, TooMany, ask};
ghost use Rattle.vc_model.specs.Discipline.{CanExtend, Excepts, Extended, Kept};
ghost use Rattle.vc_model.specs.Segments.{growing};
ghost use Rattle.vc_seg.specs.Lend.{IsAsked, IsGrantOf, IsNoGrant};
ghost use Rattle.vc_seg.specs.Segment.{grown_segment, pair_of, zero_segment};

use crate::number::lowest_unused;
use crate::{LendFault, Numbered, RegionFault, SegDisc, Segment};
use std::alloc::Global;

/// The bytes to a multiple of which a discipline's segment sizes are rounded up, a multiple of 32 from 32 to 65,536.
pub fn round_of(disc: &Box<dyn SegDisc>) -> u32
    ensures value { result ≡ (state disc.now).terms.round }
    ensures legal { IsRound result }
{
    disc.round()
}

/// Whether a discipline makes a segment longer where it is asked for more.
pub fn grows_of(disc: &Box<dyn SegDisc>) -> bool
    ensures { result ≡ (state disc.now).terms.grows }
{
    disc.grows()
}

/// The segment that gets more bytes where a region with these asks for them, as number and size: the one lent latest, where
/// the discipline makes segments longer. None where it lends a new one instead.
pub fn growing_of<T: Numbered>(segs: &[T], disc: &Box<dyn SegDisc>) -> Option<(u32, u32)>
    ensures { result ≡ growing (state disc.now).terms (map T.pair segs.now) }
{
    if !disc.grows() {
        return None;
    }
    match segs.last() {
        Some(segment) => Some((segment.number(), segment.size())),
        None => None,
    }
}

// Whether a discipline that refused so many bytes makes an exception. One that isn't armed isn't asked.
fn excepts(disc: &mut Box<dyn SegDisc>, size: u32) -> bool
    ensures { Excepts (state disc.old) (state disc.new) result }
{
    disc.armed() && disc.exception(size)
}

/// A segment of zeros that a discipline lends under that number, as `SegDisc::lend`: the size in bytes is a multiple of
/// its round, from 64 to 33,554,432. Where the discipline refuses it and is armed, it is asked for an exception; where it
/// makes one, it is asked once more, and that answer counts. A region asks for a segment by this call alone.
#[tactic(auto, using(crate::proofs::Retrying::retry_steps))]
pub fn obtain(
    disc: &mut Box<dyn SegDisc>,
    alloc: Global,
    number: u32,
    size: u32,
) -> Result<Segment, LendFault>
    requires size { IsSegmentSize size }
    requires multiple { size % (state disc.old).terms.round ≡ 0 }

    ensures segment { IfOk result (λ segment. segment ≡ zero_segment number size) }
    ensures lent { OnOk result (Lent (state disc.old) (state disc.new) number size) }

    // Refused comes only where the faults rose, and where the room is told, only where the size is above it.
    ensures refused { IsErrOf result LendFault.Refused
        → Unserved (state disc.old) (state disc.new) size }
    ensures no_memory { IsErrOf result LendFault.OutOfMemory
        → LentNothing (state disc.old) (state disc.new) }
    ensures kept { Kept (state disc.old) (state disc.new) }
{
    match disc.lend(alloc, number, size) {
        Ok(segment) => Ok(segment),
        Err(LendFault::OutOfMemory) => Err(LendFault::OutOfMemory),
        Err(LendFault::Refused) => {
            if excepts(disc, size) {
                disc.lend(alloc, number, size)
            } else {
                Err(LendFault::Refused)
            }
        }
    }
}

/// A segment that is out made longer by so many zeros, as `SegDisc::extend`: the discipline grows, and the bytes are a
/// multiple of its round from that on, with which the segment's size stays at most 33,554,432. Where the discipline refuses
/// and is armed, it is asked for an exception and once more, as `obtain` does. A region asks for more of a segment by
/// this call alone.
#[tactic(auto, using(crate::proofs::Retrying::retry_steps))]
pub fn obtain_more(
    disc: &mut Box<dyn SegDisc>,
    alloc: Global,
    seg: &mut Segment,
    more: u32,
) -> Result<(), LendFault>
    requires { CanExtend (state disc.old) (pair_of seg.old) more }

    ensures segment { OnOk result (seg.new ≡ grown_segment more seg.old) }
    ensures extended { OnOk result (Extended (state disc.old) (state disc.new) (pair_of seg.old) more) }

    // Refused comes only where the faults rose, and where the room is told, only where the bytes are above it.
    ensures refused { IsErrOf result LendFault.Refused
        → Unserved (state disc.old) (state disc.new) more }
    ensures no_memory { IsErrOf result LendFault.OutOfMemory
        → LentNothing (state disc.old) (state disc.new) }
    ensures same { OnErr result (seg.new ≡ seg.old) }
    ensures kept { Kept (state disc.old) (state disc.new) }
{
    match disc.extend(alloc, seg, more) {
        Ok(()) => Ok(()),
        Err(LendFault::OutOfMemory) => Err(LendFault::OutOfMemory),
        Err(LendFault::Refused) => {
            if excepts(disc, more) {
                disc.extend(alloc, seg, more)
            } else {
                Err(LendFault::Refused)
            }
        }
    }
}

/// A segment of zeros that a discipline lends to a region under that number, as `obtain`. `NoSegment` comes where the
/// discipline refuses, and `OutOfMemory` for want of memory.
pub fn lend_segment(
    disc: &mut Box<dyn SegDisc>,
    alloc: Global,
    number: u32,
    bytes: u32,
) -> Result<Segment, RegionFault>
    requires bytes { IsSegmentSize bytes }
    requires multiple { bytes % (state disc.old).terms.round ≡ 0 }

    ensures segment { IfOk result (λ segment. segment ≡ zero_segment number bytes) }
    ensures lent { OnOk result (Lent (state disc.old) (state disc.new) number bytes) }

    ensures only { IfErr result (λ e. (e ≡ RegionFault.NoSegment) ⊎ (e ≡ RegionFault.OutOfMemory)) }
    ensures refused { IsErrOf result RegionFault.NoSegment
        → Unserved (state disc.old) (state disc.new) bytes }
    ensures no_memory { IsErrOf result RegionFault.OutOfMemory
        → LentNothing (state disc.old) (state disc.new) }
{
    match obtain(disc, alloc, number, bytes) {
        Ok(segment) => Ok(segment),
        Err(LendFault::Refused) => Err(RegionFault::NoSegment),
        Err(LendFault::OutOfMemory) => Err(RegionFault::OutOfMemory),
    }
}

/// A segment of a region made longer by so many zeros, as `obtain_more`. `NoSegment` comes where the discipline refuses,
/// and `OutOfMemory` for want of memory.
pub fn extend_segment(
    disc: &mut Box<dyn SegDisc>,
    alloc: Global,
    seg: &mut Segment,
    more: u32,
) -> Result<(), RegionFault>
    requires { CanExtend (state disc.old) (pair_of seg.old) more }

    ensures segment { OnOk result (seg.new ≡ grown_segment more seg.old) }
    ensures extended { OnOk result (Extended (state disc.old) (state disc.new) (pair_of seg.old) more) }

    ensures only { IfErr result (λ e. (e ≡ RegionFault.NoSegment) ⊎ (e ≡ RegionFault.OutOfMemory)) }
    ensures refused { IsErrOf result RegionFault.NoSegment
        → Unserved (state disc.old) (state disc.new) more }
    ensures no_memory { IsErrOf result RegionFault.OutOfMemory
        → LentNothing (state disc.old) (state disc.new) }
    ensures same { OnErr result (seg.new ≡ seg.old) }
{
    match obtain_more(disc, alloc, seg, more) {
        Ok(()) => Ok(()),
        Err(LendFault::Refused) => Err(RegionFault::NoSegment),
        Err(LendFault::OutOfMemory) => Err(RegionFault::OutOfMemory),
    }
}

/// A segment of zeros that a discipline lends to a region with these, under the least number that none of them has, of so
/// many bytes. None of them may be made longer instead. `TooManySegments` comes exactly where there are 1,023, `NoSegment`
/// where the discipline refuses, and `OutOfMemory` for want of memory.
pub fn lend_next<T: Numbered>(
    segs: &[T],
    disc: &mut Box<dyn SegDisc>,
    alloc: Global,
    bytes: u32,
) -> Result<Segment, RegionFault>
    requires new { growing (state disc.old).terms (map T.pair segs.now) ≡ None }
    requires few { length segs.now ≤ 1023 }
    requires bytes { IsSegmentSize bytes }
    requires multiple { bytes % (state disc.old).terms.round ≡ 0 }

    ensures granted { IfOk result (λ s. IsGrantOf (state disc.old).terms bytes
        (map T.pair segs.now) s) }
    ensures lent { IfOk result (λ s. Lent (state disc.old) (state disc.new) s.number bytes) }

    ensures fault { IfErr result (IsNoGrant (state disc.old).terms bytes (map T.pair segs.now)) }
    ensures may { IsErrOf result RegionFault.OutOfMemory
        → ask (state disc.old).terms bytes (map T.pair segs.now) false ≢ TooMany }
    ensures refused { IfErr result (λ e. IsAsked (Err e) (state disc.old) (state disc.new) bytes) }
{
    if segs.len() >= 1023 {
        return Err(RegionFault::TooManySegments);
    }
    let number = lowest_unused(segs);
    lend_segment(disc, alloc, number, bytes)
}
