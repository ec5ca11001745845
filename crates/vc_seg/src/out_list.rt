ghost use Rattle.std.specs.Prelude.{◌≡◌, ℕ, ◌+◌, ◌<◌, List, [], ◌∷◌, ◌++◌, length, remove, slice_index_or, slice_set, Contains, IfOk, OnOk, OnErr};
ghost use Rattle.vc_base.specs.Prelude.{IsSegmentSize};
ghost use Rattle.vc_model.specs.Discipline.{extend_last, without_last};
ghost use Rattle.vc_seg.specs.Budget.{bytes_of};
ghost use Rattle.vc_seg.specs.Segment.{grown_segment, zero_segment, pair_of};

use crate::Segment;
use std::alloc::Global;
use std::marker::Model;
use vc_base::OutOfMemory;

/// The segments that are out, as number and bytes, in order of lending. The first push allocates.
#[derive(Drop)]
pub struct OutList {
    pairs: Option<Vec<(u32, u32)>>,
}

impl Model for OutList {
    ghost use Rattle.std.specs.Prelude.{ℕ, List, []};
    ghost use Rattle.std.specs.Option.{option_map_or};

    ghost Value = { List (ℕ × ℕ) };

    ghost view = { λ o. option_map_or (λ v. v.items) o.pairs [] };
}

impl OutList {
    pub fn new() -> OutList
        ensures { result ≡ [] }
    {
        OutList { pairs: None }
    }

    /// A segment of zeros from the heap, which is out from then on.
    pub fn lend(&mut self, alloc: Global, number: u32, size: u32) -> Result<Segment, OutOfMemory>
        requires { IsSegmentSize size }
        ensures segment { IfOk result (λ segment. segment ≡ zero_segment number size) }
        ensures ok { OnOk result (self.new ≡ self.old ++ (number, size) ∷ []) }
        ensures bytes { OnOk result (bytes_of self.new ≡ bytes_of self.old + size) }
        ensures err { OnErr result (self.new ≡ self.old) }
    {
        let segment = Segment::take(alloc, number, size)?;
        self.push(alloc, number, size)?;
        Ok(segment)
    }

    fn push(&mut self, alloc: Global, number: u32, size: u32) -> Result<(), OutOfMemory>
        ensures ok { OnOk result (self.new ≡ self.old ++ (number, size) ∷ []) }
        ensures err { OnErr result (self.new ≡ self.old) }
    {
        match &mut self.pairs {
            Some(pairs) => pairs.push((number, size))?,
            None => {
                let mut pairs = Vec::new(alloc);
                pairs.push((number, size))?;
                self.pairs = Some(pairs);
            }
        }
        Ok(())
    }

    /// Makes a segment that is out longer by so many zeros: the last pair that is equal to its own gets that many bytes.
    #[tactic(auto, using(crate::proofs::LastPair::more_in_pair))]
    pub fn extend(&mut self, alloc: Global, seg: &mut Segment, more: u32) -> Result<(), OutOfMemory>
        requires out { Contains self.old (pair_of seg.old) }
        requires size { IsSegmentSize (length seg.old.bytes + more) }
        ensures segment { OnOk result (seg.new ≡ grown_segment more seg.old) }
        ensures out { OnOk result (self.new ≡ extend_last (pair_of seg.old) more self.old) }
        ensures bytes { OnOk result (bytes_of self.new ≡ bytes_of self.old + more) }
        ensures err { OnErr result (self.new ≡ self.old) }
        ensures same { OnErr result (seg.new ≡ seg.old) }
    {
        let (number, size) = (seg.number(), seg.size());
        seg.grow(alloc, more)?;
        if let Some(pairs) = &mut self.pairs {
            let place = last_place(pairs, number, size);
            pairs[place] = (number, size + more);
        }
        Ok(())
    }

    /// Takes a segment back that is out: the last pair that is equal to its own goes.
    #[tactic(auto, using(crate::proofs::LastPair::less_one_pair))]
    pub fn take_back(&mut self, seg: Segment)
        requires { Contains self.old (pair_of seg) }
        ensures out { self.new ≡ without_last (pair_of seg) self.old }
        ensures bytes { bytes_of self.new + length seg.bytes ≡ bytes_of self.old }
    {
        if let Some(pairs) = &mut self.pairs {
            let place = last_place(pairs, seg.number(), seg.size());
            pairs.remove(place);
        }
    }
}

// The place of the last pair that is equal to this one.
fn last_place(pairs: &[(u32, u32)], number: u32, size: u32) -> usize
    requires { Contains pairs.now (number, size) }
    ensures within { result < length pairs.now }
    ensures last { remove pairs.now result ≡ without_last (number, size) pairs.now }
    ensures longer { (more : ℕ) → slice_set pairs.now result (number, size + more)
        ≡ extend_last (number, size) more pairs.now }
    ensures bytes { (slice_index_or pairs.now result (0, 0)).1 ≡ size }
{
    let mut end = pairs.len();
    while end > 0 {
        end -= 1;
        let pair = pairs[end];
        if pair.0 == number && pair.1 == size {
            return end;
        }
    }
    unreachable!()
}
