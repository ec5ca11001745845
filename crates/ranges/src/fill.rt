ghost use Rattle.std.specs.Prelude.{◌≡◌, ◌+◌, ◌<◌, ◌≤◌, IfOk, length, map};
ghost use Rattle.vc_algebra.specs.Filling.{CanFillIn};

use crate::fault::Fault;
use vc_algebra::RegionLayers;
use vc_base::Steps;
use vc_dtdisc::DictDisc;
use vc_objects::Fate;
use vc_seg::{BoxedDisc, SegDisc};

// Puts a word into a set, where it has a byte.
fn put_word<D: DictDisc, L>(
    sets: &mut RegionLayers<D>,
    d: u32,
    word: &[u8],
    steps: &mut Steps<L>,
) -> Result<(), Fault>
    requires fill { CanFillIn state (map D.rules sets.old.kinds.items)
        sets.old.region sets.old.dicts }
    requires there { d < length sets.old.dicts }
    ensures fill { CanFillIn state (map D.rules sets.new.kinds.items)
        sets.new.region sets.new.dicts }
    ensures count { length sets.new.dicts ≡ length sets.old.dicts }
    ensures kinds { sets.new.kinds ≡ sets.old.kinds }
{
    if word.is_empty() {
        return Ok(());
    }
    if word.len() > 1024 {
        return Err(Fault::Words);
    }
    match sets.insert(d, word, steps) {
        Ok(None | Some(Fate::Stored)) => Ok(()),
        _ => Err(Fault::Memory),
    }
}

// Puts the word of a line that ends at an index, where one does, and answers where the next one begins.
fn put_part<D: DictDisc, L>(
    sets: &mut RegionLayers<D>,
    d: u32,
    line: &[u8],
    start: usize,
    i: usize,
    steps: &mut Steps<L>,
) -> Result<usize, Fault>
    requires begun { start ≤ i }
    requires within { i < length line.now }
    requires fill { CanFillIn state (map D.rules sets.old.kinds.items)
        sets.old.region sets.old.dicts }
    requires there { d < length sets.old.dicts }
    ensures begun { IfOk result (λ next. next ≤ i + 1) }
    ensures fill { CanFillIn state (map D.rules sets.new.kinds.items)
        sets.new.region sets.new.dicts }
    ensures count { length sets.new.dicts ≡ length sets.old.dicts }
    ensures kinds { sets.new.kinds ≡ sets.old.kinds }
{
    if line[i] <= 32 {
        put_word(sets, d, &line[start..i], steps)?;
        Ok(i + 1)
    } else {
        Ok(start)
    }
}

// Puts the words of a line into a set.
pub(crate) fn put_words<D: DictDisc, L>(
    sets: &mut RegionLayers<D>,
    d: u32,
    line: &[u8],
    steps: &mut Steps<L>,
) -> Result<(), Fault>
    requires fill { CanFillIn state (map D.rules sets.old.kinds.items)
        sets.old.region sets.old.dicts }
    requires there { d < length sets.old.dicts }
    ensures fill { CanFillIn state (map D.rules sets.new.kinds.items)
        sets.new.region sets.new.dicts }
    ensures count { length sets.new.dicts ≡ length sets.old.dicts }
    ensures kinds { sets.new.kinds ≡ sets.old.kinds }
{
    let mut start = 0;
    for i in 0..line.len() {
        start = put_part(sets, d, line, start, i, steps)?;
    }
    put_word(sets, d, &line[start..], steps)
}
