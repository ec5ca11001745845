ghost use Rattle.std.specs.Prelude.{◌≡◌, ◌≢◌, ℕ, ◌<◌, [], All, AllPairs, Contains, filter, length, map, true, vec_capacity};
ghost use Rattle.vc_base.specs.Prelude.{HasOut, TookBack};
ghost use Rattle.vc_seg.specs.Back.{is_kept, is_marked, stays_from};
ghost use Rattle.vc_seg.specs.Numbered.{AreNumbered};
ghost use Rattle.vc_seg.specs.Returned.{Returned};
ghost use Rattle.vc_seg.specs.Segment.{pair_of};

use crate::number::find_number;
use crate::{Numbered, SegDisc, Segment};

/// The discipline takes back a segment of a region, which was taken out from among these. Each of a lower number that is
/// left is marked, so segments go back in ascending order of number. A region gives a segment back by this call alone.
pub fn give_back_one<T: Numbered>(
    segment: Segment,
    left: &[T],
    marks: &[bool],
    disc: &mut Box<dyn SegDisc>,
)
    requires ascending { All (λ s. stays_from (is_marked marks.now) segment.number s.0 ≡ true)
        (map T.pair left.now) }
    requires out { Contains (state disc.old).out (pair_of segment) }
    ensures { Returned (state disc.old) (state disc.new) (pair_of segment) }
{
    let _ = left;
    let _ = marks;
    disc.take_back(segment);
}

// The discipline takes back the segment of that number, where there is one and the number isn't marked.
fn give_back_unless<T: Numbered>(
    segs: &mut Vec<T>,
    marks: &[bool],
    disc: &mut Box<dyn SegDisc>,
    number: u32,
)
    requires number { number < length marks.now }
    requires distinct { AllPairs (λ a b. (T.pair a).0 ≢ (T.pair b).0) segs.old.items }
    requires ascending { All (λ s. stays_from (is_marked marks.now) number s.0 ≡ true)
        (map T.pair segs.old.items) }
    requires out { HasOut (state disc.old) (map T.pair segs.old.items) }
    ensures segments { segs.new.items
        ≡ filter (λ s. is_kept (is_marked marks.now) number (T.pair s).0) segs.old.items }
    ensures out { TookBack (state disc.old) (state disc.new)
        (map T.pair segs.old.items) (map T.pair segs.new.items) }
    ensures room { vec_capacity segs.new ≡ vec_capacity segs.old }
{
    if marks[number as usize] {
        return;
    }
    if let Some(place) = find_number(segs, number) {
        let segment = segs.remove(place).into_segment();
        give_back_one(segment, segs, marks, disc);
    }
}

/// The discipline takes back each segment whose number isn't marked, in ascending order of number. There are marks for the
/// numbers from 0 to 1,023. The room in the list stays.
pub fn give_back<T: Numbered>(segs: &mut Vec<T>, marks: &[bool], disc: &mut Box<dyn SegDisc>)
    requires segments { AreNumbered (map T.pair segs.old.items) }
    requires marks { length marks.now ≡ 1024 }
    requires out { HasOut (state disc.old) (map T.pair segs.old.items) }
    ensures segments { segs.new.items
        ≡ filter (λ s. is_marked marks.now (T.pair s).0) segs.old.items }
    ensures out { TookBack (state disc.old) (state disc.new)
        (map T.pair segs.old.items) (map T.pair segs.new.items) }
    ensures room { vec_capacity segs.new ≡ vec_capacity segs.old }
{
    for number in 1..1024 {
        give_back_unless(segs, marks, disc, number);
    }
}

/// The discipline takes all segments back, in ascending order of number, and they are counted.
pub fn give_back_all<T: Numbered>(segs: &mut Vec<T>, disc: &mut Box<dyn SegDisc>) -> u32
    requires segments { AreNumbered (map T.pair segs.old.items) }
    requires out { HasOut (state disc.old) (map T.pair segs.old.items) }
    ensures none { segs.new.items ≡ [] }
    ensures count { result ≡ length (map T.pair segs.old.items) }
    ensures out { TookBack (state disc.old) (state disc.new) (map T.pair segs.old.items) [] }
{
    let count = segs.len() as u32;
    give_back(segs, &[false; 1024], disc);
    count
}
