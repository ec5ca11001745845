ghost use Rattle.std.specs.Prelude.{◌≡◌, [], ◌∷◌, filter, fold, map, nat_lt};
ghost use Rattle.vc_base.specs.Prelude.{next_segment, segment_at};
ghost use Rattle.vc_model.specs.Order.{lesser_by};

use crate::Numbered;

/// The size in bytes of the segment of that number, where the offset is below it. None where no segment has a byte there.
pub fn segment_at<T: Numbered>(segs: &[T], seg: u32, off: u32) -> Option<u32>
    ensures { result ≡ segment_at (seg, off) (map T.pair segs.now) }
{
    for segment in segs {
        if segment.number() == seg && off < segment.size() {
            return Some(segment.size());
        }
    }
    None
}

// The lesser by number of the least segment so far and one more, as number and size, where that is above a number.
fn consider(least: Option<(u32, u32)>, after: u32, number: u32, bytes: u32) -> Option<(u32, u32)>
    ensures { result ≡ fold (lesser_by (λ s. s.0)) least
        (filter (λ s. nat_lt after s.0) ((number, bytes) ∷ [])) }
{
    if number <= after {
        return least;
    }
    match least {
        Some(pair) => {
            if number < pair.0 {
                Some((number, bytes))
            } else {
                least
            }
        }
        None => Some((number, bytes)),
    }
}

/// The segment with the least number above one, as number and size in bytes. None where there is none.
pub fn next_segment<T: Numbered>(segs: &[T], after: u32) -> Option<(u32, u32)>
    ensures { result ≡ next_segment after (map T.pair segs.now) }
{
    let mut least = None;
    for segment in segs {
        least = consider(least, after, segment.number(), segment.size());
    }
    least
}
