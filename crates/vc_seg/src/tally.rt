ghost use Rattle.std.specs.Prelude.{◌≡◌, [], ◌∷◌, map};
ghost use Rattle.vc_seg.specs.Tally.{HasRoom, tally_with, tally_of};

use crate::Numbered;

/// How many sizes there are, their sum and the greatest, in bytes.
#[derive(Clone, Copy)]
pub struct Tally {
    /// How many there are.
    pub count: u64,
    /// Their sum.
    pub bytes: u64,
    /// The greatest; 0 where there is none.
    pub most: u64,
}

impl Tally {
    /// Of no size.
    pub fn new() -> Tally
        ensures { result ≡ tally_of [] }
    {
        Tally {
            count: 0,
            bytes: 0,
            most: 0,
        }
    }

    /// With one more size.
    pub fn with(self, size: u32) -> Tally
        requires { HasRoom self (size ∷ []) }
        ensures { result ≡ tally_with self size }
    {
        let size = size as u64;
        Tally {
            count: self.count + 1,
            bytes: self.bytes + size,
            most: if self.most < size { size } else { self.most },
        }
    }
}

/// How many segments there are, the sum of their sizes and the greatest, in bytes.
pub fn tally_segments<T: Numbered>(segs: &[T]) -> Tally
    requires { HasRoom (tally_of []) (map (λ s. s.1) (map T.pair segs.now)) }
    ensures { result ≡ tally_of (map (λ s. s.1) (map T.pair segs.now)) }
{
    let mut tally = Tally::new();
    for segment in segs {
        tally = tally.with(segment.size());
    }
    tally
}
