ghost use Rattle.std.specs.Prelude.{◌≡◌, ◌≢◌, ℕ, ◌+◌, ◌<◌, ◌≤◌, ◌==◌, All, IfNone, IfSome, length, map};
ghost use Rattle.std.specs.List.{HoldsAt, list_any};
ghost use Rattle.vc_model.specs.Segments.{lowest_unused, numbers};

use crate::Numbered;

// Where the segment of that number is among these.
fn search_number<T: Numbered>(segs: &[T], number: u32) -> Option<usize>
    ensures found { IfSome result (λ i. (i < length segs.now)
        × HoldsAt (λ s. (T.pair s).0 ≡ number) segs.now i) }
    ensures none { IfNone result (All (λ s. (T.pair s).0 ≢ number) segs.now) }
{
    for (i, segment) in segs.iter().enumerate() {
        if segment.number() == number {
            return Some(i);
        }
    }
    None
}

/// Where the segment of that number is among these. Numbers are given from 1 on, so it mostly stands where its number says.
#[inline(always)]
pub fn find_number<T: Numbered>(segs: &[T], number: u32) -> Option<usize>
    ensures found { IfSome result (λ i. (i < length segs.now)
        × HoldsAt (λ s. (T.pair s).0 ≡ number) segs.now i) }
    ensures none { IfNone result (All (λ s. (T.pair s).0 ≢ number) segs.now) }
{
    if number > 0 {
        let near = number as usize - 1;
        if near < segs.len() && segs[near].number() == number {
            return Some(near);
        }
    }
    search_number(segs, number)
}

// Whether a segment has that number.
fn is_used<T: Numbered>(segs: &[T], number: u32) -> bool
    ensures { result ≡ list_any (λ m. m == number) (numbers (map T.pair segs.now)) }
{
    match find_number(segs, number) {
        Some(_) => true,
        None => false,
    }
}

/// The least number from 1 on that no segment has.
#[tactic(auto, using(crate::proofs::Unused::unused_from_steps))]
pub fn lowest_unused<T: Numbered>(segs: &[T]) -> u32
    requires { length segs.now ≤ 1023 }
    ensures value { result ≡ lowest_unused (numbers (map T.pair segs.now)) }
    ensures first { 1 ≤ result }
    ensures last { result ≤ length segs.now + 1 }
{
    let mut number = 1;
    for _segment in segs {
        if !is_used(segs, number) {
            return number;
        }
        number += 1;
    }
    number
}
