ghost use Rattle.std.specs.Prelude.{◌≡◌, ℕ, List, Some, IsSome, true};
ghost use Rattle.std.specs.Option.{option_map};
ghost use Rattle.vc_base.specs.Prelude.{is_ordered, number_of};
ghost use Rattle.vc_paths.specs.Layers.{Same, bytes_there};
ghost use Rattle.vc_algebra.specs.Algebra.{place_at_least};

use std::cmp::Ordering;
use vc_base::{Addr, Steps};
use vc_paths::Layers;

/// Layers whose objects can be compared with a key that no object of theirs has to have. Neither call can be refused or
/// needs memory, and neither changes an object, an order, a method or a kind. `steps` counts the compares. This project's
/// own.
pub trait Ordered: Layers {
    /// How the key of the object of `d` at the place `at` stands to a key.
    fn side<L>(&self, d: u32, at: Addr, key: &[u8], steps: &mut Steps<L>) -> Ordering
        requires dict { (Self.layered self.now).Has d }
        requires place { IsSome (bytes_there at.0 ((Self.layered self.now).layer d).objects) }
        ensures { (bytes : List ℕ)
            → bytes_there at.0 ((Self.layered self.now).layer d).objects ≡ Some bytes
            → result ≡ ((Self.layered self.now).layer d).rules.compare
            (((Self.layered self.now).layer d).rules.key bytes) key.now };

    /// The place of the first object of `d`, an ordered dictionary, whose key isn't less than a key; none where each
    /// object's is.
    fn at_least<L>(&mut self, d: u32, key: &[u8], steps: &mut Steps<L>) -> Option<Addr>
        requires dict { (Self.layered self.old).Has d }
        requires method { is_ordered ((Self.layered self.old).layer d).method ≡ true }
        ensures found { option_map number_of result
            ≡ place_at_least ((Self.layered self.old).layer d).rules key.now
            ((Self.layered self.old).layer d).objects }
        ensures layers { Same (Self.layered self.old) (Self.layered self.new) }
        ensures stays { Self.Stays self.old self.new };
}
