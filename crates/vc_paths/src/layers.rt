ghost use Rattle.std.specs.Prelude.{◌≡◌, ℕ, Some, IsSome, List};
ghost use Rattle.std.specs.Option.{option_map};
ghost use Rattle.vc_base.specs.Prelude.{number_of};
ghost use Rattle.vc_dtdisc.specs.Finding.{first_of, last_of};
ghost use Rattle.vc_paths.specs.Layers.{AreLayers, Layered, Same, bytes_there, place_before, place_behind, place_greater, place_in, place_last_like, place_less, place_with};
ghost use Rattle.vc_paths.specs.Ordered.{CanSeek};

use std::cmp::Ordering;
use vc_base::{Addr, DictMethod, Steps};

/// Dictionaries by number, from 0 to 255, each a layer that a view path may have: its objects stand at places, which are
/// the addresses of their holders, in bytes. Each number that a call is handed (`d`, `e`, `of`) is that of a dictionary,
/// and each place (`at`, `a`, `b`) one of the dictionary named with it. None of the calls can be refused or needs memory,
/// and none changes an object, an order, a method or a kind. `steps` counts the compares that a call makes; how many they
/// are is up to the layers. The last three calls have bodies here, which go from object to object and compare at most each
/// of a dictionary once; layers that can search do better by bodies of their own. This project's own.
pub trait Layers {
    /// Which numbers are dictionaries, and what each of these is.
    ghost layered: { Self → Layered };

    /// All stayed the same but the links inside holders and the roots of ordered dictionaries.
    ghost Stays: { Self → Self → Type 0 };

    /// The method of `d`.
    fn method(&self, d: u32) -> DictMethod
        requires { (layered self.now).Has d }
        ensures { result ≡ ((layered self.now).layer d).method };

    /// The number of the kind of `d`.
    fn kind_number(&self, d: u32) -> u32
        requires { (layered self.now).Has d }
        ensures { result ≡ ((layered self.now).layer d).kind };

    /// The bytes of the object of `d` at the place `at`.
    fn object(&self, d: u32, at: Addr) -> &[u8]
        requires dict { (layered self.now).Has d }
        requires place { IsSome (bytes_there at.0 ((layered self.now).layer d).objects) }
        ensures { bytes_there at.0 ((layered self.now).layer d).objects ≡ Some result.now };

    /// The place of the first object of `d` that has a key; none where none has it.
    fn find<L>(&mut self, d: u32, key: &[u8], steps: &mut Steps<L>) -> Option<Addr>
        requires { (layered self.old).Has d }
        ensures found { option_map number_of result ≡ place_with ((layered self.old).layer d).rules
            key.now ((layered self.old).layer d).objects }
        ensures layers { Same (layered self.old) (layered self.new) }
        ensures stays { Stays self.old self.new };

    /// The place of the first object of `d` that matches the object at the place `at` of `of`, a dictionary of the same
    /// kind; none where none matches.
    fn find_like<L>(&mut self, d: u32, of: u32, at: Addr, steps: &mut Steps<L>) -> Option<Addr>
        requires dict { (layered self.old).Has d }
        requires other { (layered self.old).Has of }
        requires kinds { ((layered self.old).layer of).kind ≡ ((layered self.old).layer d).kind }
        requires place { IsSome (bytes_there at.0 ((layered self.old).layer of).objects) }
        ensures found { (bytes : List ℕ)
            → bytes_there at.0 ((layered self.old).layer of).objects ≡ Some bytes
            → option_map number_of result ≡ place_with ((layered self.old).layer d).rules
            (((layered self.old).layer d).rules.key bytes) ((layered self.old).layer d).objects }
        ensures layers { Same (layered self.old) (layered self.new) }
        ensures stays { Stays self.old self.new };

    /// How the object at the place `a` of `d` stands to the one at the place `b` of `e`, a dictionary of the same kind.
    fn compare_at<L>(&self, d: u32, a: Addr, e: u32, b: Addr, steps: &mut Steps<L>) -> Ordering
        requires dict { (layered self.now).Has d }
        requires other { (layered self.now).Has e }
        requires kinds { ((layered self.now).layer e).kind ≡ ((layered self.now).layer d).kind }
        requires first { IsSome (bytes_there a.0 ((layered self.now).layer d).objects) }
        requires second { IsSome (bytes_there b.0 ((layered self.now).layer e).objects) }
        ensures { (x y : List ℕ)
            → bytes_there a.0 ((layered self.now).layer d).objects ≡ Some x
            → bytes_there b.0 ((layered self.now).layer e).objects ≡ Some y
            → result ≡ ((layered self.now).layer d).rules.compare
            (((layered self.now).layer d).rules.key x) (((layered self.now).layer d).rules.key y) };

    /// The place of the first object of `d`; none where there is none.
    fn first(&self, d: u32) -> Option<Addr>
        requires { (layered self.now).Has d }
        ensures { option_map number_of result
            ≡ place_in (first_of ((layered self.now).layer d).objects) };

    /// The place of the last object of `d`; none where there is none.
    fn last(&self, d: u32) -> Option<Addr>
        requires { (layered self.now).Has d }
        ensures { option_map number_of result
            ≡ place_in (last_of ((layered self.now).layer d).objects) };

    /// The place behind `at` in `d`; none behind the last.
    fn next(&self, d: u32, at: Addr) -> Option<Addr>
        requires dict { (layered self.now).Has d }
        requires place { IsSome (bytes_there at.0 ((layered self.now).layer d).objects) }
        ensures { option_map number_of result
            ≡ place_behind at.0 ((layered self.now).layer d).objects };

    /// The place before `at` in `d`; none before the first.
    fn prev(&self, d: u32, at: Addr) -> Option<Addr>
        requires dict { (layered self.now).Has d }
        requires place { IsSome (bytes_there at.0 ((layered self.now).layer d).objects) }
        ensures { option_map number_of result
            ≡ place_before at.0 ((layered self.now).layer d).objects };

    /// The place of the last object of `d` that matches the object at the place `at` of `d`: that one, or one behind it.
    fn last_like<L>(&mut self, d: u32, at: Addr, steps: &mut Steps<L>) -> Addr
        requires dict { (layered self.old).Has d }
        requires place { IsSome (bytes_there at.0 ((layered self.old).layer d).objects) }
        ensures found { (bytes : List ℕ)
            → bytes_there at.0 ((layered self.old).layer d).objects ≡ Some bytes
            → Some result.0 ≡ place_last_like ((layered self.old).layer d).rules
            bytes ((layered self.old).layer d).objects }
        ensures layers { Same (layered self.old) (layered self.new) }
        ensures stays { Stays self.old self.new }
    {
        let mut last = at;
        let mut next = self.next(d, at);
        while let Some(other) = next {
            if self.compare_at(d, other, d, at, steps).is_eq() {
                last = other;
            }
            next = self.next(d, other);
        }
        last
    }

    /// The place of the first object of `d`, an ordered dictionary, that is greater than the object at the place `at` of
    /// `of`, a dictionary of the same kind; none where none is.
    fn behind_like<L>(&mut self, d: u32, of: u32, at: Addr, steps: &mut Steps<L>) -> Option<Addr>
        requires { CanSeek (layered self.old) d (Some (of, at)) }
        ensures found { (bytes : List ℕ)
            → bytes_there at.0 ((layered self.old).layer of).objects ≡ Some bytes
            → option_map number_of result ≡ place_greater ((layered self.old).layer d).rules
            bytes ((layered self.old).layer d).objects }
        ensures layers { Same (layered self.old) (layered self.new) }
        ensures stays { Stays self.old self.new }
    {
        let mut next = self.first(d);
        while let Some(other) = next {
            if self.compare_at(d, other, of, at, steps).is_gt() {
                return next;
            }
            next = self.next(d, other);
        }
        None
    }

    /// The place of the last object of `d`, an ordered dictionary, that is less than the object at the place `at` of `of`,
    /// a dictionary of the same kind; none where none is.
    fn before_like<L>(&mut self, d: u32, of: u32, at: Addr, steps: &mut Steps<L>) -> Option<Addr>
        requires { CanSeek (layered self.old) d (Some (of, at)) }
        ensures found { (bytes : List ℕ)
            → bytes_there at.0 ((layered self.old).layer of).objects ≡ Some bytes
            → option_map number_of result ≡ place_less ((layered self.old).layer d).rules
            bytes ((layered self.old).layer d).objects }
        ensures layers { Same (layered self.old) (layered self.new) }
        ensures stays { Stays self.old self.new }
    {
        let mut next = self.last(d);
        while let Some(other) = next {
            if self.compare_at(of, at, d, other, steps).is_gt() {
                return next;
            }
            next = self.prev(d, other);
        }
        None
    }

    /// The places of a dictionary are distinct, an ordered one stands in order of its keys, and kinds of one number have
    /// the same lawful rules.
    ghost lawful: { (layers : Self) → AreLayers (layered layers) };

    /// The rest stays where nothing is done, and over two calls where it stays over each.
    ghost reflexive: { (layers : Self) → Stays layers layers };

    ghost transitive: { (a b c : Self) → Stays a b → Stays b c → Stays a c };
}
