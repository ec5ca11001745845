ghost use Rattle.std.specs.Prelude.{◌≡◌, ℕ, ◌+◌, ◌-◌, ◌<◌, ◌≤◌, ◌↔◌, [], ◌∷◌, ◌++◌, Some, None, vec_len, slice_set, IfSome, IfNone, OnSome, IsSome, IfOk, IfErr, OnOk, OnErr};
ghost use Rattle.vc_seg.specs.Shelf.{slots_of, slot_at, place_at};

use crate::SegDisc;
use std::alloc::Global;
use vc_base::OutOfMemory;

/// Keeps disciplines by number, from 1: a number stays that of its discipline, also while it is taken.
#[derive(Drop)]
pub struct Shelf {
    /// The discipline of each number, or None while it is taken.
    pub slots: Vec<Option<Box<dyn SegDisc>>>,
    // A number fits a u32.
    pub ghost few: { vec_len slots ≤ 4294967295 },
}

/// What stands at a number of a shelf.
#[derive(Clone, Copy, Debug, PartialEq, Eq)]
pub enum ShelfPlace {
    /// No discipline was put there.
    Missing,
    /// Its discipline was taken.
    Taken,
    /// Its discipline stands there.
    Here,
}

impl Shelf {
    /// An empty shelf.
    pub fn new(alloc: Global) -> Shelf
        ensures { result.slots.items ≡ [] }
    {
        Shelf {
            slots: Vec::new(alloc),
        }
    }

    /// How many disciplines were put: at most 4,294,967,295.
    pub fn len(&self) -> u32
        ensures { result ≡ vec_len self.now.slots }
    {
        self.slots.len() as u32
    }

    /// Puts a discipline behind the others and answers its number. With no memory it comes back.
    pub fn put(&mut self, disc: Box<dyn SegDisc>) -> Result<u32, (OutOfMemory, Box<dyn SegDisc>)>
        requires { vec_len self.old.slots < 4294967295 }
        ensures number { IfOk result (λ n. n ≡ vec_len self.new.slots) }
        ensures len { OnOk result (vec_len self.new.slots ≡ vec_len self.old.slots + 1) }
        ensures place { IfOk result (λ n. place_at (slots_of state self.new.slots.items) n
            ≡ ShelfPlace.Here) }
        ensures ok { OnOk result (slots_of state self.new.slots.items
            ≡ slots_of state self.old.slots.items ++ Some (state disc) ∷ []) }
        ensures err { OnErr result (self.new.slots.items ≡ self.old.slots.items) }
        ensures returned { IfErr result (λ e. state e.1 ≡ state disc) }
    {
        match self.slots.push(Some(disc)) {
            Ok(()) => Ok(self.slots.len() as u32),
            Err(failed) => match failed.value {
                Some(disc) => Err((OutOfMemory, disc)),
                None => unreachable!(),
            },
        }
    }

    /// What stands at this number.
    pub fn place(&self, n: u32) -> ShelfPlace
        ensures { result ≡ place_at (slots_of state self.now.slots.items) n }
    {
        if n == 0 || n > self.len() {
            return ShelfPlace::Missing;
        }
        match &self.slots[n as usize - 1] {
            Some(_) => ShelfPlace::Here,
            None => ShelfPlace::Taken,
        }
    }

    /// Takes the discipline that stands at this number. Its number stays free for it.
    pub fn take(&mut self, n: u32) -> Option<Box<dyn SegDisc>>
        ensures here { IsSome result ↔ (place_at (slots_of state self.old.slots.items) n
            ≡ ShelfPlace.Here) }
        ensures taken { IfSome result (λ disc. slot_at (slots_of state self.old.slots.items) n
            ≡ Some (Some (state disc))) }
        ensures emptied { OnSome result (slots_of state self.new.slots.items
            ≡ slice_set (slots_of state self.old.slots.items) (n - 1) None) }
        ensures place { OnSome result (place_at (slots_of state self.new.slots.items) n
            ≡ ShelfPlace.Taken) }
        ensures none { IfNone result (self.new.slots.items ≡ self.old.slots.items) }
    {
        if n == 0 || n > self.len() {
            return None;
        }
        self.slots[n as usize - 1].take()
    }

    /// Puts a discipline back at a number whose discipline was taken.
    pub fn give_back(&mut self, n: u32, disc: Box<dyn SegDisc>)
        requires { place_at (slots_of state self.old.slots.items) n ≡ ShelfPlace.Taken }
        ensures filled { slots_of state self.new.slots.items
            ≡ slice_set (slots_of state self.old.slots.items) (n - 1) (Some (state disc)) }
        ensures place { place_at (slots_of state self.new.slots.items) n ≡ ShelfPlace.Here }
    {
        self.slots[n as usize - 1] = Some(disc);
    }
}
