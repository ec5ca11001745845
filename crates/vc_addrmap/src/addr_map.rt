ghost use Rattle.std.specs.Prelude.{◌≡◌, ◌+◌, None, IfNone, IsOk, OnOk, OnSome, Some, is_some, if◌then◌else◌};
ghost use Rattle.vc_base.specs.Prelude.{some_address};
ghost use Rattle.vc_addrmap.specs.Map.{IsMap, lost_by_move, moved_number, name_of_address, no_numbers, with_number};
ghost use Rattle.vc_addrmap.specs.MapUnique.{IsMap-prop};

use crate::by_addr::ByAddr;
use crate::entries::{Entries, Entry};
use slab::Slab;
use std::alloc::Global;
use vc_base::{Addr, OutOfMemory, Steps};
use vc_splay::{find_first, link_after_equals, unlink};

// Marks a counter of steps that no one reads.
struct Uncounted;

/// A map from addresses to numbers. A look-up takes a time that is logarithmic in their count, amortised over all calls.
/// This project's own.
#[derive(Drop)]
pub struct AddrMap {
    // The addresses with their numbers, and the links of the tree.
    pub(crate) entries: Entries,
    // The name of the tree's root, 0 where the map is empty.
    pub(crate) root: u32,
    // For the counters of steps.
    alloc: Global,
    /// The tree names each entry once, in ascending order of address.
    pub ghost kept: { IsMap entries.slab root } by { IsMap-prop entries.slab root },
}

impl AddrMap {
    ghost use Rattle.vc_addrmap.specs.Parts.{HasRoomForOne, count_of, names_of, numbers_of};

    /// With no address. It takes no memory.
    pub fn new(alloc: Global) -> AddrMap
        ensures numbers { numbers_of result ≡ no_numbers }
        ensures count { count_of result ≡ 0 }
    {
        AddrMap {
            entries: Entries {
                slab: Slab::new(alloc),
            },
            root: 0,
            alloc,
        }
    }

    /// How many addresses have a number.
    pub fn len(&self) -> usize
        ensures { result ≡ count_of self.now }
    {
        self.entries.slab.len()
    }

    /// Makes room for one address more. Where there is room it succeeds; else it fails where there is no memory, and where
    /// there are 4,294,967,295 addresses.
    pub fn reserve(&mut self) -> Result<(), OutOfMemory>
        ensures room { OnOk result (HasRoomForOne self.new) }
        ensures succeeds { HasRoomForOne self.old → IsOk result }
        ensures same { numbers_of self.new ≡ numbers_of self.old }
        ensures count { count_of self.new ≡ count_of self.old }
    {
        if self.entries.slab.vacant_key() >= 4_294_967_295 {
            return Err(OutOfMemory);
        }
        self.entries.slab.reserve(1)?;
        Ok(())
    }

    // The name of the entry of an address, 0 where there is none. It becomes the root.
    fn find(&mut self, a: Addr) -> u32
        ensures found { some_address result
            ≡ name_of_address self.new.entries.slab (names_of self.new) a.0 }
        ensures same { numbers_of self.new ≡ numbers_of self.old }
        ensures count { count_of self.new ≡ count_of self.old }
        ensures room { HasRoomForOne self.old → HasRoomForOne self.new }
    {
        let mut steps = Steps::<Uncounted>::new(self.alloc);
        let (root, found) = find_first(
            &mut self.entries,
            self.root,
            &ByAddr { at: a.0 },
            false,
            &mut steps,
        );
        self.root = root;
        found
    }

    /// The number of an address. None where it has none.
    pub fn get(&mut self, a: Addr) -> Option<u32>
        ensures answer { result ≡ numbers_of self.old a.0 }
        ensures same { numbers_of self.new ≡ numbers_of self.old }
        ensures count { count_of self.new ≡ count_of self.old }
        ensures room { HasRoomForOne self.old → HasRoomForOne self.new }
    {
        let n = self.find(a);
        if n == 0 {
            return None;
        }
        Some(self.entries.entry(n).value)
    }

    /// The number of an address, by a look-up that changes nothing. None where it has none. It takes a step for each entry
    /// on the way down, and leaves the tree as deep as it is: alone it may take as many steps as there are addresses,
    /// each time. With a call of `get`, `put`, `take` or `moved` for the same address after it, the two together take a
    /// time that is logarithmic, amortised over all such calls.
    pub fn peek(&self, a: Addr) -> Option<u32>
        ensures { result ≡ numbers_of self.now a.0 }
    {
        let mut at = self.root;
        while at != 0 {
            let entry = self.entries.entry(at);
            if entry.at == a.0 {
                return Some(entry.value);
            }
            at = entry.child(a.0 < entry.at);
        }
        None
    }

    /// Gives an address a number, in place of the one that it has. Condition: there is room for one address more.
    pub fn put(&mut self, a: Addr, value: u32)
        requires { HasRoomForOne self.old }
        ensures numbers { numbers_of self.new ≡ with_number a.0 (Some value) (numbers_of self.old) }
        ensures count { count_of self.new
            ≡ (if is_some (numbers_of self.old a.0) then count_of self.old else count_of self.old + 1) }
    {
        let n = self.find(a);
        if n != 0 {
            let entry = self.entries.entry(n);
            self.entries.write(n, Entry { value, ..entry });
            return;
        }
        let entry = Entry {
            at: a.0,
            value,
            left: 0,
            right: 0,
            up: 0,
        };
        let name = self.entries.add(entry);
        let mut steps = Steps::<Uncounted>::new(self.alloc);
        self.root = link_after_equals(
            &mut self.entries,
            self.root,
            name,
            &ByAddr { at: a.0 },
            false,
            &mut steps,
        );
    }

    /// Takes the number of an address out, and answers it. None where it has none. Where it has one there is room for one
    /// address more then. It needs no memory.
    pub fn take(&mut self, a: Addr) -> Option<u32>
        ensures answer { result ≡ numbers_of self.old a.0 }
        ensures numbers { numbers_of self.new ≡ with_number a.0 None (numbers_of self.old) }
        ensures count { OnSome result (count_of self.new + 1 ≡ count_of self.old) }
        ensures same_count { IfNone result (count_of self.new ≡ count_of self.old) }
        ensures room { OnSome result (HasRoomForOne self.new) }
        ensures same_room { HasRoomForOne self.old → HasRoomForOne self.new }
    {
        let n = self.find(a);
        if n == 0 {
            return None;
        }
        self.root = unlink(&mut self.entries, self.root, n);
        Some(self.entries.remove(n).value)
    }

    /// Gives the number of an address, where it has one, to another address, in place of the one that this has. Where both
    /// are one address it is a look-up. It needs no memory.
    pub fn moved(&mut self, from: Addr, to: Addr)
        ensures numbers { numbers_of self.new ≡ moved_number from.0 to.0 (numbers_of self.old) }
        ensures count { count_of self.new + lost_by_move from.0 to.0 (numbers_of self.old)
            ≡ count_of self.old }
    {
        if from.0 == to.0 {
            let _ = self.get(from);
            return;
        }
        match self.take(from) {
            Some(value) => self.put(to, value),
            None => {}
        }
    }

    /// Takes out the numbers of all addresses.
    pub fn clear(&mut self)
        ensures numbers { numbers_of self.new ≡ no_numbers }
        ensures count { count_of self.new ≡ 0 }
    {
        self.entries.slab.clear();
        self.root = 0;
    }
}
