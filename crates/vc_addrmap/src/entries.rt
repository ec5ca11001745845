ghost use Rattle.std.specs.Prelude.{◌≡◌, ◌<◌, Some, refl, true};
ghost use Rattle.slab.specs.Slab.{HasRoomFor, slab_len};
ghost use Rattle.vc_addrmap.specs.Entries.{child_of, EntryAdded, EntryTakenOut, EntryWritten, entry_at, has_entry};

use slab::Slab;
use vc_splay::Nodes;

/// An address with its number, and the links of its node.
#[derive(Clone, Copy)]
pub struct Entry {
    pub at: u32,
    pub value: u32,
    pub left: u32,
    pub right: u32,
    pub up: u32,
}

impl Entry {
    /// The name of its left or right child, 0 where it has none.
    #[inline(always)]
    pub fn child(self, left: bool) -> u32
        ensures { result ≡ child_of left self }
    {
        if left { self.left } else { self.right }
    }
}

/// Entries as a store of nodes: an entry's name is the number of its place, from 1 on.
#[derive(Drop)]
pub struct Entries {
    pub slab: Slab<Entry>,
}

impl Entries {
    /// The entry of a name that is there.
    #[inline(always)]
    pub fn entry(&self, n: u32) -> Entry
        requires { has_entry self.now.slab n ≡ true }
        ensures { entry_at self.now.slab n ≡ Some result }
    {
        self.slab[n as usize - 1]
    }

    /// Gives a name that is there another entry.
    #[inline(always)]
    pub fn write(&mut self, n: u32, entry: Entry)
        requires { has_entry self.old.slab n ≡ true }
        ensures { EntryWritten self.old.slab self.new.slab n entry }
    {
        self.slab[n as usize - 1] = entry;
    }

    /// Adds an entry, where there is room for it, and answers its name.
    pub fn add(&mut self, entry: Entry) -> u32
        requires room { HasRoomFor self.old.slab 1 }
        requires named { self.old.slab.vacant_key < 4294967295 }
        ensures { EntryAdded self.old.slab self.new.slab result entry }
    {
        self.slab.insert_reserved(entry) as u32 + 1
    }

    /// Takes an entry out.
    pub fn remove(&mut self, n: u32) -> Entry
        requires { has_entry self.old.slab n ≡ true }
        ensures is { entry_at self.old.slab n ≡ Some result }
        ensures out { EntryTakenOut self.old.slab self.new.slab n }
    {
        self.slab.remove(n as usize - 1)
    }
}

impl Nodes for Entries {
    ghost use Rattle.vc_addrmap.specs.Entries.{StaysButLinks, entry_store};
    ghost use Rattle.vc_addrmap.specs.EntryLaws.{but_links_none, but_links_twice, entry-fits, entry-none, names_stay};

    ghost store = { λ s. entry_store s.slab };

    ghost stays = { λ s t. StaysButLinks s.slab t.slab };

    #[inline(always)]
    fn left(&self, n: u32) -> u32 {
        self.entry(n).left
    }

    #[inline(always)]
    fn right(&self, n: u32) -> u32 {
        self.entry(n).right
    }

    #[inline(always)]
    fn up(&self, n: u32) -> u32 {
        self.entry(n).up
    }

    #[inline(always)]
    fn set_left(&mut self, n: u32, v: u32) {
        let entry = self.entry(n);
        self.write(n, Entry { left: v, ..entry });
    }

    #[inline(always)]
    fn set_right(&mut self, n: u32, v: u32) {
        let entry = self.entry(n);
        self.write(n, Entry { right: v, ..entry });
    }

    #[inline(always)]
    fn set_up(&mut self, n: u32, v: u32) {
        let entry = self.entry(n);
        self.write(n, Entry { up: v, ..entry });
    }

    ghost none = { λ s. entry-none s.slab };

    ghost fits = { λ s n h. entry-fits s.slab n h };

    ghost reflexive = { λ s. but_links_none s.slab };

    ghost transitive = { λ a b c h k. but_links_twice a.slab b.slab c.slab h k };

    ghost names = { λ a b h. names_stay a.slab b.slab h };
}
