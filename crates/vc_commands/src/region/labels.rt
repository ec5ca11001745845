ghost use Rattle.std.specs.Prelude.{◌≡◌, ℕ, List, [], ◌+◌, ◌^◌, ◌<◌, ◌≤◌, ◌≢◌, Some, None, is_some, length, IsOk, IfOk, IfSome, IfNone, IsSome, OnSome, if◌then◌else◌};
ghost use Rattle.std.specs.HashMap.{spare};
ghost use Rattle.slab.specs.Slab.{slab_len, HasRoomFor};
ghost use Rattle.vc_commands.specs.FreedNames.{freed_line, with_line, without_name};
ghost use Rattle.vc_commands.specs.Labels.{kept_of, label_at, line_left, name_of_tag, tag_of, AreLabels, FreesNames, SameLabels, MovesLabel, WithLabel, WithoutLabel};

use slab::Slab;
use std::alloc::Global;
use std::collections::HashMap;
use vc_base::{Addr, Name, OutOfMemory};

// A live block: its name, and its address.
#[derive(Clone, Copy)]
pub(crate) struct Label {
    pub name: Name,
    pub at: Addr,
}

// What is known of a name: the tag of its live block, or the line at which its block was freed.
#[derive(Clone, Copy, Drop)]
pub(crate) enum Known {
    Live(u32),
    Freed(u32),
}

/// The names of a region's live blocks, each with a tag from 1 on, and of those that the region keeps as freed, each with
/// the line of its free.
// The tag of a block that is gone is used again. A name that is freed has its place in the map, so that to keep it takes
// no memory.
#[derive(Drop)]
pub struct Labels {
    pub(crate) by_tag: Slab<Label>,
    pub(crate) tags: HashMap<Name, Known>,
}

impl Labels {
    /// No blocks, and no name that is kept. It takes no memory.
    pub fn new(alloc: Global) -> Labels
        ensures agree { AreLabels result }
        ensures no_tags { (tag : ℕ) → label_at result tag ≡ None }
        ensures no_names { (x : List ℕ) → tag_of result x ≡ None }
        ensures count { slab_len result.by_tag ≡ 0 }
        ensures kept { kept_of result ≡ [] }
    {
        Labels {
            by_tag: Slab::new(alloc),
            tags: HashMap::new(alloc),
        }
    }

    // How many names there are, of live blocks and kept ones.
    pub(crate) fn len(&self) -> usize
        ensures { result ≡ length self.now.tags.entries }
    {
        self.tags.len()
    }

    // The tag of the block of this name.
    fn tag(&self, name: &Name) -> Option<u32>
        ensures { result ≡ tag_of self.now name.now }
    {
        match self.tags.get(name) {
            Some(Known::Live(tag)) => Some(*tag),
            Some(Known::Freed(_)) => None,
            None => None,
        }
    }

    // Whether a block has this name.
    pub(crate) fn has(&self, name: &Name) -> bool
        ensures { result ≡ is_some (tag_of self.now name.now) }
    {
        self.tag(name).is_some()
    }

    // The line at which the block of this name was freed, where the name is kept.
    pub(crate) fn freed(&self, name: &Name) -> Option<u32>
        ensures { result ≡ freed_line name.now (kept_of self.now) }
    {
        match self.tags.get(name) {
            Some(Known::Live(_)) => None,
            Some(Known::Freed(line)) => Some(*line),
            None => None,
        }
    }

    // Makes room for one block more, and tells the tag that it will have. Where that is no u32, the answer is
    // OutOfMemory, too.
    pub(crate) fn reserve(&mut self) -> Result<u32, OutOfMemory>
        requires agree { AreLabels self.old }

        ensures agree { AreLabels self.new }
        ensures same { SameLabels self.old self.new }
        ensures ok { IfOk result (λ tag. (tag ≡ self.new.by_tag.vacant_key + 1)
            × (1 ≤ tag) × (label_at self.new tag ≡ None)) }
        ensures room { IfOk result (λ tag. HasRoomFor self.new.by_tag 1
            × (0 < spare self.new.tags)) }
        ensures succeeds { HasRoomFor self.old.by_tag 1 → 0 < spare self.old.tags
            → self.old.by_tag.vacant_key + 1 < 2 ^ 32 → IsOk result }
    {
        self.by_tag.reserve(1)?;
        self.tags.reserve(1)?;
        let key = self.by_tag.vacant_key();
        if key >= u32::MAX as usize {
            return Err(OutOfMemory);
        }
        Ok(key as u32 + 1)
    }

    // Puts a block under a name that no block has, where there is room for it. The name is kept as freed no more.
    pub(crate) fn insert(&mut self, name: Name, at: Addr)
        requires agree { AreLabels self.old }
        requires new { tag_of self.old name ≡ None }
        requires room_by_tag { HasRoomFor self.old.by_tag 1 }
        requires room_by_name { 0 < spare self.old.tags }
        requires tag { self.old.by_tag.vacant_key + 1 < 2 ^ 32 }

        ensures agree { AreLabels self.new }
        ensures with { WithLabel self.old self.new
            (self.old.by_tag.vacant_key + 1) (record { name = name; at = at }) }
        ensures kept { kept_of self.new ≡ without_name name (kept_of self.old) }
    {
        let tag = self.by_tag.insert_reserved(Label { name, at }) as u32 + 1;
        // There is room, so this takes no memory and cannot fail.
        let _ = self.tags.insert(name, Known::Live(tag));
    }

    // Takes out the block of this name, and returns its address.
    pub(crate) fn remove(&mut self, name: &Name) -> Option<Addr>
        requires agree { AreLabels self.old }
        requires there { IsSome (tag_of self.old name.now) }

        ensures agree { AreLabels self.new }
        ensures some { IfSome result (λ at. (tag : ℕ)
            × WithoutLabel self.old self.new tag (record { name = name.now; at = at })) }
        ensures none { IfNone result ((tag_of self.old name.now ≡ None)
            × SameLabels self.old self.new) }
        ensures kept { OnSome result (kept_of self.new ≡ kept_of self.old) }
    {
        match self.tags.remove(name) {
            Some(Known::Live(tag)) => Some(self.by_tag.remove(tag as usize - 1).at),
            _ => unreachable!(),
        }
    }

    // Takes out the block of this name, returns its address, and keeps the name as freed at a line.
    fn keep(&mut self, name: &Name, line: u32) -> Option<Addr>
        requires agree { AreLabels self.old }

        ensures agree { AreLabels self.new }
        ensures some { IfSome result (λ at. (tag : ℕ)
            × WithoutLabel self.old self.new tag (record { name = name.now; at = at })) }
        ensures none { IfNone result ((tag_of self.old name.now ≡ None)
            × SameLabels self.old self.new) }
        ensures kept { OnSome result
            (kept_of self.new ≡ with_line name.now line (kept_of self.old)) }
        ensures frees { FreesNames self.old self.new line }
    {
        match self.tag(name) {
            Some(tag) => {
                // The name is there, so this takes no memory and cannot fail.
                let _ = self.tags.insert(*name, Known::Freed(line));
                Some(self.by_tag.remove(tag as usize - 1).at)
            }
            None => None,
        }
    }

    // Takes out the block of this name, and returns its address. Where names are kept, this one is, as freed at the line.
    pub(crate) fn free(&mut self, name: &Name, keeps: bool, line: u32) -> Option<Addr>
        requires agree { AreLabels self.old }
        requires there { IsSome (tag_of self.old name.now) }

        ensures agree { AreLabels self.new }
        ensures some { IfSome result (λ at. (tag : ℕ)
            × WithoutLabel self.old self.new tag (record { name = name.now; at = at })) }
        ensures none { IfNone result ((tag_of self.old name.now ≡ None)
            × SameLabels self.old self.new) }
        ensures kept { OnSome result (kept_of self.new
            ≡ (if keeps then with_line name.now line (kept_of self.old) else kept_of self.old)) }
    {
        if keeps {
            self.keep(name, line)
        } else {
            self.remove(name)
        }
    }

    // The address of the block of this name.
    pub(crate) fn find(&self, name: &Name) -> Option<Addr>
        requires agree { AreLabels self.now }
        ensures some { IfSome result (λ at. (tag : ℕ)
            × (tag_of self.now name.now ≡ Some tag)
            × (label_at self.now tag ≡ Some (record { name = name.now; at = at }))) }
        ensures none { IfNone result (tag_of self.now name.now ≡ None) }
    {
        match self.tag(name) {
            Some(tag) => match self.by_tag.get(tag as usize - 1) {
                Some(label) => Some(label.at),
                None => unreachable!(),
            },
            None => None,
        }
    }

    // The name of a tag, where it has one.
    pub(crate) fn name(&self, tag: u32) -> Option<Name>
        ensures { result ≡ name_of_tag self.now tag }
    {
        if tag == 0 {
            return None;
        }
        match self.by_tag.get(tag as usize - 1) {
            Some(label) => Some(label.name),
            None => None,
        }
    }

    // Puts another address to a tag that is in use.
    fn put_at(&mut self, tag: u32, label: Label)
        requires first { 1 ≤ tag }
        requires used { IsSome (label_at self.old tag) }
        ensures moves { MovesLabel self.old self.new tag label }
        ensures tags { self.new.tags ≡ self.old.tags }
    {
        let _ = self.by_tag.remove(tag as usize - 1);
        let _ = self.by_tag.insert_reserved(label);
    }

    // Puts the block of this name at another address.
    pub(crate) fn move_to(&mut self, name: &Name, at: Addr)
        requires agree { AreLabels self.old }
        requires there { IsSome (tag_of self.old name.now) }
        ensures agree { AreLabels self.new }
        ensures moved { IfSome (tag_of self.old name.now)
            (λ tag. MovesLabel self.old self.new tag (record { name = name.now; at = at })) }
        ensures kept { kept_of self.new ≡ kept_of self.old }
    {
        match self.tag(name) {
            Some(tag) => self.put_at(tag, Label { name: *name, at }),
            None => unreachable!(),
        }
    }

    // Takes out the block of a key, where there is one, and keeps its name as freed at a line.
    fn keep_at(&mut self, key: usize, line: u32)
        requires agree { AreLabels self.old }
        ensures agree { AreLabels self.new }
        ensures gone { label_at self.new (key + 1) ≡ None }
        ensures others { (tag : ℕ) → 1 ≤ tag → tag ≢ key + 1
            → label_at self.new tag ≡ label_at self.old tag }
        ensures frees { FreesNames self.old self.new line }
    {
        if let Some(label) = self.by_tag.get(key) {
            let name = label.name;
            let _ = self.keep(&name, line);
        }
    }

    // Takes out every block, and keeps each name as freed at a line. It takes no memory.
    fn keep_all(&mut self, line: u32)
        requires agree { AreLabels self.old }
        ensures agree { AreLabels self.new }
        ensures no_tags { (tag : ℕ) → label_at self.new tag ≡ None }
        ensures frees { FreesNames self.old self.new line }
    {
        let end = self.by_tag.capacity();
        for key in 0..end {
            self.keep_at(key, line);
        }
    }

    // Takes out every block, and keeps no name.
    fn forget_all(&mut self)
        ensures agree { AreLabels self.new }
        ensures no_tags { (tag : ℕ) → label_at self.new tag ≡ None }
        ensures no_names { (x : List ℕ) → tag_of self.new x ≡ None }
        ensures count { slab_len self.new.by_tag ≡ 0 }
        ensures kept { kept_of self.new ≡ [] }
    {
        self.by_tag.clear();
        self.tags.clear();
    }

    // Takes out every block. Where names are kept, theirs are, as freed at the line, and those kept before stay.
    pub(crate) fn clear(&mut self, keeps: bool, line: u32)
        requires agree { AreLabels self.old }
        ensures agree { AreLabels self.new }
        ensures no_names { (x : List ℕ) → tag_of self.new x ≡ None }
        ensures count { slab_len self.new.by_tag ≡ 0 }
        ensures kept { (x : List ℕ) → freed_line x (kept_of self.new)
            ≡ line_left self.old keeps line x }
    {
        if keeps {
            self.keep_all(line);
        } else {
            self.forget_all();
        }
    }
}
