ghost use Rattle.std.specs.Prelude.{◌≡◌};
ghost use Rattle.vc_script.specs.Target.{target_of};

use crate::Command;
use vc_base::Name;

/// Where a command works. Each command works at one place.
#[derive(Clone, Copy)]
pub enum Target {
    /// On the shelf and the names of what is open: it opens or closes a region, or opens a dictionary.
    Shelf,
    /// In the region of that name.
    Region(Name),
    /// On the dictionary of that name.
    Dict(Name, Work),
}

/// What a command does with the dictionary that it names.
#[derive(Clone, Copy)]
pub enum Work {
    /// It works on the dictionary's own objects: `insert`, `append`, `attach`, `delete`, `detach`, `count` and `empty`.
    Own,
    /// It looks through the dictionary's view path: `search`, `match`, `first`, `last`, `next`, `prev` and `walk`.
    Look,
    /// It sets what the dictionary views: `view`.
    View,
    /// It gives the dictionary another method: `method`.
    Turn,
    /// It ends the dictionary: `shut`.
    End,
}

impl Command {
    /// Where it works.
    pub fn target(&self) -> Target
        ensures { result ≡ target_of self.now }
    {
        match self {
            Command::OpenRegion(_, _, _)
            | Command::CloseRegion(_)
            | Command::OpenDict(_, _, _, _) => Target::Shelf,
            Command::ClearRegion(name)
            | Command::Compact(name)
            | Command::Alloc(name, _, _, _)
            | Command::Align(name, _, _, _)
            | Command::Resize(name, _, _, _)
            | Command::Free(name, _)
            | Command::WriteBlock(name, _, _, _)
            | Command::ReadBlock(name, _, _, _)
            | Command::SizeOf(name, _)
            | Command::AddrOf(name, _)
            | Command::SegmentOf(name, _)
            | Command::StatOf(name)
            | Command::Segments(name)
            | Command::Blocks(name)
            | Command::Poke(name, _, _, _)
            | Command::Check(name)
            | Command::Watch(name, _)
            | Command::ProfileOf(name) => Target::Region(*name),
            Command::Insert(name, _)
            | Command::Append(name, _)
            | Command::Attach(name, _)
            | Command::Delete(name, _)
            | Command::Detach(name, _)
            | Command::Count(name)
            | Command::Empty(name) => Target::Dict(*name, Work::Own),
            Command::Search(name, _)
            | Command::MatchKey(name, _)
            | Command::First(name)
            | Command::Last(name)
            | Command::Next(name, _)
            | Command::Prev(name, _)
            | Command::Walk(name) => Target::Dict(*name, Work::Look),
            Command::View(name, _) => Target::Dict(*name, Work::View),
            Command::Remethod(name, _) => Target::Dict(*name, Work::Turn),
            Command::Shut(name) => Target::Dict(*name, Work::End),
        }
    }
}
