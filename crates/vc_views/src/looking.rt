ghost use Rattle.std.specs.Prelude.{◌≡◌, true, IfOk, map};
ghost use Rattle.vc_dtdisc.specs.Rules.{Rules};
ghost use Rattle.vc_commands.specs.Answered.{answered};
ghost use Rattle.vc_commands.specs.Looking.{is_look};
ghost use Rattle.vc_paths.specs.Path.{IsPath};
ghost use Rattle.vc_views.specs.Promises.{CanLook, IsLook, LeavesDicts, LooksThrough, layered_over};

use crate::layers::DictLayers;
use crate::places::{entry_of, kind_of};
use indexmap::IndexMap;
use std::alloc::Global;
use vc_base::{Addr, Name, OutOfMemory};
use vc_commands::{DictEntry, HomeEntry, look};
use vc_dtdisc::DictDisc;
use vc_paths::Paths;
use vc_script::{Command, Reply};

// Looks through the dictionary of a number, and answers the address of what is to be current, if anything.
fn look_through<D: DictDisc>(
    alloc: Global,
    homes: &mut IndexMap<Name, HomeEntry>,
    near: usize,
    dicts: &mut IndexMap<Name, DictEntry>,
    kinds: &Vec<D>,
    paths: &Paths,
    d: u32,
    command: &Command,
    reply: &mut Reply,
) -> Result<Option<Addr>, OutOfMemory>
    requires path { IsPath (layered_over (map D.rules kinds.now.items) homes.old.entries
        dicts.old.entries) paths.now d }
    requires look { is_look command.now ≡ true }
    ensures look { IfOk result (IsLook (layered_over (map D.rules kinds.now.items)
        homes.old.entries dicts.old.entries) paths.now d command.now reply.new) }
    ensures leaves { LeavesDicts (map D.rules kinds.now.items)
        homes.old.entries homes.new.entries dicts.old.entries dicts.new.entries }
{
    let kind = kind_of(kinds, entry_of(dicts, d).dict.kind);
    let mut layers = DictLayers {
        homes,
        near,
        dicts,
        kinds,
    };
    look(alloc, paths, &mut layers, d, kind, command, reply)
}

/// Puts in place of a reply the one to a command that looks for an object, or walks over all, through the dictionary of an
/// index, from 0 on, and along its view path. What is found is current then where it is an object of that dictionary
/// itself; no other dictionary's current object changes. An object or a key that is not of 1 to 1,024 bytes is refused.
/// Want of memory is the one error, and leaves every dictionary as it was, but any reply. Of a region only the links inside
/// holders may change. An index at which a dictionary's region may stand, which may be any number, is looked at first. This
/// project's own.
pub fn look_at<D: DictDisc>(
    alloc: Global,
    homes: &mut IndexMap<Name, HomeEntry>,
    near: usize,
    dicts: &mut IndexMap<Name, DictEntry>,
    kinds: &Vec<D>,
    paths: &Paths,
    i: usize,
    command: &Command,
    reply: &mut Reply,
) -> Result<(), OutOfMemory>
    requires { CanLook (map D.rules kinds.now.items)
        homes.old.entries dicts.old.entries paths.now i command.now }
    ensures { LooksThrough (map D.rules kinds.now.items)
        homes.old.entries homes.new.entries dicts.old.entries dicts.new.entries
        paths.now i command.now (answered result reply.new) }
{
    let d = dicts[i].number;
    let place = look_through(alloc, homes, near, dicts, kinds, paths, d, command, reply)?;
    let Some(at) = place else {
        return Ok(());
    };
    dicts[i].dict.current = at;
    Ok(())
}
