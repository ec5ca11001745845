ghost use Rattle.std.specs.Prelude.{◌≡◌, ◌==◌, Some, None, true, IfOk, IsSome, OnOk, map, if◌then◌else◌};
ghost use Rattle.std.specs.Option.{option_map};
ghost use Rattle.vc_base.specs.Prelude.{number_of};
ghost use Rattle.vc_paths.specs.Layers.{bytes_there};
ghost use Rattle.vc_paths.specs.Ordered.{IsStanding, object_at};
ghost use Rattle.vc_paths.specs.Path.{Answers, IsPath, visible_of};
ghost use Rattle.vc_paths.specs.Unchanged.{Unchanged};
ghost use Rattle.vc_paths.specs.Visible.{seen_bytes};
ghost use Rattle.vc_commands.specs.DictCommands.{is_object};
ghost use Rattle.vc_commands.specs.Looking.{found_by_command, found_reply, is_askable, is_look, look_place, look_reply, own_place};

use crate::Uncounted;
use std::alloc::Global;
use vc_base::{Addr, OutOfMemory, Steps};
use vc_dict::{Layers, Paths};
use vc_dtdisc::DictDisc;
use vc_script::{Bytes, Command, ObjectItems, Refusal, Reply};

// Whether an object or a key of a script has 1 to 1,024 bytes.
pub(crate) fn is_object(bytes: &[u8]) -> bool
    ensures { result ≡ is_object bytes.now }
{
    1 <= bytes.len() && bytes.len() <= 1024
}

// Whether the object or key that a command looks for has 1 to 1,024 bytes, where it has one.
fn is_askable(command: &Command) -> bool
    ensures { result ≡ is_askable command.now }
{
    match command {
        Command::Search(_, object) => is_object(object.as_slice()),
        Command::MatchKey(_, key) => is_object(key.as_slice()),
        Command::Next(_, object) => is_object(object.as_slice()),
        Command::Prev(_, object) => is_object(object.as_slice()),
        _ => true,
    }
}

// These bytes, in the memory of others.
pub(crate) fn filled(room: Vec<u8>, bytes: &[u8]) -> Result<Vec<u8>, OutOfMemory>
    ensures { IfOk result (λ out. out.items ≡ bytes.now) }
{
    let mut out = room;
    out.clear();
    out.extend_from_slice(bytes)?;
    Ok(out)
}

// A copy of the object at a place, in the memory of other bytes.
fn copied<Y: Layers>(room: Vec<u8>, layers: &Y, e: u32, at: Addr) -> Result<Bytes, OutOfMemory>
    requires dict { (Y.layered layers.now).Has e }
    requires place { IsSome (bytes_there at.0 ((Y.layered layers.now).layer e).objects) }
    ensures { IfOk result (λ bytes.
        bytes_there at.0 ((Y.layered layers.now).layer e).objects ≡ Some bytes) }
{
    Ok(Bytes::from_vec(filled(room, layers.object(e, at))?))
}

// The address of a place in a dictionary; none where it is in another one.
fn own_at(d: u32, e: u32, at: Addr) -> Option<Addr>
    ensures { result ≡ (if e == d then Some at else None) }
{
    if e == d { Some(at) } else { None }
}

// Shows the object at a place, and answers its address where it is one of the first dictionary itself.
fn show<Y: Layers>(
    alloc: Global,
    layers: &Y,
    d: u32,
    found: Option<(u32, Addr)>,
    reply: &mut Reply,
) -> Result<Option<Addr>, OutOfMemory>
    requires { IsStanding (Y.layered layers.now) d found }
    ensures reply { OnOk result (reply.new
        ≡ found_reply (object_at (Y.layered layers.now) found)) }
    ensures place { IfOk result (λ at. option_map number_of at
        ≡ own_place (λ e. e == d) (object_at (Y.layered layers.now) found)) }
{
    match found {
        Some(at) => {
            let bytes = copied(reply.take_room(alloc), layers, at.0, at.1)?;
            *reply = Reply::Found(bytes);
            Ok(own_at(d, at.0, at.1))
        }
        None => {
            *reply = Reply::Nothing;
            Ok(None)
        }
    }
}

// Where the object stands that a command finds.
fn found<Y: Layers, D: DictDisc>(
    alloc: Global,
    paths: &Paths,
    layers: &mut Y,
    d: u32,
    kind: &D,
    command: &Command,
) -> Option<(u32, Addr)>
    requires path { IsPath (Y.layered layers.old) paths.now d }
    requires rules { D.rules kind.now ≡ ((Y.layered layers.old).layer d).rules }
    ensures found { Answers result (found_by_command (D.rules kind.now) command.now
        (visible_of (Y.layered layers.old) paths.now d)) }
    ensures unchanged { Unchanged Y.Layers layers.old layers.new }
{
    let mut steps = Steps::<Uncounted>::new(alloc);
    match command {
        Command::Search(_, object) => {
            vc_dict::search(paths, layers, d, kind.key(object.as_slice()), &mut steps)
        }
        Command::MatchKey(_, key) => {
            vc_dict::search(paths, layers, d, key.as_slice(), &mut steps)
        }
        Command::First(_) => vc_dict::first(paths, layers, d, &mut steps),
        Command::Last(_) => vc_dict::last(paths, layers, d, &mut steps),
        Command::Next(_, object) => {
            vc_dict::next(paths, layers, d, kind.key(object.as_slice()), &mut steps)
        }
        Command::Prev(_, object) => {
            vc_dict::prev(paths, layers, d, kind.key(object.as_slice()), &mut steps)
        }
        _ => None,
    }
}

// All objects in order. It stands apart, since a call clears room for the replies of all its arms.
#[inline(never)]
fn walk<Y: Layers>(
    alloc: Global,
    paths: &Paths,
    layers: &mut Y,
    d: u32,
) -> Result<Reply, OutOfMemory>
    requires { IsPath (Y.layered layers.old) paths.now d }
    ensures reply { IfOk result (λ reply. reply ≡ Reply.Objects
        (map seen_bytes (visible_of (Y.layered layers.old) paths.now d))) }
    ensures unchanged { Unchanged Y.Layers layers.old layers.new }
{
    paths.show_invariant();
    let mut steps = Steps::<Uncounted>::new(alloc);
    let mut items = ObjectItems::new(alloc);
    let mut at = vc_dict::first(paths, layers, d, &mut steps);
    while let Some(here) = at {
        items.push(layers.object(here.0, here.1))?;
        at = vc_dict::walk_next(paths, layers, d, here, &mut steps);
    }
    Ok(Reply::Objects(items))
}

/// Puts in place of a reply the one to a command that looks for an object, or walks over all, through the view path of
/// dictionary `d`, by its kind. Answers the address of the holder of what is found, where that is an object of `d` itself:
/// it is to be current then, and else the current object stays. An object or a key that is not of 1 to 1,024 bytes is
/// refused. Want of memory is the one error, after which any reply may stand there. No object changes; only the links
/// inside holders may.
pub fn look<Y: Layers, D: DictDisc>(
    alloc: Global,
    paths: &Paths,
    layers: &mut Y,
    d: u32,
    kind: &D,
    command: &Command,
    reply: &mut Reply,
) -> Result<Option<Addr>, OutOfMemory>
    requires path { IsPath (Y.layered layers.old) paths.now d }
    requires rules { D.rules kind.now ≡ ((Y.layered layers.old).layer d).rules }
    requires look { is_look command.now ≡ true }

    ensures reply { OnOk result (reply.new ≡ look_reply (D.rules kind.now) command.now
        (visible_of (Y.layered layers.old) paths.now d)) }
    ensures place { IfOk result (λ at. option_map number_of at
        ≡ look_place (λ e. e == d) (D.rules kind.now) command.now
        (visible_of (Y.layered layers.old) paths.now d)) }

    ensures unchanged { Unchanged Y.Layers layers.old layers.new }
{
    if !is_askable(command) {
        *reply = Reply::Refused(Refusal::Size);
        return Ok(None);
    }
    match command {
        Command::Walk(_) => {
            *reply = walk(alloc, paths, layers, d)?;
            Ok(None)
        }
        _ => {
            let at = found(alloc, paths, layers, d, kind, command);
            show(alloc, layers, d, at, reply)
        }
    }
}
