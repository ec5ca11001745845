ghost use Rattle.std.specs.Prelude.{◌≡◌};
ghost use Rattle.vc_objects.specs.Objects.{holder_size};
ghost use Rattle.vc_counts.specs.Reach.{bytes_freed_by, holder_freed, holder_put, put_by_reply, reach_of};

use vc_base::Name;
use vc_script::{Bytes, Command, Reply};

// The blocks that a command may put, resize or free.
#[derive(Clone, Copy)]
pub(crate) enum Reach {
    // None.
    Nothing,
    // The one of that name.
    Block(Name),
    // The table of the dictionary of that name, and the holder that the reply tells of.
    Table(Name),
    // The table of that dictionary and all of its holders.
    Dict(Name),
    // All blocks of the region.
    All,
}

// What a command reaches.
pub(crate) fn reach_of(command: &Command) -> Reach
    ensures { result ≡ reach_of command.now }
{
    match command {
        Command::Alloc(_, block, _, _)
        | Command::Align(_, block, _, _)
        | Command::Resize(_, block, _, _)
        | Command::Free(_, block) => Reach::Block(*block),
        Command::OpenDict(dict, _, _, _)
        | Command::Insert(dict, _)
        | Command::Append(dict, _)
        | Command::Attach(dict, _)
        | Command::Delete(dict, _)
        | Command::Detach(dict, _) => Reach::Table(*dict),
        Command::Remethod(dict, _) | Command::Empty(dict) | Command::Shut(dict) => {
            Reach::Dict(*dict)
        }
        Command::ClearRegion(_) | Command::CloseRegion(_) => Reach::All,
        _ => Reach::Nothing,
    }
}

// The bytes of an object's holder.
fn holder_bytes(object: &Bytes) -> u64
    ensures { result ≡ holder_size object.now }
{
    32 + object.as_slice().len() as u64
}

// Those of the holder that a reply tells was put, or 0.
fn holder_put(reply: &Reply) -> u64
    ensures { result ≡ holder_put reply.now }
{
    match reply {
        Reply::New(object) => holder_bytes(object),
        _ => 0,
    }
}

// Those of the holder that a reply tells was freed, or 0.
fn holder_freed(reply: &Reply) -> u64
    ensures { result ≡ holder_freed reply.now }
{
    match reply {
        Reply::Gone(object) => holder_bytes(object),
        Reply::Out(object) => holder_bytes(object),
        _ => 0,
    }
}

// The bytes that the reply of a command tells were put.
pub(crate) fn put_by(reach: &Reach, reply: &Reply) -> u64
    ensures { result ≡ put_by_reply reach.now reply.now }
{
    match reach {
        Reach::Table(_) => holder_put(reply),
        _ => 0,
    }
}

// The bytes that the reply of a command tells were freed.
pub(crate) fn freed_by(reach: &Reach, reply: &Reply) -> u64
    ensures { result ≡ bytes_freed_by reach.now reply.now }
{
    match reach {
        Reach::Table(_) => holder_freed(reply),
        _ => 0,
    }
}
