ghost use Rattle.std.specs.Prelude.{◌≡◌, []};

use crate::{Bytes, Place};
use std::alloc::Global;
use vc_base::{DictMethod, Name};
use vc_seg::Method;

/// A command of the script language. Its fields are the words behind the first, in order. R and X are names of a region
/// and of a block, D and E of dictionaries.
#[derive(Drop, PartialEq, Eq)]
pub enum Command {
    /// `open R METHOD N`: opens R over the discipline of place N.
    OpenRegion(Name, Method, u32),
    /// `close R`: gives all segments back.
    CloseRegion(Name),
    /// `clear R`: frees all blocks.
    ClearRegion(Name),
    /// `compact R`: gives segments without a block back.
    Compact(Name),
    /// `alloc R X SIZE [@SITE]`: a block of SIZE bytes.
    Alloc(Name, Name, u32, Option<Name>),
    /// `align R X SIZE ALIGN`: a block of SIZE bytes whose offset is a multiple of ALIGN.
    Align(Name, Name, u32, u32),
    /// `resize R X SIZE move`, or `fixed`: the last field tells whether the block may move.
    Resize(Name, Name, u32, bool),
    /// `free R X`: frees the block.
    Free(Name, Name),
    /// `write R X OFF BYTES`: writes from offset OFF of the block on.
    WriteBlock(Name, Name, u32, Bytes),
    /// `read R X OFF LEN`: reads LEN bytes from offset OFF of the block on.
    ReadBlock(Name, Name, u32, u32),
    /// `size R X`: the block's size in bytes.
    SizeOf(Name, Name),
    /// `addr R S:O`: the block in which the place lies.
    AddrOf(Name, Place),
    /// `segment R S:O`: the segment in which the place lies.
    SegmentOf(Name, Place),
    /// `stat R`: what the region holds.
    StatOf(Name),
    /// `segments R`: the segments by number.
    Segments(Name),
    /// `blocks R`: the blocks by address.
    Blocks(Name),
    /// `poke R X OFF BYTE`: writes one byte, which may lie before or behind the block.
    Poke(Name, Name, i64, u32),
    /// `check R`: the damaged blocks.
    Check(Name),
    /// `watch R X`: tells of each later change of the block.
    Watch(Name, Name),
    /// `profile R`: the counts of each site.
    ProfileOf(Name),
    /// `dict D METHOD R K`: opens D in region R over the kind K.
    OpenDict(Name, DictMethod, Name, u32),
    /// `insert D OBJ`: makes an object from the bytes and puts it in.
    Insert(Name, Bytes),
    /// `append D OBJ`: makes an object and puts it behind the current one.
    Append(Name, Bytes),
    /// `attach D OBJ`: puts the object itself in.
    Attach(Name, Bytes),
    /// `delete D [OBJ]`: removes a match, or the first object of a stack or queue.
    Delete(Name, Option<Bytes>),
    /// `detach D OBJ`: takes a match out.
    Detach(Name, Bytes),
    /// `search D OBJ`: what matches the object.
    Search(Name, Bytes),
    /// `match D KEY`: what matches the key.
    MatchKey(Name, Bytes),
    /// `first D`: the first visible object.
    First(Name),
    /// `last D`: the last visible object.
    Last(Name),
    /// `next D OBJ`: the object behind the last match.
    Next(Name, Bytes),
    /// `prev D OBJ`: the object before the first match.
    Prev(Name, Bytes),
    /// `walk D`: all visible objects.
    Walk(Name),
    /// `count D`: the number of D's own objects.
    Count(Name),
    /// `view D E`, or `view D -`: looks on into E, or ends that.
    View(Name, Option<Name>),
    /// `method D METHOD`: turns D to the method.
    Remethod(Name, DictMethod),
    /// `empty D`: removes all objects.
    Empty(Name),
    /// `shut D`: ends the dictionary.
    Shut(Name),
}

impl Command {
    /// Takes the memory of the object or key that a command has, to be used for that of the next one: an empty vector, with
    /// no room where there is none. Another command may stand then. Takes no memory.
    pub fn take_room(&mut self, alloc: Global) -> Vec<u8>
        ensures { result.items ≡ [] }
    {
        match self {
            Command::Insert(_, object) => object.take_room(alloc),
            Command::Append(_, object) => object.take_room(alloc),
            Command::Attach(_, object) => object.take_room(alloc),
            Command::Delete(_, Some(object)) => object.take_room(alloc),
            Command::Detach(_, object) => object.take_room(alloc),
            Command::Search(_, object) => object.take_room(alloc),
            Command::MatchKey(_, key) => key.take_room(alloc),
            Command::Next(_, object) => object.take_room(alloc),
            Command::Prev(_, object) => object.take_room(alloc),
            _ => Vec::new(alloc),
        }
    }
}
