ghost use Rattle.std.specs.Prelude.{◌≡◌, []};

use crate::{BlockItems, Bytes, DamageItems, ObjectItems, Place, Refusal, RowItems, SegmentItems};
use std::alloc::Global;
use vc_base::{DictMethod, Name};
use vc_seg::Stat;

/// The reply to a command. An optional number at the end of one is the line of the block's watch.
#[derive(Drop)]
pub enum Reply {
    /// The region or dictionary is open.
    Opened(Name),
    /// The region is closed, and so many segments were given back.
    Closed(Name, u32),
    /// The region has no block.
    Cleared(Name),
    /// So many segments of the region were given back.
    Compacted(Name, u32),
    /// The block is at this place.
    At(Name, Place, Option<u32>),
    /// The block is freed.
    Freed(Name, Option<u32>),
    /// So many bytes of the block were written.
    Written(Name, u32, Option<u32>),
    /// The bytes that were read from the block.
    Hex(Name, Bytes),
    /// The block's size in bytes.
    Size(Name, u32),
    /// The place is this offset in the bytes of that block, which may have no name.
    AddrIn(Option<Name>, u32),
    /// The place lies in no block.
    AddrNone,
    /// The segment of that number has so many bytes.
    SegmentIs(u32, u32),
    /// The place lies in no segment.
    SegmentNone,
    /// What the region holds.
    Stats(Stat),
    /// The segments.
    SegmentList(SegmentItems),
    /// The blocks.
    BlockList(BlockItems),
    /// The byte was written.
    Poked(Name, Option<u32>),
    /// The damaged blocks.
    Damaged(DamageItems),
    /// The block is watched.
    Watched(Name),
    /// The counts of each site.
    Rows(RowItems),
    /// This object was made and put in.
    New(Bytes),
    /// This object was there.
    Old(Bytes),
    /// This object was removed.
    Gone(Bytes),
    /// This object was taken out.
    Out(Bytes),
    /// This object was found.
    Found(Bytes),
    /// No object was found.
    Nothing,
    /// The visible objects.
    Objects(ObjectItems),
    /// The number of a dictionary's own objects.
    Number(u64),
    /// The dictionary looks on into another, or into none.
    Views(Name, Option<Name>),
    /// The dictionary has this method.
    MethodIs(Name, DictMethod),
    /// So many objects of the dictionary were removed.
    Emptied(Name, u32),
    /// The dictionary is ended.
    ShutDown(Name),
    /// Nothing was done.
    Refused(Refusal),
}

impl Reply {
    /// Takes the memory of the object that a reply tells of, to be used for that of the next one: an empty vector, with no
    /// room where there is no object. Another reply may stand then. Takes no memory.
    #[inline(always)]
    pub fn take_room(&mut self, alloc: Global) -> Vec<u8>
        ensures { result.items ≡ [] }
    {
        match self {
            Reply::New(object) => object.take_room(alloc),
            Reply::Old(object) => object.take_room(alloc),
            Reply::Gone(object) => object.take_room(alloc),
            Reply::Out(object) => object.take_room(alloc),
            Reply::Found(object) => object.take_room(alloc),
            _ => Vec::new(alloc),
        }
    }
}
