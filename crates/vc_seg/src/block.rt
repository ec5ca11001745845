//! A segment's memory, and the one place with pointers. `take`, `free`, `all` and `all_mut` are what
//! `Segment` calls; the rest are their parts. Each function that makes a pointer or reaches through one
//! is proved by hand. No clause says that memory is freed: `Block`, `Memory` and `Lease` have no `Drop`,
//! so each has to be handed on.
ghost use Rattle.std.specs.Prelude.{◌≡◌, ℕ, List, [], length, replicate, IfSome};
ghost use Rattle.std.specs.Vec.{vec_len, vec_capacity, vec_ptr};
ghost use Rattle.std.specs.declared.alloc.Global.{Global};
ghost use denote.RawPtr.{Ptr};
ghost use Rattle.vc_base.specs.Prelude.{IsSegmentSize};

use std::alloc::{Allocator, Global};
use std::marker::{Model, PhantomData};
use std::slice;
use std_alloc::vec::{Lodged, lodge};

// The alignment of a segment's memory in bytes.
const ALIGN: usize = 8;

// `size` bytes in which nothing lies.
pub(crate) struct Memory {
    ptr: *mut u8,
    size: usize,
    ghost fits: { IsSegmentSize size },
}

impl Model for Memory {
    ghost use denote.RawPtr.{room_for};
    ghost use Rattle.vc_seg.specs.Owned.{bytes_type};

    ghost also_owns = { λ m. room_for (bytes_type m.size) m.ptr };
}

// The right to give them back to the allocator.
pub(crate) struct Lease<A: Allocator> {
    marker: PhantomData<A>,
    ghost alloc: { A },
    ghost ptr: { Ptr },
    ghost size: { ℕ },
}

impl<A: Allocator> Model for Lease<A> {
    ghost use Rattle.vc_seg.specs.Owned.{right};

    ghost also_owns = { λ l. right (A.dealloc_token l.alloc) l.size l.ptr };
}

impl Memory {
    pub(crate) fn new<A: Allocator>(alloc: &A, size: usize) -> Option<(Memory, Lease<A>)>
        requires { IsSegmentSize size }
        ensures { IfSome result (λ m. (m.0.size ≡ size) × (m.1.alloc ≡ alloc.now)
            × (m.1.ptr ≡ m.0.ptr) × (m.1.size ≡ size)) }
    {
        match alloc.allocate(size, ALIGN) {
            Ok(ptr) => {
                let marker = PhantomData;
                Some((Memory { ptr, size }, Lease { marker }))
            }
            Err(_) => None,
        }
    }

    pub(crate) fn free<A: Allocator>(self, lease: Lease<A>, alloc: &A)
        requires { (lease.alloc ≡ alloc.now) × (lease.ptr ≡ self.ptr)
            × (lease.size ≡ self.size) }
    {
        let Memory { ptr, size } = self;
        let Lease { marker: _ } = lease;
        unsafe { alloc.deallocate(ptr, size, ALIGN) }
    }
}

// Room for the bytes, as a Vec that neither grows nor frees it.
fn house(memory: Memory) -> Vec<u8, Lodged>
    ensures { (result.items ≡ []) × (vec_len result ≡ 0) × (vec_capacity result ≡ memory.size)
        × (vec_ptr result ≡ memory.ptr) }
{
    let Memory { ptr, size } = memory;
    unsafe { lodge(ptr, 0, size) }
}

// The owner of a segment's bytes. It takes no space: the segment has the pointer.
pub(crate) struct Block {
    ghost at: { Ptr },
    ghost alloc: { Global },
    ghost bytes: { List ℕ },
}

impl Model for Block {
    ghost use Rattle.std.specs.contracts.impls.GlobalAllocator.TheImpl.{ghosts};
    ghost use Rattle.vc_seg.specs.Owned.{block_owns, block_shares};

    ghost also_owns = { λ b. block_owns (ghosts.dealloc_token b.alloc) b.at b.bytes };

    ghost also_shares = { λ b _ κ. block_shares b.at b.bytes κ };
}

// The bytes of a Vec that fills its room.
fn vacate(row: Vec<u8, Lodged>, lease: Lease<Global>) -> Block
    requires { (vec_ptr row ≡ lease.ptr) × (vec_len row ≡ lease.size)
        × (vec_capacity row ≡ lease.size) × IsSegmentSize lease.size }
    ensures { (result.at ≡ lease.ptr) × (result.alloc ≡ lease.alloc)
        × (result.bytes ≡ row.items) }
{
    let _len = row.dislodge();
    let Lease { marker: _ } = lease;
    Block {}
}

// The memory without its bytes, and the right to give it back.
fn part(block: Block, at: *const u8, size: usize) -> (Memory, Lease<Global>)
    requires { (at ≡ block.at) × (size ≡ length block.bytes) × IsSegmentSize size }
    ensures { (result.0.ptr ≡ at) × (result.0.size ≡ size) × (result.1.alloc ≡ block.alloc)
        × (result.1.ptr ≡ at) × (result.1.size ≡ size) }
{
    let Block {} = block;
    let marker = PhantomData;
    let ptr = at.cast_mut();
    (Memory { ptr, size }, Lease { marker })
}

// `size` bytes of zero at a multiple of 8, and their owner. None where the allocator has no memory.
pub(crate) fn take(alloc: &Global, size: usize) -> Option<(*const u8, Block)>
    requires { IsSegmentSize size }
    ensures { IfSome result (λ m. (m.1.at ≡ m.0) × (m.1.alloc ≡ alloc.now)
        × (m.1.bytes ≡ replicate size 0)) }
{
    let (memory, lease) = Memory::new(alloc, size)?;
    let mut row = house(memory);
    for _ in 0..size {
        row.push_reserved(0);
    }
    let at = row.as_ptr();
    Some((at, vacate(row, lease)))
}

impl Block {
    ghost use Rattle.std.specs.Borrow.{sem};
    ghost use Rattle.vc_seg.specs.Lends.{lends_bytes};

    // Gives the memory back to the allocator that it is from.
    pub(crate) fn free(self, at: *const u8, size: usize, alloc: &Global)
        requires { (at ≡ self.at) × (size ≡ length self.bytes) × (alloc.now ≡ self.alloc)
            × IsSegmentSize size }
    {
        let (memory, lease) = part(self, at, size);
        memory.free(lease, alloc);
    }

    // Lends all bytes.
    pub(crate) fn all(&self, at: *const u8, size: usize) -> &[u8]
        requires { (at ≡ self.now.at) × (size ≡ length self.now.bytes) }
        ensures { result.now ≡ self.now.bytes }
    {
        unsafe { slice::from_raw_parts(at, size) }
    }

    // Lends all bytes for writing. The owner ends with those that the slice ends with.
    pub(crate) fn all_mut(&mut self, at: *const u8, size: usize) -> &mut [u8]
        requires { (at ≡ self.old.at) × (size ≡ length self.old.bytes) }
        ensures* writes_back { sem 𝓛 (lends_bytes self.entry result) }
        ensures value { result.now ≡ self.old.bytes }
    {
        unsafe { slice::from_raw_parts_mut(at.cast_mut(), size) }
    }
}
