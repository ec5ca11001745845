ghost use Rattle.std.specs.Prelude.{◌≡◌, ℕ, ◌+◌, ◌-◌, ◌/◌, ◌<◌, ◌≤◌, length, take, drop, vec_capacity, vec_len};
ghost use Rattle.vc_base.specs.Prelude.{cell_offset};

use crate::cells::cell::offset_of;
use crate::cells::grow::push_pairs;
use vc_base::Addr;
use vc_seg::Segment;

/// A segment of a pool. Its cells stand one behind another from offset 32 on, each of the same bytes, and have no heads.
#[derive(Drop)]
pub struct PoolSegment {
    /// Its memory.
    pub seg: Segment,
    /// How many of its cells were carved, from the lowest on.
    pub carved: u32,
    /// The size in bytes and the tag of the block in each cell, (0, 0) where none is.
    pub cells: Vec<(u32, u32)>,
}

impl PoolSegment {
    ghost use Rattle.vc_pool.specs.Cells.Cells.{HasCell, IsCell, carved_with, cells_of, with_zeros_in, cell_link, pair_at, with_free_cell, with_cell_size, uncarved_all, with_cell_bytes, with_more_pairs};

    /// Puts a block of zeros into a cell that has none. The cell is zero then as a whole.
    pub fn lay(&mut self, cell: u32, index: u32, size: u32, tag: u32)
        requires cell { HasCell cell index (cells_of self.old) }
        ensures { cells_of self.new ≡ with_zeros_in cell index size tag (cells_of self.old) }
    {
        self.seg.fill(offset_of(cell, index), cell, 0);
        self.cells[index as usize] = (size, tag);
    }

    /// Puts a block of zeros into the lowest cell that wasn't carved.
    pub fn carve(&mut self, cell: u32, size: u32, tag: u32)
        requires cell { HasCell cell self.old.carved (cells_of self.old) }
        requires legal { IsCell cell }
        ensures { cells_of self.new ≡ carved_with cell size tag (cells_of self.old) }
    {
        let index = self.carved;
        self.lay(cell, index, size, tag);
        self.carved = index + 1;
    }

    /// Takes the block out of a cell, and writes a link into the cell's first 8 bytes.
    pub fn release(&mut self, cell: u32, index: u32, link: Addr)
        requires cell { HasCell cell index (cells_of self.old) }
        requires legal { IsCell cell }
        ensures { cells_of self.new ≡ with_free_cell cell index link.0 (cells_of self.old) }
    {
        self.seg.store(offset_of(cell, index), u64::from(link.0));
        self.cells[index as usize] = (0, 0);
    }

    /// The link in a cell that has no block.
    pub fn link(&self, cell: u32, index: u32) -> Addr
        requires cell { HasCell cell index (cells_of self.now) }
        requires legal { IsCell cell }
        requires fits { cell_link cell index (cells_of self.now) < 4294967296 }
        ensures { result.0 ≡ cell_link cell index (cells_of self.now) }
    {
        Addr(self.seg.load(offset_of(cell, index)) as u32)
    }

    /// The size and the tag of the block in a cell, (0, 0) where none is.
    pub fn pair(&self, index: u32) -> (u32, u32)
        requires { index < length (cells_of self.now).pairs }
        ensures { result ≡ pair_at index (cells_of self.now) }
    {
        self.cells[index as usize]
    }

    /// Gives the block in a cell another size. What is added is zero.
    pub fn resize(&mut self, cell: u32, index: u32, size: u32)
        requires cell { HasCell cell index (cells_of self.old) }
        requires fitted { (pair_at index (cells_of self.old)).0 ≤ cell }
        requires fits { size ≤ cell }
        ensures { cells_of self.new ≡ with_cell_size cell index size (cells_of self.old) }
    {
        let (old, tag) = self.pair(index);
        self.seg
            .fill(offset_of(cell, index) + old, size.saturating_sub(old), 0);
        self.cells[index as usize] = (size, tag);
    }

    /// The bytes of a range of a cell. The range lies in the cell.
    pub fn read(&self, cell: u32, index: u32, off: u32, len: u32) -> &[u8]
        requires cell { HasCell cell index (cells_of self.now) }
        requires range { off + len ≤ cell }
        ensures { result.now ≡ take len (drop (cell_offset cell index + off) (cells_of self.now).bytes) }
    {
        self.seg.bytes(offset_of(cell, index) + off, len)
    }

    /// Puts bytes into a cell, from an offset in it on. They lie in the cell.
    pub fn write(&mut self, cell: u32, index: u32, off: u32, src: &[u8])
        requires cell { HasCell cell index (cells_of self.old) }
        requires range { off + length src.now ≤ cell }
        ensures { cells_of self.new ≡ with_cell_bytes cell index off src.now (cells_of self.old) }
    {
        self.seg.put(offset_of(cell, index) + off, src);
    }

    /// How many cells it has more with so many bytes more. It has at most 33,554,432 bytes with them.
    pub fn cells_to_come(&self, cell: u32, more: u32) -> usize
        requires cell { 1 ≤ cell }
        requires most { length self.now.seg.bytes + more ≤ 33554432 }
        requires fewer { length self.now.cells.items ≤ (length self.now.seg.bytes + more - 32) / cell }
        ensures { result ≡ (length self.now.seg.bytes + more - 32) / cell - length self.now.cells.items }
    {
        let cells = (self.seg.size() + more - 32) / cell;
        cells as usize - self.cells.len()
    }

    /// Puts a pair (0, 0) for each of so many cells behind the others. Its table has room for them.
    pub fn add_pairs(&mut self, count: usize)
        requires room { vec_len self.old.cells + count ≤ vec_capacity self.old.cells }
        ensures { cells_of self.new ≡ with_more_pairs count (cells_of self.old) }
    {
        push_pairs(&mut self.cells, count);
    }

    /// Takes every block out. No cell is carved then, and what lies in their bytes stays.
    pub fn clear(&mut self)
        ensures { cells_of self.new ≡ uncarved_all (cells_of self.old) }
    {
        self.carved = 0;
        self.cells.fill((0, 0));
    }
}
