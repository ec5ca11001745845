ghost use Rattle.std.specs.Prelude.{◌≡◌, ◌+◌, ◌%◌, ◌≤◌, length, take, drop};
ghost use Rattle.std.specs.Int.{from_le_bytes, to_le_bytes, w64};
ghost use Rattle.vc_base.specs.Prelude.{with_bytes};

use crate::Segment;

impl Segment {
    /// The word at a place, 8 bytes with the lowest first. The place is a multiple of 8, and the word lies in the
    /// segment.
    pub fn load(&self, at: u32) -> u64
        requires within { at + 8 ≤ length self.now.bytes }
        requires multiple { at % 8 ≡ 0 }
        ensures { result ≡ from_le_bytes w64 (take 8 (drop at self.now.bytes)) }
    {
        let word = self.bytes(at, 8);
        u64::from_le_bytes([
            word[0], word[1], word[2], word[3], word[4], word[5], word[6], word[7],
        ])
    }

    /// Writes a word at a place, 8 bytes with the lowest first. The place is a multiple of 8, and the word lies in the
    /// segment.
    pub fn store(&mut self, at: u32, v: u64)
        requires within { at + 8 ≤ length self.old.bytes }
        requires multiple { at % 8 ≡ 0 }
        ensures bytes { self.new.bytes ≡ with_bytes at (to_le_bytes w64 v) self.old.bytes }
        ensures number { self.new.number ≡ self.old.number }
    {
        let from = at as usize;
        write_word(
            &mut self.block.all_mut(self.at, self.room as usize)[from..from + 8],
            v,
        );
    }
}

// Writes a word into eight bytes, with the lowest first.
fn write_word(bytes: &mut [u8], v: u64)
    requires { length bytes.old ≡ 8 }
    ensures { bytes.new ≡ to_le_bytes w64 v }
{
    if let Some(word) = bytes.first_chunk_mut::<8>() {
        *word = v.to_le_bytes();
    }
}
