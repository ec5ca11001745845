ghost use Rattle.std.specs.Prelude.{◌≡◌, ℕ, ◌+◌, ◌*◌, ◌<◌, length, slice_index};
ghost use Rattle.vc_base.specs.Cells.{Blocks, HasBytes, IsHolder, bytes_at, word_at};
ghost use Rattle.vc_dtdisc.specs.Finds.{object_at};

/// Unlabelled blocks, of which any address can be asked. This project's own.
pub trait Holders {
    /// The blocks, by their addresses.
    ghost blocks: { Self → Blocks };

    /// How many bytes the block at an address has, 0 where there is none.
    fn size(&self, a: u32) -> u32
        ensures { result ≡ length (bytes_at (blocks self.now) a) };

    /// Word `k` of a block, 8 bytes from `8 * k` on. Condition: it has them.
    fn word(&self, a: u32, k: u32) -> u64
        requires { HasBytes (blocks self.now) a (8 * k + 8) }
        ensures { result ≡ word_at (blocks self.now) a k };

    /// The object of a holder, all behind its four words.
    fn object(&self, a: u32) -> &[u8]
        requires { IsHolder (blocks self.now) a }
        ensures { result.now ≡ object_at (blocks self.now) a };

    /// Each byte is one.
    ghost small: { (holders : Self) (a i : ℕ) → slice_index (bytes_at (blocks holders) a) i < 256 };
}
