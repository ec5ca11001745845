ghost use Rattle.std.specs.Prelude.{◌≡◌, ℕ, ◌+◌, ◌*◌, ◌<◌, IsSome, length};
ghost use Rattle.vc_base.specs.Cells.{Blocks, HasBytes, IsAddress, body_of, bytes_at, with_number, with_body, word_at};

use crate::Addr;

/// The unlabelled blocks of a region: holders, each with four words and an object's bytes behind them, and tables of
/// words. A word is a little-endian number of 8 bytes. Of each call the block stands there, and the place lies in it;
/// none can fail, and none needs memory. This project's own.
pub trait Cells {
    /// The bytes of the unlabelled blocks, by their addresses.
    ghost blocks: { Self → Blocks };

    /// All but these blocks stayed the same.
    ghost RestStays: { Self → Self → Type 0 };

    /// Word k, from 0 to 3, of a holder.
    fn load(&self, at: Addr, k: u32) -> u64
        requires word { k < 4 }
        requires place { HasBytes (blocks self.now) at.0 (8 * k + 8) }
        ensures { result ≡ word_at (blocks self.now) at.0 k };

    /// Writes word k, from 0 to 3, of a holder.
    fn store(&mut self, at: Addr, k: u32, v: u64)
        requires word { k < 4 }
        requires place { HasBytes (blocks self.old) at.0 (8 * k + 8) }
        ensures blocks { blocks self.new ≡ with_number at.0 k v (blocks self.old) }
        ensures rest { RestStays self.old self.new };

    /// Slot k of a table, from 0: its word k.
    fn slot(&self, at: Addr, k: u32) -> u64
        requires { HasBytes (blocks self.now) at.0 (8 * k + 8) }
        ensures { result ≡ word_at (blocks self.now) at.0 k };

    /// Writes slot k of a table, from 0.
    fn set_slot(&mut self, at: Addr, k: u32, v: u64)
        requires { HasBytes (blocks self.old) at.0 (8 * k + 8) }
        ensures blocks { blocks self.new ≡ with_number at.0 k v (blocks self.old) }
        ensures rest { RestStays self.old self.new };

    /// The bytes behind a holder's words.
    fn body(&self, at: Addr) -> &[u8]
        requires { HasBytes (blocks self.now) at.0 32 }
        ensures { result.now ≡ body_of (bytes_at (blocks self.now) at.0) };

    /// Writes the bytes behind a holder's words, which are as many.
    fn set_body(&mut self, at: Addr, bytes: &[u8])
        requires place { HasBytes (blocks self.old) at.0 32 }
        requires length { length bytes.now + 32 ≡ length (bytes_at (blocks self.old) at.0) }
        ensures blocks { blocks self.new ≡ with_body at.0 bytes.now (blocks self.old) }
        ensures rest { RestStays self.old self.new };

    /// No block stands at `Addr::NONE`.
    ghost addresses: { (cells : Self) (at : ℕ) → IsSome (blocks cells at) → IsAddress at };

    /// The rest stays where nothing is done, and over two calls where it stays over each.
    ghost reflexive: { (cells : Self) → RestStays cells cells };

    ghost transitive: { (a b c : Self) → RestStays a b → RestStays b c → RestStays a c };
}
