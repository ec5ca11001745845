ghost use Rattle.std.specs.Prelude.{◌≡◌, ℕ, ◌+◌, ◌*◌, ◌<◌, length};
ghost use Rattle.vc_base.specs.Prelude.{HasBytes, word_at};
ghost use Rattle.vc_base.specs.Cells.{body_of, bytes_at, with_number, with_body};
ghost use Rattle.vc_best.specs.Cells.{StaysButCells, cells_in};
ghost use Rattle.vc_best.specs.CellLaws.{cells-addresses, stays-after, stays-same};

use crate::best::Best;
use vc_base::{Addr, Cells};

// Word k of the unlabelled block at that address.
fn word_in(best: &Best, at: Addr, k: u32) -> u64
    requires { HasBytes (cells_in best.now) at.0 (8 * k + 8) }
    ensures { result ≡ word_at (cells_in best.now) at.0 k }
{
    let mut word = [0u8; 8];
    word.copy_from_slice(best.read(at, 8 * k, 8));
    u64::from_le_bytes(word)
}

// Writes word k of the unlabelled block at that address.
fn set_word(best: &mut Best, at: Addr, k: u32, v: u64)
    requires { HasBytes (cells_in best.old) at.0 (8 * k + 8) }
    ensures blocks { cells_in best.new ≡ with_number at.0 k v (cells_in best.old) }
    ensures rest { StaysButCells best.old best.new }
{
    best.write(at, 8 * k, &v.to_le_bytes());
}

/// The unlabelled blocks of a best region, those of tag 0, as holders and tables.
impl Cells for Best {
    ghost blocks = { λ best. cells_in best };

    ghost RestStays = { λ a b. StaysButCells a b };

    fn load(&self, at: Addr, k: u32) -> u64 {
        word_in(self, at, k)
    }

    fn store(&mut self, at: Addr, k: u32, v: u64)
        requires word { k < 4 }
        requires place { HasBytes (cells_in self.old) at.0 (8 * k + 8) }
        ensures blocks { cells_in self.new ≡ with_number at.0 k v (cells_in self.old) }
        ensures rest { StaysButCells self.old self.new }
    {
        set_word(self, at, k, v);
    }

    fn slot(&self, at: Addr, k: u32) -> u64 {
        word_in(self, at, k)
    }

    fn set_slot(&mut self, at: Addr, k: u32, v: u64)
        requires { HasBytes (cells_in self.old) at.0 (8 * k + 8) }
        ensures blocks { cells_in self.new ≡ with_number at.0 k v (cells_in self.old) }
        ensures rest { StaysButCells self.old self.new }
    {
        set_word(self, at, k, v);
    }

    fn body(&self, at: Addr) -> &[u8] {
        self.read(at, 32, self.size(at) - 32)
    }

    fn set_body(&mut self, at: Addr, bytes: &[u8])
        requires place { HasBytes (cells_in self.old) at.0 32 }
        requires length { length bytes.now + 32 ≡ length (bytes_at (cells_in self.old) at.0) }
        ensures blocks { cells_in self.new ≡ with_body at.0 bytes.now (cells_in self.old) }
        ensures rest { StaysButCells self.old self.new }
    {
        self.write(at, 32, bytes);
    }

    ghost addresses = { λ best a. cells-addresses best a };

    ghost reflexive = { λ best. stays-same best };

    ghost transitive = { λ a b c p q. stays-after a b c p q };
}
