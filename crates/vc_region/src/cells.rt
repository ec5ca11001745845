ghost use Rattle.std.specs.Prelude.{◌≡◌, ℕ, ◌+◌, ◌*◌, ◌<◌, length};
ghost use Rattle.vc_base.specs.Prelude.{HasBytes};
ghost use Rattle.vc_base.specs.Cells.{bytes_at, with_number, with_body};
ghost use Rattle.vc_region.specs.Cells.{StaysButCells, cells_in};
ghost use Rattle.vc_region.specs.CellLaws.{cells-addresses, stays-after, stays-same};

use crate::region::Region;
use vc_base::{Addr, Cells};

/// Those of a best region, as `Best` has them. A region of another method has none.
impl Cells for Region {
    ghost blocks = { λ r. cells_in r };

    ghost RestStays = { λ a b. StaysButCells a b };

    fn load(&self, at: Addr, k: u32) -> u64 {
        match self {
            Region::Best(best) => best.load(at, k),
            _ => unreachable!(),
        }
    }

    fn store(&mut self, at: Addr, k: u32, v: u64)
        requires word { k < 4 }
        requires place { HasBytes (cells_in self.old) at.0 (8 * k + 8) }
        ensures blocks { cells_in self.new ≡ with_number at.0 k v (cells_in self.old) }
        ensures rest { StaysButCells self.old self.new }
    {
        match self {
            Region::Best(best) => best.store(at, k, v),
            _ => unreachable!(),
        }
    }

    fn slot(&self, at: Addr, k: u32) -> u64 {
        match self {
            Region::Best(best) => best.slot(at, k),
            _ => unreachable!(),
        }
    }

    fn set_slot(&mut self, at: Addr, k: u32, v: u64)
        requires { HasBytes (cells_in self.old) at.0 (8 * k + 8) }
        ensures blocks { cells_in self.new ≡ with_number at.0 k v (cells_in self.old) }
        ensures rest { StaysButCells self.old self.new }
    {
        match self {
            Region::Best(best) => best.set_slot(at, k, v),
            _ => unreachable!(),
        }
    }

    fn body(&self, at: Addr) -> &[u8] {
        match self {
            Region::Best(best) => best.body(at),
            _ => unreachable!(),
        }
    }

    fn set_body(&mut self, at: Addr, bytes: &[u8])
        requires place { HasBytes (cells_in self.old) at.0 32 }
        requires length { length bytes.now + 32 ≡ length (bytes_at (cells_in self.old) at.0) }
        ensures blocks { cells_in self.new ≡ with_body at.0 bytes.now (cells_in self.old) }
        ensures rest { StaysButCells self.old self.new }
    {
        match self {
            Region::Best(best) => best.set_body(at, bytes),
            _ => unreachable!(),
        }
    }

    ghost addresses = { λ r a. cells-addresses r a };

    ghost reflexive = { λ r. stays-same r };

    ghost transitive = { λ a b c p q. stays-after a b c p q };
}
