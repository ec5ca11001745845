ghost use Rattle.std.specs.Prelude.{◌≡◌, ◌↔◌, ℕ, List, IsTrue, true, if◌then◌else◌};
ghost use Rattle.vc_base.specs.Holders.{AreDistinct, contains};
ghost use Rattle.vc_image_check.specs.Blocks.Blocks.{AreBlockMarks};
ghost use Rattle.vc_image_check.specs.Marks.Mark.{mark_in};

use crate::blocks::take_block;
use crate::marks::Marks;

// Takes these blocks for a dictionary, where each is one that none has. Whether each was.
pub(crate) fn take_blocks(marks: &mut Marks, blocks: &[u32]) -> bool
    requires { AreDistinct blocks.now }
    ensures taken { IsTrue result ↔ ((a : ℕ) → contains blocks.now a ≡ true
        → mark_in marks.old a ≡ 3) }
    ensures marks { IsTrue result → (a : ℕ) → mark_in marks.new a
        ≡ (if contains blocks.now a then 4 else mark_in marks.old a) }
    ensures places { marks.new.places.items ≡ marks.old.places.items }
    ensures known { (image : List ℕ) → AreBlockMarks image marks.old → AreBlockMarks image marks.new }
{
    for block in blocks {
        if !take_block(marks, *block) {
            return false;
        }
    }
    true
}
