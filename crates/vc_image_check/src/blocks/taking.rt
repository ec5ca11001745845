ghost use Rattle.std.specs.Prelude.{◌≡◌, ◌↔◌, ℕ, List, IsTrue, ◌==◌, ◌&&◌, if◌then◌else◌};
ghost use Rattle.vc_image_check.specs.Blocks.Blocks.{AreBlockMarks};
ghost use Rattle.vc_image_check.specs.Marks.Mark.{ChangesMarks, mark_in};

use crate::marks::Marks;

/// Takes an unlabelled block for a dictionary, where it is one that none has: its mark 3 becomes 4. Whether it was. The marks still
/// tell an image's blocks. This project's own.
pub fn take_block(marks: &mut Marks, a: u32) -> bool
    ensures taken { IsTrue result ↔ (mark_in marks.old a ≡ 3) }
    ensures changed { ChangesMarks marks.old marks.new (λ b. if result && (b == a) then 4 else mark_in marks.old b) }
    ensures blocks { (image : List ℕ) → AreBlockMarks image marks.old → AreBlockMarks image marks.new }
{
    if marks.get(a) != 3 {
        return false;
    }
    marks.set(a, 4);
    true
}
