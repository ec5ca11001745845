ghost use Rattle.std.specs.Prelude.{◌≡◌, ◌≢◌, ℕ, ◌≤◌, true, false};
ghost use Rattle.vc_image_check.specs.Marks.Mark.{HasMark, HasMarkIn, lists, mark_in};

use crate::marks::Marks;

// Whether a mark stands among those that a segment can have.
fn has_in(row: &Vec<u8>, mark: u8) -> bool
    requires { 1 ≤ mark }
    ensures some { result ≡ true → HasMarkIn row.now.items mark }
    ensures none { result ≡ false → ¬ HasMarkIn row.now.items mark }
{
    for k in 0..row.len() {
        if k >= 1_048_576 {
            return false;
        }
        if row[k] == mark {
            return true;
        }
    }
    false
}

impl Marks {
    /// Whether some address has that mark, which isn't 0.
    pub fn has(&self, mark: u8) -> bool
        requires { 1 ≤ mark }
        ensures some { result ≡ true → HasMark (lists self.now.rows.items) mark }
        ensures none { result ≡ false → (a : ℕ) → mark_in self.now a ≢ mark }
    {
        for n in 0..self.rows.len() {
            if has_in(&self.rows[n], mark) {
                return true;
            }
        }
        false
    }
}
