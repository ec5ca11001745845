ghost use Rattle.std.specs.Prelude.{◌≡◌, ◌+◌, ◌≤◌, length};
ghost use Rattle.vc_seg.specs.Field.{field_at};
ghost use Rattle.vc_seg.specs.Frame.{StaysOutside};

use crate::Segment;

impl Segment {
    /// The number in the four bytes from a place on, the lowest first. They lie in the segment.
    #[inline(always)]
    pub fn field(&self, at: u32) -> u32
        requires { at + 4 ≤ length self.now.bytes }
        ensures { result ≡ field_at at self.now.bytes }
    {
        let bytes = self.bytes(at, 4);
        u32::from_le_bytes([bytes[0], bytes[1], bytes[2], bytes[3]])
    }

    /// Writes a number into the four bytes from a place on, the lowest first. They lie in the segment.
    #[inline(always)]
    pub fn set_field(&mut self, at: u32, v: u32)
        requires { at + 4 ≤ length self.old.bytes }
        ensures value { field_at at self.new.bytes ≡ v }
        ensures rest { StaysOutside at (at + 4) self.old self.new }
    {
        self.put(at, &v.to_le_bytes());
    }
}
