/// A place in a region: the number of a segment, and an offset in it in bytes.
#[derive(Clone, Copy, Debug, PartialEq, Eq)]
pub struct Place {
    pub seg: u32,
    pub off: u32,
}
