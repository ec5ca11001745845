/// A word that spells bytes.
#[derive(Clone, Copy)]
pub(crate) enum Spelled<'a> {
    /// Each byte for itself.
    Plain(&'a [u8]),
    /// So many bytes by `%` and two hexadecimal digits, and each other byte for itself.
    Escaped(&'a [u8], usize),
}
