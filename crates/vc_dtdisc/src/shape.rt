/// What a built-in kind takes for an object's key, how it orders keys, and what it makes of a prototype. Offsets,
/// sizes and lengths are in bytes, and offsets are counted from 0; a key that passes the object's end is cut there, and
/// one that begins behind it has no bytes. Unless told otherwise keys stand by their bytes, each behind its own fronts,
/// and an object is a copy of its prototype. A key's hash is 0, then for each byte 31 times the hash so far and one more
/// than the byte, modulo 2^64. This project's own.
#[derive(Clone, Copy, Debug, PartialEq, Eq)]
pub enum Shape {
    /// The key is the whole object.
    Whole,
    /// The key is `size` bytes from the offset on.
    Field {
        /// Where the key begins.
        off: u32,
        /// How many bytes it has.
        size: u32,
    },
    /// The key begins at the offset and ends before the first zero byte.
    Text {
        /// Where the key begins.
        off: u32,
    },
    /// The key is the whole object, and the letters A to Z stand for a to z, in the order and in the hash.
    Fold,
    /// The key is the whole object, and keys are in descending order.
    Reverse,
    /// The key is the first `n` bytes, and an object is made of these alone.
    Clip {
        /// How many bytes it has: at least 1.
        n: u32,
    },
}
