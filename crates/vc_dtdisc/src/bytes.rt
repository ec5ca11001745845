ghost use Rattle.std.specs.Prelude.{◌≡◌, ℕ, ◌+◌, ◌*◌, ◌%◌, ◌^◌, map, take, drop};
ghost use Rattle.vc_dtdisc.specs.Shapes.{lower_case, by_bytes, hash_of, before_zero};

use std::cmp::Ordering;

// At most that many bytes from the front.
pub(crate) fn front(bytes: &[u8], n: u32) -> &[u8]
    ensures { result.now ≡ take n bytes.now }
{
    &bytes[..(n as usize).min(bytes.len())]
}

// The bytes from that offset on, or none past the end.
pub(crate) fn rest(bytes: &[u8], off: u32) -> &[u8]
    ensures { result.now ≡ drop off bytes.now }
{
    &bytes[(off as usize).min(bytes.len())..]
}

// The bytes before the first zero byte.
pub(crate) fn text(bytes: &[u8]) -> &[u8]
    ensures { result.now ≡ before_zero bytes.now }
{
    for (i, byte) in bytes.iter().enumerate() {
        if *byte == 0 {
            return &bytes[..i];
        }
    }
    bytes
}

// A letter A to Z as a to z, and any other byte as it is.
pub(crate) fn fold_byte(byte: u8) -> u8
    ensures { result ≡ lower_case byte }
{
    if byte >= 65 && byte <= 90 {
        byte + 32
    } else {
        byte
    }
}

// How two keys stand to each other with A to Z as a to z.
pub(crate) fn compare_folded(a: &[u8], b: &[u8]) -> Ordering
    ensures { result ≡ by_bytes (map lower_case a.now) (map lower_case b.now) }
{
    let n = a.len().min(b.len());
    for i in 0..n {
        let order = fold_byte(a[i]).cmp(&fold_byte(b[i]));
        if order.is_ne() {
            return order;
        }
    }
    a.len().cmp(&b.len())
}

// The hash so far with one more byte.
pub(crate) fn hash_byte(hash: u64, byte: u8) -> u64
    ensures { result ≡ (31 * hash + byte + 1) % 2 ^ 64 }
{
    hash.wrapping_mul(31).wrapping_add(byte as u64 + 1)
}

// The hash of a key.
pub(crate) fn hash_bytes(key: &[u8]) -> u64
    ensures { result ≡ hash_of key.now }
{
    let mut hash = 0;
    for byte in key {
        hash = hash_byte(hash, *byte);
    }
    hash
}

// The hash of a key with A to Z as a to z.
pub(crate) fn hash_folded(key: &[u8]) -> u64
    ensures { result ≡ hash_of (map lower_case key.now) }
{
    let mut hash = 0;
    for byte in key {
        hash = hash_byte(hash, fold_byte(*byte));
    }
    hash
}
