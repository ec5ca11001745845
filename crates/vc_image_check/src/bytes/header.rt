ghost use Rattle.std.specs.Prelude.{◌≡◌, ◌↔◌, ℕ, ◌+◌, ◌*◌, ◌<◌, ◌≤◌, Bool, IfSome, IfNone, IsTrue, drop, length, take};
ghost use Rattle.vc_seg.specs.Budget.{bytes_of};
ghost use Rattle.vc_seg.specs.Field.{field_at};
ghost use Rattle.vc_seg.specs.Numbered.{AreNumbered, IsRegionPair};
ghost use Rattle.vc_image_check.specs.Bytes.Contents.{items_at, segment_pair_at};
ghost use Rattle.vc_image_check.specs.Bytes.Header.{IsHeader};
ghost use Rattle.vc_image_check.specs.Bytes.Image.{magic};

/// The number in the four bytes from a place on, the lowest first. They lie in the image.
pub fn word(image: &[u8], at: usize) -> u32
    requires { at + 4 ≤ length image.now }
    ensures { result ≡ field_at at image.now }
{
    let bytes = &image[at..at + 4];
    u32::from_le_bytes([bytes[0], bytes[1], bytes[2], bytes[3]])
}

/// So many bytes from a place on. They lie in the image.
pub fn part(image: &[u8], at: usize, size: usize) -> &[u8]
    requires { at + size ≤ length image.now }
    ensures { result.now ≡ take size (drop at image.now) }
{
    &image[at..at + size]
}

// Whether the eight letters stand at the front.
fn has_letters(image: &[u8]) -> bool
    requires { 8 ≤ length image.now }
    ensures { IsTrue result ↔ (take 8 image.now ≡ magic) }
{
    &image[..8] == b"VCIMAGE1".as_slice()
}

// Whether a segment of a region can have that number and that size.
fn is_pair(number: u32, size: u32) -> bool
    ensures { IsTrue result ↔ IsRegionPair (number, size) }
{
    number >= 1 && number <= 1023 && size >= 64 && size <= 33_554_432 && size % 32 == 0
}

// The bytes of so many segments together, where each has a legal number and size and no two have one number.
fn all_bytes(image: &[u8], count: usize) -> Option<u64>
    requires within { 20 + 8 * count ≤ length image.now }
    requires few { count ≤ 1023 }
    ensures some { IfSome result (λ n. AreNumbered (items_at segment_pair_at 8 count 20 image.now)
        × (n ≡ bytes_of (items_at segment_pair_at 8 count 20 image.now))) }
    ensures most { IfSome result (λ n. n ≤ 33554432 * count) }
    ensures none { IfNone result (¬ AreNumbered (items_at segment_pair_at 8 count 20 image.now)) }
{
    let mut marks = [false; 1024];
    let mut total = 0u64;
    for i in 0..count {
        let number = word(image, 20 + 8 * i);
        let size = word(image, 24 + 8 * i);
        if !is_pair(number, size) {
            return None;
        }
        if marks[number as usize] {
            return None;
        }
        marks[number as usize] = true;
        total += size as u64;
    }
    Some(total)
}

/// Whether bytes have the head of an image: eight letters, at most 1,023 segments, each of another number from 1 to 1,023
/// and of a multiple of 32 from 64 to 33,554,432 bytes, at most 256 dictionaries, and as many bytes as these take. Whatever
/// the bytes are, nothing is read behind them, and no memory is taken. This project's own.
pub fn is_header(image: &[u8]) -> bool
    ensures { IsTrue result ↔ IsHeader image.now }
{
    if image.len() < 20 || !has_letters(image) {
        return false;
    }
    let segments = word(image, 8);
    if segments > 1023 {
        return false;
    }
    let dicts = word(image, 16);
    if dicts > 256 {
        return false;
    }
    let body = 20 + 8 * segments as usize + 36 * dicts as usize;
    if image.len() < body {
        return false;
    }
    match all_bytes(image, segments as usize) {
        Some(total) => image.len() as u64 == body as u64 + total,
        None => false,
    }
}
