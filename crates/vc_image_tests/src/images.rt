use std::alloc::Global;
use std::test::Fail;

/// An image by how many bytes it has, at most 584, and the numbers of four bytes in it, each behind its offset. It has the
/// letters, and each other byte is 0.
#[derive(Clone, Copy)]
pub(crate) struct Image {
    pub bytes: usize,
    pub numbers: &'static [(usize, u32)],
}

/// Of no segment.
pub(crate) const NONE: Image = Image {
    bytes: 20,
    numbers: &[],
};

/// Of two free segments, number 5 of 64 bytes and number 2 of 96, in this order of lending. The lesser gap is the root, and
/// the other one stands right of it.
pub(crate) const TWO: Image = Image {
    bytes: 196,
    numbers: &[
        (8, 2),
        (12, 5_242_881),
        (20, 5),
        (24, 64),
        (28, 2),
        (32, 96),
        (52, 32),
        (72, 2_097_153),
        (116, 64),
        (140, 5_242_881),
    ],
};

/// Addresses of blocks of the segment 1: four of 33 bytes, and one of 128.
pub(crate) const X: u32 = 1_048_577;

/// The second one.
pub(crate) const Y: u32 = 1_048_579;

/// The third one.
pub(crate) const Z: u32 = 1_048_581;

/// The fourth one.
pub(crate) const W: u32 = 1_048_583;

/// That of 128 bytes.
pub(crate) const T: u32 = 1_048_585;

/// Of a segment of 448 bytes with a list of two objects, a bag of one with its table, and an ordered set of one. The second
/// object of the list and the one of the set are current.
pub(crate) const THREE: Image = Image {
    bytes: 584,
    numbers: &[
        (8, 1),
        (16, 3),
        (20, 1),
        (24, 448),
        (28, 4),
        (32, 1),
        (36, 2),
        (40, Y),
        (44, X),
        (48, Y),
        (64, 1),
        (68, 1),
        (72, 1),
        (80, Z),
        (84, Z),
        (88, T),
        (92, 16),
        (100, 2),
        (104, 1),
        (108, 1),
        (112, W),
        (132, W),
        (152, 64),
        (156, 33),
        (176, Y),
        (200, 120),
        (216, 64),
        (220, 33),
        (228, 64),
        (232, X),
        (280, 64),
        (284, 33),
        (292, 64),
        (320, 98),
        (328, 97),
        (344, 64),
        (348, 33),
        (356, 64),
        (392, 98),
        (408, 160),
        (412, 128),
        (420, 64),
        (440, Z),
    ],
};

/// The bytes of an image.
pub(crate) fn made(alloc: Global, image: Image) -> Result<Vec<u8>, Fail> {
    let mut bytes = [0u8; 584];
    bytes[..8].copy_from_slice(b"VCIMAGE1");
    for pair in image.numbers {
        if pair.0 <= 580 {
            bytes[pair.0..pair.0 + 4].copy_from_slice(&pair.1.to_le_bytes());
        }
    }
    if image.bytes > 584 {
        return Err(Fail::new("too long"));
    }
    Ok(bytes[..image.bytes].to_vec(alloc)?)
}
