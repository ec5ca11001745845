ghost use Rattle.std.specs.Prelude.{◌≡◌};

use std::marker::Model;

/// Segments by number: the number of each, and its size in bytes.
#[derive(Debug, Drop)]
pub struct SegmentItems {
    items: Vec<(u32, u32)>,
}

impl Model for SegmentItems {
    ghost use Rattle.std.specs.Prelude.{ℕ, List};

    ghost Value = { List (ℕ × ℕ) };

    ghost view = { λ list. list.items.items };
}

impl SegmentItems {
    /// These items. Takes no memory.
    pub fn from_vec(items: Vec<(u32, u32)>) -> SegmentItems
        ensures { result ≡ items.items }
    {
        SegmentItems { items }
    }

    /// The items, in order. Takes no memory.
    pub fn as_slice(&self) -> &[(u32, u32)]
        ensures { result.now ≡ self.now }
    {
        self.items.as_slice()
    }
}
