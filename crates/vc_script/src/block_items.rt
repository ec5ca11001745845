ghost use Rattle.std.specs.Prelude.{◌≡◌};

use crate::Place;
use std::marker::Model;
use vc_base::Name;

/// Blocks by address: the name of each, where it has one, its place, and its size in bytes.
#[derive(Debug, Drop)]
pub struct BlockItems {
    items: Vec<(Option<Name>, Place, u32)>,
}

impl Model for BlockItems {
    ghost use Rattle.std.specs.Prelude.{ℕ, List, Option};
    ghost use Rattle.vc_script.specs.declared.place.Place.{Place};

    ghost Value = { List (Option (List ℕ) × Place × ℕ) };

    ghost view = { λ list. list.items.items };
}

impl BlockItems {
    /// These items. Takes no memory.
    pub fn from_vec(items: Vec<(Option<Name>, Place, u32)>) -> BlockItems
        ensures { result ≡ items.items }
    {
        BlockItems { items }
    }

    /// The items, in order. Takes no memory.
    pub fn as_slice(&self) -> &[(Option<Name>, Place, u32)]
        ensures { result.now ≡ self.now }
    {
        self.items.as_slice()
    }
}
