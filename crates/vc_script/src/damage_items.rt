ghost use Rattle.std.specs.Prelude.{◌≡◌};

use std::marker::Model;
use vc_base::Name;

/// Damaged blocks by address: the name of each, and the offset of its first damaged byte, which may stand before it.
#[derive(Debug, Drop)]
pub struct DamageItems {
    items: Vec<(Name, i64)>,
}

impl Model for DamageItems {
    ghost use Rattle.std.specs.Prelude.{ℕ, ℤ, List};

    ghost Value = { List (List ℕ × ℤ) };

    ghost view = { λ list. list.items.items };
}

impl DamageItems {
    /// These items. Takes no memory.
    pub fn from_vec(items: Vec<(Name, i64)>) -> DamageItems
        ensures { result ≡ items.items }
    {
        DamageItems { items }
    }

    /// The items, in order. Takes no memory.
    pub fn as_slice(&self) -> &[(Name, i64)]
        ensures { result.now ≡ self.now }
    {
        self.items.as_slice()
    }
}
