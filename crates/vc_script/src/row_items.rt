ghost use Rattle.std.specs.Prelude.{◌≡◌};

use std::marker::Model;
use vc_seg::ProfileRow;

/// Rows of a profile region, in order of the first block of each site.
#[derive(Debug, Drop)]
pub struct RowItems {
    items: Vec<ProfileRow>,
}

impl Model for RowItems {
    ghost use Rattle.std.specs.Prelude.{List};
    ghost use Rattle.vc_seg.specs.declared.profile_row.ProfileRow.{ProfileRow};

    ghost Value = { List ProfileRow };

    ghost view = { λ list. list.items.items };
}

impl RowItems {
    /// These items. Takes no memory.
    pub fn from_vec(items: Vec<ProfileRow>) -> RowItems
        ensures { result ≡ items.items }
    {
        RowItems { items }
    }

    /// The items, in order. Takes no memory.
    pub fn as_slice(&self) -> &[ProfileRow]
        ensures { result.now ≡ self.now }
    {
        self.items.as_slice()
    }
}
